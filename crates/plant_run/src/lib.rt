//! The run of a workload by workers, each in a thread of its own, on a plant that they share.
#![tactic(auto)]

mod alone;
mod deal;
mod gather;
mod laws;
mod run;
mod watched;
mod whole;
mod work;

pub use laws::fixed_runs;
pub use run::Run;
pub use whole::run_workers;
