//! Workers that run the bodies of transactions on a plant, each in a thread of its own.
#![tactic(auto)]

mod drain;
mod gate;
mod member;
mod places;
mod round;
mod run;
mod task;
mod tries;

pub use drain::Drain;
pub use gate::{Gate, NoGate};
pub use member::{Member, RunStop, Worker};
pub use run::run_all;
