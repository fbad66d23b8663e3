//! Laws of every legal history of every compiled set, and of the run of a workload. They are about the definitions alone. And
//! worked histories: sets that compile, the definitions computed on them, and near variants that are not legal.
#![tactic(auto)]

mod entry_counts;
mod fresh_commits;
mod protocol;
mod sim;
mod worked;

pub use entry_counts::counting;
pub use fresh_commits::{fresh_together, reads_are_last};
pub use protocol::{
    conflict_law, ended_jobs_hold_nothing, no_cycle_one_refusal, one_delay, pending_replies,
    serial_replies,
};
pub use sim::one_run_at_most;
pub use worked::{
    back_to_back_holds, base_holds, bystander_holds, derived_stamp_holds, late_holds,
    overrun_holds, quiet_holds, shared_readers_holds, stale_holds, together_holds,
};
