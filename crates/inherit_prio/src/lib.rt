//! Who waits on whom, and the priority that a job has or inherits.
#![tactic(auto)]

mod order;
mod ranking;
mod waits;

pub use ranking::Ranking;
pub use waits::Waits;
