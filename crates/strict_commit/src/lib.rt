//! What one job has read from outside and written, and its commit: the staleness rule, the relative rule, and the install
//! of its writes with their stamps. The data model (value, timestamp, absolute and relative validity interval) is
//! Ramamritham's (1993).
#![tactic(auto)]

mod verdict;
mod work;

pub use verdict::{ApartRead, CommitRefused, StaleRead};
pub use work::Work;
