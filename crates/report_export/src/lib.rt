//! A legal report for others: its lines as JSON, its jobs as a table, and what the run came to, which is how the jobs of each
//! transaction ended, and the worst response, delay and age, each beside its bound.
#![tactic(auto)]

mod ages;
mod declared;
mod digits;
mod entries;
mod jobs;
mod limits;
mod parts;
mod summing;
mod tally;
mod text;
mod whole;
mod worst_law;

pub use summing::summary;
pub use whole::{json, table};
pub use worst_law::worst_is_within_bounds;
