//! Entries replayed: whether they are a legal history, the items of their ended jobs run alone, and a row for each job
//! with its end and its delay; and the delay of one job, from the entries alone.
#![tactic(auto)]

mod again;
mod one_job;
mod serial;

pub use job_rows::{Delay, JobRow};
pub use one_job::delay;
pub use serial::{ReplayError, SerialResult, last_items, replay};
