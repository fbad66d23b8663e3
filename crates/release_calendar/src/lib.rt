//! The calendar of releases: how many jobs of each transaction were planned, and which releases are still to come.
#![tactic(auto)]

mod calendar;
mod heads;
mod planned;
mod queues;

pub use calendar::Calendar;
