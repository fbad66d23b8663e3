//! The state of a lock core as tables: the pending jobs, with their heads and work, the locks that they hold, who waits on
//! whom, the ranks of those that are pending, the least of their deadlines, and the job that runs; the calendar of releases, the
//! items, the tallies of ended jobs, and the present tick. Each call is one part of the step of a legal history's state (the
//! read/write priority ceiling protocol, Sha, Rajkumar, Son, Chang 1991, with deadlines, releases and commits), at the cost of
//! the rows that it touches: no call goes over all transactions or all planned releases, and only `new` takes memory.
#![tactic(auto)]

mod arrive;
mod asks;
mod effects;
mod head;
mod openings;
mod pending;
mod pending_openings;
mod ranks;
mod tables;
mod tally;

pub use head::{Blocker, Head};
pub use pending::Pending;
pub use tables::CoreTables;
pub use tally::Tally;
