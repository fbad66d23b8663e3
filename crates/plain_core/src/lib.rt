//! A board over plain lists: the definitions, computed. It scans where another engine looks up, and is the yardstick of
//! such an engine. All memory is reserved when it is made.
#![tactic(auto)]

mod arrive;
mod asks;
mod board_impl;
mod checks;
mod install;
mod locks;
mod openings;
mod plain;
mod plans;
mod running;
mod slot;
mod tables;
mod tally;
mod verdict;
mod work;

pub use arrive::{deadline_of, is_due, next_tick, prio_of};
pub use install::outcome;
pub use plain::PlainCore;
pub use slot::{Head, Slot};
pub use tables::{Tables, job_at, plans_at, tally_at};
pub use tally::Tally;
pub use verdict::end_of_step;
pub use work::Work;
