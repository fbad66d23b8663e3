//! A turn for which threads try, without a lock, round one value that stands for a list of notes. One legal list holds
//! each note once, and each thread's seat knows which of them are its own.
#![tactic(auto)]

mod cell;
mod plays;
mod sends;
mod steps;
mod storied;
mod view;

pub use cell::{HasSeat, Taken, TurnCell, TurnSeat};
pub use storied::{Past, Storied};
