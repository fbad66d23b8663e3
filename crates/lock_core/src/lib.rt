//! The core: a board over tables. Each call is the step of the history that the core stands for, and is answered by
//! look-ups where a plain board scans.
#![tactic(auto)]

mod board_impl;
mod calls;
mod core_board;
mod table_calls;

pub use core_board::{Core, TrialCore};
