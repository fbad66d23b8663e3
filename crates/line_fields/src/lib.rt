//! A line cut into fields, each after one blank, and the numbers in them, read.
#![tactic(auto)]

mod cuts;
mod numbers;

pub use cuts::{cut, cut_word, done, field, is_word, next_word, word};
pub use numbers::{at_front, next_short, next_signed, next_unsigned, short, signed, unsigned};
