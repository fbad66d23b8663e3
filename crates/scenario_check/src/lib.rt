//! All that is amiss in a scenario's text, with line and column, and what is amiss in a scenario that may run.
#![tactic(auto)]

mod cursor;
mod faults;
mod found;
mod judge;
mod kinds;
mod lines;
mod listed;
mod listing;
mod place_of;
mod scripts;
mod top;
mod uses;
mod warning_words;

pub use found::{Finding, Refusal, What};
pub use kinds::Warning;
pub use listing::warnings;
pub use top::check;
