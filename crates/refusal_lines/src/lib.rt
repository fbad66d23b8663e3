//! Rates and margins as text, and refusals as they are written: the cause of a refused scenario or set, in words, names and
//! numbers. A caller puts the line's first word before it and the line end after it.
#![tactic(auto)]

mod causes;
mod margin;
mod places;
mod rates;
mod words;

pub use causes::{member_of, put_admit_cause, put_compile_cause, put_scenario_cause};
pub use margin::margin_text;
pub use places::put_place;
pub use rates::{put_rate_cause, rates_text};
pub use words::{put_item, put_number, put_of_item, put_of_txn, put_txn};
