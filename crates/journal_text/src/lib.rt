//! Entries as lines, written and read; names and jobs as fields, and fields written.
#![tactic(auto)]

mod entry_laws;
mod entry_writing;
mod field_laws;
mod ids;
mod next_step;
mod numeral;
mod numerals;
mod reading;
mod writing;

pub use entry_laws::{lines_both_ways, one_entry_a_line};
pub use entry_writing::{put_end, write_entries, write_entry};
pub use field_laws::{named_both_ways, numbers_both_ways};
pub use ids::{item, job, next_item, next_job, next_tx, tx};
pub use next_step::NextStep;
pub use numeral::Numeral;
pub use numerals::Numerals;
pub use reading::{next_end, read_entry};
pub use writing::{put, put_field, put_job, put_name, put_short, put_signed, put_unsigned};
