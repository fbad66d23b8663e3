//! Laws of texts: scenarios are read back, and the generated ones are admitted; the report of each run is said to be legal, and
//! how long its lines are; and what the marks of a picture show of a history.
#![tactic(auto)]

mod commands;
mod generated_sets;
mod pictures;
mod read_back;
mod sizes;
mod verdicts;

pub use commands::replay_of_a_run_is_legal;
pub use generated_sets::generated_admitted;
pub use pictures::{
    drawn_ceilings_are_held, drawn_jobs_are_pending, drawn_locks_are_held, drawn_waits_go_on,
    each_tick_has_an_entry, marks_show_each, rows_tell_ends,
};
pub use read_back::{data_read_back, integers_are_of_64_bits, read_is_scenario, texts_read_back};
pub use sizes::{
    entry_lines_are_short, job_lines_are_short, run_is_read_whole, run_lines_are_short,
};
pub use verdicts::{read_report_is_legal, run_report_is_legal};
