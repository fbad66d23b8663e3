//! Runs of scenarios with their report, which goes to a sink while the run goes on, of generated ones with a summary, and over
//! a journal on a disk.
#![tactic(auto)]

mod begun;
mod beside;
mod closing;
mod compared;
mod equip;
mod history;
mod journal_out;
mod journaled;
mod lines;
mod loading;
mod making;
mod opening;
mod out;
mod over;
mod plan;
mod refusals;
mod report;
mod report_laws;
mod run;
mod runner;
mod standing;
mod ticks;
mod worked;
mod worked_lines;
mod written;

pub use closing::write_closing;
pub use compared::first_other;
pub use journal_out::{JournalOut, Journaled};
pub use journaled::run_journal;
pub use loading::load;
pub use making::{BOARD_ROOM, Bodies, prepared};
pub use out::{ReportOut, Reported};
pub use report::Report;
pub use report_laws::{after_cut, after_full, has_front};
pub use run::{RunMode, run_scenario};
pub use standing::{JournalStanding, ReportStanding};
pub use worked::keep_run;
pub use written::write_run;
