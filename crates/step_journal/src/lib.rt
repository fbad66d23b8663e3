//! Entries, the journal, and the definitions of legal histories: state, lock rule, running job, arrival, step, legal
//! history, ended jobs, alone, serial, wait cycle, delay, fresh, together and steady.
#![tactic(auto)]

ghost use Rattle.std.specs.Prelude.{◌≡◌};

mod entry;
mod journal;

pub use entry::{EndedJob, Entry};
pub use journal::Journal;
