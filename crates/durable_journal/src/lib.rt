//! Entries on a disk, with which a run that is started again is compared.
#![tactic(auto)]

ghost use Rattle.durable_journal.specs.Laws.{OpenedAgain};

mod format;
mod log;
mod place;
mod scan;

pub use log::{Log, LogError};

/// With room enough, an image that a crash leaves is opened as the entries that it leaves, and is not refused.
pub fn opened_again()
    ensures { OpenedAgain }
{}
