//! Histories that are replayed.
ghost use Rattle.std.specs.Prelude.{◌≡◌};
ghost use Rattle.step_journal.specs.History.{IsLegal};
ghost use Rattle.job_rows.specs.Rows.{job_rows};

use item_model::Stored;
use serial_replay::{Delay, JobRow, ReplayError, delay, replay};
use std::alloc::Global;
use step_journal::Entry;
use txn_set::CompiledSet;

// Whether the entries alone tell the delay of each row.
fn are_told(set: &CompiledSet, entries: &[Entry], rows: &[JobRow]) -> bool
    requires legal { IsLegal set.now entries.now }
    requires rows { rows.now ≡ job_rows set.now entries.now }
{
    set.is_compiled();
    for row in rows {
        let told = Delay {
            by: row.delayed_by,
            ticks: row.delay,
        };
        if delay(set, entries, row.job) != told {
            return false;
        }
    }
    true
}

// Writes the items and the rows of the jobs, and whether the entries alone tell the delays.
fn write_rows(told: bool, items: &[Stored], rows: &[JobRow], said: &mut String) -> Option<()> {
    write!(said, "delays told {told}, {items:?}").ok()?;
    for row in rows {
        write!(said, "\n    {row:?}").ok()?;
    }
    Some(())
}

/// Writes the items and the rows of the jobs of a history, or why it is none.
pub fn write_replayed(
    alloc: Global,
    set: &CompiledSet,
    entries: &[Entry],
    said: &mut String,
) -> Option<()> {
    match replay(alloc, set, entries) {
        Ok(result) => {
            let told = are_told(set, entries, result.jobs.as_slice());
            let written = write_rows(told, result.items.as_slice(), result.jobs.as_slice(), said);
            drop(result);
            written
        }
        Err(error) => write!(said, "{error:?}").ok(),
    }
}
