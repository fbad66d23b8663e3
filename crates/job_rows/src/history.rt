//! The rows of a whole history.
ghost use Rattle.std.specs.Prelude.{◌≡◌, ◌≤◌, IfOk};
ghost use Rattle.step_journal.specs.History.{IsLegal};
ghost use Rattle.job_rows.specs.Rows.{job_rows};
ghost use Rattle.job_rows.specs.Upkeep.{planned_jobs};

use crate::row::JobRow;
use crate::upkeep::JobRows;
use rt_base::{List, OutOfMemory};
use std::alloc::Global;
use step_journal::Entry;
use txn_set::CompiledSet;

/// How many jobs the entries plan.
pub fn planned(entries: &[Entry]) -> usize
    ensures { result ≡ planned_jobs entries.now }
{
    let mut count = 0;
    for entry in entries {
        if let Entry::Planned { .. } = *entry {
            count += 1;
        }
    }
    count
}

/// The rows of the jobs of a legal history that plans at most so many: the ended ones in order of ending, and then the pending
/// ones in falling priority. It goes over the entries once.
pub fn rows_of_jobs(
    alloc: Global,
    set: &CompiledSet,
    entries: &[Entry],
    jobs: usize,
) -> Result<List<JobRow>, OutOfMemory>
    requires legal { IsLegal set.now entries.now }
    requires jobs { planned_jobs entries.now ≤ jobs }
    ensures { IfOk result (λ rows. rows ≡ job_rows set.now entries.now) }
{
    let mut rows = JobRows::with_room(alloc, set, jobs)?;
    rows.push_all(entries);
    Ok(rows.into_rows())
}

/// The rows of the jobs of a legal history: the ended ones in order of ending, and then the pending ones in falling priority.
/// It goes over the entries twice.
pub fn rows_of(
    alloc: Global,
    set: &CompiledSet,
    entries: &[Entry],
) -> Result<List<JobRow>, OutOfMemory>
    requires { IsLegal set.now entries.now }
    ensures { IfOk result (λ rows. rows ≡ job_rows set.now entries.now) }
{
    rows_of_jobs(alloc, set, entries, planned(entries))
}
