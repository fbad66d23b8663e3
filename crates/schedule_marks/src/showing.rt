//! All that is shown of a part of a history.
ghost use Rattle.std.specs.Prelude.{◌≡◌, IfOk};
ghost use Rattle.schedule_marks.specs.Shown.{shown_of};

use crate::lanes::{AgeRead, AgeSpan, Bound, age_reads, age_spans, bound_marks};
use crate::mark::Mark;
use crate::part::Part;
use crate::whole::marks;
use job_rows::JobRow;
use rt_base::{List, OutOfMemory, Tick};
use std::alloc::Global;
use step_journal::Entry;
use txn_set::CompiledSet;

/// What admission found of a set, in ticks: the response of each transaction and the age bound of each item, in list order.
/// Both are empty in a trial.
#[derive(Drop)]
pub struct Limits {
    pub responses: List<Tick>,
    pub ages: List<Tick>,
}

/// What is shown of a part of a history: its marks, the bounds of its jobs, and the ages of its items.
#[derive(Drop)]
pub struct Shown {
    pub marks: List<Mark>,
    pub bounds: List<Bound>,
    pub spans: List<AgeSpan>,
    pub reads: List<AgeRead>,
}

/// What is shown of a part of a history, from its entries and the rows of its jobs. Its cost is that of `marks`, `age_spans` and
/// `age_reads`.
pub fn show(
    alloc: Global,
    set: &CompiledSet,
    part: Part,
    limits: &Limits,
    rows: &[JobRow],
    entries: &[Entry],
) -> Result<Shown, OutOfMemory>
    ensures { IfOk result (λ s. s ≡ shown_of set.now part limits.now rows.now entries.now) }
{
    let marks = marks(alloc, set, part, rows, entries)?;
    let bounds = bound_marks(alloc, part, limits.responses.as_slice(), rows)?;
    let spans = age_spans(alloc, set, part, rows, entries)?;
    let reads = age_reads(alloc, set, part, rows, entries)?;
    Ok(Shown {
        marks: List::of(marks),
        bounds: List::of(bounds),
        spans: List::of(spans),
        reads: List::of(reads),
    })
}
