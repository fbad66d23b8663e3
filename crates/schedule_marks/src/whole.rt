//! All marks of the part that is looked at.
ghost use Rattle.std.specs.Prelude.{◌≡◌, ◌++◌, IfOk, OnOk};
ghost use Rattle.schedule_marks.specs.Marks.{instant_to, last_instant as last_instant_of, spans_with, instants_of, marks_of, marks_to};

use crate::held::wait_of;
use crate::lists::{add_ceilings, add_each, locks, present_rows};
use crate::mark::{
    Mark, deadline_mark, end_mark, pending_mark, refusal_mark, release_mark, step_mark,
};
use crate::part::{Part, Window};
use job_rows::JobRow;
use rt_base::{OutOfMemory, Tick};
use std::alloc::Global;
use step_journal::Entry;
use txn_set::CompiledSet;

fn instant(to: Tick, entry: &Entry) -> Tick
    ensures { result ≡ instant_to to entry.now }
{
    match *entry {
        Entry::Step { tick, .. } => { if tick < to { tick + 1 } else { to } }
        Entry::Idle { to: tick, .. } => tick.min(to),
        _ => 0,
    }
}

/// The last instant of a history, in ticks, or this tick if that is earlier. It takes no memory.
pub fn last_instant(to: Tick, entries: &[Entry]) -> Tick
    ensures { result ≡ last_instant_of to entries.now }
{
    let mut last = 0;
    for entry in entries {
        last = last.max(instant(to, entry));
    }
    last
}

// What lasts: the jobs, the locks, the ceilings and the waits.
fn add_spans(
    into: &mut Vec<Mark>,
    window: Window,
    rows: &[JobRow],
    present: &[JobRow],
    locks: &[Mark],
    entries: &[Entry],
) -> Result<(), OutOfMemory>
    ensures { OnOk result (into.new.items ≡ into.old.items ++ spans_with window.part window.stop rows.now present.now locks.now entries.now) }
{
    add_each(into, rows, |row| pending_mark(window, row))?;
    into.extend_from_slice(locks)?;
    add_ceilings(into, window.part, locks)?;
    add_each(into, entries, |entry| wait_of(window, present, entry))?;
    Ok(())
}

// What happens at an instant or in a tick: the steps, the refusals, the releases, the deadlines and the ends.
fn add_instants(
    into: &mut Vec<Mark>,
    set: &CompiledSet,
    part: Part,
    rows: &[JobRow],
    entries: &[Entry],
) -> Result<(), OutOfMemory>
    ensures { OnOk result (into.new.items ≡ into.old.items ++ instants_of set.now part rows.now entries.now) }
{
    add_each(into, entries, |entry| step_mark(part, entry))?;
    add_each(into, entries, |entry| refusal_mark(part, entry))?;
    add_each(into, rows, |row| release_mark(part, row))?;
    add_each(into, rows, |row| deadline_mark(set, part, row))?;
    add_each(into, rows, |row| end_mark(part, row))?;
    Ok(())
}

fn marks_until(
    alloc: Global,
    set: &CompiledSet,
    window: Window,
    rows: &[JobRow],
    entries: &[Entry],
) -> Result<Vec<Mark>, OutOfMemory>
    ensures { IfOk result (λ v. v.items ≡ marks_to set.now window.part window.stop rows.now entries.now) }
{
    let present = present_rows(alloc, window, rows)?;
    let locks = locks(alloc, set, window, &present, entries)?;
    let mut into = Vec::new(alloc);
    add_spans(&mut into, window, rows, &present, &locks, entries)?;
    add_instants(&mut into, set, window.part, rows, entries)?;
    Ok(into)
}

/// The marks of a history in a part, from its entries and the rows of its jobs. It goes a few times over them: for each step and
/// refusal over the jobs that are pending in the part, for each lock over these jobs' steps, and for each tick of the part over
/// the locks.
pub fn marks(
    alloc: Global,
    set: &CompiledSet,
    part: Part,
    rows: &[JobRow],
    entries: &[Entry],
) -> Result<Vec<Mark>, OutOfMemory>
    ensures { IfOk result (λ v. v.items ≡ marks_of set.now part rows.now entries.now) }
{
    let stop = last_instant(part.to, entries);
    marks_until(alloc, set, Window { part, stop }, rows, entries)
}
