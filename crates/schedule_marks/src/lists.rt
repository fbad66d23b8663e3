//! The marks of each kind, in the order of the entries or of the rows.
ghost use Rattle.std.specs.Prelude.{◌≡◌, ◌++◌, ◌-◌, [], ◌∷◌, OnOk, IfOk, Option as Maybe};
ghost use Rattle.std.specs.Fn.{FnReturnsAt};
ghost use Rattle.std.specs.List.{filter_map};
ghost use Rattle.std.specs.Option.{option_to_list};
ghost use Rattle.schedule_marks.specs.Marks.{locks_along as locks_from, present, ceiling_at, ceilings_from};
ghost use Rattle.schedule_marks.specs.Seen.{seen_in};

use crate::held::{ceiling_in_tick, lock_of, present_row, seen_step};
use crate::mark::Mark;
use crate::part::{Part, Window};
use job_rows::JobRow;
use rt_base::{OutOfMemory, Tick};
use std::alloc::Global;
use step_journal::Entry;
use txn_set::CompiledSet;

/// Adds what there is.
pub(crate) fn add<T: Copy>(into: &mut Vec<T>, one: Option<T>) -> Result<(), OutOfMemory>
    ensures { OnOk result (into.new.items ≡ into.old.items ++ option_to_list one) }
{
    if let Some(one) = one {
        into.push(one)?;
    }
    Ok(())
}

/// Adds what a function finds in each.
pub(crate) fn add_each<T, U: Copy, F: Fn(&T) -> Option<U>>(
    into: &mut Vec<U>,
    list: &[T],
    find: F,
) -> Result<(), OutOfMemory>
    requires { F.IsAlwaysCallable find }
    ensures { OnOk result ((found : T → Maybe U) → ((one : T) (what : Maybe U) → FnReturnsAt F.Fn find one what → what ≡ found one) → into.new.items ≡ into.old.items ++ filter_map found list.now) }
{
    for one in list {
        add(into, find(one))?;
    }
    Ok(())
}

/// The rows of the jobs that were pending in the part or at one of its ends.
pub(crate) fn present_rows(
    alloc: Global,
    window: Window,
    rows: &[JobRow],
) -> Result<Vec<JobRow>, OutOfMemory>
    ensures { IfOk result (λ v. v.items ≡ present window.part window.stop rows.now) }
{
    let present = rows.iter().filter_map(|row| present_row(window, row));
    Ok(present.collect(alloc)?)
}

// The steps of the jobs that end after the part begins: no other entry shows a lock in it.
fn seen_steps(
    alloc: Global,
    window: Window,
    rows: &[JobRow],
    entries: &[Entry],
) -> Result<Vec<Entry>, OutOfMemory>
    ensures { IfOk result (λ v. v.items ≡ filter_map (seen_in window.part window.stop rows.now) entries.now) }
{
    let seen = entries
        .iter()
        .filter_map(|entry| seen_step(window, rows, entry));
    Ok(seen.collect(alloc)?)
}

// The locks that entries take, one after another.
fn locks_along(
    alloc: Global,
    set: &CompiledSet,
    window: Window,
    rows: &[JobRow],
    entries: &[Entry],
) -> Result<Vec<Mark>, OutOfMemory>
    ensures { IfOk result (λ v. v.items ≡ locks_from set.now window.part window.stop rows.now [] entries.now) }
{
    let mut into = Vec::new(alloc);
    for (i, entry) in entries.iter().enumerate() {
        let (before, after) = (&entries[..i], &entries[i + 1..]);
        add(&mut into, lock_of(set, window, rows, before, after, entry))?;
    }
    Ok(into)
}

/// The locks that entries take which last in the part. It goes over all entries once, for each step over the rows, and for
/// each lock over the steps of these rows' jobs.
pub(crate) fn locks(
    alloc: Global,
    set: &CompiledSet,
    window: Window,
    rows: &[JobRow],
    entries: &[Entry],
) -> Result<Vec<Mark>, OutOfMemory>
    ensures { IfOk result (λ v. v.items ≡ locks_from set.now window.part window.stop rows.now [] entries.now) }
{
    let steps = seen_steps(alloc, window, rows, entries)?;
    locks_along(alloc, set, window, rows, &steps)
}

fn add_ceiling(into: &mut Vec<Mark>, locks: &[Mark], tick: Tick) -> Result<(), OutOfMemory>
    ensures { OnOk result (into.new.items ≡ into.old.items ++ ceiling_at locks.now tick ∷ []) }
{
    into.push(Mark::Ceiling {
        tick,
        ceiling: ceiling_in_tick(locks, tick),
    })?;
    Ok(())
}

/// The ceiling of each tick of the part.
pub(crate) fn add_ceilings(
    into: &mut Vec<Mark>,
    part: Part,
    locks: &[Mark],
) -> Result<(), OutOfMemory>
    ensures { OnOk result (into.new.items ≡ into.old.items ++ ceilings_from locks.now part.from (part.to - part.from)) }
{
    for tick in part.from..part.to {
        add_ceiling(into, locks, tick)?;
    }
    Ok(())
}
