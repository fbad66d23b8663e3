//! Locks, waits and the ceilings of ticks: what lasts until a job ends.
ghost use Rattle.std.specs.Prelude.{◌≡◌, map};
ghost use Rattle.std.specs.List.{list_any};
ghost use Rattle.step_journal.specs.State.{same_job};
ghost use Rattle.txn_set.specs.Ceilings.{greatest};
ghost use Rattle.schedule_marks.specs.Marks.{until as until_in, until_of as until_in_rows, present_in, wait_in, wait_mark, ceiling_in, lock_mark as mark_of_lock, lock_by, is_lock_on, shows_lock, earlier_write, lock_until, lock_in, ceiling_by};
ghost use Rattle.schedule_marks.specs.Seen.{seen_in};

use crate::mark::Mark;
use crate::part::{Part, Window, meets};
use job_rows::JobRow;
use rt_base::{ItemId, JobId, Op, Outcome, Prio, Tick};
use step_journal::Entry;
use txn_set::CompiledSet;

// A lock of a job on an item.
#[derive(Clone, Copy)]
struct ItemLock {
    job: JobId,
    item: ItemId,
    is_write: bool,
}

/// The tick at which a job ended, or where the picture stops.
pub(crate) fn until(stop: Tick, row: &JobRow) -> Tick
    ensures { result ≡ until_in stop row.now }
{
    match row.end {
        Some((_, tick)) => tick,
        None => stop,
    }
}

/// Whether two ids are of one job.
pub(crate) fn is_job(a: JobId, b: JobId) -> bool
    ensures { result ≡ same_job a b }
{
    a.tx.0 == b.tx.0 && a.serial == b.serial
}

// The tick at which a job ended, or where the picture stops; 0 for a job that has no row.
fn until_of(stop: Tick, rows: &[JobRow], job: JobId) -> Tick
    ensures { result ≡ until_in_rows stop rows.now job }
{
    for row in rows {
        if is_job(row.job, job) {
            return until(stop, row);
        }
    }
    0
}

/// The row of a job that was pending in the part or at one of its ends.
pub(crate) fn present_row(window: Window, row: &JobRow) -> Option<JobRow>
    ensures { result ≡ present_in window.part window.stop row.now }
{
    (row.release <= window.part.to && window.part.from <= until(window.stop, row)).then_some(*row)
}

pub(crate) fn wait_of(window: Window, rows: &[JobRow], entry: &Entry) -> Option<Mark>
    ensures { result ≡ wait_in window.part window.stop rows.now entry.now }
{
    match *entry {
        Entry::Blocked { job, by, tick, .. } => {
            let to = until_of(window.stop, rows, job).min(until_of(window.stop, rows, by));
            meets(window.part, tick, to).then_some(Mark::Wait {
                job,
                by,
                from: tick,
                to,
            })
        }
        _ => None,
    }
}

fn ceiling(set: &CompiledSet, item: ItemId, is_write: bool) -> Prio
    ensures { result ≡ ceiling_in set.now item is_write }
{
    if (item.0 as usize) >= set.items().len() {
        return 0;
    }
    if is_write {
        set.absolute_ceiling(item)
    } else {
        set.write_ceiling(item)
    }
}

fn lock_mark(set: &CompiledSet, part: Part, lock: ItemLock, from: Tick, to: Tick) -> Option<Mark>
    ensures { result ≡ mark_of_lock set.now part lock.job lock.item lock.is_write from to }
{
    meets(part, from, to).then(|| Mark::Lock {
        job: lock.job,
        item: lock.item,
        is_write: lock.is_write,
        ceiling: ceiling(set, lock.item, lock.is_write),
        from,
        to,
    })
}

/// The entry, where it is a step of a job that ends after the part begins.
pub(crate) fn seen_step(window: Window, rows: &[JobRow], entry: &Entry) -> Option<Entry>
    ensures { result ≡ seen_in window.part window.stop rows.now entry.now }
{
    match *entry {
        Entry::Step { job, .. } => {
            (window.part.from < until_of(window.stop, rows, job)).then_some(*entry)
        }
        _ => None,
    }
}

// The lock that a step shows that its job holds: whether it is a write lock comes second.
fn taken(op: Op, outcome: Outcome) -> Option<(ItemId, bool)>
    ensures { result ≡ lock_by op outcome }
{
    match op {
        Op::Read(item) => match outcome {
            Outcome::Got { stamp: Some(_), .. } => Some((item, false)),
            _ => None,
        },
        Op::Write(item, _) => Some((item, true)),
        _ => None,
    }
}

// Whether it is a lock on the item: a write lock if one is asked for, and else any.
fn is_lock(item: ItemId, is_write: bool, lock: Option<(ItemId, bool)>) -> bool
    ensures { result ≡ is_lock_on item is_write lock }
{
    match lock {
        Some((locked, for_write)) => locked.0 == item.0 && (for_write || !is_write),
        None => false,
    }
}

// Whether an entry is a step of the job that shows a lock on the item: a write lock if one is asked for, and else any.
fn is_showing(lock: ItemLock, entry: &Entry) -> bool
    ensures { result ≡ shows_lock lock.job lock.item lock.is_write entry.now }
{
    match *entry {
        Entry::Step {
            job: by,
            op,
            outcome,
            ..
        } => is_job(by, lock.job) && is_lock(lock.item, lock.is_write, taken(op, outcome)),
        _ => false,
    }
}

// Whether one of the entries is such a step.
fn is_shown(lock: ItemLock, entries: &[Entry]) -> bool
    ensures { result ≡ list_any (shows_lock lock.job lock.item lock.is_write) entries.now }
{
    entries.iter().any(|entry| is_showing(lock, entry))
}

// The tick of the job's write of the item, if that is earlier than this one.
fn earlier(lock: ItemLock, to: Tick, entry: &Entry) -> Tick
    ensures { result ≡ earlier_write lock.job lock.item to entry.now }
{
    let write = ItemLock {
        is_write: true,
        ..lock
    };
    match *entry {
        Entry::Step { tick, .. } => {
            if is_showing(write, entry) {
                tick.min(to)
            } else {
                to
            }
        }
        _ => to,
    }
}

// Until when a lock is held whose job ends at a tick.
fn held_until(lock: ItemLock, end: Tick, after: &[Entry]) -> Tick
    ensures { result ≡ lock_until lock.job lock.item lock.is_write end after.now }
{
    if lock.is_write {
        return end;
    }
    after.iter().fold(end, |to, entry| earlier(lock, to, entry))
}

/// The lock that an entry takes, between the entries before it and those after it, where it lasts in the part. It goes over
/// these entries only if the job is pending in the part after the entry.
pub(crate) fn lock_of(
    set: &CompiledSet,
    window: Window,
    rows: &[JobRow],
    before: &[Entry],
    after: &[Entry],
    entry: &Entry,
) -> Option<Mark>
    ensures { result ≡ lock_in set.now window.part window.stop rows.now before.now after.now entry.now }
{
    match *entry {
        Entry::Step {
            job,
            op,
            outcome,
            tick,
            ..
        } => match taken(op, outcome) {
            Some((item, is_write)) => {
                let lock = ItemLock {
                    job,
                    item,
                    is_write,
                };
                let end = until_of(window.stop, rows, job);
                if !meets(window.part, tick, end) || is_shown(lock, before) {
                    return None;
                }
                let to = held_until(lock, end, after);
                lock_mark(set, window.part, lock, tick, to)
            }
            None => None,
        },
        _ => None,
    }
}

fn ceiling_then(tick: Tick, mark: Mark) -> Prio
    ensures { result ≡ ceiling_by tick mark }
{
    match mark {
        Mark::Lock {
            ceiling,
            from,
            to,
            ..
        } => {
            if from <= tick && tick < to {
                ceiling
            } else {
                0
            }
        }
        _ => 0,
    }
}

/// The greatest ceiling of the locks that are held in a tick.
pub(crate) fn ceiling_in_tick(locks: &[Mark], tick: Tick) -> Prio
    ensures { result ≡ greatest (map (ceiling_by tick) locks.now) }
{
    let mut greatest = 0;
    for lock in locks {
        greatest = greatest.max(ceiling_then(tick, *lock));
    }
    greatest
}
