//! Marks, and the mark of an entry or of a job's row.
ghost use Rattle.std.specs.Prelude.{◌≡◌};
ghost use Rattle.schedule_marks.specs.Marks.{pending_in, step_in, refusal_in, release_in, deadline_in, end_in};

use crate::held::until;
use crate::part::{Part, Window, has_instant, has_tick, meets};
use crate::place::deadline;
use job_rows::JobRow;
use rt_base::{End, ItemId, JobId, Op, Prio, Tick};
use step_journal::Entry;
use txn_set::CompiledSet;

/// One mark of a picture. `from` and `to` are the ends of a span of ticks, which may begin before the part that is looked at
/// and end after it.
#[derive(Clone, Copy, PartialEq, Eq, Debug)]
pub enum Mark {
    /// A job was pending, from its release to its end.
    Pending {
        job: JobId,
        from: Tick,
        to: Tick,
    },
    /// A job held a lock on an item, from the step that took it to the job's end, or, if it is a read lock, to the step by which
    /// the job wrote the item: a write lock takes its place.
    Lock {
        job: JobId,
        item: ItemId,
        is_write: bool,
        ceiling: Prio,
        from: Tick,
        to: Tick,
    },
    /// The greatest ceiling of the locks that are held in a tick, 0 where there is none.
    Ceiling {
        tick: Tick,
        ceiling: Prio,
    },
    /// A job waited on another, which had its priority meanwhile.
    Wait {
        job: JobId,
        by: JobId,
        from: Tick,
        to: Tick,
    },
    /// A granted operation, in the tick that it took.
    Step {
        job: JobId,
        op: Op,
        tick: Tick,
    },
    /// A refused operation, at the instant of the refusal, with the job that it waits on.
    Refusal {
        job: JobId,
        op: Op,
        by: JobId,
        tick: Tick,
    },
    /// A job was released.
    Release {
        job: JobId,
        tick: Tick,
    },
    /// The instant of a job's deadline.
    Deadline {
        job: JobId,
        tick: Tick,
    },
    /// A job ended.
    Ended {
        job: JobId,
        end: End,
        tick: Tick,
    },
}

pub(crate) fn pending_mark(window: Window, row: &JobRow) -> Option<Mark>
    ensures { result ≡ pending_in window.part window.stop row.now }
{
    let to = until(window.stop, row);
    meets(window.part, row.release, to).then_some(Mark::Pending {
        job: row.job,
        from: row.release,
        to,
    })
}

pub(crate) fn step_mark(part: Part, entry: &Entry) -> Option<Mark>
    ensures { result ≡ step_in part entry.now }
{
    match *entry {
        Entry::Step { job, op, tick, .. } => {
            has_tick(part, tick).then_some(Mark::Step { job, op, tick })
        }
        _ => None,
    }
}

pub(crate) fn refusal_mark(part: Part, entry: &Entry) -> Option<Mark>
    ensures { result ≡ refusal_in part entry.now }
{
    match *entry {
        Entry::Blocked {
            job,
            op,
            by,
            tick,
            ..
        } => { has_tick(part, tick).then_some(Mark::Refusal { job, op, by, tick }) }
        _ => None,
    }
}

pub(crate) fn release_mark(part: Part, row: &JobRow) -> Option<Mark>
    ensures { result ≡ release_in part row.now }
{
    has_instant(part, row.release).then_some(Mark::Release {
        job: row.job,
        tick: row.release,
    })
}

pub(crate) fn deadline_mark(set: &CompiledSet, part: Part, row: &JobRow) -> Option<Mark>
    ensures { result ≡ deadline_in set.now part row.now }
{
    let tick = row.release.checked_add(deadline(set, row.job.tx))?;
    has_instant(part, tick).then_some(Mark::Deadline { job: row.job, tick })
}

pub(crate) fn end_mark(part: Part, row: &JobRow) -> Option<Mark>
    ensures { result ≡ end_in part row.now }
{
    let (end, tick) = row.end?;
    has_instant(part, tick).then_some(Mark::Ended {
        job: row.job,
        end,
        tick,
    })
}
