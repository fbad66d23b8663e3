//! What the journal keeps of each event, and what is known of a job that ended.
use rt_base::{End, JobId, Op, Outcome, Prio, Tick, TxId};

/// One event of a history.
#[derive(Clone, Copy, PartialEq, Eq, Debug)]
pub enum Entry {
    /// A job of the transaction was planned for a tick.
    Planned {
        tx: TxId,
        tick: Tick,
    },
    /// A job's operation was granted. `tick` is that of the request; `over` is Some where the job ended at the instant at
    /// which the step ended, also where that end is Late.
    Step {
        job: JobId,
        op: Op,
        outcome: Outcome,
        over: Option<End>,
        tick: Tick,
    },
    /// A job's request for a new lock was refused: `by` holds a lock with the ceiling that is in the way.
    Blocked {
        job: JobId,
        op: Op,
        by: JobId,
        ceiling: Prio,
        tick: Tick,
    },
    /// With nothing pending the time went on to the least planned tick.
    Idle {
        from: Tick,
        to: Tick,
    },
}

/// A job that ended: its release, how it ended, and the tick at which it did.
#[derive(Clone, Copy, PartialEq, Eq, Debug)]
pub struct EndedJob {
    pub job: JobId,
    pub release: Tick,
    pub end: End,
    pub tick: Tick,
}
