//! What a board answers to a step and to idling. Why it does not plan a job is `rt_base`'s `PlanRefused`.
use rt_base::{End, ItemId, JobId, Outcome, Prio, Tick};

/// What a job is told that asks for an operation. The refusals are judged in this order; only `Blocked` and `Done` are
/// kept in the history.
#[derive(Clone, Copy, PartialEq, Eq, Debug)]
pub enum StepReply {
    /// The job is not pending: so many jobs of its transaction have ended, the latest of them so.
    NoJob { ended: u32, last: Option<End> },
    /// The running job is another.
    NotYet { running: JobId },
    /// A Read of an item outside the declared reads, or a Write of one outside the declared writes.
    Undeclared { item: ItemId },
    /// A Read or Write of a job that has so many quiet steps left.
    TooEarly { left: u64 },
    /// A Commit of a job that has not written this sensor or derived item, the first such of its declared writes.
    Unwritten { item: ItemId },
    /// The journal keeps so many entries, as many as it has room for.
    Full { room: usize },
    /// The job needs a new lock, and its priority is not above this ceiling of a lock that `by` holds. It waits on `by`.
    Blocked { by: JobId, ceiling: Prio },
    /// The operation took a tick. `over` is Some where the job ended at the instant at which the step ended.
    Done { outcome: Outcome, over: Option<End> },
}

impl StepReply {
    ghost use Rattle.std.specs.Prelude.{◌≡◌};
    ghost use Rattle.board.specs.Answers.{told_by};

    /// What the job is told: the outcome where its operation was done, and else None.
    #[inline(always)]
    pub fn told(self) -> Option<Outcome>
        ensures { result ≡ told_by self }
    {
        match self {
            StepReply::Done { outcome, .. } => Some(outcome),
            StepReply::NoJob { .. } => None,
            StepReply::NotYet { .. } => None,
            StepReply::Undeclared { .. } => None,
            StepReply::TooEarly { .. } => None,
            StepReply::Unwritten { .. } => None,
            StepReply::Full { .. } => None,
            StepReply::Blocked { .. } => None,
        }
    }
}

/// What is answered to idling, judged in this order; only `Advanced` is kept in the history.
#[derive(Clone, Copy, PartialEq, Eq, Debug)]
pub enum IdleReply {
    /// Something is pending.
    NotIdle { running: JobId },
    /// Nothing is planned.
    Nothing,
    /// The journal keeps so many entries, as many as it has room for.
    Full { room: usize },
    /// The time went on to the least planned tick.
    Advanced { to: Tick },
}
