//! Calls of a board as values, and what a board said and tells, for tests.
use board::{Board, IdleReply, StepReply};
use rt_base::{JobId, Op, PlanRefused, Tick, TxId};
use step_journal::Entry;

/// A call of a board.
#[derive(Clone, Copy)]
pub enum Call {
    Plan(TxId, Tick),
    PlanNext(TxId),
    Step(JobId, Op),
    Idle,
}

/// What a board said.
#[derive(Clone, Copy, PartialEq, Eq, Debug)]
pub enum Said {
    Planned(Result<JobId, PlanRefused>),
    PlannedNext(Result<(JobId, Tick), PlanRefused>),
    Stepped(StepReply),
    Idled(IdleReply),
    NoSuchTransaction,
}

/// The call of an entry.
pub fn call_of(entry: Entry) -> Call {
    match entry {
        Entry::Planned { tx, tick } => Call::Plan(tx, tick),
        Entry::Step { job, op, .. } => Call::Step(job, op),
        Entry::Blocked { job, op, .. } => Call::Step(job, op),
        Entry::Idle { .. } => Call::Idle,
    }
}

/// Makes the call, where its transaction is one of the set.
pub fn make<B: Board>(board: &mut B, call: Call) -> Said {
    let txns = board.set().txns().len();
    match call {
        Call::Plan(tx, tick) if (tx.0 as usize) < txns => Said::Planned(board.plan(tx, tick)),
        Call::PlanNext(tx) if (tx.0 as usize) < txns => Said::PlannedNext(board.plan_next(tx)),
        Call::Step(job, op) if (job.tx.0 as usize) < txns => Said::Stepped(board.step(job, op)),
        Call::Idle => Said::Idled(board.idle()),
        _ => Said::NoSuchTransaction,
    }
}
