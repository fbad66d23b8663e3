//! A run of the generated set on a board.
use crate::script::{AT_START, Progress, go_on, op_at};
use board::{Board, IdleReply, StepReply};
use rt_base::{JobId, OutOfMemory, Tick, TxId};
use std::alloc::Global;

/// What a run came to: the entries of its history, the last tick, and the turns that it took.
#[derive(Clone, Copy)]
pub struct Counts {
    pub entries: u64,
    pub now: Tick,
    pub turns: u32,
}

/// How many transactions there are, how many jobs each has, and whether a job is planned when the one before it ended.
#[derive(Clone, Copy)]
pub struct Plan {
    pub n: u32,
    pub jobs: u32,
    pub is_eager: bool,
}

// Plans the transaction's next job, where it is one of the set. False where it is not planned.
fn plan_more<B: Board>(board: &mut B, tx: TxId) -> bool {
    (tx.0 as usize) < board.set().txns().len() && board.plan_next(tx).is_ok()
}

// Plans a transaction's first jobs: the first at the offset, and each next one a period later.
fn plan_first<B: Board>(board: &mut B, tx: TxId, count: u32) -> u32 {
    let at = tx.0 as usize;
    let txns = board.set().txns();
    if count == 0 || at >= txns.len() {
        return 0;
    }
    let offset = txns[at].offset;
    if board.plan(tx, offset).is_err() {
        return 0;
    }
    for planned in 1..count {
        if !plan_more(board, tx) {
            return planned;
        }
    }
    count
}

fn plan_all<B: Board>(board: &mut B, progress: &mut [Progress], plan: Plan) {
    let count = if plan.is_eager { 1 } else { plan.jobs };
    for i in 0..progress.len().min(64) {
        progress[i].planned = plan_first(board, TxId(i as u32), count.min(plan.jobs));
    }
}

// The job ended: the transaction's next one begins, and is planned if not all are.
fn begin<B: Board>(board: &mut B, tx: TxId, progress: &mut Progress, jobs: u32) {
    progress.place = 0;
    if progress.planned < jobs && plan_more(board, tx) {
        progress.planned = progress.planned.saturating_add(1);
    }
}

// The running job asks for the next operation of its script. False where it is refused for good.
fn ask<B: Board>(board: &mut B, progress: &mut [Progress], job: JobId, plan: Plan) -> bool {
    let at = job.tx.0 as usize;
    if at >= progress.len() || at >= board.set().txns().len() {
        return false;
    }
    match board.step(job, op_at(plan.n, job, progress[at])) {
        StepReply::Done {
            outcome,
            over: None,
        } => {
            go_on(&mut progress[at], outcome);
            true
        }
        StepReply::Done { .. } => {
            begin(board, job.tx, &mut progress[at], plan.jobs);
            true
        }
        StepReply::Blocked { .. } => true,
        _ => false,
    }
}

fn turn<B: Board>(board: &mut B, progress: &mut [Progress], plan: Plan) -> bool {
    match board.running() {
        Some(job) => ask(board, progress, job, plan),
        None => match board.idle() {
            IdleReply::Advanced { .. } => true,
            _ => false,
        },
    }
}

const MOST_TURNS: u32 = 1 << 20;

// Takes turns while there are any, and answers how many.
fn turns<B: Board>(board: &mut B, progress: &mut [Progress], plan: Plan) -> u32 {
    for taken in 0..MOST_TURNS {
        if !turn(board, progress, plan) {
            return taken;
        }
    }
    MOST_TURNS
}

/// Runs the scripts until nothing is pending and nothing is planned.
pub fn drive<B: Board>(alloc: Global, board: &mut B, plan: Plan) -> Result<Counts, OutOfMemory> {
    let mut progress = Vec::new(alloc);
    for _ in 0..board.set().txns().len() {
        progress.push(AT_START)?;
    }
    plan_all(board, &mut progress, plan);
    let turns = turns(board, &mut progress, plan);
    Ok(Counts {
        entries: board.count(),
        now: board.now(),
        turns,
    })
}
