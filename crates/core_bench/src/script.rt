//! The scripts of the generated set.
use rt_base::{ItemId, JobId, Op, Outcome, Value};

/// How far the pending job of a transaction is, what it read last, and how many jobs of the transaction were planned.
#[derive(Clone, Copy)]
pub struct Progress {
    pub place: u32,
    pub planned: u32,
    pub last: Value,
}

/// A transaction of which nothing is planned.
pub const AT_START: Progress = Progress {
    place: 0,
    planned: 0,
    last: 0,
};

/// What a job asks for at its place: one of an even transaction i writes item i, computes twice and commits; one of an odd
/// i reads item i - 1, writes the items i and n, and commits.
pub fn op_at(n: u32, job: JobId, progress: Progress) -> Op {
    let i = job.tx.0;
    let item = ItemId(i);
    match (i % 2, progress.place) {
        (0, 0) => Op::Write(item, job.serial as Value),
        (0, 1 | 2) => Op::Compute,
        (1, 0) => Op::Read(ItemId(i.saturating_sub(1))),
        (1, 1) => Op::Write(item, progress.last),
        (1, 2) => Op::Write(ItemId(n), progress.last.saturating_add(i as Value)),
        _ => Op::Commit,
    }
}

/// The job goes on after a granted operation.
pub fn go_on(progress: &mut Progress, outcome: Outcome) {
    progress.place = progress.place.saturating_add(1);
    if let Outcome::Got { value, .. } = outcome {
        progress.last = value;
    }
}
