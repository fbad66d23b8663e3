//! Why there is no assignment.
use rt_base::{Prio, Tick, TxId};

/// A transaction that has no priority yet, its limit, and its demand within the limit at a level, both in ticks.
#[derive(Clone, Copy, PartialEq, Eq, Debug)]
pub struct Unplaced {
    pub tx: TxId,
    pub limit: Tick,
    pub demand: u64,
}

/// The first level, counted from 1 at the lowest, at which none of the transactions that are left passes with the others
/// of them above it; and these, in list order.
#[derive(Drop)]
pub struct NoAssignment {
    pub level: Prio,
    pub unplaced: Vec<Unplaced>,
}
