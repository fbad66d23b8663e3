//! The locks that transactions hold, with the grant rule answered from the first two rows of the table of holders.
#![tactic(auto)]

ghost use Rattle.std.specs.Prelude.{◌≤◌};

mod held;
mod holders;
mod seats;

pub use held::Held;
use rt_base::{Prio, TxId};

/// The two ceilings of an item after Sha, Rajkumar, Son and Chang (1991): the highest priority of those that may write
/// it, and of those that may read or write it; 0 where there is none. Whoever may write may read or write, so that the
/// first is at most the second.
#[derive(Clone, Copy, PartialEq, Eq, Debug)]
pub struct CeilRow {
    pub write: Prio,
    pub absolute: Prio,
    pub ghost ordered: { write ≤ absolute },
}

/// Why a new lock is refused: the transaction to wait on, and the ceiling.
#[derive(Clone, Copy, PartialEq, Eq, Debug)]
pub struct Above {
    pub holder: TxId,
    pub ceiling: Prio,
}

/// The lock of a transaction on an item. A write lock stands for a read lock too.
#[derive(Clone, Copy, PartialEq, Eq, Debug)]
pub enum LockKind {
    Free,
    Read,
    Write,
}
