//! Why a set of declarations is refused.
use rt_base::{ItemId, TxId};
use std::alloc::{AllocError, AllocFailed};
use thiserror::Error;

/// Which of a transaction's numbers is out of its range. They are judged in this order.
#[derive(Clone, Copy, PartialEq, Eq, Debug)]
pub enum Which {
    /// The priority is from 1 to 1000.
    Prio,
    /// The steps are from 1 to 10,000.
    Steps,
    /// The period is from 1 to 2^30 ticks.
    Period,
    /// The deadline is from 1 tick to the period.
    Deadline,
    /// The offset is at most the period.
    Offset,
    /// The quiet steps are fewer than the steps.
    Quiet,
}

/// Why a set is refused: the first rule that it breaks, in this order, OutOfMemory aside, and the first place that
/// breaks it.
#[derive(Clone, Copy, PartialEq, Eq, Debug, Error)]
pub enum CompileError {
    /// There are more than 256 items.
    #[error("too many items: {count}")]
    TooManyItems { count: usize },
    /// There are more than 64 transactions.
    #[error("too many transactions: {count}")]
    TooManyTxns { count: usize },
    /// `b` is the first transaction in list order with the priority of an earlier one, `a` the first that has it.
    #[error("transactions {} and {} have the same priority", a.0, b.0)]
    SamePrio { a: TxId, b: TxId },
    /// The first transaction in list order with a number out of its range, and the first such number.
    #[error("a number of transaction {} is out of its range", tx.0)]
    BadTimes { tx: TxId, which: Which },
    /// The first sensor or derived item that no transaction may write.
    #[error("item {} has no writer", item.0)]
    NoWriter { item: ItemId },
    /// The first sensor or derived item that more than one transaction may write, and the first two of them.
    #[error("item {} has two writers, transactions {} and {}", item.0, a.0, b.0)]
    TwoWriters { item: ItemId, a: TxId, b: TxId },
    /// The first item that depends on itself along the derivations.
    #[error("item {} is derived from itself", item.0)]
    CyclicDerivation { item: ItemId },
    /// A growth was refused for want of memory. It may come from each call that is given an allocator.
    #[error("out of memory")]
    OutOfMemory,
    /// There are more than 64 relative sets.
    #[error("too many relative sets: {count}")]
    TooManySets { count: usize },
    /// The first relative set with fewer than two items or with a state item.
    #[error("relative set {set} has fewer than two items or a state item")]
    BadTogether { set: usize },
}

impl From<AllocError> for CompileError {
    ghost use Rattle.std.specs.Prelude.{◌≡◌};
    ghost use Rattle.txn_compiler.specs.declared.error.CompileError.TheVariants.{OutOfMemory};

    ghost from_gives = { λ _ e. e ≡ OutOfMemory };

    fn from(_e: AllocError) -> CompileError {
        CompileError::OutOfMemory
    }
}

impl<T: Drop> From<AllocFailed<T>> for CompileError {
    ghost use Rattle.std.specs.Prelude.{◌≡◌};
    ghost use Rattle.txn_compiler.specs.declared.error.CompileError.TheVariants.{OutOfMemory};

    ghost from_gives = { λ _ e. e ≡ OutOfMemory };

    fn from(_e: AllocFailed<T>) -> CompileError {
        CompileError::OutOfMemory
    }
}
