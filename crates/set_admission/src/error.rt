//! Why a set is not admitted.
ghost use Rattle.std.specs.Prelude.{◌≡◌};
ghost use Rattle.set_admission.specs.declared.error.AdmitError.TheVariants.{OutOfMemory as WantOfMemory};

use rt_base::{ItemId, OutOfMemory, Tick, TxId};
use std::alloc::{AllocError, AllocFailed};
use thiserror::Error;

/// Why a set is not admitted: the first of these causes that it has, OutOfMemory aside, and of each the first
/// transaction by falling priority.
#[derive(Clone, Copy, PartialEq, Eq, Debug, Error)]
pub enum AdmitError {
    /// No window up to the deadline holds the demand; `demand` is that of the deadline, in ticks.
    #[error("transaction {} may miss its deadline: its demand is {demand}", tx.0)]
    NotSchedulable { tx: TxId, demand: u64 },
    /// The first declared read, in item order, of an item whose age bound exceeds its validity; `age` is the bound, in
    /// ticks.
    #[error("transaction {} may read item {} at the age of {age}", tx.0, item.0)]
    TooOld { tx: TxId, item: ItemId, age: Tick },
    /// A growth was refused for want of memory. It may come from each call that is given an allocator.
    #[error("out of memory")]
    OutOfMemory,
    /// The first relative set of which two or more items are declared as read and have an age bound above its interval;
    /// `age` is the greatest of these bounds, in ticks.
    #[error("transaction {} may read items of relative set {set} that lie {age} apart", tx.0)]
    TooApart { tx: TxId, set: usize, age: Tick },
}

impl From<AllocError> for AdmitError {
    ghost from_gives = { λ _ e. e ≡ WantOfMemory };

    fn from(_e: AllocError) -> AdmitError {
        AdmitError::OutOfMemory
    }
}

impl<T: Drop> From<AllocFailed<T>> for AdmitError {
    ghost from_gives = { λ _ e. e ≡ WantOfMemory };

    fn from(_e: AllocFailed<T>) -> AdmitError {
        AdmitError::OutOfMemory
    }
}

impl From<OutOfMemory> for AdmitError {
    ghost from_gives = { λ _ e. e ≡ WantOfMemory };

    fn from(_e: OutOfMemory) -> AdmitError {
        AdmitError::OutOfMemory
    }
}
