//! Why declarations get no rates.
ghost use Rattle.std.specs.Prelude.{◌≡◌};
ghost use Rattle.update_rates.specs.Refusal.{of_compile as rate_error};
ghost use Rattle.update_rates.specs.declared.error.RateError.TheVariants.{OutOfMemory as WantOfMemory};

use rt_base::{OutOfMemory, TxId};
use std::alloc::{AllocError, AllocFailed};
use thiserror::Error;
use txn_compiler::CompileError;

/// Why declarations get no rates: the first of these causes that they have, OutOfMemory aside.
#[derive(Clone, Copy, PartialEq, Eq, Debug, Error)]
pub enum RateError {
    /// The declarations do not compile, whatever the rates. They are judged with priorities that fall in list order,
    /// the longest period and deadline, and the offset 0.
    #[error("{0}")]
    Compile(CompileError),
    /// The first transaction in list order that is no updater: it reads an item, or it writes another number of items
    /// than one, or an item that is no sensor item.
    #[error("transaction {} is no updater", tx.0)]
    NotAnUpdater { tx: TxId },
    /// The first updater by rising validity for which no window up to the cap holds the load; `demand` is the load of
    /// the cap, in ticks.
    #[error("the validity of transaction {} is too short: its demand is {demand}", tx.0)]
    TooTight { tx: TxId, demand: u64 },
    /// A growth was refused for want of memory.
    #[error("out of memory")]
    OutOfMemory,
}

impl From<CompileError> for RateError {
    ghost from_gives = { λ error e. e ≡ rate_error error };

    fn from(error: CompileError) -> RateError {
        match error {
            CompileError::OutOfMemory => RateError::OutOfMemory,
            error => RateError::Compile(error),
        }
    }
}

impl From<AllocError> for RateError {
    ghost from_gives = { λ _ e. e ≡ WantOfMemory };

    fn from(_e: AllocError) -> RateError {
        RateError::OutOfMemory
    }
}

impl<T: Drop> From<AllocFailed<T>> for RateError {
    ghost from_gives = { λ _ e. e ≡ WantOfMemory };

    fn from(_e: AllocFailed<T>) -> RateError {
        RateError::OutOfMemory
    }
}

impl From<OutOfMemory> for RateError {
    ghost from_gives = { λ _ e. e ≡ WantOfMemory };

    fn from(_e: OutOfMemory) -> RateError {
        RateError::OutOfMemory
    }
}
