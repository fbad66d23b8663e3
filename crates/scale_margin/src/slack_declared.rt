//! The transactions of a set in which one has other steps.
ghost use Rattle.std.specs.Prelude.{◌≡◌, ◌<◌, length, slice_index_or, slice_set, IfOk};
ghost use Rattle.txn_set.specs.Set.{no_txn};
ghost use Rattle.scale_margin.specs.Steps.{stepped};

use rt_base::{OutOfMemory, TxId};
use std::alloc::Global;
use txn_set::{TxnDecl, copies_of_txns};

/// The transactions once more, with so many steps of one.
pub fn txns_with(
    alloc: Global,
    txns: &[TxnDecl],
    tx: TxId,
    count: u64,
) -> Result<Vec<TxnDecl>, OutOfMemory>
    requires { tx.0 < length txns.now }
    ensures { IfOk result (λ copies. copies.items ≡ slice_set txns.now tx.0 (stepped (slice_index_or txns.now tx.0 no_txn) count)) }
{
    let mut copies = copies_of_txns(alloc, txns)?;
    copies[tx.0 as usize].steps = count;
    Ok(copies)
}
