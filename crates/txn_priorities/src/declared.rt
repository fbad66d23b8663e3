//! The transactions of a set, with other priorities.
ghost use Rattle.std.specs.Prelude.{◌≡◌, length, IfOk};
ghost use Rattle.law_times.specs.Assigned.{txns_with as with_each};
ghost use Rattle.law_times.specs.Pass.{prio_at};

use rt_base::{OutOfMemory, Prio};
use std::alloc::Global;
use txn_set::TxnDecl;

fn txn_with(alloc: Global, txn: &TxnDecl, prio: Prio) -> Result<TxnDecl, OutOfMemory>
    ensures { IfOk result (λ copy. copy ≡ record txn.now { prio = prio }) }
{
    let mut copy = txn.copy(alloc)?;
    copy.prio = prio;
    Ok(copy)
}

/// The transactions once more, with these priorities in list order.
pub fn txns_with(
    alloc: Global,
    txns: &[TxnDecl],
    prios: &[Prio],
) -> Result<Vec<TxnDecl>, OutOfMemory>
    requires { length prios.now ≡ length txns.now }
    ensures { IfOk result (λ copies. copies.items ≡ with_each (prio_at prios.now) txns.now) }
{
    let mut copies = Vec::with_capacity(alloc, txns.len())?;
    for tx in 0..txns.len() {
        copies.push(txn_with(alloc, &txns[tx], prios[tx])?)?;
    }
    Ok(copies)
}
