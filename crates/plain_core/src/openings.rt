//! The opening tables: nothing planned, pending or ended.
ghost use Rattle.std.specs.Prelude.{◌≡◌, ◌≤◌, ℕ, map, length, None, Some, IfOk, Option as Maybe};
ghost use Rattle.step_journal.specs.State.{Row as RowSeen};
ghost use Rattle.plain_core.specs.TablesSeen.{no_tally};

use crate::slot::Slot;
use crate::tally::Tally;
use rt_base::{OutOfMemory, Plans};
use std::alloc::Global;
use txn_set::TxnDecl;

/// No plans of any transaction.
pub fn opening_plans(alloc: Global, txns: &[TxnDecl]) -> Result<Vec<Plans>, OutOfMemory>
    ensures { IfOk result (λ v. v.items ≡ map (λ t. record { number = 0; last = 0 }) txns.now) }
{
    let mut plans = Vec::new(alloc);
    plans.resize(txns.len(), Plans { number: 0, last: 0 })?;
    Ok(plans)
}

/// An empty place for each transaction.
pub fn opening_slots(alloc: Global, txns: &[TxnDecl]) -> Result<Vec<Slot>, OutOfMemory>
    ensures { IfOk result (λ v. v.items ≡ map (λ t. None) txns.now) }
{
    let mut slots = Vec::new(alloc);
    for t in txns {
        let _t = t;
        let slot = Slot::new(alloc)?;
        slots.push(slot)?;
    }
    Ok(slots)
}

/// No ended job of any transaction.
pub fn opening_tallies(alloc: Global, txns: &[TxnDecl]) -> Result<Vec<Tally>, OutOfMemory>
    ensures { IfOk result (λ v. v.items ≡ map (λ t. no_tally) txns.now) }
{
    let mut tallies = Vec::new(alloc);
    tallies.resize(
        txns.len(),
        Tally {
            number: 0,
            last: None,
        },
    )?;
    Ok(tallies)
}
