//! Transactions as updaters.
ghost use Rattle.std.specs.Prelude.{◌≡◌, ◌≤◌, length, None, IfOk, IfErr};
ghost use Rattle.std.specs.List.{All};
ghost use Rattle.txn_set.specs.Set.{IsCompiled};
ghost use Rattle.update_rates.specs.Updaters.{lone_sensor, updaters};
ghost use Rattle.update_rates.specs.Updaters.{updater_validity as validity};
ghost use Rattle.update_rates.specs.Refusal.{not_an_updater, Refuses};

use crate::error::RateError;
use item_model::{ItemDecl, ItemKind};
use rt_base::{ItemId, Tick, TxId};
use std::alloc::Global;
use txn_set::{CompiledSet, TxnDecl};

/// An updater: its steps, of a tick each, and the validity, in ticks, of the sensor item that it writes.
#[derive(Clone, Copy, PartialEq, Eq, Debug)]
pub struct Updater {
    pub steps: u64,
    pub validity: Tick,
}

// The validity of the sensor item that stands alone in this list.
fn lone_sensor_of(items: &[ItemDecl], writes: &[ItemId]) -> Option<Tick>
    ensures { result ≡ lone_sensor items.now writes.now }
{
    let [item] = writes else {
        return None;
    };
    match items.get(item.0 as usize)?.kind {
        ItemKind::Sensor { validity } => Some(validity),
        ItemKind::Derived { validity: _ } => None,
        ItemKind::State => None,
    }
}

// The validity of the sensor item that an updater writes; None of another transaction.
fn updater_validity(items: &[ItemDecl], txn: &TxnDecl) -> Option<Tick>
    ensures { result ≡ validity items.now txn.now }
{
    match txn.reads.as_slice() {
        [] => lone_sensor_of(items, txn.writes.as_slice()),
        _ => None,
    }
}

/// The transactions of a set as updaters, or the first that is none.
pub fn updaters_of(alloc: Global, set: &CompiledSet) -> Result<Vec<Updater>, RateError>
    ensures ok { IfOk result (λ us. us.items ≡ updaters set.now) }
    ensures passed { IfOk result (λ us. not_an_updater set.now ≡ None) }
    ensures err { IfErr result (Refuses (not_an_updater set.now)) }
{
    set.is_compiled();
    let mut updaters = Vec::with_capacity(alloc, set.txns().len())?;
    for (tx, txn) in set.txns().iter().enumerate() {
        let Some(validity) = updater_validity(set.items(), txn) else {
            return Err(RateError::NotAnUpdater {
                tx: TxId(tx as u32),
            });
        };
        updaters.push(Updater {
            steps: txn.steps,
            validity,
        })?;
    }
    Ok(updaters)
}
