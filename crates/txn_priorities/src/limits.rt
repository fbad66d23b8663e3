//! The limits of the responses.
ghost use Rattle.std.specs.Prelude.{◌≡◌, ◌<◌, length, map, IfOk};
ghost use Rattle.std.specs.List.{All};
ghost use Rattle.txn_set.specs.Set.{IsCompiled};
ghost use Rattle.txn_priorities.specs.Limits.{within_validity as within, limit_of as limit_in};
ghost use Rattle.txn_priorities.specs.Limits.{sensor_validity as validity, is_read as is_item_read};

use item_model::{ItemDecl, ItemKind};
use rt_base::{ItemId, OutOfMemory, Tick};
use std::alloc::Global;
use txn_set::{CompiledSet, TxnDecl, names_item};

fn sensor_validity(items: &[ItemDecl], item: ItemId) -> Option<Tick>
    ensures { result ≡ validity items.now item.0 }
{
    match items.get(item.0 as usize)?.kind {
        ItemKind::Sensor { validity } => Some(validity),
        ItemKind::Derived { validity: _ } => None,
        ItemKind::State => None,
    }
}

fn is_read(txns: &[TxnDecl], item: ItemId) -> bool
    ensures { result ≡ is_item_read txns.now item.0 }
{
    for txn in txns {
        if names_item(txn.reads.as_slice(), item) {
            return true;
        }
    }
    false
}

// The lesser of a limit and of what an item that is written leaves.
fn within_validity(set: &CompiledSet, item: ItemId, period: Tick, most: Tick) -> Tick
    ensures { result ≡ within (validity set.now.items item.0) (is_item_read set.now.txns item.0) period most }
{
    let Some(validity) = sensor_validity(set.items(), item) else {
        return most;
    };
    if is_read(set.txns(), item) {
        most.min(validity.saturating_sub(period))
    } else {
        most
    }
}

fn limit_of(set: &CompiledSet, txn: &TxnDecl) -> Tick
    ensures { result ≡ limit_in set.now txn.now }
{
    let mut most = txn.deadline;
    for item in txn.writes.as_slice() {
        most = within_validity(set, *item, txn.period, most);
    }
    most
}

/// The limits of the responses, in ticks, in list order. It takes memory once, a place for each transaction. Its time is
/// a search of all declared reads for each sensor item that a transaction writes.
pub fn limits_of(alloc: Global, set: &CompiledSet) -> Result<Vec<Tick>, OutOfMemory>
    ensures { IfOk result (λ limits. limits.items ≡ map (limit_in set.now) set.now.txns) }
{
    let mut limits = Vec::with_capacity(alloc, set.txns().len())?;
    for txn in set.txns() {
        limits.push(limit_of(set, txn))?;
    }
    Ok(limits)
}
