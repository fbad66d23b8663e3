//! What is amiss in the releases of a transaction, and in the uses of an item.
ghost use Rattle.std.specs.Prelude.{◌≡◌, ◌<◌, ◌&&◌, ◌++◌, ◌==◌, ◌||◌, not, length, OnOk};
ghost use Rattle.std.specs.List.{list_any};
ghost use Rattle.item_model.specs.Kinds.{is_dated as is_dated_item};
ghost use Rattle.txn_set.specs.Set.{may_read, may_write};
ghost use Rattle.step_script.specs.Releases.{jobs_of};
ghost use Rattle.scenario_check.specs.Scripts.{is_updating as is_updating_one, in_step as in_step_of, is_periodic as is_periodic_of};
ghost use Rattle.scenario_check.specs.Warnings.{item_id, of_releases, is_sensor as is_sensor_item, is_unread as is_unread_item, is_unwritten as is_unwritten_item, of_item};

use crate::kinds::Warning;
use crate::scripts::put;
use item_model::{ItemDecl, ItemKind};
use rt_base::{ItemId, OutOfMemory, Tick, TxId};
use step_script::Releases;
use txn_set::{TxnDecl, names_item};

fn is_dated(items: &[ItemDecl], item: ItemId) -> bool
    ensures { result ≡ is_dated_item items.now item.0 }
{
    match items.get(item.0 as usize) {
        Some(decl) => match decl.kind {
            ItemKind::Sensor { .. } | ItemKind::Derived { .. } => true,
            ItemKind::State => false,
        },
        None => false,
    }
}

// Whether the transaction may write a sensor or derived item.
fn is_updating(items: &[ItemDecl], txn: &TxnDecl) -> bool
    ensures { result ≡ is_updating_one items.now txn.now }
{
    for item in txn.writes.as_slice() {
        if is_dated(items, *item) {
            return true;
        }
    }
    false
}

// Whether the ticks are this one and each period after it.
fn in_step(first: Tick, period: Tick, ticks: &[Tick]) -> bool
    ensures { result ≡ in_step_of first period ticks.now }
{
    let mut next = u128::from(first);
    for tick in ticks {
        let at = u128::from(*tick);
        if at != next {
            return false;
        }
        next = at + u128::from(period);
    }
    true
}

fn is_periodic(txn: &TxnDecl, releases: &Releases) -> bool
    ensures { result ≡ is_periodic_of txn.now releases.now }
{
    match releases {
        Releases::At(ticks) => in_step(txn.offset, txn.period, ticks.as_slice()),
        Releases::Jobs(_) => true,
        Releases::Eager(n) => *n == 0,
    }
}

fn is_never(releases: &Releases) -> bool
    ensures { result ≡ (jobs_of releases.now == 0) }
{
    match releases {
        Releases::At(ticks) => ticks.as_slice().is_empty(),
        Releases::Jobs(n) | Releases::Eager(n) => *n == 0,
    }
}

/// The warnings of a transaction's releases, by a step for each release and each declared write.
pub(crate) fn put_releases(
    out: &mut Vec<Warning>,
    items: &[ItemDecl],
    tx: TxId,
    txn: &TxnDecl,
    releases: &Releases,
) -> Result<(), OutOfMemory>
    ensures { OnOk result (out.new.items ≡ out.old.items ++ of_releases items.now tx txn.now releases.now) }
{
    let unsteady = is_updating(items, txn) && !is_periodic(txn, releases);
    put(out, unsteady, Warning::NotPeriodic { tx })?;
    put(out, is_never(releases), Warning::NeverReleased { tx })
}

fn is_sensor(items: &[ItemDecl], item: ItemId) -> bool
    ensures { result ≡ is_sensor_item items.now item.0 }
{
    match items.get(item.0 as usize) {
        Some(decl) => match decl.kind {
            ItemKind::Sensor { .. } => true,
            ItemKind::Derived { .. } | ItemKind::State => false,
        },
        None => false,
    }
}

fn is_unread(txns: &[TxnDecl], item: ItemId) -> bool
    ensures { result ≡ is_unread_item txns.now item.0 }
{
    for txn in txns {
        if names_item(txn.reads.as_slice(), item) {
            return false;
        }
    }
    true
}

fn is_unwritten(txns: &[TxnDecl], item: ItemId) -> bool
    ensures { result ≡ is_unwritten_item txns.now item.0 }
{
    for txn in txns {
        if names_item(txn.writes.as_slice(), item) {
            return false;
        }
    }
    true
}

/// The warnings of an item, by a step for each declared item of each transaction.
pub(crate) fn put_item(
    out: &mut Vec<Warning>,
    items: &[ItemDecl],
    txns: &[TxnDecl],
    item: ItemId,
) -> Result<(), OutOfMemory>
    ensures { OnOk result (out.new.items ≡ out.old.items ++ of_item items.now txns.now item.0) }
{
    let unread = is_unread(txns, item);
    let unused = unread && is_unwritten(txns, item);
    put(
        out,
        is_sensor(items, item) && unread,
        Warning::Unread { item },
    )?;
    put(out, unused, Warning::Unused { item })
}
