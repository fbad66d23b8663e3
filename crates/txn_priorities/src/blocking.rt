//! The blocking at a level: that of each transaction which has no priority yet, with the placed ones below it.
ghost use Rattle.std.specs.Prelude.{◌≡◌, ◌-◌, ◌<◌, ◌≤◌, ◌&&◌, ◌||◌, nat_le, max, not, length, if◌then◌else◌};
ghost use Rattle.std.specs.List.{list_any};
ghost use Rattle.txn_set.specs.Set.{may_read, may_write, txn_of};
ghost use Rattle.txn_set.specs.Ceilings.{write_ceiling, absolute_ceiling, may_block, blocking};
ghost use Rattle.law_times.specs.Pass.{is_placed};
ghost use Rattle.txn_priorities.specs.Around.{around_set};

use rt_base::{ItemId, Prio, TxId};
use txn_set::{CompiledSet, TxnDecl, names_item};

/// Whether a transaction has no priority yet.
pub fn is_free(prios: &[Prio], tx: usize) -> bool
    requires { tx < length prios.now }
    ensures { result ≡ not (is_placed prios.now tx) }
{
    prios[tx] == 0
}

// Whether a transaction has no priority yet, and may write the item.
fn is_free_writer(set: &CompiledSet, prios: &[Prio], tx: usize, item: ItemId) -> bool
    requires one_each { length prios.now ≡ length set.now.txns }
    requires tx { tx < length set.now.txns }
    ensures { result ≡ (not (is_placed prios.now tx) && may_write (txn_of set.now tx) item.0) }
{
    set.is_compiled();
    is_free(prios, tx) && names_item(set.txn(TxId(tx as u32)).writes.as_slice(), item)
}

// Whether a transaction has no priority yet, and may read or write the item.
fn is_free_user(set: &CompiledSet, prios: &[Prio], tx: usize, item: ItemId) -> bool
    requires one_each { length prios.now ≡ length set.now.txns }
    requires tx { tx < length set.now.txns }
    ensures { result ≡ (not (is_placed prios.now tx) && (may_read (txn_of set.now tx) item.0 || may_write (txn_of set.now tx) item.0)) }
{
    set.is_compiled();
    is_free(prios, tx) && uses(set.txn(TxId(tx as u32)), item)
}

fn uses(txn: &TxnDecl, item: ItemId) -> bool
    ensures { result ≡ (may_read txn.now item.0 || may_write txn.now item.0) }
{
    names_item(txn.reads.as_slice(), item) || names_item(txn.writes.as_slice(), item)
}

fn is_written_above(set: &CompiledSet, prios: &[Prio], item: ItemId) -> bool
    requires { length prios.now ≡ length set.now.txns }
    ensures { result ≡ nat_le 2 (write_ceiling (around_set set.now prios.now) item.0) }
{
    for tx in 0..prios.len() {
        if is_free_writer(set, prios, tx, item) {
            return true;
        }
    }
    false
}

fn is_used_above(set: &CompiledSet, prios: &[Prio], item: ItemId) -> bool
    requires { length prios.now ≡ length set.now.txns }
    ensures { result ≡ nat_le 2 (absolute_ceiling (around_set set.now prios.now) item.0) }
{
    for tx in 0..prios.len() {
        if is_free_user(set, prios, tx, item) {
            return true;
        }
    }
    false
}

fn any_written_above(set: &CompiledSet, prios: &[Prio], items: &[ItemId]) -> bool
    requires { length prios.now ≡ length set.now.txns }
    ensures { result ≡ list_any (λ i. nat_le 2 (write_ceiling (around_set set.now prios.now) i.0)) items.now }
{
    for item in items {
        if is_written_above(set, prios, *item) {
            return true;
        }
    }
    false
}

fn any_used_above(set: &CompiledSet, prios: &[Prio], items: &[ItemId]) -> bool
    requires { length prios.now ≡ length set.now.txns }
    ensures { result ≡ list_any (λ i. nat_le 2 (absolute_ceiling (around_set set.now prios.now) i.0)) items.now }
{
    for item in items {
        if is_used_above(set, prios, *item) {
            return true;
        }
    }
    false
}

// Whether a transaction may hold a lock that blocks the level.
fn blocks_above(set: &CompiledSet, prios: &[Prio], txn: &TxnDecl) -> bool
    requires { length prios.now ≡ length set.now.txns }
    ensures { result ≡ may_block (around_set set.now prios.now) 2 txn.now }
{
    any_written_above(set, prios, txn.reads.as_slice())
        || any_used_above(set, prios, txn.writes.as_slice())
}

// For how many steps a transaction may block the level; 0 if it is not placed.
fn blocking_by(set: &CompiledSet, prios: &[Prio], tx: usize) -> u64
    requires one_each { length prios.now ≡ length set.now.txns }
    requires tx { tx < length set.now.txns }
    ensures is { result ≡ (if is_placed prios.now tx && may_block (around_set set.now prios.now) 2 (txn_of set.now tx) then (txn_of set.now tx).steps - (txn_of set.now tx).quiet - 1 else 0) }
    ensures few { result ≤ 9999 }
{
    set.is_compiled();
    let txn = set.txn(TxId(tx as u32));
    if !is_free(prios, tx) && blocks_above(set, prios, txn) {
        txn.steps - txn.quiet - 1
    } else {
        0
    }
}

fn greater(first: u64, second: u64) -> u64
    ensures { result ≡ max first second }
{
    first.max(second)
}

/// The blocking at the level, in steps. It searches the items of the placed transactions among those of the others.
pub fn blocking_above(set: &CompiledSet, prios: &[Prio]) -> u64
    requires { length prios.now ≡ length set.now.txns }
    ensures is { result ≡ blocking (around_set set.now prios.now) 2 }
    ensures few { result ≤ 9999 }
{
    let mut greatest = 0;
    for tx in 0..prios.len() {
        greatest = greater(greatest, blocking_by(set, prios, tx));
    }
    greatest
}
