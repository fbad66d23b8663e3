//! The rules that need no table: the limits, distinct priorities, time ranges, and relative sets.
ghost use Rattle.std.specs.Prelude.{◌≡◌, ◌≤◌, ◌<◌, length};
ghost use Rattle.std.specs.List.{All, list_all};
ghost use Rattle.item_model.specs.Kinds.{is_dated as is_dated_item};
ghost use Rattle.txn_compiler.specs.Refusal.{is_within as is_number_within, first_with as first_place_with};
ghost use Rattle.txn_compiler.specs.Refusal.{bad_time as bad_time_of, is_bad_group as is_bad};
ghost use Rattle.txn_compiler.specs.Refusal.{same_prio as same_prio_of, bad_times as bad_times_of};
ghost use Rattle.txn_compiler.specs.Refusal.{bad_together as bad_together_of, too_many_items as too_many_items_of};
ghost use Rattle.txn_compiler.specs.Refusal.{too_many_txns as too_many_txns_of, too_many_sets as too_many_sets_of};

use crate::error::{CompileError, Which};
use item_model::{ItemDecl, is_dated};
use rt_base::{ItemId, Prio, TogetherDecl, TxId};
use txn_set::TxnDecl;

const MOST_ITEMS: usize = 256;

const MOST_TXNS: usize = 64;

const MOST_SETS: usize = 64;

pub fn too_many_items(items: &[ItemDecl]) -> Option<CompileError>
    ensures { result ≡ too_many_items_of items.now }
{
    let count = items.len();
    if count > MOST_ITEMS {
        return Some(CompileError::TooManyItems { count });
    }
    None
}

pub fn too_many_txns(txns: &[TxnDecl]) -> Option<CompileError>
    ensures { result ≡ too_many_txns_of txns.now }
{
    let count = txns.len();
    if count > MOST_TXNS {
        return Some(CompileError::TooManyTxns { count });
    }
    None
}

pub fn too_many_sets(together: &[TogetherDecl]) -> Option<CompileError>
    ensures { result ≡ too_many_sets_of together.now }
{
    let count = together.len();
    if count > MOST_SETS {
        return Some(CompileError::TooManySets { count });
    }
    None
}

// The place of the first transaction with this priority, or their number where there is none.
fn first_with(txns: &[TxnDecl], prio: Prio) -> usize
    ensures { result ≡ first_place_with txns.now prio }
{
    for (place, txn) in txns.iter().enumerate() {
        if txn.prio == prio {
            return place;
        }
    }
    txns.len()
}

pub fn same_prio(txns: &[TxnDecl]) -> Option<CompileError>
    requires { length txns.now ≤ 64 }
    ensures { result ≡ same_prio_of txns.now }
{
    for (tx, txn) in txns.iter().enumerate() {
        let first = first_with(txns, txn.prio);
        if first < tx {
            return Some(CompileError::SamePrio {
                a: TxId(first as u32),
                b: TxId(tx as u32),
            });
        }
    }
    None
}

fn is_within(low: u64, n: u64, high: u64) -> bool
    ensures { result ≡ is_number_within low n high }
{
    low <= n && n <= high
}

fn bad_time(txn: &TxnDecl) -> Option<Which>
    ensures { result ≡ bad_time_of txn.now }
{
    if !is_within(1, u64::from(txn.prio), 1000) {
        return Some(Which::Prio);
    }
    if !is_within(1, txn.steps, 10000) {
        return Some(Which::Steps);
    }
    if !is_within(1, txn.period, 1 << 30) {
        return Some(Which::Period);
    }
    if !is_within(1, txn.deadline, txn.period) {
        return Some(Which::Deadline);
    }
    if txn.offset > txn.period {
        return Some(Which::Offset);
    }
    if txn.quiet >= txn.steps {
        return Some(Which::Quiet);
    }
    None
}

pub fn bad_times(txns: &[TxnDecl]) -> Option<CompileError>
    requires { length txns.now ≤ 64 }
    ensures { result ≡ bad_times_of txns.now }
{
    for (tx, txn) in txns.iter().enumerate() {
        if let Some(which) = bad_time(txn) {
            return Some(CompileError::BadTimes {
                tx: TxId(tx as u32),
                which,
            });
        }
    }
    None
}

fn are_dated(items: &[ItemDecl], group: &[ItemId]) -> bool
    ensures { result ≡ list_all (λ i. is_dated_item items.now i.0) group.now }
{
    for item in group {
        if !is_dated(items, *item) {
            return false;
        }
    }
    true
}

fn is_bad_group(items: &[ItemDecl], group: &[ItemId]) -> bool
    ensures { result ≡ is_bad items.now group.now }
{
    group.len() < 2 || !are_dated(items, group)
}

pub fn bad_together(items: &[ItemDecl], together: &[TogetherDecl]) -> Option<CompileError>
    ensures { result ≡ bad_together_of items.now together.now }
{
    for (place, group) in together.iter().enumerate() {
        if is_bad_group(items, group.items.as_slice()) {
            return Some(CompileError::BadTogether { set: place });
        }
    }
    None
}
