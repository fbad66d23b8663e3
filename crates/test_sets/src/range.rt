//! Declarations in range, and what compiling them gives.
ghost use Rattle.std.specs.Prelude.{◌≡◌, ◌<◌, ◌&&◌, true, nat_lt};
ghost use Rattle.std.specs.List.{list_all};
ghost use Rattle.txn_compiler.specs.Kept.{IsInRange, set_of};

use item_model::ItemDecl;
use rt_base::{ItemId, TogetherDecl};
use std::alloc::Global;
use txn_compiler::{CompileError, compile};
use txn_set::{CompiledSet, TxnDecl};

fn are_below(count: usize, items: &[ItemId]) -> bool
    ensures { result ≡ list_all (λ i. nat_lt i.0 count) items.now }
{
    for item in items {
        if item.0 as usize >= count {
            return false;
        }
    }
    true
}

fn txns_below(count: usize, txns: &[TxnDecl]) -> bool
    ensures { let inside = list_all (λ i. nat_lt i.0 count) in
        result ≡ list_all (λ t. inside t.reads && inside t.writes) txns.now }
{
    for txn in txns {
        if !(are_below(count, txn.reads.as_slice()) && are_below(count, txn.writes.as_slice())) {
            return false;
        }
    }
    true
}

fn groups_below(count: usize, groups: &[TogetherDecl]) -> bool
    ensures { result ≡ list_all (λ g. list_all (λ i. nat_lt i.0 count) g.items) groups.now }
{
    for group in groups {
        if !are_below(count, group.items.as_slice()) {
            return false;
        }
    }
    true
}

/// Whether each item that is named is one of the items.
pub fn are_in_range(items: &[ItemDecl], txns: &[TxnDecl], together: &[TogetherDecl]) -> bool
    ensures { result ≡ true → IsInRange (set_of items.now txns.now together.now) }
{
    let count = items.len();
    if txns_below(count, txns) {
        groups_below(count, together)
    } else {
        false
    }
}

/// What compiling gives. None where an item is out of range.
pub fn compile_in_range(
    alloc: Global,
    items: Vec<ItemDecl>,
    txns: Vec<TxnDecl>,
    together: Vec<TogetherDecl>,
) -> Option<Result<CompiledSet, CompileError>> {
    if are_in_range(&items, &txns, &together) {
        Some(compile(alloc, items, txns, together))
    } else {
        None
    }
}
