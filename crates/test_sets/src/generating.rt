//! The generated sets.
ghost use Rattle.std.specs.Prelude.{◌<◌};

use crate::plain::{from_tick, list, plain_txn};
use crate::range::compile_in_range;
use item_model::{ItemDecl, ItemKind};
use rt_base::{ItemId, OutOfMemory, Tick};
use std::alloc::Global;
use txn_compiler::CompileError;
use txn_set::{CompiledSet, TxnDecl};

// The transaction at this place of the generated set of n, which reads and writes these.
fn generated_of(
    alloc: Global,
    n: u32,
    i: u32,
    reads: &[ItemId],
    writes: &[ItemId],
) -> Result<TxnDecl, OutOfMemory>
    requires { i < n }
{
    let reads = list(alloc, reads)?;
    let writes = list(alloc, writes)?;
    let txn = plain_txn(n - i, 8 * (n as Tick) + 8, 4, reads, writes);
    Ok(from_tick(txn, 3 * ((n - 1 - i) as Tick)))
}

// The transaction at this place.
fn generated_txn(alloc: Global, n: u32, i: u32) -> Result<TxnDecl, OutOfMemory>
    requires { i < n }
{
    let own = ItemId(i);
    if i % 2 == 0 {
        generated_of(alloc, n, i, &[], &[own])
    } else {
        generated_of(alloc, n, i, &[ItemId(i - 1)], &[own, ItemId(n)])
    }
}

// The item at this place.
fn generated_item(n: u32, i: u32) -> ItemDecl
    requires { i < n }
{
    let validity = 4 * (8 * (n as Tick) + 8);
    let kind = if i % 2 == 0 {
        ItemKind::Sensor { validity }
    } else {
        ItemKind::Derived { validity }
    };
    ItemDecl { kind, initial: 0 }
}

// Declares the items and transactions of the generated set of n.
fn declare(
    alloc: Global,
    n: u32,
    items: &mut Vec<ItemDecl>,
    txns: &mut Vec<TxnDecl>,
) -> Result<(), OutOfMemory> {
    for i in 0..n {
        items.push(generated_item(n, i))?;
        txns.push(generated_txn(alloc, n, i)?)?;
    }
    items.push(ItemDecl {
        kind: ItemKind::State,
        initial: 0,
    })?;
    Ok(())
}

/// The generated set of n transactions, of period T = 8n + 8. Item i is a sensor where i is even, else derived, of
/// validity 4T; item n is a state item. Transaction i has the priority n - i, is first released at 3 (n - 1 - i), and has 4
/// steps. For an even i it writes item i; for an odd i it reads item i - 1 and writes the items i and n. None where it does not
/// compile, as where n is 0 or above 64.
pub fn generated(alloc: Global, n: u32) -> Result<Option<CompiledSet>, OutOfMemory> {
    let mut items = Vec::new(alloc);
    let mut txns = Vec::new(alloc);
    if let Err(error) = declare(alloc, n, &mut items, &mut txns) {
        drop(items);
        drop(txns);
        return Err(error);
    }
    match compile_in_range(alloc, items, txns, Vec::new(alloc)) {
        Some(Ok(set)) => Ok(Some(set)),
        Some(Err(CompileError::OutOfMemory)) => Err(OutOfMemory),
        _ => Ok(None),
    }
}
