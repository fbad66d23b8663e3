//! The age bounds of the items.

ghost use Rattle.std.specs.Prelude.{◌≡◌, ◌<◌, length, map, IfOk, IfSome, IfNone};
ghost use Rattle.std.specs.List.{All, filter};
ghost use Rattle.item_model.specs.Kinds.{is_dated as dated};
ghost use Rattle.txn_set.specs.Set.{IsCompiled, txn_of};
ghost use Rattle.law_times.specs.Ages.{writer_of};
ghost use Rattle.set_admission.specs.Bounds.{AreResponsesOf, AreAgesOf};
ghost use Rattle.set_admission.specs.Rows.{age_row, age_rows};

use age_bounds::{AgeRow, ages};
use item_model::{is_dated, is_derived};
use rt_base::{ItemId, List, OutOfMemory, Tick, TxId};
use std::alloc::Global;
use txn_set::{CompiledSet, names_item};

// The place of the first transaction that may write an item; the number of transactions where none may.
fn writer_at(set: &CompiledSet, item: ItemId) -> usize
    ensures { result ≡ writer_of set.now item.0 }
{
    let txns = set.txns();
    for (place, txn) in txns.iter().enumerate() {
        if names_item(txn.writes.as_slice(), item) {
            return place;
        }
    }
    txns.len()
}

fn dated_reads_of(
    alloc: Global,
    set: &CompiledSet,
    reads: &[ItemId],
) -> Result<Vec<usize>, OutOfMemory>
    ensures { IfOk result (λ items. items.items ≡ map (λ i. i.0) (filter (λ i. dated set.now.items i.0) reads.now)) }
{
    let mut items = Vec::new(alloc);
    for item in reads {
        if is_dated(set.items(), *item) {
            items.push(item.0 as usize)?;
        }
    }
    Ok(items)
}

fn age_row_of(
    alloc: Global,
    set: &CompiledSet,
    responses: &[Tick],
    item: ItemId,
) -> Result<AgeRow, OutOfMemory>
    requires compiled { IsCompiled set.now }
    requires responses { AreResponsesOf set.now responses.now }
    ensures { IfOk result (λ row. row ≡ age_row set.now item.0) }
{
    let derived = is_derived(set.items(), item);
    let writer = writer_at(set, item);
    if writer < set.txns().len() {
        let txn = set.txn(TxId(writer as u32));
        let parents = dated_reads_of(alloc, set, txn.reads.as_slice())?;
        Ok(AgeRow {
            derived,
            base: txn.period + responses[writer],
            parents: List::of(parents),
        })
    } else {
        Ok(AgeRow {
            derived,
            base: 0,
            parents: List::of(Vec::new(alloc)),
        })
    }
}

fn age_rows_of(
    alloc: Global,
    set: &CompiledSet,
    responses: &[Tick],
) -> Result<Vec<AgeRow>, OutOfMemory>
    requires compiled { IsCompiled set.now }
    requires responses { AreResponsesOf set.now responses.now }
    ensures { IfOk result (λ rows. rows.items ≡ age_rows set.now) }
{
    let mut rows = Vec::with_capacity(alloc, set.items().len())?;
    for item in 0..set.items().len() {
        let row = age_row_of(alloc, set, responses, ItemId(item as u32))?;
        rows.push(row)?;
    }
    Ok(rows)
}

/// The age bounds of the items, in ticks, from the responses of the transactions.
pub fn ages_of(
    alloc: Global,
    set: &CompiledSet,
    responses: &[Tick],
) -> Result<Vec<Tick>, OutOfMemory>
    requires compiled { IsCompiled set.now }
    requires responses { AreResponsesOf set.now responses.now }
    ensures { IfOk result (λ answers. AreAgesOf set.now answers.items) }
{
    let rows = age_rows_of(alloc, set, responses)?;
    ages(alloc, &rows)
}
