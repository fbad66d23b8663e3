//! The tables from which a set is made, as a program in C writes them: rows of plain numbers. A list of items stands in
//! one table of numbers for all rows.
ghost use Rattle.std.specs.Prelude.{◌≡◌, ◌<◌, ◌≤◌, ◌+◌, length, map, None, IfOk, IfErr, IfNone, IfSome, IsTrue, ◌↔◌};
ghost use Rattle.std.specs.List.{All};
ghost use Rattle.txn_compiler.specs.Kept.{kept};
ghost use Rattle.txn_compiler.specs.Refusal.{compile_refusal};
ghost use Rattle.c_forms.specs.Refusals.{IsFirstBreach, WhyNotCompiled};
ghost use Rattle.c_forms.specs.Rows.{kind_of_row, item_of_row, ids_at, txn_of_row, together_of_row, set_of_tables, IsKind, TxnFits, TogetherFits, FitTables};

use crate::refusals::Refused;
use item_model::{ItemDecl, ItemKind};
use rt_base::{ItemId, List, OutOfMemory, TogetherDecl};
use std::alloc::Global;
use txn_compiler::compile;
use txn_set::{CompiledSet, TxnDecl};

/// An item: `kind` is 0 for a sensor item, 1 for a derived one, 2 for a state item. The validity is in ticks; that of a
/// state item is not read.
#[repr(C)]
#[derive(Clone, Copy)]
pub struct ItemRow {
    pub kind: u32,
    pub validity: u64,
    pub initial: i64,
}

/// A transaction: its times in ticks, and of each of its lists the place in the numbers at which it begins, and its length.
#[repr(C)]
#[derive(Clone, Copy)]
pub struct TxnRow {
    pub prio: u32,
    pub reads_at: u32,
    pub reads: u32,
    pub writes_at: u32,
    pub writes: u32,
    pub period: u64,
    pub offset: u64,
    pub deadline: u64,
    pub steps: u64,
    pub quiet: u64,
}

/// A relative set: the place of its list in the numbers, its length, and its interval in ticks.
#[repr(C)]
#[derive(Clone, Copy)]
pub struct TogetherRow {
    pub items_at: u32,
    pub items: u32,
    pub within: u64,
}

fn kind_of(row: ItemRow) -> ItemKind
    ensures { result ≡ kind_of_row row }
{
    if row.kind == 0 {
        ItemKind::Sensor {
            validity: row.validity,
        }
    } else if row.kind == 1 {
        ItemKind::Derived {
            validity: row.validity,
        }
    } else {
        ItemKind::State
    }
}

fn item_of(row: ItemRow) -> ItemDecl
    ensures { result ≡ item_of_row row }
{
    ItemDecl {
        kind: kind_of(row),
        initial: row.initial,
    }
}

fn items_of(alloc: Global, rows: &[ItemRow]) -> Result<Vec<ItemDecl>, OutOfMemory>
    ensures { IfOk result (λ items. items.items ≡ map item_of_row rows.now) }
{
    let mut items = Vec::with_capacity(alloc, rows.len())?;
    for row in rows {
        items.push(item_of(*row))?;
    }
    Ok(items)
}

fn item_id(id: u32) -> ItemId
    ensures { result ≡ record { 0 = id } }
{
    ItemId(id)
}

// The list of items that stands from a place on.
fn list_at(alloc: Global, ids: &[u32], at: u32, count: u32) -> Result<List<ItemId>, OutOfMemory>
    requires { at + count ≤ length ids.now }
    ensures { IfOk result (λ list. list ≡ ids_at ids.now at count) }
{
    let mut list = Vec::with_capacity(alloc, count as usize)?;
    let from = at as usize;
    for id in &ids[from..from + count as usize] {
        list.push(item_id(*id))?;
    }
    Ok(List::of(list))
}

fn txn_of(alloc: Global, ids: &[u32], row: &TxnRow) -> Result<TxnDecl, OutOfMemory>
    requires { TxnFits (length ids.now) row.now }
    ensures { IfOk result (λ txn. txn ≡ txn_of_row ids.now row.now) }
{
    let reads = list_at(alloc, ids, row.reads_at, row.reads)?;
    let writes = list_at(alloc, ids, row.writes_at, row.writes)?;
    Ok(TxnDecl {
        prio: row.prio,
        period: row.period,
        offset: row.offset,
        deadline: row.deadline,
        steps: row.steps,
        quiet: row.quiet,
        reads,
        writes,
    })
}

fn txns_of(alloc: Global, ids: &[u32], rows: &[TxnRow]) -> Result<Vec<TxnDecl>, OutOfMemory>
    requires { All (TxnFits (length ids.now)) rows.now }
    ensures { IfOk result (λ txns. txns.items ≡ map (txn_of_row ids.now) rows.now) }
{
    let mut txns = Vec::with_capacity(alloc, rows.len())?;
    for row in rows {
        txns.push(txn_of(alloc, ids, row)?)?;
    }
    Ok(txns)
}

fn together_of(alloc: Global, ids: &[u32], row: &TogetherRow) -> Result<TogetherDecl, OutOfMemory>
    requires { TogetherFits (length ids.now) row.now }
    ensures { IfOk result (λ together. together ≡ together_of_row ids.now row.now) }
{
    Ok(TogetherDecl {
        items: list_at(alloc, ids, row.items_at, row.items)?,
        within: row.within,
    })
}

fn togethers_of(
    alloc: Global,
    ids: &[u32],
    rows: &[TogetherRow],
) -> Result<Vec<TogetherDecl>, OutOfMemory>
    requires { All (TogetherFits (length ids.now)) rows.now }
    ensures { IfOk result (λ together. together.items ≡ map (together_of_row ids.now) rows.now) }
{
    let mut together = Vec::with_capacity(alloc, rows.len())?;
    for row in rows {
        together.push(together_of(alloc, ids, row)?)?;
    }
    Ok(together)
}

// The first row whose kind is none.
fn bad_kind(rows: &[ItemRow]) -> Option<usize>
    ensures none { IfNone result (All IsKind rows.now) }
    ensures some { IfSome result (IsFirstBreach IsKind rows.now) }
{
    for (place, row) in rows.iter().enumerate() {
        if row.kind > 2 {
            return Some(place);
        }
    }
    None
}

// The first number that names no item.
fn bad_number(ids: &[u32], count: usize) -> Option<usize>
    ensures none { IfNone result (All (λ i. i < count) ids.now) }
    ensures some { IfSome result (IsFirstBreach (λ i. i < count) ids.now) }
{
    for (place, id) in ids.iter().enumerate() {
        if *id as usize >= count {
            return Some(place);
        }
    }
    None
}

fn is_within(at: u32, count: u32, length: usize) -> bool
    ensures { IsTrue result ↔ at + count ≤ length }
{
    at as u64 + count as u64 <= length as u64
}

// The first row whose lists do not lie within the numbers.
fn bad_txn(rows: &[TxnRow], count: usize) -> Option<usize>
    ensures none { IfNone result (All (TxnFits count) rows.now) }
    ensures some { IfSome result (IsFirstBreach (TxnFits count) rows.now) }
{
    for (place, row) in rows.iter().enumerate() {
        if !is_within(row.reads_at, row.reads, count)
            || !is_within(row.writes_at, row.writes, count)
        {
            return Some(place);
        }
    }
    None
}

fn bad_together(rows: &[TogetherRow], count: usize) -> Option<usize>
    ensures none { IfNone result (All (TogetherFits count) rows.now) }
    ensures some { IfSome result (IsFirstBreach (TogetherFits count) rows.now) }
{
    for (place, row) in rows.iter().enumerate() {
        if !is_within(row.items_at, row.items, count) {
            return Some(place);
        }
    }
    None
}

/// The tables of a set. `ids` has the numbers of items of which the lists of all rows are made.
#[repr(C)]
#[derive(Clone, Copy)]
pub struct Tables<'a> {
    pub items: &'a [ItemRow],
    pub txns: &'a [TxnRow],
    pub together: &'a [TogetherRow],
    pub ids: &'a [u32],
}

/// The compiled set of these tables. Else the first row or number that is bad, looked for in the kinds of the items, the
/// numbers, the transactions and the relative sets; or else the first rule that the set breaks. OutOfMemory may come in
/// place of each.
pub fn compiled(alloc: Global, tables: &Tables) -> Result<CompiledSet, Refused>
    ensures set { IfOk result (λ s. s ≡ kept (set_of_tables tables.now)) }
    ensures passed { IfOk result (λ s. (compile_refusal s ≡ None) × FitTables tables.now) }
    ensures refused { IfErr result (WhyNotCompiled tables.now) }
{
    let count = tables.ids.len();
    if let Some(row) = bad_kind(tables.items) {
        return Err(Refused::BadKind { row });
    }
    if let Some(place) = bad_number(tables.ids, tables.items.len()) {
        return Err(Refused::BadNumber { place });
    }
    if let Some(row) = bad_txn(tables.txns, count) {
        return Err(Refused::BadTxn { row });
    }
    if let Some(row) = bad_together(tables.together, count) {
        return Err(Refused::BadTogether { row });
    }
    let items = items_of(alloc, tables.items)?;
    let txns = txns_of(alloc, tables.ids, tables.txns)?;
    let together = togethers_of(alloc, tables.ids, tables.together)?;
    match compile(alloc, items, txns, together) {
        Ok(set) => Ok(set),
        Err(refusal) => Err(Refused::NotCompiled(refusal)),
    }
}
