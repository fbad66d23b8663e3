//! The acyclic-derivation rule: the first item that is derived from itself.
ghost use Rattle.std.specs.Prelude.{◌≡◌, ℕ, ◌<◌, ◌≤◌, length, slice_index_or, true, false, not, ◌||◌};
ghost use Rattle.std.specs.Prelude.{IfOk, IfSome, IfNone, None};
ghost use Rattle.std.specs.List.{All, list_all};
ghost use Rattle.item_model.specs.Kinds.{is_dated as is_dated_item};
ghost use Rattle.txn_compiler.specs.Graph.{reaches};
ghost use Rattle.txn_compiler.specs.Tables.{Marks, AreSettled, IsSingle, IsOpen};
ghost use Rattle.txn_compiler.specs.Refusal.{cyclic_at as cyclic_at_item, cyclic_derivation};

use crate::error::CompileError;
use crate::graph::Graph;
use item_model::{ItemDecl, is_dated};
use rt_base::ItemId;
use std::alloc::{AllocError, Global};

// Marks the sensor and derived items among these.
fn mark(items: &[ItemDecl], parents: &[ItemId], marks: &mut [bool])
    requires { All (λ i. i.0 < length marks.old) parents.now }
    ensures { Marks items.now parents.now marks.old marks.new }
{
    for parent in parents {
        if is_dated(items, *parent) {
            marks[parent.0 as usize] = true;
        }
    }
}

// The first item that is reached and whose parents are not marked yet.
fn next_open(reached: &[bool], done: &[bool]) -> Option<usize>
    requires { length done.now ≡ length reached.now }
    ensures none { IfNone result
        ((i : ℕ) → slice_index_or reached.now i false ≡ true → slice_index_or done.now i false ≡ true) }
    ensures some { IfSome result (IsOpen reached.now done.now) }
{
    for item in 0..reached.len() {
        if reached[item] && !done[item] {
            return Some(item);
        }
    }
    None
}

// Whether the sensor and derived items among these are all settled.
fn are_settled(items: &[ItemDecl], parents: &[ItemId], settled: &[bool]) -> bool
    requires { All (λ i. i.0 < length settled.now) parents.now }
    ensures { result
        ≡ list_all (λ i. not (is_dated_item items.now i.0) || slice_index_or settled.now i.0 false) parents.now }
{
    for parent in parents {
        if is_dated(items, *parent) && !settled[parent.0 as usize] {
            return false;
        }
    }
    true
}

// Settles an item whose parents are all settled. Whether it did.
fn settle_item(graph: &Graph, settled: &mut [bool], item: usize) -> bool
    requires item { item < length graph.now.items }
    requires one_each { length settled.old ≡ length graph.now.items }
    requires single { IsSingle graph.now.items graph.now.txns }
    requires settled { AreSettled graph.now.items graph.now.txns settled.old }
    ensures { AreSettled graph.now.items graph.now.txns settled.new }
{
    if settled[item] || !are_settled(graph.items(), graph.parents(item), settled) {
        return false;
    }
    settled[item] = true;
    true
}

// Settles further items, each in turn. Whether there was one.
fn settle(graph: &Graph, settled: &mut [bool]) -> bool
    requires one_each { length settled.old ≡ length graph.now.items }
    requires single { IsSingle graph.now.items graph.now.txns }
    requires settled { AreSettled graph.now.items graph.now.txns settled.old }
    ensures { AreSettled graph.now.items graph.now.txns settled.new }
{
    let mut more = false;
    for item in 0..settled.len() {
        more |= settle_item(graph, settled, item);
    }
    more
}

// Whether an item reaches itself: it marks what the item reaches, one reached item's parents after another.
fn search(graph: &Graph, start: usize, reached: &mut [bool], done: &mut [bool]) -> bool
    requires start { start < length graph.now.items }
    requires single { IsSingle graph.now.items graph.now.txns }
    requires one_each { length reached.old ≡ length graph.now.items }
    requires one_for_each { length done.old ≡ length graph.now.items }
    requires none_reached { All (λ b. b ≡ false) reached.old }
    requires none_done { All (λ b. b ≡ false) done.old }
    ensures { result ≡ reaches graph.now.items graph.now.txns start start }
{
    mark(graph.items(), graph.parents(start), reached);
    while let Some(item) = next_open(reached, done) {
        mark(graph.items(), graph.parents(item), reached);
        done[item] = true;
    }
    reached[start]
}

// Settles level after level; it ends at the first round that settles nothing.
fn settled_items(alloc: Global, graph: &Graph) -> Result<Vec<bool>, AllocError>
    requires { IsSingle graph.now.items graph.now.txns }
    ensures one_each { IfOk result (λ settled. length settled.items ≡ length graph.now.items) }
    ensures settled { IfOk result (λ settled. AreSettled graph.now.items graph.now.txns settled.items) }
{
    let count = graph.items().len();
    let mut settled = vec![in alloc; false; count]?;
    for _ in 0..count {
        if !settle(graph, &mut settled) {
            break;
        }
    }
    Ok(settled)
}

// Whether an item reaches itself.
fn reaches_itself(alloc: Global, graph: &Graph, item: usize) -> Result<bool, AllocError>
    requires item { item < length graph.now.items }
    requires single { IsSingle graph.now.items graph.now.txns }
    ensures { IfOk result (λ r. r ≡ reaches graph.now.items graph.now.txns item item) }
{
    let count = graph.items().len();
    let mut reached = vec![in alloc; false; count]?;
    let mut done = vec![in alloc; false; count]?;
    Ok(search(graph, item, &mut reached, &mut done))
}

fn cyclic_at(
    alloc: Global,
    graph: &Graph,
    settled: &[bool],
    place: usize,
) -> Result<Option<CompileError>, AllocError>
    requires place { place < length graph.now.items }
    requires few { length graph.now.items ≤ 256 }
    requires single { IsSingle graph.now.items graph.now.txns }
    requires one_each { length settled.now ≡ length graph.now.items }
    requires settled { AreSettled graph.now.items graph.now.txns settled.now }
    ensures { IfOk result (λ r. r ≡ cyclic_at_item graph.now.items graph.now.txns place) }
{
    if settled[place] || !reaches_itself(alloc, graph, place)? {
        return Ok(None);
    }
    let item = ItemId(place as u32);
    Ok(Some(CompileError::CyclicDerivation { item }))
}

/// The first item that reaches itself. On a set without a cycle it looks at each dependency once a level of
/// derivation; else it searches from each item that may be on a cycle.
pub fn cyclic(alloc: Global, graph: &Graph) -> Result<Option<CompileError>, AllocError>
    requires { IsSingle graph.now.items graph.now.txns }
    ensures { IfOk result (λ r. r ≡ cyclic_derivation graph.now.items graph.now.txns) }
{
    let settled = settled_items(alloc, graph)?;
    let items = graph.items();
    for (place, _) in items.iter().enumerate() {
        if let Some(error) = cyclic_at(alloc, graph, &settled, place)? {
            return Ok(Some(error));
        }
    }
    Ok(None)
}
