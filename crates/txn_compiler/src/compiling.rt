//! Judging declarations by the rules, in their order, and compiling them.
ghost use Rattle.std.specs.Prelude.{◌≡◌, ◌<◌, ◌≤◌, ◌∷◌, [], length, None, IfOk, IfErr};
ghost use Rattle.txn_compiler.specs.Refusal.{first_some, compile_refusal, Refuses};
ghost use Rattle.txn_compiler.specs.Refusal.{too_many_items as too_many_items_of, too_many_txns as too_many_txns_of};
ghost use Rattle.txn_compiler.specs.Refusal.{same_prio as same_prio_of, bad_times as bad_times_of};
ghost use Rattle.txn_compiler.specs.Refusal.{no_writer, two_writers, cyclic_derivation};
ghost use Rattle.txn_compiler.specs.Tables.{txns_refusal};
ghost use Rattle.std.specs.List.{All};
ghost use Rattle.txn_compiler.specs.Kept.{IsInRange, set_of, kept, kept_txns as txns_kept};

use crate::ceilings::ceilings;
use crate::cycle::cyclic;
use crate::error::CompileError;
use crate::graph::Graph;
use crate::judge::{
    bad_times, bad_together, same_prio, too_many_items, too_many_sets, too_many_txns,
};
use crate::keep::{kept_groups, kept_txns};
use item_model::ItemDecl;
use rt_base::TogetherDecl;
use std::alloc::{AllocError, Global};
use txn_set::{CompiledSet, TxnDecl};

fn bad_sizes(items: &[ItemDecl], txns: &[TxnDecl]) -> Option<CompileError>
    ensures { result ≡ first_some (too_many_items_of items.now ∷ too_many_txns_of txns.now ∷ []) }
{
    if let Some(error) = too_many_items(items) {
        return Some(error);
    }
    too_many_txns(txns)
}

fn bad_numbers(txns: &[TxnDecl]) -> Option<CompileError>
    requires { length txns.now ≤ 64 }
    ensures { result ≡ first_some (same_prio_of txns.now ∷ bad_times_of txns.now ∷ []) }
{
    if let Some(error) = same_prio(txns) {
        return Some(error);
    }
    bad_times(txns)
}

fn bad_graph(alloc: Global, graph: &Graph) -> Result<Option<CompileError>, AllocError>
    ensures { let items = graph.now.items in let txns = graph.now.txns in
        IfOk result (λ r. r ≡ first_some (no_writer items txns ∷ two_writers items txns ∷ cyclic_derivation items txns ∷ [])) }
{
    if let Some(error) = graph.no_writer() {
        return Ok(Some(error));
    }
    if let Some(error) = graph.two_writers() {
        return Ok(Some(error));
    }
    cyclic(alloc, graph)
}

// The graph of declarations that meet the rules on items and transactions, with their lists kept in item order.
fn judged_graph(
    alloc: Global,
    items: Vec<ItemDecl>,
    txns: Vec<TxnDecl>,
) -> Result<Graph, CompileError>
    requires reads { All (λ t. All (λ i. i.0 < length items.items) t.reads) txns.items }
    requires writes { All (λ t. All (λ i. i.0 < length items.items) t.writes) txns.items }
    ensures graph { IfOk result (λ g. g ≡ record { items = items.items; txns = txns_kept (length items.items) txns.items }) }
    ensures passed { IfOk result (λ g. txns_refusal items.items (txns_kept (length items.items) txns.items) ≡ None) }
    ensures refused { IfErr result (Refuses (txns_refusal items.items (txns_kept (length items.items) txns.items))) }
{
    if let Some(error) = bad_sizes(&items, &txns) {
        return Err(error);
    }
    let txns = kept_txns(alloc, items.len(), &txns)?;
    if let Some(error) = bad_numbers(&txns) {
        return Err(error);
    }
    let graph = Graph::new(alloc, items, txns)?;
    if let Some(error) = bad_graph(alloc, &graph)? {
        return Err(error);
    }
    Ok(graph)
}

/// The compiled set of these declarations. Each list of items is kept in rising order without repeats; an ItemId is
/// below the number of items. A set is refused by the first rule that it breaks, in the order of CompileError. It takes
/// memory for the lists and for tables of a few rows an item; its time is that of one pass over the declared reads and
/// writes and of one a level of derivation, and more on a set with a cycle.
pub fn compile(
    alloc: Global,
    items: Vec<ItemDecl>,
    txns: Vec<TxnDecl>,
    together: Vec<TogetherDecl>,
) -> Result<CompiledSet, CompileError>
    requires { IsInRange (set_of items.items txns.items together.items) }
    ensures set { IfOk result (λ s. s ≡ kept (set_of items.items txns.items together.items)) }
    ensures passed { IfOk result (λ s. compile_refusal s ≡ None) }
    ensures refused { IfErr result (Refuses (compile_refusal (kept (set_of items.items txns.items together.items)))) }
{
    let graph = judged_graph(alloc, items, txns)?;
    let count = graph.items().len();
    if let Some(error) = too_many_sets(&together) {
        return Err(error);
    }
    let together = kept_groups(alloc, count, &together)?;
    if let Some(error) = bad_together(graph.items(), &together) {
        return Err(error);
    }
    let (items, txns) = graph.into_parts();
    let ceilings = ceilings(alloc, count, &txns)?;
    Ok(CompiledSet::of(items, txns, together, ceilings))
}
