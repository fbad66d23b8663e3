//! From forms to a scenario.
ghost use Rattle.std.specs.Prelude.{◌≡◌, [], ◌∷◌, ◌++◌, IfOk, OnOk, length, map};
ghost use Rattle.std.specs.List.{All};
ghost use Rattle.step_script.specs.Scripts.{operation, program_of, IsTold};
ghost use Rattle.step_script.specs.Shown.{shown};
ghost use Rattle.scenario_forms.specs.Ops.{op_view};
ghost use Rattle.scenario_forms.specs.Txns.{txn_view};
ghost use Rattle.scenario_forms.specs.Sets.{set_view};
ghost use Rattle.scenario_forms.specs.Root.{forms_view};
ghost use Rattle.scenario_reader.specs.Made.{decl_of, group_of, ops_of, program_from, made_of, IsBegun, HasGoodScript};

use crate::item_order::in_item_order;
use rt_base::{List, Names, OutOfMemory, TogetherDecl};
use scenario_forms::{Forms, ItemTable, ReadOp, ReadSet, ReadTxn, TxnTable};
use std::alloc::Global;
use step_script::{Releases, Scenario, Script, ScriptOp};
use txn_set::TxnDecl;

// What transactions declare, by their places.
#[derive(Drop)]
struct TxnParts {
    txns: Vec<TxnDecl>,
    scripts: Vec<Script>,
    releases: Vec<Releases>,
}

// The operations alone.
fn operations(alloc: Global, script: Vec<ReadOp>) -> Result<Vec<ScriptOp>, OutOfMemory>
    ensures { IfOk result (λ ops. map operation ops.items ≡ ops_of (map op_view script.items)) }
{
    let mut ops = Vec::new(alloc);
    for read in script {
        let ReadOp { op, known: _ } = read;
        ops.push(op)?;
    }
    Ok(ops)
}

// The declaration of a transaction over so many items.
fn declared(alloc: Global, items: usize, txn: &ReadTxn) -> Result<TxnDecl, OutOfMemory>
    ensures { IfOk result (λ decl. decl ≡ decl_of items (txn_view txn.now)) }
{
    let reads = in_item_order(alloc, items, &txn.reads)?;
    let writes = in_item_order(alloc, items, &txn.writes)?;
    Ok(TxnDecl {
        prio: txn.times.prio,
        period: txn.times.period,
        offset: txn.times.offset,
        deadline: txn.times.deadline,
        steps: txn.times.steps,
        quiet: txn.times.quiet,
        reads: List::of(reads),
        writes: List::of(writes),
    })
}

// The script of a transaction, and its releases.
fn scripted(alloc: Global, items: usize, txn: ReadTxn) -> Result<(Script, Releases), OutOfMemory>
    requires { HasGoodScript items (txn_view txn) }
    ensures program { IfOk result (λ p. program_of p.0 ≡ program_from items (txn_view txn)) }
    ensures releases { IfOk result (λ p. p.1 ≡ (txn_view txn).releases) }
    ensures begun { IfOk result (λ p. IsTold p.0 0 []) }
{
    let ReadTxn {
        times: _,
        reads: _,
        writes: _,
        releases,
        samples,
        script,
    } = txn;
    let ops = operations(alloc, script)?;
    let script = Script::new(alloc, ops, samples, items)?;
    Ok((script, releases))
}

impl TxnParts {
    // One more transaction.
    fn add(&mut self, alloc: Global, items: usize, txn: ReadTxn) -> Result<(), OutOfMemory>
        requires { HasGoodScript items (txn_view txn) }
        ensures txns { OnOk result (self.new.txns.items ≡ self.old.txns.items ++ decl_of items (txn_view txn) ∷ []) }
        ensures programs { OnOk result (map program_of self.new.scripts.items ≡
            map program_of self.old.scripts.items ++ program_from items (txn_view txn) ∷ []) }
        ensures releases { OnOk result (self.new.releases.items ≡
            self.old.releases.items ++ (txn_view txn).releases ∷ []) }
        ensures begun { OnOk result (All (λ s. IsTold s 0 []) self.old.scripts.items →
            All (λ s. IsTold s 0 []) self.new.scripts.items) }
    {
        let decl = declared(alloc, items, &txn)?;
        let (script, releases) = scripted(alloc, items, txn)?;
        self.txns.push(decl)?;
        self.scripts.push(script)?;
        self.releases.push(releases)?;
        Ok(())
    }
}

// What transactions declare over so many items.
fn parts(alloc: Global, items: usize, txns: Vec<ReadTxn>) -> Result<TxnParts, OutOfMemory>
    requires { All (HasGoodScript items) (map txn_view txns.items) }
    ensures txns { IfOk result (λ p. p.txns.items ≡ map (decl_of items) (map txn_view txns.items)) }
    ensures programs { IfOk result (λ p. map program_of p.scripts.items ≡
        map (program_from items) (map txn_view txns.items)) }
    ensures releases { IfOk result (λ p. p.releases.items ≡ map (λ t. t.releases) (map txn_view txns.items)) }
    ensures begun { IfOk result (λ p. All (λ s. IsTold s 0 []) p.scripts.items) }
{
    let mut parts = TxnParts {
        txns: Vec::new(alloc),
        scripts: Vec::new(alloc),
        releases: Vec::new(alloc),
    };
    for txn in txns {
        parts.add(alloc, items, txn)?;
    }
    Ok(parts)
}

fn group(alloc: Global, items: usize, set: &ReadSet) -> Result<TogetherDecl, OutOfMemory>
    ensures { IfOk result (λ g. g ≡ group_of items (set_view set.now)) }
{
    let named = in_item_order(alloc, items, &set.items)?;
    Ok(TogetherDecl {
        items: List::of(named),
        within: set.within,
    })
}

// The relative sets.
fn groups(alloc: Global, items: usize, sets: &[ReadSet]) -> Result<Vec<TogetherDecl>, OutOfMemory>
    ensures { IfOk result (λ groups. groups.items ≡ map (group_of items) (map set_view sets.now)) }
{
    let mut found = Vec::new(alloc);
    for set in sets {
        let group = group(alloc, items, set)?;
        found.push(group)?;
    }
    Ok(found)
}

/// The scenario that forms declare, with no room yet. It is linear in them but for the sorts of reads, writes and
/// relative sets, and takes for each transaction a place for each item that its script reads.
pub(crate) fn made(alloc: Global, forms: Forms) -> Result<Scenario, OutOfMemory>
    requires { All (HasGoodScript (length forms.items.decls.items)) (map txn_view forms.txns.txns.items) }
    ensures made { IfOk result (λ s. shown s ≡ made_of (forms_view forms)) }
    ensures begun { IfOk result IsBegun }
{
    let Forms {
        version: _,
        items,
        txns,
        sets,
    } = forms;
    let ItemTable {
        names: item_names,
        decls,
    } = items;
    let TxnTable {
        names: txn_names,
        txns,
    } = txns;
    let together = groups(alloc, decls.len(), &sets)?;
    let TxnParts {
        txns,
        scripts,
        releases,
    } = parts(alloc, decls.len(), txns)?;
    Ok(Scenario {
        names: Names {
            items: List::of(item_names.into_names()),
            txns: List::of(txn_names.into_names()),
        },
        items: List::of(decls),
        txns: List::of(txns),
        together: List::of(together),
        scripts: List::of(scripts),
        releases: List::of(releases),
        room: 0,
    })
}
