//! The warnings of a scenario.
ghost use Rattle.std.specs.Prelude.{◌≡◌, ◌<◌, ◌≤◌, ◌^◌, ◌↔◌, ◌++◌, map, length, IfOk, OnOk};
ghost use Rattle.std.specs.List.{All, Contains};
ghost use Rattle.step_script.specs.Scripts.{program_of};
ghost use Rattle.txn_set.specs.Set.{txn_of};
ghost use Rattle.step_script.specs.Shown.{shown, set_of};
ghost use Rattle.step_script.specs.Scenarios.{IsScenario, IsProgramOver};
ghost use Rattle.scenario_check.specs.declared.kinds.Warning.{Warning as Told};
ghost use Rattle.scenario_check.specs.Warnings.{below, of_txn, of_item, warnings_of};
ghost use Rattle.scenario_check.specs.Holding.{Holds};

use crate::kinds::Warning;
use crate::scripts::put_script;
use crate::uses::{put_item, put_releases};
use item_model::ItemDecl;
use rt_base::{ItemId, OutOfMemory, TxId};
use std::alloc::Global;
use step_script::Scenario;
use txn_set::TxnDecl;

// The warnings of a transaction.
fn put_txn(
    alloc: Global,
    out: &mut Vec<Warning>,
    scenario: &Scenario,
    tx: usize,
) -> Result<(), OutOfMemory>
    requires in_range { tx < length scenario.now.txns }
    requires few { length scenario.now.txns ≤ 2 ^ 32 }
    requires scripted { length scenario.now.scripts ≡ length scenario.now.txns }
    requires released { length scenario.now.releases ≡ length scenario.now.txns }
    requires good { All (IsProgramOver (length scenario.now.items)) (shown scenario.now).programs }
    ensures { OnOk result (out.new.items ≡ out.old.items ++ of_txn (shown scenario.now) tx) }
{
    let items = scenario.items.as_slice();
    let txn = &scenario.txns.as_slice()[tx];
    let ops = scenario.scripts.as_slice()[tx].ops();
    let releases = &scenario.releases.as_slice()[tx];
    let id = TxId(tx as u32);
    put_script(alloc, out, id, txn, ops, items.len())?;
    put_releases(out, items, id, txn, releases)
}

// The warnings of the items.
#[tactic(auto, using(crate::proofs::Below::one_more))]
fn put_items(
    out: &mut Vec<Warning>,
    items: &[ItemDecl],
    txns: &[TxnDecl],
) -> Result<(), OutOfMemory>
    requires { length items.now ≤ 2 ^ 32 }
    ensures { OnOk result (out.new.items ≡ out.old.items ++ below (of_item items.now txns.now) (length items.now)) }
{
    for item in 0..items.len() {
        put_item(out, items, txns, ItemId(item as u32))?;
    }
    Ok(())
}

// The warnings of the transactions.
#[tactic(auto, using(crate::proofs::Below::one_more))]
fn put_txns(alloc: Global, out: &mut Vec<Warning>, scenario: &Scenario) -> Result<(), OutOfMemory>
    requires few { length scenario.now.txns ≤ 2 ^ 32 }
    requires scripted { length scenario.now.scripts ≡ length scenario.now.txns }
    requires released { length scenario.now.releases ≡ length scenario.now.txns }
    requires good { All (IsProgramOver (length scenario.now.items)) (shown scenario.now).programs }
    ensures { OnOk result (out.new.items ≡ out.old.items ++ below (of_txn (shown scenario.now)) (length scenario.now.txns)) }
{
    for tx in 0..scenario.txns.as_slice().len() {
        put_txn(alloc, out, scenario, tx)?;
    }
    Ok(())
}

/// The warnings of a scenario: each one that holds of it, once, by its transactions and then by its items. It takes a
/// place for each item, and costs for each transaction a step for each item, operation and release, and for each item a
/// step for each declared item of each transaction.
#[tactic(auto, using(crate::proofs::Exact::exact))]
pub fn warnings(alloc: Global, scenario: &Scenario) -> Result<Vec<Warning>, OutOfMemory>
    requires scenario { IsScenario (shown scenario.now) }
    requires few_items { length scenario.now.items ≤ 2 ^ 32 }
    requires few_txns { length scenario.now.txns ≤ 2 ^ 32 }
    ensures list { IfOk result (λ told. told.items ≡ warnings_of (shown scenario.now)) }
    ensures exact { IfOk result (λ told. (w : Told) → Contains told.items w ↔ Holds (shown scenario.now) w) }
{
    let mut out = Vec::new(alloc);
    put_txns(alloc, &mut out, scenario)?;
    put_items(
        &mut out,
        scenario.items.as_slice(),
        scenario.txns.as_slice(),
    )?;
    Ok(out)
}
