//! Scripts.
ghost use Rattle.std.specs.Prelude.{◌≡◌, ◌<◌, IfOk, IfSome, IsTrue, length, map, true, nat_lt};
ghost use Rattle.std.specs.List.{All, list_all, position};
ghost use Rattle.step_script.specs.Scripts.{operation, program_of, is_good};
ghost use Rattle.step_script.specs.Shown.{shown};
ghost use Rattle.step_script.specs.Bodies.{steps_of, bad_op as bad_operation, bad_script_from, bad_script as bad_script_of, long_script as long_script_of};
ghost use Rattle.step_script.specs.Scenarios.{IsProgramOver};
ghost use Rattle.scenario_reader.specs.Walks.{IsSized, is_long_made};

use crate::walk::{Walk, width_of};
use item_model::ItemDecl;
use rt_base::OutOfMemory;
use std::alloc::Global;
use step_script::{Scenario, Script, ScriptOp};
use txn_set::TxnDecl;

const MOST_STEPS: u64 = 10_000;

// The first operation of a script that may not stand after those before it.
fn bad_op(walk: &mut Walk, items: &[ItemDecl], txn: &TxnDecl, ops: &[ScriptOp]) -> Option<usize>
    requires sized { IsSized (length items.now) walk.old }
    requires good { list_all (is_good (length items.now)) (map operation ops.now) ≡ true }
    ensures first { result ≡ bad_operation items.now txn.now (map operation ops.now) }
    ensures sized { IsSized (length items.now) walk.new }
{
    walk.begin(txn);
    for (place, op) in ops.iter().enumerate() {
        if !walk.may_stand(items, txn, op) {
            return Some(place);
        }
        walk.go_on(op);
    }
    None
}

// The first operation of all scripts that may not stand where it does: its transaction and its place.
fn first_bad(
    alloc: Global,
    items: &[ItemDecl],
    txns: &[TxnDecl],
    scripts: &[Script],
) -> Result<Option<(usize, usize)>, OutOfMemory>
    requires each { length scripts.now ≡ length txns.now }
    requires good { All (IsProgramOver (length items.now)) (map program_of scripts.now) }
    ensures first { IfOk result (λ bad. bad ≡ bad_script_from items.now 0 txns.now (map program_of scripts.now)) }
    ensures within { IfOk result (λ bad. IfSome bad (λ b. b.0 < length txns.now)) }
{
    let mut walk = Walk::new(alloc, items.len())?;
    for (tx, txn) in txns.iter().enumerate() {
        if let Some(op) = bad_op(&mut walk, items, txn, scripts[tx].ops()) {
            return Ok(Some((tx, op)));
        }
    }
    Ok(None)
}

/// The first transaction with an operation that its script may not have, and the first such operation. It takes three
/// places for each item, and costs a step for each item, each declared item of a transaction and each operation.
pub fn bad_script(alloc: Global, scenario: &Scenario) -> Result<Option<(usize, usize)>, OutOfMemory>
    requires each { length scenario.now.scripts ≡ length scenario.now.txns }
    requires good { All (IsProgramOver (length scenario.now.items)) (shown scenario.now).programs }
    ensures first { IfOk result (λ bad. bad ≡ bad_script_of (shown scenario.now)) }
    ensures within { IfOk result (λ bad. IfSome bad (λ b. b.0 < length scenario.now.txns)) }
{
    first_bad(
        alloc,
        scenario.items.as_slice(),
        scenario.txns.as_slice(),
        scenario.scripts.as_slice(),
    )
}

// Whether there are more than 10,000 operations, each compute counted as many.
fn is_long(ops: &[ScriptOp]) -> bool
    ensures { result ≡ nat_lt MOST_STEPS (steps_of (map operation ops.now)) }
{
    let mut left = MOST_STEPS;
    for op in ops {
        let width = width_of(op);
        if left < width {
            return true;
        }
        left -= width;
    }
    false
}

fn is_long_script(script: &Script) -> bool
    ensures { result ≡ is_long_made script.now }
{
    is_long(script.ops())
}

// The first script that is too long.
fn first_long(scripts: &[Script]) -> Option<usize>
    ensures first { result ≡ position is_long_made scripts.now }
    ensures within { IfSome result (λ tx. tx < length scripts.now) }
{
    scripts.iter().position(|s| is_long_script(s))
}

/// The first transaction whose script has more than 10,000 operations, each compute counted as many. It costs at most a
/// step for each operation that is written.
#[tactic(auto, using(crate::proofs::JudgePositions::position_long))]
pub fn long_script(scenario: &Scenario) -> Option<usize>
    ensures first { result ≡ long_script_of (shown scenario.now) }
    ensures within { IfSome result (λ tx. tx < length scenario.now.scripts) }
{
    first_long(scenario.scripts.as_slice())
}
