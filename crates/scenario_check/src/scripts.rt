//! What is amiss in a script.
ghost use Rattle.std.specs.Prelude.{◌≡◌, ◌<◌, ◌&&◌, ◌++◌, not, false, nat_lt, map, length, slice_index_or, true, OnOk};
ghost use Rattle.std.specs.Option.{option_map, option_to_list};
ghost use Rattle.std.specs.List.{list_any, list_all};
ghost use Rattle.step_script.specs.Values.{tree};
ghost use Rattle.step_script.specs.Scripts.{operation, width, is_good};
ghost use Rattle.step_script.specs.Bodies.{closes as closes_of, steps_of};
ghost use Rattle.scenario_check.specs.Scripts.{is_empty, runs_on as runs_on_of, unread_in, unread_by as unread_by_of, mark_of};
ghost use Rattle.scenario_check.specs.Warnings.{told, below, of_last, of_script as of_script_at};

use crate::kinds::Warning;
use rt_base::{ItemId, OutOfMemory, TxId};
use std::alloc::Global;
use step_script::{Expr, ScriptOp};
use txn_set::TxnDecl;

/// Appends a warning if it holds.
pub(crate) fn put(out: &mut Vec<Warning>, holds: bool, warning: Warning) -> Result<(), OutOfMemory>
    ensures { OnOk result (out.new.items ≡ out.old.items ++ told holds warning) }
{
    if holds {
        out.push(warning)?;
    }
    Ok(())
}

fn closes(op: &ScriptOp) -> bool
    ensures { result ≡ closes_of (operation op.now) }
{
    match op {
        ScriptOp::Commit | ScriptOp::Quit => true,
        ScriptOp::Read(_) | ScriptOp::Write(_, _) | ScriptOp::Compute(_) => false,
    }
}

// Whether one of the operations is a commit or quit.
fn ends(ops: &[ScriptOp]) -> bool
    ensures { result ≡ list_any closes_of (map operation ops.now) }
{
    for op in ops {
        if closes(op) {
            return true;
        }
    }
    false
}

// Whether there are operations, and none of them is a commit or quit.
fn runs_on(ops: &[ScriptOp]) -> bool
    ensures { result ≡ runs_on_of (map operation ops.now) }
{
    match ops {
        [] => false,
        _ => !ends(ops),
    }
}

fn width_of(op: &ScriptOp) -> u64
    ensures { result ≡ width (operation op.now) }
{
    match op {
        ScriptOp::Compute(n) => u64::from(*n).max(1),
        _ => 1,
    }
}

// Whether the operations are more than so many, each compute counted as many.
fn is_longer(ops: &[ScriptOp], most: u64) -> bool
    ensures { result ≡ nat_lt most (steps_of (map operation ops.now)) }
{
    let mut left = most;
    for op in ops {
        let width = width_of(op);
        if left < width {
            return true;
        }
        left -= width;
    }
    false
}

fn has(marks: &[bool], item: ItemId) -> bool
    ensures { result ≡ slice_index_or marks.now item.0 false }
{
    match marks.get(item.0 as usize) {
        Some(mark) => *mark,
        None => false,
    }
}

// The first item whose last value the expression takes, and which is not marked.
fn unread(marks: &[bool], value: &Expr) -> Option<ItemId>
    ensures { result ≡ unread_in (λ i. slice_index_or marks.now i false) (tree value.now) }
{
    match value {
        Expr::Const(_) | Expr::Sample | Expr::Serial => None,
        Expr::Last(item) => { if has(marks, *item) { None } else { Some(*item) } }
        Expr::Bin(_, a, b) => match unread(marks, a) {
            Some(item) => Some(item),
            None => unread(marks, b),
        },
    }
}

fn unread_by(marks: &[bool], op: &ScriptOp) -> Option<ItemId>
    ensures { result ≡ unread_by_of (λ i. slice_index_or marks.now i false) (operation op.now) }
{
    match op {
        ScriptOp::Write(_, value) => unread(marks, value),
        _ => None,
    }
}

// Marks the item that an operation reads.
fn mark(marks: &mut Vec<bool>, op: &ScriptOp)
    requires { is_good (length marks.old.items) (operation op.now) ≡ true }
    ensures { marks.new.items ≡ mark_of marks.old.items (operation op.now) }
{
    if let ScriptOp::Read(item) = op {
        marks[item.0 as usize] = true;
    }
}

// The warning of an operation.
fn put_last(
    out: &mut Vec<Warning>,
    tx: TxId,
    at: usize,
    unread: Option<ItemId>,
) -> Result<(), OutOfMemory>
    ensures { OnOk result (out.new.items ≡ out.old.items ++ option_to_list (option_map (Warning.UnreadLast tx at) unread)) }
{
    if let Some(item) = unread {
        out.push(Warning::UnreadLast { tx, op: at, item })?;
    }
    Ok(())
}

// A warning for each operation that takes the last value of an item which is not read before it.
#[tactic(auto, using(crate::proofs::Below::one_more, crate::proofs::Lasts::stand_on, crate::proofs::Lasts::sized_on, crate::proofs::Lasts::good_marks, crate::proofs::Lasts::last_of, crate::proofs::Lasts::none_stand))]
fn put_lasts(
    alloc: Global,
    out: &mut Vec<Warning>,
    tx: TxId,
    ops: &[ScriptOp],
    items: usize,
) -> Result<(), OutOfMemory>
    requires { list_all (is_good items) (map operation ops.now) ≡ true }
    ensures { OnOk result (out.new.items ≡ out.old.items ++ below (of_last tx (map operation ops.now)) (length ops.now)) }
{
    let mut marks = vec![in alloc; false; items]?;
    for (at, op) in ops.iter().enumerate() {
        put_last(out, tx, at, unread_by(&marks, op))?;
        mark(&mut marks, op);
    }
    Ok(())
}

/// The warnings of a transaction's script over so many items. A place for each item, and a step for each item, each
/// operation and each part of an expression.
pub(crate) fn put_script(
    alloc: Global,
    out: &mut Vec<Warning>,
    tx: TxId,
    txn: &TxnDecl,
    ops: &[ScriptOp],
    items: usize,
) -> Result<(), OutOfMemory>
    requires { list_all (is_good items) (map operation ops.now) ≡ true }
    ensures { OnOk result (out.new.items ≡ out.old.items ++ of_script_at tx txn.now (map operation ops.now)) }
{
    put(out, ops.is_empty(), Warning::NoScript { tx })?;
    put(out, runs_on(ops), Warning::NoEnd { tx })?;
    put(out, is_longer(ops, txn.steps), Warning::LongScript { tx })?;
    put_lasts(alloc, out, tx, ops, items)
}
