//! Scripts in a JSON text.
ghost use Rattle.std.specs.Prelude.{◌≡◌, ◌≤◌, ◌<◌, ◌++◌, [], ◌∷◌, ◌+◌, List, IfOk, OnOk, IsTrue, codes, map, length};
ghost use Rattle.std.specs.List.{All, list_all};
ghost use Rattle.serde_json.specs.Data.{Data};
ghost use Rattle.step_script.specs.Values.{tree};
ghost use Rattle.step_script.specs.Scripts.{Operation, operation, reads_below, is_good, width};
ghost use Rattle.step_script.specs.Bodies.{steps_of};
ghost use Rattle.scenario_writer.specs.Canonical.{whole, one as one_member, item_word, op_word as word_of_op, expr_data, op_data, script_data, write_data};
ghost use Rattle.scenario_writer.specs.Integers.{HasConstants, OpHasConstants};
ghost use Rattle.scenario_writer.specs.Runs.{run_data, run_before, computes_of};
ghost use Rattle.scenario_writer.specs.Sent.{Sends, SendsItems};

use crate::object::{
    begin_array, begin_object, end_array, end_object, integer, key, put_item, put_whole, word,
};
use json::Writer;
use rt_base::{ItemId, Name, OutOfMemory};
use step_script::{BinOp, Expr, ScriptOp};

fn op_word(op: BinOp) -> &'static str
    ensures { result.now ≡ word_of_op op }
{
    match op {
        BinOp::Add => "add",
        BinOp::Sub => "sub",
        BinOp::Mul => "mul",
        BinOp::Div => "div",
        BinOp::Min => "min",
        BinOp::Max => "max",
    }
}

// An object with one member, which is an item.
fn one_item(out: &mut Writer, label: &str, names: &[Name], item: ItemId) -> Result<(), OutOfMemory>
    requires { item.0 < length names.now }
    ensures { OnOk result (Sends (one_member label.now (item_word names.now item)) out.old out.new) }
{
    begin_object(out)?;
    put_item(out, label, names, item)?;
    end_object(out)
}

// So many computes.
fn compute(out: &mut Writer, n: u32) -> Result<(), OutOfMemory>
    ensures { OnOk result (Sends (one_member (codes "compute") (whole n)) out.old out.new) }
{
    begin_object(out)?;
    put_whole(out, "compute", u64::from(n))?;
    end_object(out)
}

// An expression over these items, by a step for each of its parts.
fn expression(out: &mut Writer, names: &[Name], expr: &Expr) -> Result<(), OutOfMemory>
    requires { IsTrue (reads_below (length names.now) (tree expr.now)) }
    ensures data { OnOk result (Sends (expr_data names.now (tree expr.now)) out.old out.new) }
    ensures fits { OnOk result (HasConstants (tree expr.now)) }
{
    match expr {
        Expr::Const(n) => integer(out, *n),
        Expr::Sample => word(out, "sample"),
        Expr::Serial => word(out, "serial"),
        Expr::Last(item) => one_item(out, "last", names, *item),
        Expr::Bin(op, a, b) => {
            begin_object(out)?;
            key(out, op_word(*op))?;
            begin_array(out)?;
            expression(out, names, a)?;
            expression(out, names, b)?;
            end_array(out)?;
            end_object(out)
        }
    }
}

fn write(out: &mut Writer, names: &[Name], item: ItemId, value: &Expr) -> Result<(), OutOfMemory>
    requires item { item.0 < length names.now }
    requires value { IsTrue (reads_below (length names.now) (tree value.now)) }
    ensures data { OnOk result (Sends (write_data (item_word names.now item) (expr_data names.now (tree value.now)))
        out.old out.new) }
    ensures fits { OnOk result (HasConstants (tree value.now)) }
{
    begin_object(out)?;
    key(out, "value")?;
    expression(out, names, value)?;
    put_item(out, "write", names, item)?;
    end_object(out)
}

fn op_text(out: &mut Writer, names: &[Name], op: &ScriptOp) -> Result<(), OutOfMemory>
    requires { IsTrue (is_good (length names.now) (operation op.now)) }
    ensures data { OnOk result (Sends (op_data names.now (operation op.now)) out.old out.new) }
    ensures fits { OnOk result (OpHasConstants (operation op.now)) }
{
    match op {
        ScriptOp::Read(item) => one_item(out, "read", names, *item),
        ScriptOp::Write(item, value) => write(out, names, *item, value),
        ScriptOp::Compute(n) => compute(out, *n),
        ScriptOp::Commit => word(out, "commit"),
        ScriptOp::Quit => word(out, "quit"),
    }
}

// Ends a run of so many computes, if there is one.
fn end_run(out: &mut Writer, run: u32) -> Result<(), OutOfMemory>
    ensures { OnOk result (SendsItems (run_data run) out.old out.new) }
{
    if run > 0 { compute(out, run) } else { Ok(()) }
}

// How many computes an operation stands for, None for another one.
fn computes(op: &ScriptOp) -> Option<u32>
    ensures { result ≡ computes_of (operation op.now) }
{
    match op {
        ScriptOp::Compute(n) => Some(*n),
        _ => None,
    }
}

// One more operation, after a run of so many computes that is not yet written. The new run is the result.
fn step(out: &mut Writer, names: &[Name], op: &ScriptOp, run: u32) -> Result<u32, OutOfMemory>
    requires good { IsTrue (is_good (length names.now) (operation op.now)) }
    requires short { run + width (operation op.now) ≤ 10000 }
    ensures goes_on { IfOk result (λ r. (ds : List Data) × SendsItems ds out.old out.new
        × ((ops : List Operation) → run_before names.now run (operation op.now ∷ ops)
        ≡ ds ++ run_before names.now r ops)) }
    ensures short { IfOk result (λ r. r ≤ run + width (operation op.now)) }
    ensures fits { IfOk result (λ r. OpHasConstants (operation op.now)) }
{
    if let Some(n) = computes(op) {
        return Ok(run + n);
    }
    end_run(out, run)?;
    op_text(out, names, op)?;
    Ok(0)
}

/// The operations of a script over these items, each run of computes as one.
pub(crate) fn script(out: &mut Writer, names: &[Name], ops: &[ScriptOp]) -> Result<(), OutOfMemory>
    requires good { IsTrue (list_all (is_good (length names.now)) (map operation ops.now)) }
    requires short { steps_of (map operation ops.now) ≤ 10000 }
    ensures data { OnOk result (Sends (script_data names.now (map operation ops.now)) out.old out.new) }
    ensures fits { OnOk result (All OpHasConstants (map operation ops.now)) }
{
    begin_array(out)?;
    let mut run = 0;
    for op in ops {
        run = step(out, names, op, run)?;
    }
    end_run(out, run)?;
    end_array(out)
}
