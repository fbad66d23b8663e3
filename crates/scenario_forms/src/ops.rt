//! Operations of scripts.
ghost use Rattle.std.specs.Prelude.{◌≡◌, option_map};
ghost use Rattle.name_table.specs.Places.{place_in};
ghost use Rattle.serde_json.specs.View.{view};
ghost use Rattle.scenario_forms.specs.Reading.{GivesBy, needed};
ghost use Rattle.scenario_forms.specs.Fields.{item_in};
ghost use Rattle.scenario_forms.specs.Exprs.{expr_view};
ghost use Rattle.scenario_forms.specs.Ops.{op_view, form_view, text_form, read_form, write_form, compute_form, op_form, read_of, write_of, op_in};

use crate::error::{FormError, Place};
use crate::expr::{Fault, ReadExpr, read_expr};
use crate::fields::small_number;
use crate::names::item;
use crate::object::is_sized;
use name_table::NameTable;
use rt_base::ItemId;
use serde_json::Value;
use std::alloc::Global;
use step_script::ScriptOp;

/// An operation, and whether all its names are those of items. Item 0 stands for a name that is none.
#[derive(Drop)]
pub struct ReadOp {
    pub op: ScriptOp,
    pub known: bool,
}

/// An operation whose parts are not read yet.
#[derive(Clone, Copy)]
pub(crate) enum OpForm<'v> {
    Read(&'v str),
    Write(&'v str, &'v Value),
    Compute(u32),
    Commit,
    Quit,
}

fn by_text(value: &Value) -> Option<OpForm<'_>>
    ensures { option_map form_view result ≡ text_form (view value.now) }
{
    let text = value.as_str()?;
    if text == "commit" {
        Some(OpForm::Commit)
    } else if text == "quit" {
        Some(OpForm::Quit)
    } else {
        None
    }
}

fn by_read(value: &Value) -> Option<OpForm<'_>>
    ensures { option_map form_view result ≡ read_form (view value.now) }
{
    if !is_sized(value, 1) {
        return None;
    }
    let name = value.get("read")?.as_str()?;
    Some(OpForm::Read(name))
}

fn by_write(value: &Value) -> Option<OpForm<'_>>
    ensures { option_map form_view result ≡ write_form (view value.now) }
{
    if !is_sized(value, 2) {
        return None;
    }
    let name = value.get("write")?.as_str()?;
    let expr = value.get("value")?;
    Some(OpForm::Write(name, expr))
}

fn by_compute(value: &Value) -> Option<OpForm<'_>>
    ensures { option_map form_view result ≡ compute_form (view value.now) }
{
    if !is_sized(value, 1) {
        return None;
    }
    let count = small_number(1, 10_000, value.get("compute")?)?;
    Some(OpForm::Compute(count))
}

fn form(value: &Value) -> Option<OpForm<'_>>
    ensures { option_map form_view result ≡ op_form (view value.now) }
{
    if let Some(found) = by_text(value) {
        return Some(found);
    }
    if let Some(found) = by_read(value) {
        return Some(found);
    }
    if let Some(found) = by_write(value) {
        return Some(found);
    }
    by_compute(value)
}

fn read(names: &NameTable, name: &str) -> ReadOp
    ensures { op_view result ≡ read_of (item_in (place_in names.now) name.now) }
{
    match item(names, name) {
        Some(item) => ReadOp {
            op: ScriptOp::Read(item),
            known: true,
        },
        None => ReadOp {
            op: ScriptOp::Read(ItemId(0)),
            known: false,
        },
    }
}

fn write(names: &NameTable, name: &str, value: ReadExpr) -> ReadOp
    ensures { op_view result ≡ write_of (item_in (place_in names.now) name.now) (expr_view value) }
{
    let ReadExpr { expr, known } = value;
    match item(names, name) {
        Some(item) => ReadOp {
            op: ScriptOp::Write(item, expr),
            known,
        },
        None => ReadOp {
            op: ScriptOp::Write(ItemId(0), expr),
            known: false,
        },
    }
}

/// An operation, or its place where it is not of its form.
pub(crate) fn operation(
    alloc: Global,
    place: Place,
    names: &NameTable,
    value: &Value,
) -> Result<ReadOp, FormError>
    ensures { GivesBy op_view result (needed place (op_in (place_in names.now) (view value.now))) }
{
    match form(value) {
        None => Err(FormError::BadField { place }),
        Some(OpForm::Read(name)) => Ok(read(names, name)),
        Some(OpForm::Write(name, expr)) => match read_expr(alloc, names, 32, expr) {
            Ok(expr) => Ok(write(names, name, expr)),
            Err(Fault::Form) => Err(FormError::BadField { place }),
            Err(Fault::OutOfMemory) => Err(FormError::OutOfMemory),
        },
        Some(OpForm::Compute(count)) => Ok(ReadOp {
            op: ScriptOp::Compute(count),
            known: true,
        }),
        Some(OpForm::Commit) => Ok(ReadOp {
            op: ScriptOp::Commit,
            known: true,
        }),
        Some(OpForm::Quit) => Ok(ReadOp {
            op: ScriptOp::Quit,
            known: true,
        }),
    }
}
