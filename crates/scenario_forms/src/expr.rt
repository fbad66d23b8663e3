//! Whole expressions.
ghost use Rattle.std.specs.Prelude.{◌≡◌, true};
ghost use Rattle.name_table.specs.Places.{place_in};
ghost use Rattle.serde_json.specs.View.{view};
ghost use Rattle.scenario_forms.specs.Exprs.{GivesExpr, MakesExpr, expr_at, expr_view, bin_of, last_of};
ghost use Rattle.step_script.specs.Values.{leaf_const, leaf_sample, leaf_serial};
ghost use Rattle.scenario_forms.specs.Fields.{item_in};
ghost use Rattle.scenario_forms.specs.declared.expr.Fault.TheVariants.{OutOfMemory};

use crate::names::item;
use crate::shape::{Shape, level};
use name_table::NameTable;
use rt_base::ItemId;
use serde_json::Value;
use std::alloc::{AllocError, AllocFailed, Global};
use step_script::{BinOp, Expr};

/// An expression, and whether all its names are those of items. Item 0 stands for a name that is none.
#[derive(Drop)]
pub(crate) struct ReadExpr {
    pub expr: Expr,
    pub known: bool,
}

/// Why an expression was not read.
#[derive(Clone, Copy, Debug, PartialEq, Eq)]
pub(crate) enum Fault {
    Form,
    OutOfMemory,
}

impl From<AllocError> for Fault {
    ghost from_gives = { λ _ e. e ≡ OutOfMemory };

    fn from(_e: AllocError) -> Fault {
        Fault::OutOfMemory
    }
}

impl<T: Drop> From<AllocFailed<T>> for Fault {
    ghost from_gives = { λ _ e. e ≡ OutOfMemory };

    fn from(_e: AllocFailed<T>) -> Fault {
        Fault::OutOfMemory
    }
}

fn last(names: &NameTable, name: &str) -> ReadExpr
    ensures { expr_view result ≡ last_of (item_in (place_in names.now) name.now) }
{
    match item(names, name) {
        Some(item) => ReadExpr {
            expr: Expr::Last(item),
            known: true,
        },
        None => ReadExpr {
            expr: Expr::Last(ItemId(0)),
            known: false,
        },
    }
}

fn constant(n: i64) -> ReadExpr
    ensures { expr_view result ≡ (leaf_const n, true) }
{
    ReadExpr {
        expr: Expr::Const(n),
        known: true,
    }
}

fn sample() -> ReadExpr
    ensures { expr_view result ≡ (leaf_sample, true) }
{
    ReadExpr {
        expr: Expr::Sample,
        known: true,
    }
}

fn serial() -> ReadExpr
    ensures { expr_view result ≡ (leaf_serial, true) }
{
    ReadExpr {
        expr: Expr::Serial,
        known: true,
    }
}

fn bin(alloc: Global, op: BinOp, first: ReadExpr, second: ReadExpr) -> Result<ReadExpr, Fault>
    ensures { MakesExpr result (bin_of op (expr_view first) (expr_view second)) }
{
    let ReadExpr {
        expr: first,
        known: first_known,
    } = first;
    let ReadExpr {
        expr: second,
        known: second_known,
    } = second;
    let first = Box::new(alloc, first)?;
    let second = Box::new(alloc, second)?;
    Ok(ReadExpr {
        expr: Expr::Bin(op, first, second),
        known: first_known && second_known,
    })
}

/// An expression of at most this depth, by one call for each of its parts.
#[tactic(auto, using(crate::proofs::Depth::at_zero, crate::proofs::Depth::at_depth))]
pub(crate) fn read_expr(
    alloc: Global,
    names: &NameTable,
    depth: u32,
    value: &Value,
) -> Result<ReadExpr, Fault>
    ensures { GivesExpr result (expr_at (place_in names.now) depth (view value.now)) }
{
    if depth == 0 {
        return Err(Fault::Form);
    }
    match level(value) {
        None => Err(Fault::Form),
        Some(Shape::Const(n)) => Ok(constant(n)),
        Some(Shape::Sample) => Ok(sample()),
        Some(Shape::Serial) => Ok(serial()),
        Some(Shape::Last(name)) => Ok(last(names, name)),
        Some(Shape::Bin(op, first, second)) => {
            let first = read_expr(alloc, names, depth - 1, first)?;
            let second = read_expr(alloc, names, depth - 1, second)?;
            bin(alloc, op, first, second)
        }
    }
}
