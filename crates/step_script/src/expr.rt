//! Expressions and their values.
ghost use Rattle.std.specs.Prelude.{◌≡◌};
ghost use Rattle.std.specs.List.Sorted.{IsStrictlyIncreasing};
ghost use Rattle.step_script.specs.Values.{tree, value_in, bin_value};
ghost use Rattle.step_script.specs.Rows.{row_items, last_in};

use crate::lasts::{LastRead, last_of};
use rt_base::{ItemId, Value};

/// How two values are joined. The exact value is clamped to the range of i64.
#[derive(Clone, Copy, Debug, PartialEq, Eq)]
pub enum BinOp {
    Add,
    Sub,
    Mul,
    /// Rounds toward zero. A division by 0 gives 0.
    Div,
    Min,
    Max,
}

/// The value that a write asks for, computed from what the job knows.
#[derive(Drop)]
pub enum Expr {
    Const(Value),
    /// The job's sample: the one with its serial number, past the end the last one, and 0 where there are none.
    Sample,
    /// The job's serial number.
    Serial,
    /// The value of the job's latest read of the item, 0 where there is none.
    Last(ItemId),
    Bin(BinOp, Box<Expr>, Box<Expr>),
}

// The exact value, clamped to the range of i64.
fn apply(op: BinOp, a: Value, b: Value) -> Value
    ensures { result ≡ bin_value op a b }
{
    match op {
        BinOp::Add => a.saturating_add(b),
        BinOp::Sub => a.saturating_sub(b),
        BinOp::Mul => a.saturating_mul(b),
        BinOp::Div => divided(a, b),
        BinOp::Min => a.min(b),
        BinOp::Max => a.max(b),
    }
}

// The quotient. Its only value past the range of i64 is that of the least number by -1.
fn divided(a: Value, b: Value) -> Value
    ensures { result ≡ bin_value BinOp.Div a b }
{
    if b == 0 {
        0
    } else if b == -1 {
        0i64.saturating_sub(a)
    } else {
        a / b
    }
}

// The value of an expression, by one step for each of its parts, and a binary search for each read item that it names.
pub(crate) fn value_of(expr: &Expr, sample: Value, serial: Value, lasts: &[LastRead]) -> Value
    requires { IsStrictlyIncreasing (row_items lasts.now) }
    ensures { result ≡ value_in (record { sample = sample; serial = serial; lasts = last_in lasts.now }) (tree expr.now) }
{
    match expr {
        Expr::Const(n) => *n,
        Expr::Sample => sample,
        Expr::Serial => serial,
        Expr::Last(item) => last_of(lasts, *item),
        Expr::Bin(op, a, b) => {
            let a = value_of(a, sample, serial, lasts);
            let b = value_of(b, sample, serial, lasts);
            apply(*op, a, b)
        }
    }
}
