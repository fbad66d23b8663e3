//! One level of an expression.
ghost use Rattle.std.specs.Prelude.{◌≡◌, option_map};
ghost use Rattle.serde_json.specs.View.{view};
ghost use Rattle.scenario_forms.specs.Shapes.{op_word, word_shape, only_member, two_items, shape_of, member_shape, shape_view};

use serde_json::Value;
use step_script::BinOp;

/// An expression whose parts are not read yet.
#[derive(Clone, Copy)]
pub(crate) enum Shape<'v> {
    Const(i64),
    Sample,
    Serial,
    Last(&'v str),
    Bin(BinOp, &'v Value, &'v Value),
}

fn op_of(text: &str) -> Option<BinOp>
    ensures { result ≡ op_word text.now }
{
    match text {
        "add" => Some(BinOp::Add),
        "sub" => Some(BinOp::Sub),
        "mul" => Some(BinOp::Mul),
        "div" => Some(BinOp::Div),
        "min" => Some(BinOp::Min),
        "max" => Some(BinOp::Max),
        _ => None,
    }
}

fn word(text: &str) -> Option<Shape<'_>>
    ensures { option_map shape_view result ≡ word_shape text.now }
{
    if text == "sample" {
        Some(Shape::Sample)
    } else if text == "serial" {
        Some(Shape::Serial)
    } else {
        None
    }
}

// The one member of an object.
#[tactic(auto, using(crate::proofs::Parts::other_entries))]
fn only(value: &Value) -> Option<(&str, &Value)>
    ensures { option_map (λ p. (p.0.now, view p.1.now)) result ≡ only_member (view value.now) }
{
    let members = value.as_object()?;
    if members.len() != 1 {
        return None;
    }
    let (name, member) = members.first_key_value()?;
    Some((name.as_str(), member))
}

// The two items of an array.
#[tactic(auto, using(crate::proofs::Parts::pair_items, crate::proofs::Parts::other_items))]
fn pair(value: &Value) -> Option<(&Value, &Value)>
    ensures { option_map (λ p. (view p.0.now, view p.1.now)) result ≡ two_items (view value.now) }
{
    let items = value.as_array()?;
    if items.len() != 2 {
        return None;
    }
    Some((&items[0], &items[1]))
}

fn compound(value: &Value) -> Option<Shape<'_>>
    ensures { option_map shape_view result ≡ member_shape (only_member (view value.now)) }
{
    let (name, member) = only(value)?;
    if name == "last" {
        return Some(Shape::Last(member.as_str()?));
    }
    let op = op_of(name)?;
    let (first, second) = pair(member)?;
    Some(Shape::Bin(op, first, second))
}

/// One level of an expression.
pub(crate) fn level(value: &Value) -> Option<Shape<'_>>
    ensures { option_map shape_view result ≡ shape_of (view value.now) }
{
    if let Some(n) = value.as_i64() {
        Some(Shape::Const(n))
    } else if let Some(text) = value.as_str() {
        word(text)
    } else {
        compound(value)
    }
}
