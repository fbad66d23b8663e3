//! Arrays of texts, numbers and operations.
ghost use Rattle.std.specs.Prelude.{◌≡◌, ◌^◌, map};
ghost use Rattle.name_table.specs.Places.{place_in};
ghost use Rattle.serde_json.specs.View.{view, items_view};
ghost use Rattle.scenario_forms.specs.declared.error.TxnMember.TheVariants as members;
ghost use Rattle.scenario_forms.specs.Reading.{GivesBy, needed, all_at};
ghost use Rattle.scenario_forms.specs.Fields.{whole, integer};
ghost use Rattle.scenario_forms.specs.Ops.{op_view, op_in};
ghost use Rattle.scenario_forms.specs.Arrays.{element_place, named};

use crate::error::{FormError, Place, TxnMember};
use crate::fields::{need, whole_number};
use crate::names::item;
use crate::ops::{ReadOp, operation};
use name_table::NameTable;
use rt_base::ItemId;
use serde_json::Value;
use std::alloc::Global;

const LAST_TICK: u64 = 1 << 53;

/// What has an array of texts or numbers.
#[derive(Clone, Copy)]
pub(crate) enum Owner {
    Txn { i: usize, member: TxnMember },
    Set { i: usize },
}

fn element(owner: Owner, j: usize) -> Place
    ensures { result ≡ element_place owner j }
{
    match owner {
        Owner::Txn { i, member } => Place::Element { i, member, j },
        Owner::Set { i } => Place::SetElement { i, j },
    }
}

fn named_at(place: Place, names: &NameTable, value: &Value) -> Result<Option<ItemId>, FormError>
    ensures { result ≡ needed place (named (place_in names.now) (view value.now)) }
{
    match value.as_str() {
        Some(text) => Ok(item(names, text)),
        None => Err(FormError::BadField { place }),
    }
}

/// The items of an array of texts, None for each that is no item's name.
pub(crate) fn items_named(
    alloc: Global,
    owner: Owner,
    names: &NameTable,
    values: &[Value],
) -> Result<Vec<Option<ItemId>>, FormError>
    ensures { GivesBy (λ v. v.items) result
        (all_at (element_place owner) (named (place_in names.now)) (items_view values.now)) }
{
    let mut found = Vec::new(alloc);
    for value in values {
        let item = named_at(element(owner, found.len()), names, value)?;
        found.push(item)?;
    }
    Ok(found)
}

/// The ticks of an array.
pub(crate) fn ticks(alloc: Global, i: usize, values: &[Value]) -> Result<Vec<u64>, FormError>
    ensures { GivesBy (λ v. v.items) result
        (all_at (element_place (Owner.Txn i members.Releases)) (whole 0 (2 ^ 53)) (items_view values.now)) }
{
    let owner = Owner::Txn {
        i,
        member: TxnMember::Releases,
    };
    let mut found = Vec::new(alloc);
    for value in values {
        let tick = need(
            element(owner, found.len()),
            whole_number(0, LAST_TICK, value),
        )?;
        found.push(tick)?;
    }
    Ok(found)
}

/// The samples of an array.
pub(crate) fn samples(alloc: Global, i: usize, values: &[Value]) -> Result<Vec<i64>, FormError>
    ensures { GivesBy (λ v. v.items) result
        (all_at (element_place (Owner.Txn i members.Samples)) integer (items_view values.now)) }
{
    let owner = Owner::Txn {
        i,
        member: TxnMember::Samples,
    };
    let mut found = Vec::new(alloc);
    for value in values {
        let sample = need(element(owner, found.len()), value.as_i64())?;
        found.push(sample)?;
    }
    Ok(found)
}

/// The operations of an array.
pub(crate) fn script(
    alloc: Global,
    i: usize,
    names: &NameTable,
    values: &[Value],
) -> Result<Vec<ReadOp>, FormError>
    ensures { GivesBy (λ v. map op_view v.items) result
        (all_at (element_place (Owner.Txn i members.Script)) (op_in (place_in names.now)) (items_view values.now)) }
{
    let owner = Owner::Txn {
        i,
        member: TxnMember::Script,
    };
    let mut found = Vec::new(alloc);
    for value in values {
        let op = operation(alloc, element(owner, found.len()), names, value)?;
        found.push(op)?;
    }
    Ok(found)
}
