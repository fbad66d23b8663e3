//! Relative sets.
ghost use Rattle.std.specs.Prelude.{◌≡◌, ◌^◌, [], Ok, codes, string_bytes, map};
ghost use Rattle.std.specs.List.{list_all};
ghost use Rattle.std.specs.BTreeMap.{keys};
ghost use Rattle.name_table.specs.Places.{place_in};
ghost use Rattle.serde_json.specs.View.{view, items_view};
ghost use Rattle.serde_json.specs.Find.{as_array};
ghost use Rattle.scenario_forms.specs.Arrays.{element_place, named};
ghost use Rattle.scenario_forms.specs.Reading.{◌>>=◌ as bind, GivesBy, member_at, all_at, fold_at};
ghost use Rattle.scenario_forms.specs.Fields.{whole, no_others};
ghost use Rattle.scenario_forms.specs.Sets.{is_set_member, set_view, set_at, set_step};

use crate::arrays::{Owner, items_named};
use crate::error::{FormError, Place};
use crate::fields::{array, need, number};
use name_table::NameTable;
use rt_base::ItemId;
use serde_json::{Map, Value};
use std::alloc::Global;

const LONGEST: u64 = 1 << 40;

/// A relative set as it was read. None stands for a name that is no item's.
#[derive(Drop)]
pub struct ReadSet {
    pub items: Vec<Option<ItemId>>,
    pub within: u64,
}

fn is_member(text: &str) -> bool
    ensures { result ≡ is_set_member text.now }
{
    text == "items" || text == "within"
}

fn are_members(members: &Map<String, Value>) -> bool
    ensures { result ≡ list_all (λ k. is_set_member (string_bytes k)) (keys members.now) }
{
    members.keys().all(|k| is_member(k.as_str()))
}

fn is_set(value: &Value) -> bool
    ensures { result ≡ no_others is_set_member (view value.now) }
{
    match value.as_object() {
        Some(members) => are_members(members),
        None => false,
    }
}

// What stands in the object.
fn members_of(
    alloc: Global,
    i: usize,
    items: &NameTable,
    value: &Value,
) -> Result<ReadSet, FormError>
    ensures { GivesBy set_view result
        (bind (member_at (Place.SetItems i) as_array (codes "items") (view value.now)) (λ values. bind
        (all_at (element_place (Owner.Set i)) (named (place_in items.now)) values) (λ items. bind
        (member_at (Place.SetWithin i) (whole 0 (2 ^ 40)) (codes "within") (view value.now)) (λ within.
        Ok (record { items = items; within = within }))))) }
{
    let values = array(Place::SetItems { i }, "items", value)?;
    let items = items_named(alloc, Owner::Set { i }, items, values)?;
    let within = number(Place::SetWithin { i }, 0, LONGEST, "within", value)?;
    Ok(ReadSet { items, within })
}

#[tactic(auto, unfolding(crate::specs::Sets::set_at))]
fn set(alloc: Global, i: usize, items: &NameTable, value: &Value) -> Result<ReadSet, FormError>
    ensures { GivesBy set_view result (set_at (place_in items.now) i (view value.now)) }
{
    need(
        Place::Set { i },
        if is_set(value) { Some(()) } else { None },
    )?;
    members_of(alloc, i, items, value)
}

/// The relative sets of an array.
pub(crate) fn sets(
    alloc: Global,
    items: &NameTable,
    values: &[Value],
) -> Result<Vec<ReadSet>, FormError>
    ensures { GivesBy (λ v. map set_view v.items) result
        (fold_at (set_step (place_in items.now)) [] (items_view values.now)) }
{
    let mut found = Vec::new(alloc);
    for value in values {
        let set = set(alloc, found.len(), items, value)?;
        found.push(set)?;
    }
    Ok(found)
}
