//! The root object.
ghost use Rattle.std.specs.Prelude.{◌≡◌, ◌≤◌, ◌+◌, ◌^◌, List, codes, length, string_bytes, is_some, option_and_then, map, Some, None, Ok, IfOk, IsErrOf};
ghost use Rattle.std.specs.List.{list_all};
ghost use Rattle.std.specs.BTreeMap.{keys};
ghost use Rattle.name_table.specs.Places.{place_in};
ghost use Rattle.serde_json.specs.View.{view};
ghost use Rattle.serde_json.specs.Find.{get};
ghost use Rattle.scenario_forms.specs.Reading.{◌>>=◌ as bind, GivesBy, data_of};
ghost use Rattle.scenario_forms.specs.Fields.{whole, no_others};
ghost use Rattle.scenario_forms.specs.Root.{is_root_member, is_second, forms_view, head_at, items_at, txns_at, sets_at, forms_at};
ghost use Rattle.scenario_forms.specs.Items.{table_view};
ghost use Rattle.scenario_forms.specs.Txns.{Txns, txns_view};
ghost use Rattle.scenario_forms.specs.Sets.{Together, set_view};
ghost use Rattle.scenario_forms.specs.Sizes.{size};

use crate::error::{FormError, Place, TextError};
use crate::fields::{array, array_or, need, number, whole_number};
use crate::item::{ItemTable, items};
use crate::sets::{ReadSet, sets};
use crate::txn::{TxnTable, txns};
use name_table::NameTable;
use serde_json::{Map, Value};
use std::alloc::Global;

/// A scenario whose forms are good, with its version, 1 or 2.
#[derive(Drop)]
pub struct Forms {
    pub version: u64,
    pub items: ItemTable,
    pub txns: TxnTable,
    pub sets: Vec<ReadSet>,
}

fn is_member(second: bool, text: &str) -> bool
    ensures { result ≡ is_root_member second text.now }
{
    text == "version" || text == "items" || text == "transactions" || second && text == "together"
}

fn are_members(second: bool, members: &Map<String, Value>) -> bool
    ensures { result ≡ list_all (λ k. is_root_member second (string_bytes k)) (keys members.now) }
{
    members.keys().all(|k| is_member(second, k.as_str()))
}

fn is_root(second: bool, value: &Value) -> bool
    ensures { result ≡ no_others (is_root_member second) (view value.now) }
{
    match value.as_object() {
        Some(members) => are_members(second, members),
        None => false,
    }
}

// Whether the tables are those of version 2.
fn is_version_two(value: &Value) -> bool
    ensures { result ≡ is_second (view value.now) }
{
    match value.get("version") {
        Some(version) => whole_number(2, 2, version).is_some(),
        None => false,
    }
}

// The object itself, and its version.
#[tactic(auto, unfolding(crate::specs::Root::head_at))]
fn head(value: &Value) -> Result<u64, FormError>
    ensures { result ≡ head_at (view value.now) }
{
    need(
        Place::Root,
        if is_root(is_version_two(value), value) {
            Some(())
        } else {
            None
        },
    )?;
    number(Place::Version, 1, 2, "version", value)
}

#[tactic(auto, unfolding(crate::specs::Root::items_at))]
fn items_of(alloc: Global, value: &Value) -> Result<ItemTable, FormError>
    requires { size (view value.now) ≤ 2 ^ 32 }
    ensures { GivesBy table_view result (items_at (view value.now)) }
{
    let values = array(Place::Items, "items", value)?;
    items(alloc, values)
}

#[tactic(auto, unfolding(crate::specs::Root::txns_at))]
fn txns_of(
    alloc: Global,
    second: bool,
    items: &NameTable,
    value: &Value,
) -> Result<TxnTable, FormError>
    requires { size (view value.now) ≤ 2 ^ 32 }
    ensures { GivesBy txns_view result (txns_at second (place_in items.now) (view value.now)) }
{
    let values = array(Place::Txns, "transactions", value)?;
    txns(alloc, second, items, values)
}

#[tactic(auto, unfolding(crate::specs::Root::sets_at))]
fn sets_of(alloc: Global, items: &NameTable, value: &Value) -> Result<Vec<ReadSet>, FormError>
    ensures { GivesBy (λ v. map set_view v.items) result (sets_at (place_in items.now) (view value.now)) }
{
    let values = array_or(Place::Together, "together", value)?;
    sets(alloc, items, values)
}

// The transactions and the relative sets, over the names of the items.
fn uses(
    alloc: Global,
    items: &NameTable,
    value: &Value,
) -> Result<(TxnTable, Vec<ReadSet>), FormError>
    requires { size (view value.now) ≤ 2 ^ 32 }
    ensures { GivesBy {B = Txns × List Together} (λ p. (txns_view p.0, map set_view p.1.items)) result
        (bind (txns_at (is_second (view value.now)) (place_in items.now) (view value.now)) (λ txns. bind
        (sets_at (place_in items.now) (view value.now)) (λ sets. Ok (txns, sets)))) }
{
    let txns = txns_of(alloc, is_version_two(value), items, value)?;
    let sets = sets_of(alloc, items, value)?;
    Ok((txns, sets))
}

/// The forms of a scenario, or the place of the first that is not good, of a value that is made of at most 2^32 values.
/// It is linear in the value, with one look-up in a hash map for each name in it.
#[tactic(auto, unfolding(crate::specs::Root::forms_at))]
pub fn read_forms(alloc: Global, value: &Value) -> Result<Forms, FormError>
    requires { size (view value.now) ≤ 2 ^ 32 }
    ensures { GivesBy forms_view result (forms_at (view value.now)) }
{
    let version = head(value)?;
    let items = items_of(alloc, value)?;
    let (txns, sets) = uses(alloc, &items.names, value)?;
    Ok(Forms {
        version,
        items,
        txns,
        sets,
    })
}

/// The value of a JSON text. NotJson comes exactly where the bytes are no UTF-8 or the text has no reading. The value is
/// made of no more values than there are bytes, and one.
pub fn read_value(alloc: Global, bytes: &[u8]) -> Result<Value, TextError>
    ensures value { IfOk result (λ v. data_of bytes.now ≡ Some (view v)) }
    ensures none { IsErrOf result TextError.NotJson → data_of bytes.now ≡ None }
    ensures small { IfOk result (λ v. size (view v) ≤ length bytes.now + 1) }
{
    match Value::from_slice(alloc, bytes) {
        Ok(value) => Ok(value),
        Err(e) => {
            if e.is_memory() {
                return Err(TextError::OutOfMemory);
            }
            Err(TextError::NotJson)
        }
    }
}
