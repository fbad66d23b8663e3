//! Item objects.
ghost use Rattle.std.specs.Prelude.{◌≡◌, ◌≤◌, ◌<◌, ◌^◌, List, codes, length, string_bytes, option_map, pos, Ok};
ghost use Rattle.std.specs.List.{list_all};
ghost use Rattle.std.specs.BTreeMap.{keys};
ghost use Rattle.name_table.specs.Places.{place_in};
ghost use Rattle.serde_json.specs.View.{view, items_view};
ghost use Rattle.scenario_forms.specs.declared.error.ItemMember.TheVariants as members;
ghost use Rattle.scenario_forms.specs.Reading.{◌>>=◌ as bind, Gives, GivesBy, member_at, member_or, fold_at};
ghost use Rattle.scenario_forms.specs.Fields.{new_name, integer, no_others};
ghost use Rattle.scenario_forms.specs.Items.{is_item_member, kind_word, kind_form, item_kind, item_at, item_step, no_items_yet, table_view};

use crate::error::{FormError, ItemMember, Place};
use crate::fields::{integer_or, need, number};
use crate::names::fresh;
use item_model::{ItemDecl, ItemKind};
use name_table::NameTable;
use rt_base::Name;
use serde_json::{Map, Value};
use std::alloc::Global;

const LONGEST: u64 = 1 << 40;

/// The kinds of items by their words.
#[derive(Clone, Copy)]
pub(crate) enum KindWord {
    Sensor,
    Derived,
    State,
}

/// The items of a scenario by their names.
#[derive(Drop)]
pub struct ItemTable {
    pub names: NameTable,
    pub decls: Vec<ItemDecl>,
}

fn word_of(text: &str) -> Option<KindWord>
    ensures { result ≡ kind_word text.now }
{
    match text {
        "sensor" => Some(KindWord::Sensor),
        "derived" => Some(KindWord::Derived),
        "state" => Some(KindWord::State),
        _ => None,
    }
}

fn kind(value: &Value) -> Option<KindWord>
    ensures { result ≡ kind_form (view value.now) }
{
    word_of(value.as_str()?)
}

fn is_member(text: &str) -> bool
    ensures { result ≡ is_item_member text.now }
{
    match text {
        "name" | "kind" | "validity" | "value" => true,
        _ => false,
    }
}

// Whether the members are those of items alone.
fn are_members(members: &Map<String, Value>) -> bool
    ensures { result ≡ list_all (λ k. is_item_member (string_bytes k)) (keys members.now) }
{
    members.keys().all(|k| is_member(k.as_str()))
}

// Whether the value is an object with members of items alone.
fn is_item(value: &Value) -> bool
    ensures { result ≡ no_others is_item_member (view value.now) }
{
    match value.as_object() {
        Some(members) => are_members(members),
        None => false,
    }
}

/// A name that is not taken yet.
#[tactic(auto, unfolding(crate::specs::Reading::member_at))]
pub(crate) fn name_at(place: Place, names: &NameTable, value: &Value) -> Result<Name, FormError>
    ensures { result ≡ member_at place (new_name (place_in names.now)) (codes "name") (view value.now) }
{
    need(place, value.get("name").and_then(|v| fresh(names, v)))
}

#[tactic(auto, unfolding(crate::specs::Reading::member_at))]
fn word_at(place: Place, value: &Value) -> Result<KindWord, FormError>
    ensures { result ≡ member_at place kind_form (codes "kind") (view value.now) }
{
    need(place, value.get("kind").and_then(kind))
}

#[tactic(auto, unfolding(crate::specs::Items::item_kind))]
fn kind_at(place: Place, word: KindWord, value: &Value) -> Result<ItemKind, FormError>
    ensures { Gives result (item_kind place word (view value.now)) }
{
    match word {
        KindWord::State => {
            need(
                place,
                if value.get("validity").is_none() {
                    Some(ItemKind::State)
                } else {
                    None
                },
            )
        }
        KindWord::Sensor => {
            let validity = number(place, 1, LONGEST, "validity", value)?;
            Ok(ItemKind::Sensor { validity })
        }
        KindWord::Derived => {
            let validity = number(place, 1, LONGEST, "validity", value)?;
            Ok(ItemKind::Derived { validity })
        }
    }
}

fn of_item(i: usize, member: ItemMember) -> Place
    ensures { result ≡ Place.ItemMember i member }
{
    Place::ItemMember { i, member }
}

// What stands behind the name.
fn named_item(name: Name, i: usize, value: &Value) -> Result<(Name, ItemDecl), FormError>
    ensures { Gives result
        (bind (member_at (Place.ItemMember i members.Kind) kind_form (codes "kind") (view value.now)) (λ word. bind
        (item_kind (Place.ItemMember i members.Validity) word (view value.now)) (λ kind. bind
        (member_or (pos 0) (Place.ItemMember i members.Value) integer (codes "value") (view value.now)) (λ initial.
        Ok (name, record { kind = kind; initial = initial }))))) }
{
    let word = word_at(of_item(i, ItemMember::Kind), value)?;
    let kind = kind_at(of_item(i, ItemMember::Validity), word, value)?;
    let initial = integer_or(of_item(i, ItemMember::Value), 0, "value", value)?;
    Ok((name, ItemDecl { kind, initial }))
}

#[tactic(auto, unfolding(crate::specs::Items::item_at))]
fn item(names: &NameTable, i: usize, value: &Value) -> Result<(Name, ItemDecl), FormError>
    ensures { Gives result (item_at (place_in names.now) i (view value.now)) }
{
    need(
        Place::Item { i },
        if is_item(value) { Some(()) } else { None },
    )?;
    let name = name_at(of_item(i, ItemMember::Name), names, value)?;
    named_item(name, i, value)
}

// One more item.
#[tactic(auto, unfolding(crate::specs::Items::item_step))]
fn add_item(alloc: Global, table: &mut ItemTable, value: &Value) -> Result<(), FormError>
    requires { length table.old.names < 2 ^ 32 }
    ensures { GivesBy (λ done. table_view table.new) result (item_step (table_view table.old) (view value.now)) }
{
    let (name, decl) = item(&table.names, table.names.len(), value)?;
    table.names.add(alloc, &name)?;
    table.decls.push(decl)?;
    Ok(())
}

/// The items of an array. Of each name it takes two look-ups.
pub(crate) fn items(alloc: Global, values: &[Value]) -> Result<ItemTable, FormError>
    requires { length values.now ≤ 2 ^ 32 }
    ensures { GivesBy table_view result (fold_at item_step no_items_yet (items_view values.now)) }
{
    let mut table = ItemTable {
        names: NameTable::new(alloc),
        decls: Vec::new(alloc),
    };
    for value in values {
        add_item(alloc, &mut table, value)?;
    }
    Ok(table)
}
