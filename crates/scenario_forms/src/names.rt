//! Names and their places.
ghost use Rattle.std.specs.Prelude.{◌≡◌};
ghost use Rattle.name_table.specs.Places.{place_in};
ghost use Rattle.serde_json.specs.View.{view};
ghost use Rattle.scenario_forms.specs.Fields.{new_name, item_in};

use name_table::NameTable;
use rt_base::{ItemId, Name};
use serde_json::Value;

/// The item of a name, by one look-up.
pub(crate) fn item(names: &NameTable, name: &str) -> Option<ItemId>
    ensures { result ≡ item_in (place_in names.now) name.now }
{
    match names.place(name.as_bytes()) {
        Some(place) => Some(ItemId(place)),
        None => None,
    }
}

/// A name that has no place yet, by one look-up.
pub(crate) fn fresh(names: &NameTable, value: &Value) -> Option<Name>
    ensures { result ≡ new_name (place_in names.now) (view value.now) }
{
    let text = value.as_str()?.as_bytes();
    if names.place(text).is_some() {
        None
    } else {
        Name::new(text)
    }
}
