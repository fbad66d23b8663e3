//! Items and relative sets in a JSON text.
ghost use Rattle.std.specs.Prelude.{◌≡◌, ◌<◌, [], ◌∷◌, OnOk, codes, map, length, option_map};
ghost use Rattle.std.specs.List.{All};
ghost use Rattle.item_model.specs.Kinds.{validity_of_kind};
ghost use Rattle.scenario_writer.specs.Canonical.{array_of, whole, kind_word as word_of_kind, item_data, items_data, item_words as words_of, set_data};
ghost use Rattle.scenario_writer.specs.Integers.{IsI64};
ghost use Rattle.scenario_writer.specs.Sent.{Sends, SendsFields, field, optional_field};

use crate::object::{
    begin_array, begin_object, end_array, end_object, item_name, key, put_integer, put_name,
    put_whole, put_word,
};
use item_model::{ItemDecl, ItemKind};
use json::Writer;
use rt_base::{ItemId, Name, OutOfMemory, TogetherDecl};

fn kind_word(kind: ItemKind) -> &'static str
    ensures { result.now ≡ word_of_kind kind }
{
    match kind {
        ItemKind::Sensor { .. } => "sensor",
        ItemKind::Derived { .. } => "derived",
        ItemKind::State => "state",
    }
}

// The validity, which a state item has not.
fn put_validity(out: &mut Writer, kind: ItemKind) -> Result<(), OutOfMemory>
    ensures { OnOk result (SendsFields (optional_field (codes "validity") (option_map whole (validity_of_kind kind)))
        out.old out.new) }
{
    match kind {
        ItemKind::Sensor { validity } | ItemKind::Derived { validity } => {
            put_whole(out, "validity", validity)
        }
        ItemKind::State => Ok(()),
    }
}

fn item(out: &mut Writer, name: &Name, decl: &ItemDecl) -> Result<(), OutOfMemory>
    ensures data { OnOk result (Sends (item_data name.now decl.now) out.old out.new) }
    ensures fits { OnOk result (IsI64 decl.now.initial) }
{
    begin_object(out)?;
    put_word(out, "kind", kind_word(decl.kind))?;
    put_name(out, "name", name)?;
    put_validity(out, decl.kind)?;
    put_integer(out, "value", decl.initial)?;
    end_object(out)
}

/// The items with their names.
pub(crate) fn items(out: &mut Writer, names: &[Name], decls: &[ItemDecl]) -> Result<(), OutOfMemory>
    requires { length names.now ≡ length decls.now }
    ensures data { OnOk result (Sends (array_of (items_data names.now decls.now)) out.old out.new) }
    ensures fits { OnOk result (All (λ d. IsI64 d.initial) decls.now) }
{
    begin_array(out)?;
    for i in 0..decls.len() {
        item(out, &names[i], &decls[i])?;
    }
    end_array(out)
}

// Items by their names.
fn item_words(out: &mut Writer, names: &[Name], items: &[ItemId]) -> Result<(), OutOfMemory>
    requires { All (λ i. i.0 < length names.now) items.now }
    ensures { OnOk result (Sends (words_of names.now items.now) out.old out.new) }
{
    begin_array(out)?;
    for item in items {
        item_name(out, names, *item)?;
    }
    end_array(out)
}

/// A member that is a list of items, by their names.
pub(crate) fn put_items(
    out: &mut Writer,
    label: &str,
    names: &[Name],
    items: &[ItemId],
) -> Result<(), OutOfMemory>
    requires { All (λ i. i.0 < length names.now) items.now }
    ensures { OnOk result (SendsFields (field label.now (words_of names.now items.now) ∷ []) out.old out.new) }
{
    key(out, label)?;
    item_words(out, names, items)
}

fn set(out: &mut Writer, names: &[Name], set: &TogetherDecl) -> Result<(), OutOfMemory>
    requires { All (λ i. i.0 < length names.now) set.now.items }
    ensures { OnOk result (Sends (set_data names.now set.now) out.old out.new) }
{
    begin_object(out)?;
    put_items(out, "items", names, set.items.as_slice())?;
    put_whole(out, "within", set.within)?;
    end_object(out)
}

/// The relative sets.
pub(crate) fn sets(
    out: &mut Writer,
    names: &[Name],
    sets: &[TogetherDecl],
) -> Result<(), OutOfMemory>
    requires { All (λ g. All (λ i. i.0 < length names.now) g.items) sets.now }
    ensures { OnOk result (Sends (array_of (map (set_data names.now) sets.now)) out.old out.new) }
{
    begin_array(out)?;
    for one in sets {
        set(out, names, one)?;
    }
    end_array(out)
}
