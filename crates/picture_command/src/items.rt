//! The table of items: what was declared of them, and their last values.
ghost use Rattle.std.specs.Prelude.{◌≡◌, ◌<◌, ◌++◌, length, slice_get, OnOk};
ghost use Rattle.item_model.specs.Work.{stored_of};
ghost use Rattle.picture_command.specs.Tables.{kind_word, kind_of, age_bound_of, item_cells, value_cells, item_line, item_head, item_lines, item_table};

use crate::jobs::add_end;
use crate::text::{add_cell, add_maybe_cell, add_number_cell, add_signed_cell, number_at};
use item_model::{ItemKind, Stored, is_dated, validity};
use rt_base::{ItemId, Names, OutOfMemory, Tick};
use schedule_marks::{add, name};
use txn_set::CompiledSet;

fn word_of_kind(kind: ItemKind) -> &'static [u8]
    ensures { result.now ≡ kind_word kind }
{
    match kind {
        ItemKind::Sensor { .. } => b"sensor",
        ItemKind::Derived { .. } => b"derived",
        ItemKind::State => b"state",
    }
}

fn kind(set: &CompiledSet, item: ItemId) -> &'static [u8]
    ensures { result.now ≡ kind_of (slice_get set.now.items item.0) }
{
    let at = item.0 as usize;
    if at < set.items().len() {
        word_of_kind(set.items()[at].kind)
    } else {
        b""
    }
}

// The age bound, if the item has a validity and the set was admitted.
fn age_bound(set: &CompiledSet, ages: &[Tick], item: ItemId) -> Option<Tick>
    ensures { result ≡ age_bound_of set.now ages.now item.0 }
{
    if is_dated(set.items(), item) {
        number_at(ages, item.0)
    } else {
        None
    }
}

fn add_item(
    into: &mut Vec<u8>,
    names: &Names,
    set: &CompiledSet,
    ages: &[Tick],
    item: ItemId,
) -> Result<(), OutOfMemory>
    ensures { OnOk result (into.new.items ≡ into.old.items ++ item_cells names.now set.now ages.now item.0) }
{
    add_cell(into, name(names.items.as_slice(), item.0))?;
    add_cell(into, kind(set, item))?;
    add_maybe_cell(into, validity(set.items(), item))?;
    add_maybe_cell(into, age_bound(set, ages, item))?;
    Ok(())
}

fn stored(items: &[Stored], item: ItemId) -> Stored
    ensures { result ≡ stored_of items.now item.0 }
{
    let at = item.0 as usize;
    if at < items.len() {
        items[at]
    } else {
        Stored { value: 0, stamp: 0 }
    }
}

// Its last value and the stamp of that.
fn add_value(into: &mut Vec<u8>, stored: Stored) -> Result<(), OutOfMemory>
    ensures { OnOk result (into.new.items ≡ into.old.items ++ value_cells stored) }
{
    add_signed_cell(into, stored.value)?;
    add_number_cell(into, stored.stamp)
}

fn add_line(
    into: &mut Vec<u8>,
    names: &Names,
    set: &CompiledSet,
    ages: &[Tick],
    items: &[Stored],
    item: ItemId,
) -> Result<(), OutOfMemory>
    ensures { OnOk result (into.new.items ≡ into.old.items ++ item_line names.now set.now ages.now items.now item.0) }
{
    add(into, b"<tr>")?;
    add_item(into, names, set, ages, item)?;
    add_value(into, stored(items, item))?;
    add(into, b"</tr>\n")?;
    Ok(())
}

fn add_lines(
    into: &mut Vec<u8>,
    names: &Names,
    set: &CompiledSet,
    ages: &[Tick],
    items: &[Stored],
) -> Result<(), OutOfMemory>
    ensures { OnOk result (into.new.items ≡ into.old.items ++ item_lines names.now set.now ages.now items.now) }
{
    set.is_compiled();
    for i in 0..set.items().len() {
        add_line(into, names, set, ages, items, ItemId(i as u32))?;
    }
    Ok(())
}

fn add_head(into: &mut Vec<u8>) -> Result<(), OutOfMemory>
    ensures { OnOk result (into.new.items ≡ into.old.items ++ item_head) }
{
    add(
        into,
        b"<table>\n<caption>Items at the end of the run</caption>\n<tr><th>name</th><th>kind</th><th>validity</th><th>age bound</th>",
    )?;
    add(into, b"<th>value</th><th>stamp</th></tr>\n")
}

/// The table of items.
pub(crate) fn add_items(
    into: &mut Vec<u8>,
    names: &Names,
    set: &CompiledSet,
    ages: &[Tick],
    items: &[Stored],
) -> Result<(), OutOfMemory>
    ensures { OnOk result (into.new.items ≡ into.old.items ++ item_table names.now set.now ages.now items.now) }
{
    add_head(into)?;
    add_lines(into, names, set, ages, items)?;
    add_end(into)?;
    Ok(())
}
