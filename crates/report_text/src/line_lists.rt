//! Lists of items.
ghost use Rattle.std.specs.Prelude.{◌≡◌, ◌+◌, ◌<◌, ◌≤◌, ◌++◌, length, drop, OnOk};
ghost use Rattle.std.specs.List.{All};
ghost use Rattle.line_fields.specs.Cuts.{field};
ghost use Rattle.report_text.specs.Rows.{numbered};
ghost use Rattle.report_text.specs.Texts.{item_name, more_name, list_text};

use journal_text::put_name;
use rt_base::{ItemId, Names, OutOfMemory};

fn add_first(into: &mut Vec<u8>, names: &Names, id: ItemId) -> Result<(), OutOfMemory>
    requires { id.0 < length names.now.items }
    ensures { OnOk result (into.new.items ≡ into.old.items ++ field (item_name names.now id)) }
{
    into.reserve(256)?;
    put_name(into, names.items.as_slice(), id.0);
    Ok(())
}

fn add_more(into: &mut Vec<u8>, names: &Names, id: ItemId) -> Result<(), OutOfMemory>
    requires { id.0 < length names.now.items }
    ensures { OnOk result (into.new.items ≡ into.old.items ++ more_name names.now 0 id) }
{
    into.extend_from_slice(b",")?;
    into.extend_from_slice(names.items.as_slice()[id.0 as usize].as_slice())?;
    Ok(())
}

fn add_others(into: &mut Vec<u8>, names: &Names, ids: &[ItemId]) -> Result<(), OutOfMemory>
    requires known { All (λ i. i.0 < length names.now.items) ids.now }
    requires some { 1 ≤ length ids.now }
    ensures { OnOk result (into.new.items ≡ into.old.items ++ numbered (more_name names.now) 1 (drop 1 ids.now)) }
{
    for i in 1..ids.len() {
        add_more(into, names, ids[i])?;
    }
    Ok(())
}

/// Adds a blank and a list of items.
pub(crate) fn add_list(into: &mut Vec<u8>, names: &Names, ids: &[ItemId]) -> Result<(), OutOfMemory>
    requires { All (λ i. i.0 < length names.now.items) ids.now }
    ensures { OnOk result (into.new.items ≡ into.old.items ++ field (list_text names.now ids.now)) }
{
    if ids.is_empty() {
        into.extend_from_slice(b" -")?;
        return Ok(());
    }
    add_first(into, names, ids[0])?;
    add_others(into, names, ids)
}
