//! Parts of a JSON text.
ghost use Rattle.std.specs.Prelude.{◌≡◌, [], ◌∷◌, ◌<◌, OnOk, length};
ghost use Rattle.json.specs.Token.{begin_object, end_object, begin_array, end_array, key};
ghost use Rattle.scenario_writer.specs.Canonical.{whole as whole_data, integer as integer_data, word as word_data, item_word};
ghost use Rattle.scenario_writer.specs.Integers.{IsI64};
ghost use Rattle.scenario_writer.specs.Sent.{Adds, Sends, SendsFields, field};

use json::Writer;
use rt_base::{ItemId, Name, OutOfMemory};

/// Begins an object.
pub(crate) fn begin_object(out: &mut Writer) -> Result<(), OutOfMemory>
    ensures { OnOk result (Adds (begin_object ∷ []) out.old out.new) }
{
    Ok(out.begin_object()?)
}

/// Ends an object.
pub(crate) fn end_object(out: &mut Writer) -> Result<(), OutOfMemory>
    ensures { OnOk result (Adds (end_object ∷ []) out.old out.new) }
{
    Ok(out.end_object()?)
}

/// Begins an array.
pub(crate) fn begin_array(out: &mut Writer) -> Result<(), OutOfMemory>
    ensures { OnOk result (Adds (begin_array ∷ []) out.old out.new) }
{
    Ok(out.begin_array()?)
}

/// Ends an array.
pub(crate) fn end_array(out: &mut Writer) -> Result<(), OutOfMemory>
    ensures { OnOk result (Adds (end_array ∷ []) out.old out.new) }
{
    Ok(out.end_array()?)
}

/// A member's key, before its value.
pub(crate) fn key(out: &mut Writer, name: &str) -> Result<(), OutOfMemory>
    ensures { OnOk result (Adds (key name.now ∷ []) out.old out.new) }
{
    Ok(out.key(name)?)
}

/// A text.
pub(crate) fn word(out: &mut Writer, text: &str) -> Result<(), OutOfMemory>
    ensures { OnOk result (Sends (word_data text.now) out.old out.new) }
{
    Ok(out.string(text)?)
}

/// A name as a text.
pub(crate) fn name(out: &mut Writer, name: &Name) -> Result<(), OutOfMemory>
    ensures { OnOk result (Sends (word_data name.now) out.old out.new) }
{
    match str::from_utf8(name.as_slice()) {
        Ok(text) => word(out, text),
        Err(_) => unreachable!(),
    }
}

/// An item by its name.
pub(crate) fn item_name(out: &mut Writer, names: &[Name], item: ItemId) -> Result<(), OutOfMemory>
    requires { item.0 < length names.now }
    ensures { OnOk result (Sends (item_word names.now item) out.old out.new) }
{
    name(out, &names[item.0 as usize])
}

/// A whole number.
pub(crate) fn whole(out: &mut Writer, n: u64) -> Result<(), OutOfMemory>
    ensures { OnOk result (Sends (whole_data n) out.old out.new) }
{
    Ok(out.u64(n)?)
}

/// An integer.
pub(crate) fn integer(out: &mut Writer, n: i64) -> Result<(), OutOfMemory>
    ensures data { OnOk result (Sends (integer_data n) out.old out.new) }
    ensures fits { OnOk result (IsI64 n) }
{
    Ok(out.i64(n)?)
}

/// A member that is a text.
pub(crate) fn put_word(out: &mut Writer, label: &str, text: &str) -> Result<(), OutOfMemory>
    ensures { OnOk result (SendsFields (field label.now (word_data text.now) ∷ []) out.old out.new) }
{
    key(out, label)?;
    word(out, text)
}

/// A member that is a name.
pub(crate) fn put_name(out: &mut Writer, label: &str, text: &Name) -> Result<(), OutOfMemory>
    ensures { OnOk result (SendsFields (field label.now (word_data text.now) ∷ []) out.old out.new) }
{
    key(out, label)?;
    name(out, text)
}

/// A member that is a whole number.
pub(crate) fn put_whole(out: &mut Writer, label: &str, n: u64) -> Result<(), OutOfMemory>
    ensures { OnOk result (SendsFields (field label.now (whole_data n) ∷ []) out.old out.new) }
{
    key(out, label)?;
    whole(out, n)
}

/// A member that is an integer.
pub(crate) fn put_integer(out: &mut Writer, label: &str, n: i64) -> Result<(), OutOfMemory>
    ensures data { OnOk result (SendsFields (field label.now (integer_data n) ∷ []) out.old out.new) }
    ensures fits { OnOk result (IsI64 n) }
{
    key(out, label)?;
    integer(out, n)
}

/// A member that is an item.
pub(crate) fn put_item(
    out: &mut Writer,
    label: &str,
    names: &[Name],
    item: ItemId,
) -> Result<(), OutOfMemory>
    requires { item.0 < length names.now }
    ensures { OnOk result (SendsFields (field label.now (item_word names.now item) ∷ []) out.old out.new) }
{
    key(out, label)?;
    item_name(out, names, item)
}
