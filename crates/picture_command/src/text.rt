//! Cells and lines of tables.
ghost use Rattle.std.specs.Prelude.{◌≡◌, ◌++◌, slice_get, OnOk};
ghost use Rattle.std.specs.Fmt.{signed_decimal};
ghost use Rattle.picture_command.specs.Tables.{cell, number_cell, maybe_cell};

use itoa::Buffer;
use rt_base::{OutOfMemory, Value};
use schedule_marks::add;

/// A cell with a word.
pub(crate) fn add_cell(into: &mut Vec<u8>, word: &[u8]) -> Result<(), OutOfMemory>
    ensures { OnOk result (into.new.items ≡ into.old.items ++ cell word.now) }
{
    add(into, b"<td>")?;
    add(into, word)?;
    add(into, b"</td>")?;
    Ok(())
}

/// A cell with a number.
pub(crate) fn add_number_cell(into: &mut Vec<u8>, n: u64) -> Result<(), OutOfMemory>
    ensures { OnOk result (into.new.items ≡ into.old.items ++ number_cell n) }
{
    add_cell(into, Buffer::new().format(n).as_bytes())
}

/// A cell with a signed number.
pub(crate) fn add_signed_cell(into: &mut Vec<u8>, n: Value) -> Result<(), OutOfMemory>
    ensures { OnOk result (into.new.items ≡ into.old.items ++ cell (signed_decimal n)) }
{
    add_cell(into, Buffer::new().format(n).as_bytes())
}

/// A cell with a number, if there is one.
pub(crate) fn add_maybe_cell(into: &mut Vec<u8>, n: Option<u64>) -> Result<(), OutOfMemory>
    ensures { OnOk result (into.new.items ≡ into.old.items ++ maybe_cell n) }
{
    match n {
        Some(n) => add_number_cell(into, n),
        None => add_cell(into, b"-"),
    }
}

/// The number at a place, if there is one.
pub(crate) fn number_at(numbers: &[u64], at: u32) -> Option<u64>
    ensures { result ≡ slice_get numbers.now at }
{
    let at = at as usize;
    if at < numbers.len() {
        Some(numbers[at])
    } else {
        None
    }
}
