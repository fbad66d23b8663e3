//! The elements of a picture. Places and lengths are in pixels.
ghost use Rattle.std.specs.Prelude.{◌≡◌, ◌++◌, OnOk};
ghost use Rattle.std.specs.Fmt.{decimal};
ghost use Rattle.schedule_marks.specs.Svg.{counted, rect, line, circle, words, some_word, fitting};

use crate::place::letters_in;
use itoa::Buffer;
use rt_base::OutOfMemory;

/// The place of a text that is left out where it has no room.
#[derive(Clone, Copy, PartialEq, Eq, Debug)]
pub struct Room {
    /// Where the text begins.
    pub x: u64,
    /// Where its line stands.
    pub y: u64,
    /// How many pixels it may take.
    pub width: u64,
}

/// Adds bytes.
pub fn add(into: &mut Vec<u8>, bytes: &[u8]) -> Result<(), OutOfMemory>
    ensures { OnOk result (into.new.items ≡ into.old.items ++ bytes.now) }
{
    into.extend_from_slice(bytes)?;
    Ok(())
}

/// Adds bytes and a number.
#[tactic(auto, unfolding(crate::specs::Svg::counted))]
pub fn add_number(into: &mut Vec<u8>, bytes: &[u8], n: u64) -> Result<(), OutOfMemory>
    ensures { OnOk result (into.new.items ≡ into.old.items ++ counted bytes.now n) }
{
    into.extend_from_slice(bytes)?;
    into.extend_from_slice(Buffer::new().format(n).as_bytes())?;
    Ok(())
}

/// A rectangle from its upper left corner on.
pub fn add_rect(
    into: &mut Vec<u8>,
    class: &[u8],
    x: u64,
    y: u64,
    width: u64,
    height: u64,
) -> Result<(), OutOfMemory>
    ensures { OnOk result (into.new.items ≡ into.old.items ++ rect class.now x y width height) }
{
    add(into, b"<rect class='")?;
    add(into, class)?;
    add_number(into, b"' x='", x)?;
    add_number(into, b"' y='", y)?;
    add_number(into, b"' width='", width)?;
    add_number(into, b"' height='", height)?;
    add(into, b"'/>\n")?;
    Ok(())
}

/// A line from one point to another.
pub fn add_line(
    into: &mut Vec<u8>,
    class: &[u8],
    x: u64,
    y: u64,
    to_x: u64,
    to_y: u64,
) -> Result<(), OutOfMemory>
    ensures { OnOk result (into.new.items ≡ into.old.items ++ line class.now x y to_x to_y) }
{
    add(into, b"<line class='")?;
    add(into, class)?;
    add_number(into, b"' x1='", x)?;
    add_number(into, b"' y1='", y)?;
    add_number(into, b"' x2='", to_x)?;
    add_number(into, b"' y2='", to_y)?;
    add(into, b"'/>\n")?;
    Ok(())
}

/// A disc around a point.
pub fn add_circle(into: &mut Vec<u8>, class: &[u8], x: u64, y: u64) -> Result<(), OutOfMemory>
    ensures { OnOk result (into.new.items ≡ into.old.items ++ circle class.now x y) }
{
    add(into, b"<circle class='")?;
    add(into, class)?;
    add_number(into, b"' cx='", x)?;
    add_number(into, b"' cy='", y)?;
    add(into, b"' r='6'/>\n")?;
    Ok(())
}

/// Two words in a row, neither of which has a character that XML keeps for itself.
pub fn add_words(
    into: &mut Vec<u8>,
    class: &[u8],
    x: u64,
    y: u64,
    first: &[u8],
    second: &[u8],
) -> Result<(), OutOfMemory>
    ensures { OnOk result (into.new.items ≡ into.old.items ++ words class.now x y first.now second.now) }
{
    add(into, b"<text class='")?;
    add(into, class)?;
    add_number(into, b"' x='", x)?;
    add_number(into, b"' y='", y)?;
    add(into, b"'>")?;
    add(into, first)?;
    add(into, second)?;
    add(into, b"</text>\n")?;
    Ok(())
}

/// A word, if there is one.
#[tactic(auto, unfolding(crate::specs::Svg::some_word))]
pub fn add_word(
    into: &mut Vec<u8>,
    class: &[u8],
    x: u64,
    y: u64,
    word: &[u8],
) -> Result<(), OutOfMemory>
    ensures { OnOk result (into.new.items ≡ into.old.items ++ some_word class.now x y word.now) }
{
    if word.is_empty() {
        Ok(())
    } else {
        add_words(into, class, x, y, word, b"")
    }
}

/// A word and a number.
pub fn add_count(
    into: &mut Vec<u8>,
    class: &[u8],
    x: u64,
    y: u64,
    word: &[u8],
    n: u64,
) -> Result<(), OutOfMemory>
    ensures { OnOk result (into.new.items ≡ into.old.items ++ words class.now x y word.now (decimal n)) }
{
    add_words(into, class, x, y, word, Buffer::new().format(n).as_bytes())
}

/// Two words in a row, if they have room.
#[tactic(auto, unfolding(crate::specs::Svg::fitting))]
pub fn add_fitting(
    into: &mut Vec<u8>,
    class: &[u8],
    room: Room,
    first: &[u8],
    second: &[u8],
) -> Result<(), OutOfMemory>
    ensures { OnOk result (into.new.items ≡ into.old.items ++ fitting class.now room.x room.y room.width first.now second.now) }
{
    if first.len() as u64 + second.len() as u64 <= letters_in(room.width) {
        add_words(into, class, room.x, room.y, first, second)
    } else {
        Ok(())
    }
}
