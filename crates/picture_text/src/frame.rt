//! What stands around the marks: the head, the time line, and the lines of the rows.
ghost use Rattle.std.specs.Prelude.{◌≡◌, ◌<◌, ◌≤◌, ◌^◌, ◌++◌, length, OnOk};
ghost use Rattle.picture_text.specs.Texts.{right as right_of, whole_width, whole_height, below, row_text, row_of, rows_text, tick_of, number_text, number_of, numbers_shown, numbers_text, head, about_text, about, backdrop, sheet};

use crate::legend::{add_arrows, add_legend, add_style};
use rt_base::{ItemId, OutOfMemory, Tick, TxId};
use schedule_marks::{
    Part, View, add, add_count, add_line, add_number, add_rect, item_y, own_ceiling_y, shown, step,
    top, x, y,
};
use txn_set::CompiledSet;

/// Where the part ends.
pub fn right(view: View) -> u64
    ensures value { result ≡ right_of view }
    ensures most { result ≤ 300000 }
{
    x(view, view.part.to)
}

/// The width of the whole.
pub(crate) fn full_width(view: View) -> u64
    ensures { result ≡ whole_width view }
{
    (right(view) + 50).max(900)
}

/// The height of the whole.
pub fn full_height(set: &CompiledSet) -> u64
    ensures value { result ≡ whole_height set.now }
    ensures most { result ≤ 79100 }
{
    set.is_compiled();
    item_y(set, ItemId(set.items().len() as u32)) + 24
}

// The edge of a row, the line on which its steps stand, and the level of the ceiling that its priority is.
fn add_row(into: &mut Vec<u8>, view: View, y: u64, level: u64) -> Result<(), OutOfMemory>
    requires { y ≤ 1000000 }
    ensures { OnOk result (into.new.items ≡ into.old.items ++ row_text view y level) }
{
    let left = view.left as u64;
    let right = right(view);
    add_line(into, b"b", left, y, right, y)?;
    add_line(into, b"h", left, y + 44, right, y + 44)?;
    add_line(into, b"g", left, level, right, level)?;
    Ok(())
}

fn add_row_of(
    into: &mut Vec<u8>,
    set: &CompiledSet,
    view: View,
    tx: TxId,
) -> Result<(), OutOfMemory>
    ensures { OnOk result (into.new.items ≡ into.old.items ++ row_of set.now view tx.0) }
{
    add_row(into, view, y(set, tx), own_ceiling_y(set, tx))
}

/// The lines of the rows.
pub(crate) fn add_rows(into: &mut Vec<u8>, set: &CompiledSet, view: View) -> Result<(), OutOfMemory>
    ensures { OnOk result (into.new.items ≡ into.old.items ++ rows_text set.now view) }
{
    set.is_compiled();
    for i in 0..set.txns().len() {
        add_row_of(into, set, view, TxId(i as u32))?;
    }
    Ok(())
}

// A number of the time line, above and below, and the line between.
fn add_tick(
    into: &mut Vec<u8>,
    tick: Tick,
    x: u64,
    top: u64,
    bottom: u64,
) -> Result<(), OutOfMemory>
    ensures { OnOk result (into.new.items ≡ into.old.items ++ number_text tick x top bottom) }
{
    add_line(into, b"g", x, 96, x, bottom.saturating_sub(20))?;
    add_count(into, b"s m", x, top.saturating_sub(8), b"", tick)?;
    add_count(into, b"s m", x, bottom.saturating_sub(8), b"", tick)?;
    Ok(())
}

// How many numbers the time line has.
#[tactic(auto, using(crate::proofs::Sums::quotient))]
fn number_count(part: Part) -> u64
    ensures value { result ≡ numbers_shown part }
    ensures most { result ≤ 10001 }
{
    shown(part) / step(part) + 1
}

// The tick of a number.
#[tactic(auto, using(crate::proofs::Sums::long))]
fn number_tick(part: Part, i: u64) -> Tick
    requires early { part.from < 2 ^ 63 }
    requires few { i ≤ 10000 }
    ensures { result ≡ tick_of part i }
{
    part.from + i * step(part)
}

fn add_number_of(
    into: &mut Vec<u8>,
    set: &CompiledSet,
    view: View,
    i: u64,
) -> Result<(), OutOfMemory>
    requires early { view.part.from < 2 ^ 63 }
    requires few { i ≤ 10000 }
    ensures { OnOk result (into.new.items ≡ into.old.items ++ number_of set.now view i) }
{
    let tick = number_tick(view.part, i);
    add_tick(into, tick, x(view, tick), top(set), full_height(set))
}

/// The time line.
pub(crate) fn add_numbers(
    into: &mut Vec<u8>,
    set: &CompiledSet,
    view: View,
) -> Result<(), OutOfMemory>
    requires { view.part.from < 2 ^ 63 }
    ensures { OnOk result (into.new.items ≡ into.old.items ++ numbers_text set.now view) }
{
    for i in 0..number_count(view.part) {
        add_number_of(into, set, view, i)?;
    }
    Ok(())
}

fn add_head(into: &mut Vec<u8>, width: u64, height: u64) -> Result<(), OutOfMemory>
    ensures { OnOk result (into.new.items ≡ into.old.items ++ head width height) }
{
    add_number(
        into,
        b"<svg xmlns='http://www.w3.org/2000/svg' role='img' aria-labelledby='about more' width='",
        width,
    )?;
    add_number(into, b"' height='", height)?;
    add_number(into, b"' viewBox='0 0 ", width)?;
    add_number(into, b" ", height)?;
    add(into, b"'>\n")?;
    Ok(())
}

fn add_about_text(into: &mut Vec<u8>, from: Tick, to: Tick, count: u64) -> Result<(), OutOfMemory>
    ensures { OnOk result (into.new.items ≡ into.old.items ++ about_text from to count) }
{
    add_number(into, b"<title id='about'>Schedule from tick ", from)?;
    add_number(into, b" to tick ", to)?;
    add_number(into, b"</title>\n<desc id='more'>A row for each of ", count)?;
    add(
        into,
        b" transactions, in falling priority; time goes from left to right.</desc>\n",
    )?;
    Ok(())
}

/// What a screen reader says.
pub fn add_about(into: &mut Vec<u8>, set: &CompiledSet, part: Part) -> Result<(), OutOfMemory>
    ensures { OnOk result (into.new.items ≡ into.old.items ++ about set.now part) }
{
    add_about_text(into, part.from, part.to, set.txns().len() as u64)
}

fn add_backdrop(into: &mut Vec<u8>, width: u64, height: u64) -> Result<(), OutOfMemory>
    ensures { OnOk result (into.new.items ≡ into.old.items ++ backdrop width height) }
{
    add_rect(into, b"bg", 0, 0, width, height)
}

/// The head, what all else is drawn on, and the legend.
pub(crate) fn add_sheet(
    into: &mut Vec<u8>,
    set: &CompiledSet,
    part: Part,
    width: u64,
    height: u64,
) -> Result<(), OutOfMemory>
    ensures { OnOk result (into.new.items ≡ into.old.items ++ sheet set.now part width height) }
{
    add_head(into, width, height)?;
    add_about(into, set, part)?;
    add_style(into)?;
    add_arrows(into)?;
    add_backdrop(into, width, height)?;
    add_legend(into)?;
    Ok(())
}
