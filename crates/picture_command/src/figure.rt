//! The legend, and the picture, which scrolls under its names.
ghost use Rattle.std.specs.Prelude.{◌≡◌, ◌<◌, ◌^◌, ◌-◌, ◌++◌, OnOk};
ghost use Rattle.picture_text.specs.Texts.{whole_height};
ghost use Rattle.picture_command.specs.Page.{cut as cut_of, lower, opening, closing, legend_part, names_part, rest_width, body_part, figure};

use picture_text::{
    add_about, add_arrows, add_body, add_legend, add_style, add_titles, full_height, right,
};
use rt_base::{Names, OutOfMemory, Tick};
use schedule_marks::{Shown, View, add, add_number, add_rect};
use txn_set::CompiledSet;

const LOWER: u64 = 88;

// Where the picture is cut from the names.
fn cut(left: u16) -> u64
    ensures { result ≡ cut_of left }
{
    (left as u64).saturating_sub(8)
}

fn lower_height(set: &CompiledSet) -> u64
    ensures { result ≡ whole_height set.now - lower }
{
    full_height(set).saturating_sub(LOWER)
}

// A picture's beginning: what it is, and which part of the whole it shows.
fn add_opening(
    into: &mut Vec<u8>,
    what: &[u8],
    x: u64,
    y: u64,
    width: u64,
    height: u64,
) -> Result<(), OutOfMemory>
    ensures { OnOk result (into.new.items ≡ into.old.items ++ opening what.now x y width height) }
{
    add(into, b"<svg xmlns='http://www.w3.org/2000/svg' role='img' ")?;
    add(into, what)?;
    add_number(into, b" width='", width)?;
    add_number(into, b"' height='", height)?;
    add_number(into, b"' viewBox='", x)?;
    add_number(into, b" ", y)?;
    add_number(into, b" ", width)?;
    add_number(into, b" ", height)?;
    add(into, b"'>\n")?;
    Ok(())
}

fn add_closing(into: &mut Vec<u8>) -> Result<(), OutOfMemory>
    ensures { OnOk result (into.new.items ≡ into.old.items ++ closing) }
{
    add(into, b"</svg>\n")
}

fn add_legend_part(into: &mut Vec<u8>) -> Result<(), OutOfMemory>
    ensures { OnOk result (into.new.items ≡ into.old.items ++ legend_part) }
{
    add_opening(into, b"aria-label='legend'", 0, 0, 900, LOWER)?;
    add_style(into)?;
    add_arrows(into)?;
    add_rect(into, b"bg", 0, 0, 900, LOWER)?;
    add_legend(into)?;
    add_closing(into)?;
    Ok(())
}

fn add_names_part(
    into: &mut Vec<u8>,
    names: &Names,
    set: &CompiledSet,
    left: u16,
    ages: &[Tick],
) -> Result<(), OutOfMemory>
    ensures { OnOk result (into.new.items ≡ into.old.items ++ names_part names.now set.now left ages.now) }
{
    let width = cut(left);
    let height = lower_height(set);
    add_opening(
        into,
        b"class='names' aria-label='names'",
        0,
        LOWER,
        width,
        height,
    )?;
    add_rect(into, b"bg", 0, LOWER, width, height)?;
    add_titles(into, names, set, left, ages)?;
    add_closing(into)?;
    Ok(())
}

// How wide the rest is.
fn width_of_rest(view: View) -> u64
    ensures { result ≡ rest_width view }
{
    (right(view) + 50).saturating_sub(cut(view.left))
}

fn add_body_part(
    into: &mut Vec<u8>,
    names: &Names,
    set: &CompiledSet,
    view: View,
    ages: &[Tick],
    shown: &Shown,
) -> Result<(), OutOfMemory>
    requires { view.part.from < 2 ^ 63 }
    ensures { OnOk result (into.new.items ≡ into.old.items ++ body_part names.now set.now view ages.now shown.now) }
{
    let left = cut(view.left);
    let width = width_of_rest(view);
    let height = lower_height(set);
    add_opening(
        into,
        b"aria-labelledby='about more'",
        left,
        LOWER,
        width,
        height,
    )?;
    add_about(into, set, view.part)?;
    add_rect(into, b"bg", left, LOWER, width, height)?;
    add_body(into, names, set, view, ages, shown)?;
    add_closing(into)?;
    Ok(())
}

/// The legend, and the picture.
pub(crate) fn add_figure(
    into: &mut Vec<u8>,
    names: &Names,
    set: &CompiledSet,
    view: View,
    ages: &[Tick],
    shown: &Shown,
) -> Result<(), OutOfMemory>
    requires { view.part.from < 2 ^ 63 }
    ensures { OnOk result (into.new.items ≡ into.old.items ++ figure names.now set.now view ages.now shown.now) }
{
    add_legend_part(into)?;
    add(into, b"<div class='view' tabindex='0'>\n")?;
    add_names_part(into, names, set, view.left, ages)?;
    add_body_part(into, names, set, view, ages, shown)?;
    add(into, b"</div>\n")?;
    Ok(())
}
