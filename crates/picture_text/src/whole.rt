//! The whole picture.
ghost use Rattle.std.specs.Prelude.{◌≡◌, ◌<◌, ◌^◌, ◌++◌, IfOk, OnOk};
ghost use Rattle.picture_text.specs.Texts.{grid_text, body_text, picture_of, text_of};

use crate::ages::{add_ages, add_bounds, add_lanes};
use crate::frame::{add_numbers, add_rows, add_sheet, full_height, full_width, right};
use crate::marks::{add_links, add_marks};
use crate::titles::add_titles;
use rt_base::{Names, OutOfMemory, Tick};
use schedule_marks::{Limits, Part, Shown, View, add, view_for};
use std::alloc::Global;
use txn_set::CompiledSet;

// The time line, the rows and the lanes.
fn add_grid(
    into: &mut Vec<u8>,
    set: &CompiledSet,
    view: View,
    ages: &[Tick],
) -> Result<(), OutOfMemory>
    requires { view.part.from < 2 ^ 63 }
    ensures { OnOk result (into.new.items ≡ into.old.items ++ grid_text set.now view ages.now) }
{
    add_numbers(into, set, view)?;
    add_rows(into, set, view)?;
    add_lanes(into, set, view.left as u64, right(view), ages)?;
    Ok(())
}

/// What stands right of the names.
pub fn add_body(
    into: &mut Vec<u8>,
    names: &Names,
    set: &CompiledSet,
    view: View,
    ages: &[Tick],
    shown: &Shown,
) -> Result<(), OutOfMemory>
    requires { view.part.from < 2 ^ 63 }
    ensures { OnOk result (into.new.items ≡ into.old.items ++ body_text names.now set.now view ages.now shown.now) }
{
    add_grid(into, set, view, ages)?;
    add_links(into, set, view, shown.marks.as_slice())?;
    add_bounds(into, set, view, shown.bounds.as_slice())?;
    add_marks(into, names, set, view, shown.marks.as_slice())?;
    add_ages(
        into,
        set,
        view,
        shown.spans.as_slice(),
        shown.reads.as_slice(),
    )?;
    Ok(())
}

fn add_picture(
    into: &mut Vec<u8>,
    names: &Names,
    set: &CompiledSet,
    view: View,
    ages: &[Tick],
    shown: &Shown,
) -> Result<(), OutOfMemory>
    requires { view.part.from < 2 ^ 63 }
    ensures { OnOk result (into.new.items ≡ into.old.items ++ picture_of names.now set.now view ages.now shown.now) }
{
    add_sheet(into, set, view.part, full_width(view), full_height(set))?;
    add_body(into, names, set, view, ages, shown)?;
    add_titles(into, names, set, view.left, ages)?;
    add(into, b"</svg>\n")?;
    Ok(())
}

fn add_picture_of(
    into: &mut Vec<u8>,
    names: &Names,
    set: &CompiledSet,
    part: Part,
    limits: &Limits,
    shown: &Shown,
) -> Result<(), OutOfMemory>
    requires { part.from < 2 ^ 63 }
    ensures { OnOk result (into.new.items ≡ into.old.items ++ text_of names.now set.now part limits.now shown.now) }
{
    add_picture(
        into,
        names,
        set,
        view_for(names, part),
        limits.ages.as_slice(),
        shown,
    )
}

/// The picture of what is shown of a part: the frame of the set and of the part, the elements of each mark, in their order, and
/// the names at the left. At most 10,000 ticks are shown. For each mark it goes over the transactions or the items, and for each
/// wait over the marks.
pub fn picture(
    alloc: Global,
    names: &Names,
    set: &CompiledSet,
    part: Part,
    limits: &Limits,
    shown: &Shown,
) -> Result<Vec<u8>, OutOfMemory>
    requires { part.from < 2 ^ 63 }
    ensures { IfOk result (λ text. text.items ≡ text_of names.now set.now part limits.now shown.now) }
{
    let mut text = Vec::new(alloc);
    add_picture_of(&mut text, names, set, part, limits, shown)?;
    Ok(text)
}
