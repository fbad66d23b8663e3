//! The lanes of items with a validity, and the bounds of jobs.
ghost use Rattle.std.specs.Prelude.{◌≡◌, ◌≤◌, ◌+◌, ◌-◌, ◌++◌, codes, decimal, length, slice_get, OnOk};
ghost use Rattle.std.specs.List.{flat_map};
ghost use Rattle.schedule_marks.specs.Svg.{fitting};
ghost use Rattle.picture_text.specs.Ages.{bound_text, bound_of, bounds_text, age_line, age_lines, age_between, age_text, square, read_text, ages_text, if_dated, dated_text, bound_rule, lane_text, bound_word, lane_title};

use item_model::is_dated;
use itoa::Buffer;
use rt_base::{ItemId, Names, OutOfMemory, Tick};
use schedule_marks::{
    AgeRead, AgeSpan, Bound, Room, View, add_fitting, add_line, add_rect, add_words, age_y, item_y,
    name, top_tick, validity_or_none, x, y,
};
use txn_set::CompiledSet;

// Half a bracket, behind which the job does not end.
fn add_bound_lines(into: &mut Vec<u8>, x: u64, y: u64) -> Result<(), OutOfMemory>
    requires { y ≤ 1000000 }
    ensures { OnOk result (into.new.items ≡ into.old.items ++ bound_text x y) }
{
    add_line(into, b"rb", x, y + 45, x, y + 59)?;
    add_line(into, b"rb", x.saturating_sub(5), y + 58, x, y + 58)
}

#[tactic(auto, unfolding(crate::specs::Ages::bound_of))]
fn add_bound(
    into: &mut Vec<u8>,
    set: &CompiledSet,
    view: View,
    bound: &Bound,
) -> Result<(), OutOfMemory>
    ensures { OnOk result (into.new.items ≡ into.old.items ++ bound_of set.now view bound.now) }
{
    add_bound_lines(into, x(view, bound.tick), y(set, bound.job.tx))
}

/// The bounds of jobs.
pub(crate) fn add_bounds(
    into: &mut Vec<u8>,
    set: &CompiledSet,
    view: View,
    bounds: &[Bound],
) -> Result<(), OutOfMemory>
    ensures { OnOk result (into.new.items ≡ into.old.items ++ bounds_text set.now view bounds.now) }
{
    for bound in bounds {
        add_bound(into, set, view, bound)?;
    }
    Ok(())
}

// The line of a value's age.
fn add_age_line(
    into: &mut Vec<u8>,
    set: &CompiledSet,
    view: View,
    span: AgeSpan,
) -> Result<(), OutOfMemory>
    ensures { OnOk result (into.new.items ≡ into.old.items ++ age_line set.now view span.item.0 span.stamp span.from span.to) }
{
    add_line(
        into,
        b"ag",
        x(view, span.from),
        age_y(set, span.item, span.from.saturating_sub(span.stamp)),
        x(view, span.to),
        age_y(set, span.item, span.to.saturating_sub(span.stamp)),
    )
}

// Where it rises, and where it is drawn no higher.
fn add_age_lines(
    into: &mut Vec<u8>,
    set: &CompiledSet,
    view: View,
    span: AgeSpan,
    top: Tick,
) -> Result<(), OutOfMemory>
    ensures { OnOk result (into.new.items ≡ into.old.items ++ age_lines set.now view span.item.0 span.stamp span.from top span.to) }
{
    add_age_line(into, set, view, AgeSpan { to: top, ..span })?;
    if top < span.to {
        add_age_line(into, set, view, AgeSpan { from: top, ..span })
    } else {
        Ok(())
    }
}

fn add_age_between(
    into: &mut Vec<u8>,
    set: &CompiledSet,
    view: View,
    span: AgeSpan,
) -> Result<(), OutOfMemory>
    ensures { OnOk result (into.new.items ≡ into.old.items ++ age_between set.now view span.item.0 span.stamp span.from span.to) }
{
    let validity = validity_or_none(set, span.item);
    let top = top_tick(validity, span.stamp, span.from, span.to);
    add_age_lines(into, set, view, span, top)
}

// What of a value's time is in the part.
#[tactic(auto, unfolding(crate::specs::Ages::age_text))]
fn add_age(
    into: &mut Vec<u8>,
    set: &CompiledSet,
    view: View,
    span: &AgeSpan,
) -> Result<(), OutOfMemory>
    ensures { OnOk result (into.new.items ≡ into.old.items ++ age_text set.now view span.now) }
{
    let from = span.from.max(view.part.from);
    let to = span.to.min(view.part.to);
    add_age_between(into, set, view, AgeSpan { from, to, ..*span })?;
    Ok(())
}

fn add_square(into: &mut Vec<u8>, x: u64, y: u64) -> Result<(), OutOfMemory>
    ensures { OnOk result (into.new.items ≡ into.old.items ++ square x y) }
{
    add_rect(into, b"ar", x.saturating_sub(2), y.saturating_sub(2), 5, 5)
}

#[tactic(auto, unfolding(crate::specs::Ages::read_text))]
fn add_read(
    into: &mut Vec<u8>,
    set: &CompiledSet,
    view: View,
    read: &AgeRead,
) -> Result<(), OutOfMemory>
    ensures { OnOk result (into.new.items ≡ into.old.items ++ read_text set.now view read.now) }
{
    let age = read.tick.saturating_sub(read.stamp);
    add_square(into, x(view, read.tick), age_y(set, read.item, age))
}

fn add_spans(
    into: &mut Vec<u8>,
    set: &CompiledSet,
    view: View,
    spans: &[AgeSpan],
) -> Result<(), OutOfMemory>
    ensures { OnOk result (into.new.items ≡ into.old.items ++ flat_map (age_text set.now view) spans.now) }
{
    for span in spans {
        add_age(into, set, view, span)?;
    }
    Ok(())
}

fn add_reads(
    into: &mut Vec<u8>,
    set: &CompiledSet,
    view: View,
    reads: &[AgeRead],
) -> Result<(), OutOfMemory>
    ensures { OnOk result (into.new.items ≡ into.old.items ++ flat_map (read_text set.now view) reads.now) }
{
    for read in reads {
        add_read(into, set, view, read)?;
    }
    Ok(())
}

/// The ages of the values of items, and the commits that had read them.
pub(crate) fn add_ages(
    into: &mut Vec<u8>,
    set: &CompiledSet,
    view: View,
    spans: &[AgeSpan],
    reads: &[AgeRead],
) -> Result<(), OutOfMemory>
    ensures { OnOk result (into.new.items ≡ into.old.items ++ ages_text set.now view spans.now reads.now) }
{
    add_spans(into, set, view, spans)?;
    add_reads(into, set, view, reads)
}

fn bound_of_item(ages: &[Tick], item: ItemId) -> Option<Tick>
    ensures { result ≡ slice_get ages.now item.0 }
{
    let at = item.0 as usize;
    if at < ages.len() {
        Some(ages[at])
    } else {
        None
    }
}

fn add_bound_rule(
    into: &mut Vec<u8>,
    set: &CompiledSet,
    left: u64,
    right: u64,
    bound: Option<Tick>,
    item: ItemId,
) -> Result<(), OutOfMemory>
    ensures { OnOk result (into.new.items ≡ into.old.items ++ bound_rule set.now left right item.0 bound) }
{
    match bound {
        Some(bound) => {
            let y = age_y(set, item, bound);
            add_line(into, b"ab", left, y, right, y)
        }
        None => Ok(()),
    }
}

// The edge and the foot of a lane, its validity, and its age bound, if there is one.
fn add_lane(
    into: &mut Vec<u8>,
    set: &CompiledSet,
    left: u64,
    right: u64,
    ages: &[Tick],
    item: ItemId,
) -> Result<(), OutOfMemory>
    ensures { OnOk result (into.new.items ≡ into.old.items ++ lane_text set.now left right ages.now item.0) }
{
    let y = item_y(set, item);
    let bound = bound_of_item(ages, item);
    add_line(into, b"b", left, y, right, y)?;
    add_line(into, b"h", left, y + 54, right, y + 54)?;
    add_line(into, b"av", left, y + 24, right, y + 24)?;
    add_bound_rule(into, set, left, right, bound, item)?;
    Ok(())
}

fn add_lane_if(
    into: &mut Vec<u8>,
    set: &CompiledSet,
    left: u64,
    right: u64,
    ages: &[Tick],
    item: ItemId,
) -> Result<(), OutOfMemory>
    ensures { OnOk result (into.new.items ≡ into.old.items ++ if_dated set.now (lane_text set.now left right ages.now) item.0) }
{
    if is_dated(set.items(), item) {
        add_lane(into, set, left, right, ages, item)
    } else {
        Ok(())
    }
}

/// The frames of the lanes.
pub(crate) fn add_lanes(
    into: &mut Vec<u8>,
    set: &CompiledSet,
    left: u64,
    right: u64,
    ages: &[Tick],
) -> Result<(), OutOfMemory>
    ensures { OnOk result (into.new.items ≡ into.old.items ++ dated_text set.now (lane_text set.now left right ages.now) (length set.now.items)) }
{
    set.is_compiled();
    for i in 0..set.items().len() {
        add_lane_if(into, set, left, right, ages, ItemId(i as u32))?;
    }
    Ok(())
}

fn add_bound_word(
    into: &mut Vec<u8>,
    left: u16,
    y: u64,
    bound: Option<Tick>,
) -> Result<(), OutOfMemory>
    requires { y ≤ 1000000 }
    ensures { OnOk result (into.new.items ≡ into.old.items ++ bound_word left y bound) }
{
    match bound {
        Some(bound) => {
            let room = Room {
                x: 10,
                y: y + 46,
                width: (left as u64).saturating_sub(10),
            };
            let mut digits = Buffer::new();
            let digits = digits.format(bound).as_bytes();
            add_fitting(into, b"s", room, b"bound ", digits)
        }
        None => Ok(()),
    }
}

fn add_validity_word(
    into: &mut Vec<u8>,
    left: u16,
    y: u64,
    validity: Tick,
) -> Result<(), OutOfMemory>
    requires { y ≤ 1000000 }
    ensures { OnOk result (into.new.items ≡ into.old.items ++ fitting (codes "s") 10 (y + 32) (left - 10) (codes "valid ") (decimal validity)) }
{
    let room = Room {
        x: 10,
        y: y + 32,
        width: (left as u64).saturating_sub(10),
    };
    let mut digits = Buffer::new();
    let digits = digits.format(validity).as_bytes();
    add_fitting(into, b"s", room, b"valid ", digits)
}

fn add_age_title(
    into: &mut Vec<u8>,
    names: &Names,
    set: &CompiledSet,
    left: u16,
    ages: &[Tick],
    item: ItemId,
) -> Result<(), OutOfMemory>
    ensures { OnOk result (into.new.items ≡ into.old.items ++ lane_title names.now set.now left ages.now item.0) }
{
    let y = item_y(set, item);
    let name = name(names.items.as_slice(), item.0);
    add_line(into, b"b", 0, y, left as u64, y)?;
    add_words(into, b"n", 10, y + 16, name, b"")?;
    add_validity_word(into, left, y, validity_or_none(set, item))?;
    add_bound_word(into, left, y, bound_of_item(ages, item))?;
    Ok(())
}

fn add_age_title_if(
    into: &mut Vec<u8>,
    names: &Names,
    set: &CompiledSet,
    left: u16,
    ages: &[Tick],
    item: ItemId,
) -> Result<(), OutOfMemory>
    ensures { OnOk result (into.new.items ≡ into.old.items ++ if_dated set.now (lane_title names.now set.now left ages.now) item.0) }
{
    if is_dated(set.items(), item) {
        add_age_title(into, names, set, left, ages, item)
    } else {
        Ok(())
    }
}

/// The names of the lanes.
pub(crate) fn add_age_titles(
    into: &mut Vec<u8>,
    names: &Names,
    set: &CompiledSet,
    left: u16,
    ages: &[Tick],
) -> Result<(), OutOfMemory>
    ensures { OnOk result (into.new.items ≡ into.old.items ++ dated_text set.now (lane_title names.now set.now left ages.now) (length set.now.items)) }
{
    set.is_compiled();
    for i in 0..set.items().len() {
        add_age_title_if(into, names, set, left, ages, ItemId(i as u32))?;
    }
    Ok(())
}
