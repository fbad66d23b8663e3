//! The elements of each mark.
ghost use Rattle.std.specs.Prelude.{◌≡◌, ◌++◌, ◌-◌, ◌≤◌, OnOk};
ghost use Rattle.schedule_marks.specs.Places.{x_of, y_of};
ghost use Rattle.picture_text.specs.Texts.{span, op_class, op_letter, letter_class, letter as letter_text, step_width, block, step_text, end_class, end_letter, disc, ended_text, lock_class, lock_text, ceiling_text, cut_by, label_end as end_of_label, wait_bars, wait_label, wait_text, refusal_text, release_text, deadline_text, mark_text, marks_text, link_text, link_of, links_text};

use itoa::Buffer;
use rt_base::{End, JobId, Names, Op, OutOfMemory, Tick, TxId};
use schedule_marks::{
    Mark, Part, Room, View, add_circle, add_fitting, add_line, add_rect, add_word, ceiling_y,
    deadline, lock_y, middle, name, width, x, y,
};
use txn_set::CompiledSet;

// Where the row of a job begins, and that of the job on which it waits.
#[derive(Clone, Copy)]
struct Rows {
    own: u64,
    other: u64,
}

// How many pixels some ticks have.
fn pixels(view: View, ticks: Part) -> u64
    ensures { result ≡ x_of view ticks.to - x_of view ticks.from }
{
    x(view, ticks.to).saturating_sub(x(view, ticks.from))
}

// A field over some ticks.
fn add_span(
    into: &mut Vec<u8>,
    view: View,
    class: &[u8],
    ticks: Part,
    y: u64,
    height: u64,
) -> Result<(), OutOfMemory>
    ensures { OnOk result (into.new.items ≡ into.old.items ++ span view class.now ticks.from ticks.to y height) }
{
    let left = x(view, ticks.from);
    add_rect(into, class, left, y, pixels(view, ticks), height)
}

fn class_of(op: Op) -> &'static [u8]
    ensures { result.now ≡ op_class op }
{
    match op {
        Op::Read(_) => b"r",
        Op::Write(_, _) => b"w",
        Op::Compute => b"c",
        Op::Commit => b"k",
        Op::Quit => b"q",
    }
}

fn letter_of(op: Op) -> &'static [u8]
    ensures { result.now ≡ op_letter op }
{
    match op {
        Op::Read(_) => b"R",
        Op::Write(_, _) => b"W",
        Op::Compute => b"",
        Op::Commit => b"C",
        Op::Quit => b"Q",
    }
}

fn class_of_letter(op: Op) -> &'static [u8]
    ensures { result.now ≡ letter_class op }
{
    match op {
        Op::Read(_) => b"j",
        Op::Write(_, _) => b"z",
        Op::Compute => b"j",
        Op::Commit => b"z",
        Op::Quit => b"z",
    }
}

// The letter of a step, where a tick is wide enough.
fn add_letter(into: &mut Vec<u8>, width: u64, op: Op, x: u64, y: u64) -> Result<(), OutOfMemory>
    requires { (width ≤ 20) × (x ≤ 1000000) × (y ≤ 1000000) }
    ensures { OnOk result (into.new.items ≡ into.old.items ++ letter_text width op x y) }
{
    if width < 16 {
        return Ok(());
    }
    add_word(
        into,
        class_of_letter(op),
        x + width / 2,
        y + 40,
        letter_of(op),
    )
}

// The width of a step: less than a tick's, where there is room, so that steps stand apart.
fn width_of_step(width: u64) -> u64
    ensures { result ≡ step_width width }
{
    if width <= 2 { width } else { width - 1 }
}

fn add_block(into: &mut Vec<u8>, width: u64, op: Op, x: u64, y: u64) -> Result<(), OutOfMemory>
    requires { (width ≤ 20) × (x ≤ 1000000) × (y ≤ 1000000) }
    ensures { OnOk result (into.new.items ≡ into.old.items ++ block width op x y) }
{
    add_rect(into, class_of(op), x, y + 20, width_of_step(width), 24)
}

fn add_step(into: &mut Vec<u8>, width: u64, op: Op, x: u64, y: u64) -> Result<(), OutOfMemory>
    requires { (width ≤ 20) × (x ≤ 1000000) × (y ≤ 1000000) }
    ensures { OnOk result (into.new.items ≡ into.old.items ++ step_text width op x y) }
{
    add_block(into, width, op, x, y)?;
    add_letter(into, width, op, x, y)?;
    Ok(())
}

fn class_of_end(end: End) -> &'static [u8]
    ensures { result.now ≡ end_class end }
{
    match end {
        End::Committed => b"xk",
        End::Overrun => b"xo",
        End::Late => b"xl",
        End::Stale { .. } => b"xs",
        End::Apart { .. } => b"xa",
        End::Quit => b"xq",
    }
}

// The letter of an end; none of a commit.
fn letter_of_end(end: End) -> &'static [u8]
    ensures { result.now ≡ end_letter end }
{
    match end {
        End::Committed => b"",
        End::Overrun => b"O",
        End::Late => b"L",
        End::Stale { .. } => b"S",
        End::Apart { .. } => b"A",
        End::Quit => b"Q",
    }
}

fn class_of_lock(is_write: bool) -> &'static [u8]
    ensures { result.now ≡ lock_class is_write }
{
    if is_write { b"lw" } else { b"lr" }
}

fn add_lock(
    into: &mut Vec<u8>,
    view: View,
    item: &[u8],
    is_write: bool,
    held: Part,
    y: u64,
) -> Result<(), OutOfMemory>
    requires { y ≤ 1000000 }
    ensures { OnOk result (into.new.items ≡ into.old.items ++ lock_text view item.now is_write held.from held.to y) }
{
    let room = Room {
        x: x(view, held.from) + 3,
        y: y + 10,
        width: pixels(view, held),
    };
    add_span(into, view, class_of_lock(is_write), held, y, 12)?;
    add_fitting(into, b"s", room, item, b"")?;
    Ok(())
}

fn add_ceiling(into: &mut Vec<u8>, width: u64, x: u64, y: u64, base: u64) -> Result<(), OutOfMemory>
    requires { (width ≤ 20) × (x ≤ 1000000) }
    ensures { OnOk result (into.new.items ≡ into.old.items ++ ceiling_text width x y base) }
{
    add_rect(into, b"a", x, y, width, base.saturating_sub(y))?;
    add_line(into, b"t", x, y, x + width, y)
}

// Where a later wait on a job of the transaction cuts a label off.
fn cut(tx: TxId, from: Tick, to: Tick, mark: Mark) -> Tick
    ensures { result ≡ cut_by tx.0 from to mark }
{
    match mark {
        Mark::Wait {
            by,
            from: start,
            ..
        } => {
            if by.tx.0 == tx.0 && from < start {
                start.min(to)
            } else {
                to
            }
        }
        Mark::Pending { .. } => to,
        Mark::Lock { .. } => to,
        Mark::Ceiling { .. } => to,
        Mark::Step { .. } => to,
        Mark::Refusal { .. } => to,
        Mark::Release { .. } => to,
        Mark::Deadline { .. } => to,
        Mark::Ended { .. } => to,
    }
}

// Where the label of a wait ends: the next one on the same transaction may begin earlier than this one ends.
fn label_end(tx: TxId, from: Tick, to: Tick, marks: &[Mark]) -> Tick
    ensures { result ≡ end_of_label tx.0 from to marks.now }
{
    let mut end = to;
    for mark in marks {
        end = cut(tx, from, end, *mark);
    }
    end
}

// On the row of the job that waits, and on that of the other.
fn add_wait_bars(
    into: &mut Vec<u8>,
    view: View,
    waited: Part,
    rows: Rows,
) -> Result<(), OutOfMemory>
    requires { (rows.own ≤ 1000000) × (rows.other ≤ 1000000) }
    ensures { OnOk result (into.new.items ≡ into.old.items ++ wait_bars view waited.from waited.to rows.own rows.other) }
{
    add_span(into, view, b"o", waited, rows.own + 21, 22)?;
    add_span(into, view, b"i", waited, rows.other + 60, 12)
}

// Whose priority the other has, if there is room.
fn add_wait_label(
    into: &mut Vec<u8>,
    view: View,
    waiting: &[u8],
    ticks: Part,
    y: u64,
) -> Result<(), OutOfMemory>
    requires { y ≤ 1000000 }
    ensures { OnOk result (into.new.items ≡ into.old.items ++ wait_label view waiting.now ticks.from ticks.to y) }
{
    let room = Room {
        x: x(view, ticks.from) + 3,
        y: y + 70,
        width: pixels(view, ticks),
    };
    add_fitting(into, b"s", room, b"as ", waiting)
}

fn add_wait(
    into: &mut Vec<u8>,
    view: View,
    waiting: &[u8],
    waited: Part,
    until: Tick,
    rows: Rows,
) -> Result<(), OutOfMemory>
    requires { (rows.own ≤ 1000000) × (rows.other ≤ 1000000) }
    ensures { OnOk result (into.new.items ≡ into.old.items ++ wait_text view waiting.now waited.from waited.to until rows.own rows.other) }
{
    let labelled = Part {
        to: until,
        ..waited
    };
    add_wait_bars(into, view, waited, rows)?;
    add_wait_label(into, view, waiting, labelled, rows.other)
}

// From the step that is refused, and to that of the job that is waited on.
fn add_refusal(into: &mut Vec<u8>, x: u64, rows: Rows) -> Result<(), OutOfMemory>
    requires { (rows.own ≤ 1000000) × (rows.other ≤ 1000000) }
    ensures { OnOk result (into.new.items ≡ into.old.items ++ refusal_text x rows.own rows.other) }
{
    add_line(into, b"vs", x, rows.own + 32, x, rows.own + 44)?;
    add_line(into, b"v", x, rows.other + 12, x, rows.other + 27)
}

fn add_deadline(into: &mut Vec<u8>, x: u64, y: u64) -> Result<(), OutOfMemory>
    requires { y ≤ 1000000 }
    ensures { OnOk result (into.new.items ≡ into.old.items ++ deadline_text x y) }
{
    add_line(into, b"d", x, y + 4, x, y + 20)
}

// An arrow up, and the job's serial, if there is room for it before the deadline.
fn add_release(
    into: &mut Vec<u8>,
    view: View,
    deadline: Tick,
    x: u64,
    y: u64,
    serial: u32,
) -> Result<(), OutOfMemory>
    requires { (x ≤ 1000000) × (y ≤ 1000000) }
    ensures { OnOk result (into.new.items ≡ into.old.items ++ release_text view deadline x y serial) }
{
    let room = Room {
        x: x + 6,
        y: y + 14,
        width: (width(view) * deadline.min(1000)).saturating_sub(6),
    };
    let mut digits = Buffer::new();
    let digits = digits.format(serial as u64).as_bytes();
    add_line(into, b"u", x, y + 20, x, y + 4)?;
    add_fitting(into, b"f", room, b"#", digits)
}

fn add_disc(into: &mut Vec<u8>, end: End, x: u64, y: u64) -> Result<(), OutOfMemory>
    requires { y ≤ 1000000 }
    ensures { OnOk result (into.new.items ≡ into.old.items ++ disc end x y) }
{
    add_circle(into, class_of_end(end), x, y + 52)?;
    add_word(into, b"l", x, y + 55, letter_of_end(end))
}

// A disc, or a short field where ticks are narrow.
fn add_end(into: &mut Vec<u8>, width: u64, x: u64, y: u64, end: End) -> Result<(), OutOfMemory>
    requires { y ≤ 1000000 }
    ensures { OnOk result (into.new.items ≡ into.old.items ++ ended_text width x y end) }
{
    if width >= 8 {
        add_disc(into, end, x, y)
    } else {
        add_rect(into, class_of_end(end), x, y + 46, width.min(2), 12)
    }
}

fn rows_of(set: &CompiledSet, job: JobId, by: JobId) -> Rows
    ensures own { result.own ≡ y_of set.now job.tx.0 }
    ensures other { result.other ≡ y_of set.now by.tx.0 }
    ensures most { (result.own ≤ 1000000) × (result.other ≤ 1000000) }
{
    Rows {
        own: y(set, job.tx),
        other: y(set, by.tx),
    }
}

fn add_mark(
    into: &mut Vec<u8>,
    names: &Names,
    set: &CompiledSet,
    view: View,
    marks: &[Mark],
    mark: Mark,
) -> Result<(), OutOfMemory>
    ensures { OnOk result (into.new.items ≡ into.old.items ++ mark_text names.now set.now view marks.now mark) }
{
    match mark {
        Mark::Pending { job, from, to } => {
            let y = y(set, job.tx) + 20;
            add_span(into, view, b"p", Part { from, to }, y, 24)
        }
        Mark::Lock {
            job,
            item,
            is_write,
            ceiling: _,
            from,
            to,
        } => {
            let y = lock_y(set, job.tx, item, is_write);
            let name = name(names.items.as_slice(), item.0);
            add_lock(into, view, name, is_write, Part { from, to }, y)
        }
        Mark::Ceiling { tick, ceiling } => {
            let y = ceiling_y(set, ceiling);
            add_ceiling(into, width(view), x(view, tick), y, ceiling_y(set, 0))
        }
        Mark::Wait { job, by, from, to } => {
            let name = name(names.txns.as_slice(), job.tx.0);
            let until = label_end(by.tx, from, to, marks);
            let rows = rows_of(set, job, by);
            add_wait(into, view, name, Part { from, to }, until, rows)
        }
        Mark::Step { job, op, tick } => {
            add_step(into, width(view), op, x(view, tick), y(set, job.tx))
        }
        Mark::Refusal { job, by, tick, .. } => {
            add_refusal(into, middle(view, tick), rows_of(set, job, by))
        }
        Mark::Release { job, tick } => {
            let deadline = deadline(set, job.tx);
            add_release(
                into,
                view,
                deadline,
                x(view, tick),
                y(set, job.tx),
                job.serial,
            )
        }
        Mark::Deadline { job, tick } => add_deadline(into, x(view, tick), y(set, job.tx)),
        Mark::Ended { job, end, tick } => {
            add_end(into, width(view), x(view, tick), y(set, job.tx), end)
        }
    }
}

/// The elements of the marks, in their order.
pub(crate) fn add_marks(
    into: &mut Vec<u8>,
    names: &Names,
    set: &CompiledSet,
    view: View,
    marks: &[Mark],
) -> Result<(), OutOfMemory>
    ensures { OnOk result (into.new.items ≡ into.old.items ++ marks_text names.now set.now view marks.now) }
{
    for mark in marks {
        add_mark(into, names, set, view, marks, *mark)?;
    }
    Ok(())
}

fn add_link_line(into: &mut Vec<u8>, x: u64, rows: Rows) -> Result<(), OutOfMemory>
    requires { (rows.own ≤ 1000000) × (rows.other ≤ 1000000) }
    ensures { OnOk result (into.new.items ≡ into.old.items ++ link_text x rows.own rows.other) }
{
    add_line(into, b"vb", x, rows.own + 44, x, rows.other + 12)
}

fn add_link(
    into: &mut Vec<u8>,
    set: &CompiledSet,
    view: View,
    mark: Mark,
) -> Result<(), OutOfMemory>
    ensures { OnOk result (into.new.items ≡ into.old.items ++ link_of set.now view mark) }
{
    match mark {
        Mark::Refusal { job, by, tick, .. } => {
            add_link_line(into, middle(view, tick), rows_of(set, job, by))
        }
        Mark::Pending { .. } => Ok(()),
        Mark::Lock { .. } => Ok(()),
        Mark::Ceiling { .. } => Ok(()),
        Mark::Wait { .. } => Ok(()),
        Mark::Step { .. } => Ok(()),
        Mark::Release { .. } => Ok(()),
        Mark::Deadline { .. } => Ok(()),
        Mark::Ended { .. } => Ok(()),
    }
}

/// What the rows cover: the lines from refused steps to the jobs that they wait on.
pub(crate) fn add_links(
    into: &mut Vec<u8>,
    set: &CompiledSet,
    view: View,
    marks: &[Mark],
) -> Result<(), OutOfMemory>
    ensures { OnOk result (into.new.items ≡ into.old.items ++ links_text set.now view marks.now) }
{
    for mark in marks {
        add_link(into, set, view, *mark)?;
    }
    Ok(())
}
