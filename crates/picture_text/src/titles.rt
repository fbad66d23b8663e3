//! The names at the left of a picture: of its rows, of their lanes, and of the levels of ceilings.
ghost use Rattle.std.specs.Prelude.{◌≡◌, ◌<◌, ◌≤◌, ◌-◌, ◌++◌, length, OnOk};
ghost use Rattle.txn_set.specs.Set.{txn_of};
ghost use Rattle.schedule_marks.specs.Places.{lanes_named};
ghost use Rattle.picture_text.specs.Texts.{below, row_title, lane_kind, lane_title, shared_title, lane_titles, title_of, caption, row_titles, titles_text};

use crate::ages::add_age_titles;
use rt_base::{Names, OutOfMemory, Prio, Tick, TxId};
use schedule_marks::{
    add_count, add_line, add_words, ceiling_y, is_read, item_of_lane, name, named_lanes,
    own_ceiling_y, priority, y,
};
use txn_set::{CompiledSet, TxnDecl};

fn add_title(
    into: &mut Vec<u8>,
    left: u16,
    name: &[u8],
    prio: Prio,
    y: u64,
) -> Result<(), OutOfMemory>
    requires { y ≤ 1000000 }
    ensures { OnOk result (into.new.items ≡ into.old.items ++ row_title left name.now prio y) }
{
    add_line(into, b"b", 0, y, left as u64, y)?;
    add_words(into, b"n", 10, y + 18, name, b"")?;
    add_count(into, b"s", 10, y + 34, b"priority ", prio as u64)?;
    Ok(())
}

fn kind_of_lane(is_read: bool) -> &'static [u8]
    ensures { result.now ≡ lane_kind is_read }
{
    if is_read { b"r " } else { b"w " }
}

fn add_lane_title(
    into: &mut Vec<u8>,
    names: &Names,
    txn: &TxnDecl,
    right: u64,
    y: u64,
    lane: u64,
) -> Result<(), OutOfMemory>
    requires { (y ≤ 1000000) × (lane ≤ 64) }
    ensures { OnOk result (into.new.items ≡ into.old.items ++ lane_title names.now txn.now right y lane) }
{
    let kind = kind_of_lane(is_read(txn, lane));
    let item = item_of_lane(txn, lane);
    let name = name(names.items.as_slice(), item.0);
    add_words(into, b"s e", right, y + 84 + 14 * lane, kind, name)
}

// The name of the lane that all further locks share.
fn add_shared_title(
    into: &mut Vec<u8>,
    txn: &TxnDecl,
    right: u64,
    y: u64,
) -> Result<(), OutOfMemory>
    requires { y ≤ 1000000 }
    ensures { OnOk result (into.new.items ≡ into.old.items ++ shared_title txn.now right y) }
{
    let locks = txn.reads.as_slice().len() + txn.writes.as_slice().len();
    if locks <= 64 {
        Ok(())
    } else {
        add_words(into, b"s e", right, y + 966, b"others", b"")
    }
}

fn add_named_lanes(
    into: &mut Vec<u8>,
    names: &Names,
    txn: &TxnDecl,
    right: u64,
    y: u64,
) -> Result<(), OutOfMemory>
    requires { y ≤ 1000000 }
    ensures { OnOk result (into.new.items ≡ into.old.items ++ below (lane_title names.now txn.now right y) (lanes_named txn.now)) }
{
    for lane in 0..named_lanes(txn) {
        add_lane_title(into, names, txn, right, y, lane)?;
    }
    Ok(())
}

fn add_lane_titles(
    into: &mut Vec<u8>,
    names: &Names,
    txn: &TxnDecl,
    right: u64,
    y: u64,
) -> Result<(), OutOfMemory>
    requires { y ≤ 1000000 }
    ensures { OnOk result (into.new.items ≡ into.old.items ++ lane_titles names.now txn.now right y) }
{
    add_named_lanes(into, names, txn, right, y)?;
    add_shared_title(into, txn, right, y)
}

fn add_title_of(
    into: &mut Vec<u8>,
    names: &Names,
    set: &CompiledSet,
    left: u16,
    tx: TxId,
) -> Result<(), OutOfMemory>
    requires { tx.0 < length set.now.txns }
    ensures { OnOk result (into.new.items ≡ into.old.items ++ title_of names.now set.now left tx.0) }
{
    let name = name(names.txns.as_slice(), tx.0);
    let y = y(set, tx);
    let right = (left as u64).saturating_sub(10);
    add_title(into, left, name, priority(set, tx), y)?;
    add_words(into, b"s e", right, own_ceiling_y(set, tx) + 4, name, b"")?;
    add_lane_titles(into, names, set.txn(tx), right, y)?;
    Ok(())
}

fn add_caption(into: &mut Vec<u8>, set: &CompiledSet) -> Result<(), OutOfMemory>
    ensures { OnOk result (into.new.items ≡ into.old.items ++ caption set.now) }
{
    add_words(into, b"n", 10, ceiling_y(set, 0) + 4, b"ceiling", b"")
}

fn add_row_titles(
    into: &mut Vec<u8>,
    names: &Names,
    set: &CompiledSet,
    left: u16,
) -> Result<(), OutOfMemory>
    ensures { OnOk result (into.new.items ≡ into.old.items ++ row_titles names.now set.now left) }
{
    set.is_compiled();
    for i in 0..set.txns().len() {
        add_title_of(into, names, set, left, TxId(i as u32))?;
    }
    Ok(())
}

/// The names of the rows, of their locks, of the levels of ceilings, and of the lanes of items, with their age bounds.
pub fn add_titles(
    into: &mut Vec<u8>,
    names: &Names,
    set: &CompiledSet,
    left: u16,
    ages: &[Tick],
) -> Result<(), OutOfMemory>
    ensures { OnOk result (into.new.items ≡ into.old.items ++ titles_text names.now set.now left ages.now) }
{
    add_caption(into, set)?;
    add_row_titles(into, names, set, left)?;
    add_age_titles(into, names, set, left, ages)?;
    Ok(())
}
