//! Where ticks, transactions, locks and ceilings stand in a picture, in pixels.
ghost use Rattle.std.specs.Prelude.{◌≡◌, ◌<◌, ◌≤◌, ◌==◌, length, position, slice_index_or, IfSome};
ghost use Rattle.txn_set.specs.Set.{txn_of};
ghost use Rattle.journal_text.specs.Ids.{name_at};
ghost use Rattle.schedule_marks.specs.Places.{longest as longest_of, left_of, view_of, letters_in as letter_count, ticks_shown, tick_width, number_step, width_of, x_of, middle_of, level_of, rows_top, level_y, row_height, higher_height, row_y, place_of, lock_place, lane_of, lane_y, lanes_named, is_read_lane, lane_item, first_item};

use crate::part::Part;
use crate::view::View;
use rt_base::{ItemId, Name, Names, Prio, Tick, TxId};
use txn_set::{CompiledSet, TxnDecl};

// The greatest length of a name.
fn longest(names: &[Name]) -> u64
    ensures { result ≡ longest_of names.now }
{
    let mut longest: u64 = 0;
    for name in names {
        longest = longest.max(name.as_slice().len() as u64);
    }
    longest
}

/// Up to where the names have room.
pub fn left(names: &Names) -> u16
    ensures { result ≡ left_of names.now }
{
    let most = longest(names.txns.as_slice())
        .max(longest(names.items.as_slice()))
        .min(32);
    (30 + 8 * most).max(150) as u16
}

/// The view of a part with room for these names.
pub fn view_for(names: &Names, part: Part) -> View
    ensures { result ≡ view_of names.now part }
{
    View {
        part,
        left: left(names),
    }
}

/// How many letters stand in so many pixels.
pub fn letters_in(room: u64) -> u64
    ensures { result ≡ letter_count room }
{
    room.saturating_sub(6) / 7
}

/// How many ticks are shown: at most 10,000.
pub fn shown(part: Part) -> u64
    ensures value { result ≡ ticks_shown part }
    ensures most { result ≤ 10000 }
{
    part.to.saturating_sub(part.from).min(10_000)
}

fn tick_pixels(ticks: u64) -> u64
    ensures value { result ≡ tick_width ticks }
    ensures some { 1 ≤ result }
    ensures most { result ≤ 20 }
{
    if ticks <= 100 {
        20
    } else if ticks <= 200 {
        16
    } else if ticks <= 400 {
        8
    } else if ticks <= 1000 {
        4
    } else if ticks <= 2500 {
        2
    } else {
        1
    }
}

/// The width of a tick: the more ticks, the less.
pub fn width(view: View) -> u64
    ensures value { result ≡ width_of view }
    ensures some { 1 ≤ result }
    ensures most { result ≤ 20 }
{
    tick_pixels(shown(view.part))
}

/// After how many ticks a number stands.
pub fn step(part: Part) -> u64
    ensures value { result ≡ number_step (ticks_shown part) }
    ensures some { 1 ≤ result }
    ensures most { result ≤ 100 }
{
    let ticks = shown(part);
    if ticks <= 100 {
        5
    } else if ticks <= 200 {
        10
    } else if ticks <= 400 {
        20
    } else if ticks <= 1000 {
        25
    } else if ticks <= 2500 {
        50
    } else {
        100
    }
}

/// Where a tick begins; what lies outside the part stands at its nearer end.
#[tactic(auto, using(crate::proofs::Sums::wide))]
pub fn x(view: View, tick: Tick) -> u64
    ensures value { result ≡ x_of view tick }
    ensures most { result ≤ 300000 }
{
    let ticks = tick.saturating_sub(view.part.from).min(shown(view.part));
    view.left as u64 + ticks * width(view)
}

/// The middle of a tick.
pub fn middle(view: View, tick: Tick) -> u64
    ensures value { result ≡ middle_of view tick }
    ensures most { result ≤ 300010 }
{
    x(view, tick) + width(view) / 2
}

/// How many transactions have at most this priority.
pub fn level(set: &CompiledSet, prio: Prio) -> u64
    ensures value { result ≡ level_of set.now.txns prio }
    ensures most { result ≤ length set.now.txns }
{
    set.is_compiled();
    set.txns().iter().filter(|txn| txn.prio <= prio).count() as u64
}

/// Where the rows of the transactions begin.
pub fn top(set: &CompiledSet) -> u64
    ensures value { result ≡ rows_top (length set.now.txns) }
    ensures most { result ≤ 1026 }
{
    set.is_compiled();
    130 + 14 * set.txns().len() as u64
}

/// Where the line of a ceiling stands.
pub fn ceiling_y(set: &CompiledSet, prio: Prio) -> u64
    ensures value { result ≡ level_y set.now prio }
    ensures most { result ≤ 996 }
{
    set.is_compiled();
    100 + 14 * (set.txns().len() as u64 - level(set, prio))
}

fn height(txn: &TxnDecl) -> u64
    ensures value { result ≡ row_height txn.now }
    ensures most { result ≤ 976 }
{
    let locks = txn.reads.as_slice().len() + txn.writes.as_slice().len();
    80 + 14 * locks.min(64) as u64
}

// The height of a row that stands above those of this priority.
fn height_above(prio: Prio, txn: &TxnDecl) -> u64
    ensures value { result ≡ higher_height prio txn.now }
    ensures most { result ≤ 976 }
{
    if prio < txn.prio { height(txn) } else { 0 }
}

/// The priority of a transaction, and 0 where the set has none such.
pub fn priority(set: &CompiledSet, tx: TxId) -> Prio
    ensures { result ≡ (txn_of set.now tx.0).prio }
{
    set.txns().get(tx.0 as usize).map_or(0, |txn| txn.prio)
}

/// The line of the ceiling that a transaction's priority is.
pub fn own_ceiling_y(set: &CompiledSet, tx: TxId) -> u64
    ensures value { result ≡ level_y set.now (txn_of set.now tx.0).prio }
    ensures most { result ≤ 996 }
{
    ceiling_y(set, priority(set, tx))
}

/// Where the row of this priority begins.
pub fn y_below(set: &CompiledSet, prio: Prio) -> u64
    ensures value { result ≡ row_y set.now prio }
    ensures most { result ≤ 63490 }
{
    set.is_compiled();
    let txns = set.txns();
    let mut y = top(set);
    for txn in txns {
        y += height_above(prio, txn);
    }
    y
}

/// Where the row of a transaction begins.
pub fn y(set: &CompiledSet, tx: TxId) -> u64
    ensures value { result ≡ row_y set.now (txn_of set.now tx.0).prio }
    ensures most { result ≤ 63490 }
{
    y_below(set, priority(set, tx))
}

fn find(items: &[ItemId], item: u32) -> Option<usize>
    ensures at { result ≡ position (λ i. i.0 == item) items.now }
    ensures below { IfSome result (λ i. i < length items.now) }
{
    items.iter().position(|i| i.0 == item)
}

fn place(items: &[ItemId], item: u32) -> usize
    ensures value { result ≡ place_of items.now item }
    ensures most { result ≤ length items.now }
{
    find(items, item).unwrap_or(items.len())
}

// The place of a lock among the declared reads and writes.
fn place_of_lock(txn: &TxnDecl, item: ItemId, is_write: bool) -> usize
    ensures { result ≡ lock_place txn.now item.0 is_write }
{
    if is_write {
        txn.reads.as_slice().len() + place(txn.writes.as_slice(), item.0)
    } else {
        place(txn.reads.as_slice(), item.0)
    }
}

fn lane(set: &CompiledSet, tx: TxId, item: ItemId, is_write: bool) -> u64
    ensures value { result ≡ lane_of (txn_of set.now tx.0) item.0 is_write }
    ensures most { result ≤ 63 }
{
    if (tx.0 as usize) < set.txns().len() {
        place_of_lock(set.txn(tx), item, is_write).min(63) as u64
    } else {
        0
    }
}

/// Where the bar of a lock begins: below the row's steps each declared read has a lane, and then each declared write.
pub fn lock_y(set: &CompiledSet, tx: TxId, item: ItemId, is_write: bool) -> u64
    ensures value { result ≡ lane_y set.now tx.0 item.0 is_write }
    ensures most { result ≤ 65000 }
{
    y(set, tx) + 74 + 14 * lane(set, tx, item, is_write)
}

/// The name at a place, and none where there is none.
pub fn name(names: &[Name], at: u32) -> &[u8]
    ensures { result.now ≡ name_at names.now at }
{
    match names.get(at as usize) {
        Some(name) => name.as_slice(),
        None => b"",
    }
}

/// The deadline of a transaction, in ticks, and 0 where the set has none such.
pub fn deadline(set: &CompiledSet, tx: TxId) -> Tick
    ensures { result ≡ (txn_of set.now tx.0).deadline }
{
    set.txns().get(tx.0 as usize).map_or(0, |txn| txn.deadline)
}

/// How many lanes of a row have a name of their own.
pub fn named_lanes(txn: &TxnDecl) -> u64
    ensures value { result ≡ lanes_named txn.now }
    ensures most { result ≤ 64 }
{
    let locks = txn.reads.as_slice().len() + txn.writes.as_slice().len();
    if locks <= 64 { locks as u64 } else { 63 }
}

/// Whether a lane is that of a read.
pub fn is_read(txn: &TxnDecl, lane: u64) -> bool
    ensures { result ≡ is_read_lane txn.now lane }
{
    lane < txn.reads.as_slice().len() as u64
}

fn item_at(items: &[ItemId], at: u64) -> ItemId
    ensures { result ≡ slice_index_or items.now at first_item }
{
    items.get(at as usize).copied().unwrap_or(ItemId(0))
}

/// The item of a lane.
pub fn item_of_lane(txn: &TxnDecl, lane: u64) -> ItemId
    ensures { result ≡ lane_item txn.now lane }
{
    let reads = txn.reads.as_slice();
    if is_read(txn, lane) {
        item_at(reads, lane)
    } else {
        item_at(
            txn.writes.as_slice(),
            lane.saturating_sub(reads.len() as u64),
        )
    }
}
