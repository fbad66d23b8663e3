//! Where the lanes of items with a validity stand, and how high an age is.
ghost use Rattle.std.specs.Prelude.{◌≡◌, ◌≤◌, length};
ghost use Rattle.schedule_marks.specs.Places.{validity_in, lanes_below as lane_count, item_y as y_of_item, age_height as height_of_age, age_y as y_of_age, top_tick as tick_of_top};

use crate::place::y_below;
use item_model::{is_dated, validity};
use rt_base::{ItemId, Tick};
use txn_set::CompiledSet;

const AGE_LIMIT: u64 = 1 << 50;

/// The validity of an item in ticks, and 0 of an item without one.
pub fn validity_or_none(set: &CompiledSet, item: ItemId) -> Tick
    ensures { result ≡ validity_in set.now item.0 }
{
    validity(set.items(), item).unwrap_or(0)
}

// How many items below this place have a validity.
fn lanes_below(set: &CompiledSet, place: usize) -> u64
    requires { place ≤ 256 }
    ensures value { result ≡ lane_count set.now place }
    ensures most { result ≤ place }
{
    let mut lanes = 0;
    for i in 0..place {
        if is_dated(set.items(), ItemId(i as u32)) {
            lanes += 1;
        }
    }
    lanes
}

/// Where the lane of an item begins; of a place behind the last item, where all lanes end. It goes over the items.
pub fn item_y(set: &CompiledSet, item: ItemId) -> u64
    ensures value { result ≡ y_of_item set.now item.0 }
    ensures most { result ≤ 79000 }
{
    set.is_compiled();
    let place = (item.0 as usize).min(set.items().len());
    y_below(set, 0) + 60 * lanes_below(set, place)
}

fn age_height(validity: Tick, age: Tick) -> u64
    ensures value { result ≡ height_of_age validity age }
    ensures most { result ≤ 45 }
{
    (age.min(AGE_LIMIT) * 30 / validity.max(1)).min(45)
}

/// Where an age stands in the lane of an item: its validity is 30 pixels high.
pub fn age_y(set: &CompiledSet, item: ItemId, age: Tick) -> u64
    ensures value { result ≡ y_of_age set.now item.0 age }
    ensures most { result ≤ 80000 }
{
    item_y(set, item) + 54 - age_height(validity_or_none(set, item), age)
}

/// The tick from which on a value of this stamp is drawn no higher, between two others.
pub fn top_tick(validity: Tick, stamp: Tick, from: Tick, to: Tick) -> Tick
    ensures { result ≡ tick_of_top validity stamp from to }
{
    stamp
        .saturating_add(validity.min(AGE_LIMIT) * 3 / 2)
        .max(from)
        .min(to)
}
