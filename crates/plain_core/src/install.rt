//! What a granted step gives and notes, and the install of a committed job's writes with their stamps.
ghost use Rattle.std.specs.Prelude.{◌≡◌, ◌<◌, length};
ghost use Rattle.item_model.specs.Work.{stored_of, got, outcome_of, items_after};

use crate::work::Work;
use item_model::{ItemDecl, Items, OwnWrite, Stored, install_writes};
use rt_base::{End, ItemId, Op, Outcome, Tick};

/// An item's value and stamp; the value 0 and the stamp 0 where the set has no such item.
pub fn stored_at(items: &[Stored], item: ItemId) -> Stored
    ensures { result ≡ stored_of items.now item.0 }
{
    let at = item.0 as usize;
    if at < items.len() {
        items[at]
    } else {
        Stored { value: 0, stamp: 0 }
    }
}

fn got(write: Option<OwnWrite>, stored: Stored) -> Outcome
    ensures { result ≡ got write stored }
{
    match write {
        Some(write) => Outcome::Got {
            value: write.value,
            stamp: None,
        },
        None => Outcome::Got {
            value: stored.value,
            stamp: Some(stored.stamp),
        },
    }
}

/// What a granted operation is told.
pub fn outcome(items: &[Stored], work: &Work, op: Op) -> Outcome
    ensures { result ≡ outcome_of items.now work.now op }
{
    match op {
        Op::Read(item) => got(work.write_of(item), stored_at(items, item)),
        Op::Write(_, _) => Outcome::Put,
        Op::Compute => Outcome::Computed,
        Op::Commit => Outcome::Closed,
        Op::Quit => Outcome::Closed,
    }
}

/// Installs a job's writes where it committed. Any other end leaves the items.
pub fn install(items: &mut Items, decls: &[ItemDecl], work: &Work, release: Tick, end: End)
    ensures { items.new ≡ items_after decls.now work.now release end items.old }
{
    match end {
        End::Committed => install_writes(items, decls, work.reads(), release, work.writes()),
        _ => {}
    }
}
