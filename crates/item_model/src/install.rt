//! The install of a committed job's writes, and their stamps.
ghost use Rattle.std.specs.Prelude.{◌≡◌, ◌<◌, length, List};
ghost use Rattle.std.specs.List.{filter, fold};
ghost use Rattle.item_model.specs.Kinds.{is_dated};
ghost use Rattle.item_model.specs.Work.{of_notes, oldest, stamp_for, write_installed};
ghost use Rattle.item_model.specs.declared.stored.OwnWrite.{OwnWrite as Noted};

use crate::decl::ItemDecl;
use crate::items::Items;
use crate::kinds::{is_dated, is_derived};
use crate::stored::{OutsideRead, OwnWrite};
use crate::verdict::older;
use rt_base::{ItemId, Tick};

fn oldest_dated(decls: &[ItemDecl], reads: &[OutsideRead]) -> Option<OutsideRead>
    ensures { result ≡ oldest (filter (λ r. is_dated decls.now r.item.0) reads.now) }
{
    let mut best: Option<OutsideRead> = None;
    for i in (0..reads.len()).rev() {
        if is_dated(decls, reads[i].item) {
            best = Some(older(reads[i], best));
        }
    }
    best
}

#[tactic(auto, unfolding(crate::specs::Work::stamp_for))]
fn stamp_for(decls: &[ItemDecl], reads: &[OutsideRead], release: Tick, item: ItemId) -> Tick
    ensures { (writes : List Noted) → result ≡ stamp_for decls.now (of_notes reads.now writes) release item.0 }
{
    if is_derived(decls, item) {
        match oldest_dated(decls, reads) {
            Some(read) => read.stamp,
            None => release,
        }
    } else {
        release
    }
}

fn install_write(
    items: &mut Items,
    decls: &[ItemDecl],
    reads: &[OutsideRead],
    release: Tick,
    write: OwnWrite,
)
    ensures { (writes : List Noted) → items.new ≡ write_installed decls.now (of_notes reads.now writes) release items.old write }
{
    let stamp = stamp_for(decls, reads, release, write.item);
    if (write.item.0 as usize) < items.len() {
        items.install(write.item, write.value, stamp);
    }
}

/// Installs the writes of a job that was released at a tick, each item with its last value and its stamp: that of a derived
/// item is the least stamp among the reads of sensor and derived items, that of any other, and where there is no such read,
/// the release. A scan of the reads for each write of a derived item.
pub fn install_writes(
    items: &mut Items,
    decls: &[ItemDecl],
    reads: &[OutsideRead],
    release: Tick,
    writes: &[OwnWrite],
)
    ensures { items.new ≡ fold (write_installed decls.now (of_notes reads.now writes.now) release) items.old writes.now }
{
    for write in writes {
        install_write(items, decls, reads, release, *write);
    }
}
