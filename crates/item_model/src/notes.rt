//! Finding a job's notes of an item.
ghost use Rattle.std.specs.Prelude.{◌≡◌, ◌==◌, is_some, true, vec_capacity};
ghost use Rattle.std.specs.List.{find};
ghost use Rattle.item_model.specs.Work.{with_write};

use crate::stored::{OutsideRead, OwnWrite};
use rt_base::ItemId;

/// The first of these reads that is of an item, by a scan.
pub fn find_read(reads: &[OutsideRead], item: ItemId) -> Option<OutsideRead>
    ensures { result ≡ find (λ r. r.item.0 == item.0) reads.now }
{
    for r in reads {
        if r.item == item {
            return Some(*r);
        }
    }
    None
}

/// Whether one of these reads is of an item, by a scan.
pub fn has_read(reads: &[OutsideRead], item: ItemId) -> bool
    ensures { result ≡ is_some (find (λ r. r.item.0 == item.0) reads.now) }
{
    find_read(reads, item).is_some()
}

/// The first of these writes that is of an item, by a scan.
pub fn find_write(writes: &[OwnWrite], item: ItemId) -> Option<OwnWrite>
    ensures { result ≡ find (λ w. w.item.0 == item.0) writes.now }
{
    for w in writes {
        if w.item == item {
            return Some(*w);
        }
    }
    None
}

/// Whether one of these writes is of an item, by a scan.
pub fn has_write(writes: &[OwnWrite], item: ItemId) -> bool
    ensures { result ≡ is_some (find (λ w. w.item.0 == item.0) writes.now) }
{
    find_write(writes, item).is_some()
}

/// Puts a write in the place of the one that there is of its item, found by a scan.
pub fn replace_write(writes: &mut Vec<OwnWrite>, write: OwnWrite)
    requires { is_some (find (λ w. w.item.0 == write.item.0) writes.old.items) ≡ true }
    ensures items { writes.new.items ≡ with_write writes.old.items write.item write.value }
    ensures places { vec_capacity writes.new ≡ vec_capacity writes.old }
{
    for i in 0..writes.len() {
        if writes[i].item.0 == write.item.0 {
            writes[i] = write;
            return;
        }
    }
}
