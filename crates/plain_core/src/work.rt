//! What a job has read from outside and written.
ghost use Rattle.std.specs.Prelude.{◌≡◌, ◌<◌, ◌==◌, [], IfOk, is_some, true, vec_capacity};
ghost use Rattle.std.specs.List.{find};
ghost use Rattle.item_model.specs.Work.{Work as WorkSeen, no_work, with_read, with_write, read_of, write_of, work_after};
ghost use Rattle.plain_core.specs.Places.{most_items};
ghost use Rattle.plain_core.specs.Effects.{IsLow};

use crate::install::stored_at;
use item_model::{
    OutsideRead, OwnWrite, Stored, find_read, find_write, has_read, has_write, replace_write,
};
use rt_base::{ItemId, Op, OutOfMemory, Tick, Value};
use std::alloc::Global;
use std::marker::Model;

/// A job's outside reads, and its writes, each item with its last value.
#[derive(Drop)]
pub struct Work {
    reads: Vec<OutsideRead>,
    writes: Vec<OwnWrite>,
}

impl Model for Work {
    ghost use Rattle.std.specs.Prelude.{vec_capacity};
    ghost use Rattle.item_model.specs.Work.{Work as WorkSeen};
    ghost use Rattle.plain_core.specs.Places.{HasPlaces};

    ghost Value = { WorkSeen };

    ghost view = { λ w. record { reads = w.reads.items; writes = w.writes.items } };

    ghost invariant = { λ w. HasPlaces w.reads.items w.writes.items (vec_capacity w.reads) (vec_capacity w.writes) };
}

impl Work {
    /// No work, with places for a read and a write of each item of a set.
    pub fn new(alloc: Global) -> Result<Work, OutOfMemory>
        ensures { IfOk result (λ w. w ≡ no_work) }
    {
        let mut reads = Vec::new(alloc);
        reads.reserve(256)?;
        let mut writes = Vec::new(alloc);
        writes.reserve(256)?;
        Ok(Work { reads, writes })
    }

    /// Forgets all. The places stay.
    pub fn clear(&mut self)
        ensures { self.new ≡ no_work }
    {
        self.reads.clear();
        self.writes.clear();
    }

    /// The reads from outside, in their order.
    pub fn reads(&self) -> &[OutsideRead]
        ensures { result.now ≡ self.now.reads }
    {
        self.reads.as_slice()
    }

    /// The written items with their last values, in the order of their first writes.
    pub fn writes(&self) -> &[OwnWrite]
        ensures { result.now ≡ self.now.writes }
    {
        self.writes.as_slice()
    }

    /// The outside read of an item, by a scan.
    pub fn read_of(&self, item: ItemId) -> Option<OutsideRead>
        ensures { result ≡ read_of self.now item.0 }
    {
        find_read(self.reads.as_slice(), item)
    }

    /// The own write of an item, by a scan.
    pub fn write_of(&self, item: ItemId) -> Option<OwnWrite>
        ensures { result ≡ write_of self.now item.0 }
    {
        find_write(self.writes.as_slice(), item)
    }

    /// Notes an outside read, unless there is one of that item.
    pub fn note_read(&mut self, item: ItemId, stamp: Tick)
        requires { item.0 < most_items }
        ensures { self.new ≡ record self.old { reads = with_read self.old.reads item stamp } }
    {
        if !has_read(self.reads.as_slice(), item) {
            self.reads.push_reserved(OutsideRead { item, stamp });
        }
    }

    /// Notes a write, in place of an earlier one of that item.
    pub fn put(&mut self, write: OwnWrite)
        requires { write.item.0 < most_items }
        ensures { self.new ≡ record self.old { writes = with_write self.old.writes write.item write.value } }
    {
        if has_write(self.writes.as_slice(), write.item) {
            replace_write(&mut self.writes, write);
        } else {
            self.writes.push_reserved(write);
        }
    }

    /// Notes a granted operation: an outside read with its stamp, or a write.
    pub fn note(&mut self, items: &[Stored], op: Op)
        requires { IsLow op }
        ensures { self.new ≡ work_after items.now self.old op }
    {
        match op {
            Op::Read(item) => {
                if self.write_of(item).is_none() {
                    self.note_read(item, stored_at(items, item).stamp);
                }
            }
            Op::Write(item, value) => self.put(OwnWrite { item, value }),
            Op::Compute => {}
            Op::Commit => {}
            Op::Quit => {}
        }
    }
}
