//! The work of one job.
ghost use Rattle.std.specs.Prelude.{◌≡◌, ◌==◌, IfOk, IfErr, IfSome, IsTrue, OnErr, is_some, true, vec_capacity};
ghost use Rattle.std.specs.List.{find, list_any};
ghost use Rattle.std.specs.Option.{option_map};
ghost use Rattle.item_model.specs.Work.{no_work, with_read, with_write, read_of, write_of, verdict, items_after};
ghost use Rattle.strict_commit.specs.Jobs.{unwritten_of, is_unwritten, IsLeastOf, AreInItemOrder};
ghost use Rattle.strict_commit.specs.Ends.{end_of, NamesFirst};

use crate::verdict::{CommitRefused, judge};
use item_model::{
    ItemDecl, Items, OutsideRead, OwnWrite, find_read, find_write, has_read, has_write,
    install_writes, is_dated, replace_write,
};
use rt_base::{ItemId, OutOfMemory, Tick, TogetherDecl, Value};
use std::alloc::Global;
use std::marker::Model;

/// The declared reads and writes of a job, its outside reads with their stamps, and its writes, each item with its last
/// value. No call after `new` takes memory.
#[derive(Drop)]
pub struct Work {
    may_read: Vec<ItemId>,
    may_write: Vec<ItemId>,
    reads: Vec<OutsideRead>,
    writes: Vec<OwnWrite>,
}

impl Model for Work {
    ghost use Rattle.std.specs.Prelude.{vec_capacity};
    ghost use Rattle.strict_commit.specs.Jobs.{Job};
    ghost use Rattle.strict_commit.specs.Places.{HasPlaces};

    ghost Value = { Job };

    ghost view = { λ w. record { may_read = w.may_read.items; may_write = w.may_write.items; work = record { reads = w.reads.items; writes = w.writes.items } } };

    ghost invariant = { λ w. HasPlaces w.may_read.items w.reads.items (vec_capacity w.reads) w.may_write.items w.writes.items (vec_capacity w.writes) };
}

impl Work {
    /// Nothing read and nothing written, of a job that may read and write these items, which stand in item order. It reserves a place for each of them.
    pub fn new(alloc: Global, reads: Vec<ItemId>, writes: Vec<ItemId>) -> Result<Work, OutOfMemory>
        requires reads { AreInItemOrder reads.items }
        requires writes { AreInItemOrder writes.items }
        ensures reads { IfOk result (λ w. w.may_read ≡ reads.items) }
        ensures writes { IfOk result (λ w. w.may_write ≡ writes.items) }
        ensures nothing { IfOk result (λ w. w.work ≡ no_work) }
    {
        let read_notes = Vec::with_capacity(alloc, reads.len())?;
        let write_notes = Vec::with_capacity(alloc, writes.len())?;
        Ok(Work {
            may_read: reads,
            may_write: writes,
            reads: read_notes,
            writes: write_notes,
        })
    }

    /// Forgets what was read and written, for the next job. The places stay.
    pub fn clear(&mut self)
        ensures { self.new ≡ record self.old { work = no_work } }
    {
        self.reads.clear();
        self.writes.clear();
    }

    /// Notes an outside read of a declared item with the stamp that was read; a note of that item stays as it is. A scan of
    /// the reads.
    pub fn note_read(&mut self, item: ItemId, stamp: Tick)
        requires { IsTrue (list_any (λ i. i.0 == item.0) self.old.may_read) }
        ensures { self.new ≡ record self.old { work = record self.old.work { reads = with_read self.old.work.reads item stamp } } }
    {
        if !has_read(self.reads.as_slice(), item) {
            self.reads.push_reserved(OutsideRead { item, stamp });
        }
    }

    /// Notes a write of a declared item, in place of an earlier one of that item. A scan of the writes.
    #[inline(always)]
    pub fn put(&mut self, item: ItemId, value: Value)
        requires { IsTrue (list_any (λ i. i.0 == item.0) self.old.may_write) }
        ensures { self.new ≡ record self.old { work = record self.old.work { writes = with_write self.old.work.writes item value } } }
    {
        self.note_write(OwnWrite { item, value });
    }

    /// The last own write of an item; None exactly where the job did not write it. A scan of the writes.
    pub fn value_of(&self, item: ItemId) -> Option<Value>
        ensures { result ≡ option_map (λ w. w.value) (write_of self.now.work item.0) }
    {
        find_write(self.writes.as_slice(), item).map(|w| w.value)
    }

    /// The first sensor or derived item, in item order, among the declared writes that was not written, for which a commit is refused (the
    /// complete-writes rule); None exactly where there is none. A scan of the writes for each declared write.
    #[inline(always)]
    pub fn unwritten(&self, decls: &[ItemDecl]) -> Option<ItemId>
        ensures which { result ≡ unwritten_of decls.now self.now.may_write self.now.work }
        ensures first { IfSome result (λ item. IsLeastOf (is_unwritten decls.now self.now.work) self.now.may_write item.0) }
    {
        self.keeps_order();
        self.first_unwritten(decls)
    }

    // The first of these in the order of the declared writes.
    #[inline(always)]
    fn first_unwritten(&self, decls: &[ItemDecl]) -> Option<ItemId>
        ensures { result ≡ unwritten_of decls.now self.now.may_write self.now.work }
    {
        for item in &self.may_write {
            if is_dated(decls, *item) && self.value_of(*item).is_none() {
                return Some(*item);
            }
        }
        None
    }

    /// Commits at a tick the work of a job that was released at another. Stale exactly where an outside read of a declared
    /// item fails the staleness rule, by the first such item in item order; Apart exactly where none
    /// does and the relative rule fails, by the first relative set in list order that is apart. Both change nothing. Else
    /// the writes are installed with their stamps. A scan of the reads for each declared read and each item of a relative
    /// set, and for each write of a derived item.
    #[inline(always)]
    pub fn commit(
        &self,
        decls: &[ItemDecl],
        together: &[TogetherDecl],
        items: &mut Items,
        release: Tick,
        at: Tick,
    ) -> Result<(), CommitRefused>
        ensures rule { end_of result ≡ verdict decls.now together.now self.now.may_read self.now.work at }
        ensures items { items.new ≡ items_after decls.now self.now.work release (end_of result) items.old }
        ensures first { IfErr result (NamesFirst decls.now self.now.may_read self.now.work at) }
        ensures unchanged { OnErr result (items.new ≡ items.old) }
    {
        judge(decls, together, self, at)?;
        install_writes(items, decls, self.reads(), release, self.writes());
        Ok(())
    }

    /// Notes a write, in place of an earlier one of that item.
    #[inline(always)]
    fn note_write(&mut self, write: OwnWrite)
        requires { IsTrue (list_any (λ i. i.0 == write.item.0) self.old.may_write) }
        ensures { self.new ≡ record self.old { work = record self.old.work { writes = with_write self.old.work.writes write.item write.value } } }
    {
        if has_write(self.writes.as_slice(), write.item) {
            replace_write(&mut self.writes, write);
        } else {
            self.writes.push_reserved(write);
        }
    }

    /// That the declared reads and writes stand in item order: a caller learns it by this call, which does nothing.
    pub(crate) fn keeps_order(&self)
        ensures reads { AreInItemOrder self.now.may_read }
        ensures writes { AreInItemOrder self.now.may_write }
    {
        let _items = &self.may_read;
    }

    /// The declared reads.
    pub(crate) fn may_read(&self) -> &[ItemId]
        ensures { result.now ≡ self.now.may_read }
    {
        self.may_read.as_slice()
    }

    /// The outside reads.
    pub(crate) fn reads(&self) -> &[OutsideRead]
        ensures { result.now ≡ self.now.work.reads }
    {
        self.reads.as_slice()
    }

    /// The writes.
    pub(crate) fn writes(&self) -> &[OwnWrite]
        ensures { result.now ≡ self.now.work.writes }
    {
        self.writes.as_slice()
    }
}
