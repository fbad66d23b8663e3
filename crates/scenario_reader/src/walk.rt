//! A walk over the operations of a script.
ghost use Rattle.std.specs.Prelude.{◌≡◌, false, not, ◌&&◌, ◌||◌, IfOk, length, replicate, slice_index_or};
ghost use Rattle.std.specs.List.{list_all};
ghost use Rattle.item_model.specs.Kinds.{is_dated as is_dated_item};
ghost use Rattle.step_script.specs.Scripts.{operation, width};
ghost use Rattle.scenario_reader.specs.Walks.{begun, may_ask as may_be_asked, may_stand as may_stand_there, after, fresh};

use crate::marks::{Marks, mark_all};
use item_model::{ItemDecl, ItemKind};
use rt_base::{ItemId, OutOfMemory};
use std::alloc::Global;
use step_script::ScriptOp;
use txn_set::TxnDecl;

/// What is known after some operations of a script: the items that the transaction may read and write, those that it
/// has written, how many of its quiet steps are left, and whether a commit or quit came.
#[derive(Drop)]
pub(crate) struct Walk {
    reads: Marks,
    writes: Marks,
    written: Marks,
    left: u64,
    closed: bool,
}

// How many operations it stands for.
pub(crate) fn width_of(op: &ScriptOp) -> u64
    ensures { result ≡ width (operation op.now) }
{
    match op {
        ScriptOp::Compute(n) => u64::from(*n).max(1),
        _ => 1,
    }
}

// Whether an item is a sensor or derived one.
fn is_dated(items: &[ItemDecl], item: ItemId) -> bool
    ensures { result ≡ is_dated_item items.now item.0 }
{
    match items.get(item.0 as usize) {
        Some(decl) => match decl.kind {
            ItemKind::Sensor { .. } | ItemKind::Derived { .. } => true,
            ItemKind::State => false,
        },
        None => false,
    }
}

// Whether each sensor and derived item among these is marked.
fn all_written(items: &[ItemDecl], writes: &[ItemId], written: &Marks) -> bool
    ensures { result ≡
        list_all (λ i. not (is_dated_item items.now i.0) || slice_index_or written.now i.0 false) writes.now }
{
    for item in writes {
        if is_dated(items, *item) && !written.has(*item) {
            return false;
        }
    }
    true
}

impl Walk {
    /// A walk over scripts of so many items.
    pub(crate) fn new(alloc: Global, items: usize) -> Result<Walk, OutOfMemory>
        ensures { IfOk result (λ w. w ≡ fresh items) }
    {
        let reads = Marks::new(alloc, items)?;
        let writes = Marks::new(alloc, items)?;
        let written = Marks::new(alloc, items)?;
        Ok(Walk {
            reads,
            writes,
            written,
            left: 0,
            closed: false,
        })
    }

    /// Begins with a transaction, by a step for each of its declared items.
    pub(crate) fn begin(&mut self, txn: &TxnDecl)
        ensures { self.new ≡ begun self.old txn.now }
    {
        self.reads.clear();
        mark_all(&mut self.reads, txn.reads.as_slice());
        self.writes.clear();
        mark_all(&mut self.writes, txn.writes.as_slice());
        self.written.clear();
        self.left = txn.quiet;
        self.closed = false;
    }

    // Whether the transaction may ask for the operation.
    fn may_ask(&self, items: &[ItemDecl], txn: &TxnDecl, op: &ScriptOp) -> bool
        ensures { result ≡ may_be_asked items.now txn.now self.now (operation op.now) }
    {
        match op {
            ScriptOp::Read(item) => self.reads.has(*item) && self.left == 0,
            ScriptOp::Write(item, _) => self.writes.has(*item) && self.left == 0,
            ScriptOp::Commit => all_written(items, txn.writes.as_slice(), &self.written),
            ScriptOp::Compute(_) | ScriptOp::Quit => true,
        }
    }

    /// Whether the operation may stand next. A commit costs a step for each declared write, any other a constant.
    pub(crate) fn may_stand(&self, items: &[ItemDecl], txn: &TxnDecl, op: &ScriptOp) -> bool
        ensures { result ≡ may_stand_there items.now txn.now self.now (operation op.now) }
    {
        !self.closed && self.may_ask(items, txn, op)
    }

    /// Goes on over the operation.
    pub(crate) fn go_on(&mut self, op: &ScriptOp)
        ensures { self.new ≡ after self.old (operation op.now) }
    {
        match op {
            ScriptOp::Write(item, _) => self.written.mark(*item),
            ScriptOp::Commit | ScriptOp::Quit => self.closed = true,
            ScriptOp::Read(_) | ScriptOp::Compute(_) => {}
        }
        self.left = self.left.saturating_sub(width_of(op));
    }
}
