//! The table of locks.
ghost use Rattle.std.specs.Prelude.{◌≡◌, ℕ, ◌+◌, ◌<◌, ◌≤◌, ◌==◌, ◌&&◌, if◌then◌else◌, true, false, [], ◌∷◌, length, slice_index_or, Some, None, IfOk, MatchResult};
ghost use Rattle.std.specs.List.{AllPairs};
ghost use Rattle.ceiling_table.specs.declared.LockKind.TheVariants.{Free};
ghost use Rattle.ceiling_table.specs.Held.{lock_at, ceiling_of, refusal, needs_lock, HasItem, locked_at, released_at};
ghost use Rattle.ceiling_table.specs.Seated.{Changes};

use crate::holders::Holders;
use crate::seats::{
    added, all_free, ceiling_at, first_above, holds, raise, row_ceiling, seat, unseat, writes,
};
use crate::{Above, CeilRow, LockKind};
use rt_base::{ItemId, Looked, Op, OutOfMemory, Prio, Steps, TxId};
use std::alloc::Global;
use std::marker::{Brand, Model};
use std::sync::ledger::{Blank, Ledger};

/// The locks that were added, one for each transaction and item. `rows` has one row for each holder, with the greatest
/// ceiling of its locks, in falling ceiling and then falling priority. `seated` tells of each transaction whether it holds
/// a lock, so that a row is looked for only where there is one. No call after `new` takes memory.
#[derive(Drop)]
pub struct Held {
    ceilings: Looked<CeilRow>,
    prios: Looked<Prio>,
    locks: Looked<LockKind>,
    rows: Holders,
    seated: Looked<bool>,
}

impl Model for Held {
    ghost use Rattle.ceiling_table.specs.Held.{Locks};
    ghost use Rattle.ceiling_table.specs.Seated.{IsTable};

    ghost Value = { Locks };

    ghost view = { λ h. record { ceilings = h.ceilings.items; prios = h.prios.items; locks = h.locks.items } };

    ghost invariant = { λ h. IsTable (record { ceilings = h.ceilings.items; prios = h.prios.items; locks = h.locks.items }) h.rows h.seated.items };
}

impl Held {
    /// No locks, on items with these ceilings and of transactions with these priorities: at most 64, all distinct.
    pub fn new(alloc: Global, items: Vec<CeilRow>, prios: Vec<Prio>) -> Result<Held, OutOfMemory>
        requires few { length prios.items ≤ 64 }
        requires distinct { (i j : ℕ) → i < length prios.items → j < length prios.items → slice_index_or prios.items i 0 ≡ slice_index_or prios.items j 0 → i ≡ j }
        ensures ceilings { IfOk result (λ h. h.ceilings ≡ items.items) }
        ensures prios { IfOk result (λ h. h.prios ≡ prios.items) }
        ensures free { IfOk result (λ h. (tx item : ℕ) → lock_at h tx item ≡ Free) }
    {
        let Some(count) = prios.len().checked_mul(items.len()) else {
            return Err(OutOfMemory);
        };
        let locks = all_free(alloc, count)?;
        let rows = Holders::with_room(alloc, prios.len())?;
        let seated = Looked::filled(alloc, prios.len(), false)?;
        Ok(Held {
            ceilings: Looked::of(items),
            prios: Looked::of(prios),
            locks,
            rows,
            seated,
        })
    }

    /// Whether an operation needs a new lock: a read unless the transaction holds a read or a write lock on the item, a write
    /// unless it holds the write lock, and no other.
    pub fn needs(&self, tx: TxId, op: Op) -> bool
        requires tx { tx.0 < length self.now.prios }
        requires item { HasItem (length self.now.ceilings) op }
        ensures { result ≡ needs_lock self.now tx.0 op }
    {
        match op {
            Op::Read(item) => !holds(self.lock_of::<Brand>(tx, item, Blank::new(1))),
            Op::Write(item, _) => !writes(self.lock_of::<Brand>(tx, item, Blank::new(1))),
            Op::Compute => false,
            Op::Commit => false,
            Op::Quit => false,
        }
    }

    /// Whether a transaction gets a new lock (Sha, Rajkumar, Son, Chang 1991): exactly where its own priority is above the
    /// ceiling of every lock that another holds. Else the greatest such ceiling, and the highest holder of a lock with it. At
    /// most three looks: the first two rows, and the priority.
    #[inline(always)]
    pub fn grantable<L: Ledger>(&self, tx: TxId, steps: &mut Steps<L>) -> Result<(), Above>
        requires { tx.0 < length self.now.prios }
        ensures rule { MatchResult result (λ _. refusal self.now tx.0 ≡ None) (λ above. refusal self.now tx.0 ≡ Some above) }
        ensures looks { steps.new ≤ steps.old + 3 }
    {
        let Some(top) = first_above(&self.rows, tx, steps) else {
            return Ok(());
        };
        if top.ceiling < self.prios.at(tx.0 as usize, steps) {
            Ok(())
        } else {
            Err(top)
        }
    }

    /// Adds a read lock. A write lock stays. It goes over the holders' rows alone, at most 64.
    pub fn lock_read(&mut self, tx: TxId, item: ItemId)
        requires tx { tx.0 < length self.old.prios }
        requires item { item.0 < length self.old.ceilings }
        ensures { Changes self.old self.new (locked_at self.old tx.0 item.0 false) }
    {
        self.lock::<Brand>(tx, item, false, Blank::new(1));
    }

    /// Adds a write lock, in place of a read lock. It goes over the holders' rows alone, at most 64.
    pub fn lock_write(&mut self, tx: TxId, item: ItemId)
        requires tx { tx.0 < length self.old.prios }
        requires item { item.0 < length self.old.ceilings }
        ensures { Changes self.old self.new (locked_at self.old tx.0 item.0 true) }
    {
        self.lock::<Brand>(tx, item, true, Blank::new(1));
    }

    /// Takes all locks of a transaction away. It goes over the items and the holders' rows.
    pub fn release_all(&mut self, tx: TxId)
        requires { tx.0 < length self.old.prios }
        ensures { Changes self.old self.new (released_at self.old tx.0) }
    {
        self.release::<Brand>(tx, Blank::new(1));
    }

    /// The greatest ceiling of a transaction's locks, 0 where it has none. It goes over the holders' rows alone.
    pub fn ceiling_of(&self, tx: TxId) -> Prio
        requires { tx.0 < length self.now.prios }
        ensures { result ≡ ceiling_of self.now tx.0 }
    {
        self.ceiling::<Brand>(tx, Blank::new(1))
    }

    fn lock_of<L: Ledger>(&self, tx: TxId, item: ItemId, blank: Blank) -> LockKind
        requires name { blank.name ≡ L.name }
        requires parts { blank.parts ≡ L.parts }
        requires one_part { blank.parts ≡ 1 }
        requires tx { tx.0 < length self.now.prios }
        requires item { item.0 < length self.now.ceilings }
        ensures { result ≡ lock_at self.now tx.0 item.0 }
    {
        let mut steps = Steps::<L>::start(blank);
        let place = tx.0 as usize * self.ceilings.len() + item.0 as usize;
        self.locks.at(place, &mut steps)
    }

    fn ceiling<L: Ledger>(&self, tx: TxId, blank: Blank) -> Prio
        requires name { blank.name ≡ L.name }
        requires parts { blank.parts ≡ L.parts }
        requires one_part { blank.parts ≡ 1 }
        requires tx { tx.0 < length self.now.prios }
        ensures { result ≡ ceiling_of self.now tx.0 }
    {
        let mut steps = Steps::<L>::start(blank);
        row_ceiling(&self.rows, tx, &mut steps)
    }

    fn lock<L: Ledger>(&mut self, tx: TxId, item: ItemId, writes: bool, blank: Blank)
        requires name { blank.name ≡ L.name }
        requires parts { blank.parts ≡ L.parts }
        requires one_part { blank.parts ≡ 1 }
        requires tx { tx.0 < length self.old.prios }
        requires item { item.0 < length self.old.ceilings }
        ensures { Changes self.old self.new (locked_at self.old tx.0 item.0 writes) }
    {
        let mut steps = Steps::<L>::start(blank);
        let place = tx.0 as usize * self.ceilings.len() + item.0 as usize;
        let lock = added(self.locks.at(place, &mut steps), writes);
        self.locks.set(place, lock);
        let ceiling = ceiling_at(self.ceilings.at(item.0 as usize, &mut steps), lock);
        let row = Above {
            holder: tx,
            ceiling,
        };
        if self.seated.at(tx.0 as usize, &mut steps) {
            raise(&mut self.rows, &self.prios, row, &mut steps);
        } else {
            self.seated.set(tx.0 as usize, true);
            seat(&mut self.rows, &self.prios, row, &mut steps);
        }
    }

    fn release<L: Ledger>(&mut self, tx: TxId, blank: Blank)
        requires name { blank.name ≡ L.name }
        requires parts { blank.parts ≡ L.parts }
        requires one_part { blank.parts ≡ 1 }
        requires tx { tx.0 < length self.old.prios }
        ensures { Changes self.old self.new (released_at self.old tx.0) }
    {
        let mut steps = Steps::<L>::start(blank);
        let count = self.ceilings.len();
        self.locks
            .fill(tx.0 as usize * count, count, LockKind::Free);
        if self.seated.at(tx.0 as usize, &mut steps) {
            self.seated.set(tx.0 as usize, false);
            unseat(&mut self.rows, tx, &mut steps);
        }
    }
}

#[cfg(test)]
mod tests;
