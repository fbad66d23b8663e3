//! The rows of holders, kept with the first one last.
ghost use Rattle.std.specs.Prelude.{◌≡◌, ◌+◌, ◌<◌, ◌≤◌, [], ◌∷◌, length, drop, slice_index_or, IfOk};
ghost use Rattle.std.specs.List.{insert, remove};

use crate::Above;
use rt_base::{Looked, OutOfMemory, Steps};
use std::alloc::Global;
use std::marker::Model;
use std::sync::ledger::Ledger;

/// Rows with room for so many, read by counted looks alone. The first row lies at the end, so that a change near it moves
/// few rows.
#[derive(Drop)]
pub struct Holders {
    turned: Looked<Above>,
}

impl Model for Holders {
    ghost use Rattle.std.specs.Prelude.{reverse};
    ghost use Rattle.rt_base.specs.Shelf.{Shelf};
    ghost use Rattle.ceiling_table.specs.declared.Above.{Above as Row};

    ghost Value = { Shelf Row };

    ghost view = { λ h. record { items = reverse h.turned.items; room = h.turned.room } };
}

impl Holders {
    /// No rows, with room for so many.
    pub fn with_room(alloc: Global, room: usize) -> Result<Holders, OutOfMemory>
        ensures items { IfOk result (λ h. h.items ≡ []) }
        ensures room { IfOk result (λ h. h.room ≡ room) }
    {
        Ok(Holders {
            turned: Looked::with_room(alloc, room)?,
        })
    }

    /// How many rows there are.
    pub fn len(&self) -> usize
        ensures { result ≡ length self.now.items }
    {
        self.turned.len()
    }

    /// The row at this place, by one look.
    pub fn at<L: Ledger>(&self, place: usize, steps: &mut Steps<L>) -> Above
        requires { place < length self.now.items }
        ensures value { result ≡ slice_index_or self.now.items place result }
        ensures one_look { steps.new ≡ steps.old + 1 }
    {
        self.turned.at(self.turned.len() - 1 - place, steps)
    }

    /// Puts a row in the place of the first one. It moves no row.
    pub fn set_first(&mut self, row: Above)
        requires { 0 < length self.old.items }
        ensures items { self.new.items ≡ row ∷ drop 1 self.old.items }
        ensures room { self.new.room ≡ self.old.room }
    {
        let at = self.turned.len() - 1;
        self.turned.set(at, row);
    }

    /// Puts a row before the one at this place, or at the end. It moves the rows before it, and takes no memory.
    pub fn insert(&mut self, place: usize, row: Above)
        requires place { place ≤ length self.old.items }
        requires room { length self.old.items < self.old.room }
        ensures items { self.new.items ≡ insert self.old.items place row }
        ensures room { self.new.room ≡ self.old.room }
    {
        let at = self.turned.len() - place;
        self.turned.insert(at, row);
    }

    /// Takes out the row at this place. It moves the rows before it.
    pub fn remove(&mut self, place: usize)
        requires { place < length self.old.items }
        ensures items { self.new.items ≡ remove self.old.items place }
        ensures room { self.new.room ≡ self.old.room }
    {
        let at = self.turned.len() - 1 - place;
        self.turned.remove(at);
    }
}

#[cfg(test)]
impl Holders {
    // The one field, named with its type.
    pub fn only_field(&self) -> &Looked<Above> {
        let Holders { turned } = self;
        let turned: &Looked<Above> = turned;
        turned
    }
}
