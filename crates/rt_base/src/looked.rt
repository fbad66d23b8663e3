//! A list that is read by counted looks.
ghost use Rattle.std.specs.Prelude.{◌≡◌, ℕ, ◌+◌, ◌<◌, ◌≤◌, ◌++◌, [], IfOk, length, slice_index_or, slice_set, vec_capacity, replicate, take, drop};
ghost use Rattle.std.specs.List.{insert, remove};

use crate::memory::OutOfMemory;
use crate::steps::Steps;
use std::alloc::Global;
use std::marker::Model;
use std::sync::ledger::Ledger;

/// A list with room for so many elements, whose elements are read by counted looks alone.
#[derive(Drop)]
pub struct Looked<T: Copy> {
    rows: Vec<T>,
}

impl<T: Copy> Model for Looked<T> {
    ghost use Rattle.std.specs.Prelude.{vec_capacity};
    ghost use Rattle.rt_base.specs.Shelf.{Shelf};

    ghost Value = { Shelf T };

    ghost view = { λ l. record { items = l.rows.items; room = vec_capacity l.rows } };
}

// Puts an element in each place.
fn fill<T: Copy>(rows: &mut [T], row: T)
    ensures { rows.new ≡ replicate (length rows.old) row }
{
    for place in rows.iter_mut() {
        *place = row;
    }
}

impl<T: Copy> Looked<T> {
    /// An empty list with room for so many elements.
    pub fn with_room(alloc: Global, room: usize) -> Result<Looked<T>, OutOfMemory>
        ensures items { IfOk result (λ l. l.items ≡ []) }
        ensures room { IfOk result (λ l. l.room ≡ room) }
    {
        Ok(Looked {
            rows: Vec::with_capacity(alloc, room)?,
        })
    }

    /// These elements, with the room that the vector has.
    pub fn of(rows: Vec<T>) -> Looked<T>
        ensures items { result.items ≡ rows.items }
        ensures room { result.room ≡ vec_capacity rows }
    {
        Looked { rows }
    }

    /// So many elements, all this one.
    pub fn filled(alloc: Global, count: usize, row: T) -> Result<Looked<T>, OutOfMemory>
        ensures { IfOk result (λ l. l.items ≡ replicate count row) }
    {
        let mut filled = Looked::with_room(alloc, count)?;
        for place in 0..count {
            filled.insert(place, row);
        }
        Ok(filled)
    }

    /// What stands at this place, by one look.
    pub fn at<L: Ledger>(&self, place: usize, steps: &mut Steps<L>) -> T
        requires { place < length self.now.items }
        ensures value { result ≡ slice_index_or self.now.items place result }
        ensures one_look { steps.new ≡ steps.old + 1 }
    {
        steps.look();
        self.rows[place]
    }

    /// Puts an element in place of another. It takes no memory.
    pub fn set(&mut self, place: usize, row: T)
        requires { place < length self.old.items }
        ensures items { self.new.items ≡ slice_set self.old.items place row }
        ensures room { self.new.room ≡ self.old.room }
    {
        self.rows[place] = row;
    }

    /// Puts an element in so many places from one on. It takes no memory.
    pub fn fill(&mut self, from: usize, count: usize, row: T)
        requires { from + count ≤ length self.old.items }
        ensures items { self.new.items ≡ take from self.old.items ++ replicate count row ++ drop (from + count) self.old.items }
        ensures room { self.new.room ≡ self.old.room }
    {
        fill(&mut self.rows[from..from + count], row);
    }

    /// Puts an element before the one at this place, or at the end. It takes no memory.
    pub fn insert(&mut self, place: usize, row: T)
        requires place { place ≤ length self.old.items }
        requires room { length self.old.items < self.old.room }
        ensures items { self.new.items ≡ insert self.old.items place row }
        ensures room { self.new.room ≡ self.old.room }
    {
        self.rows.insert(place, row).unwrap();
    }

    /// Takes out the element at this place.
    pub fn remove(&mut self, place: usize)
        requires { place < length self.old.items }
        ensures items { self.new.items ≡ remove self.old.items place }
        ensures room { self.new.room ≡ self.old.room }
    {
        let _ = self.rows.remove(place);
    }

    /// How many elements there are.
    pub fn len(&self) -> usize
        ensures { result ≡ length self.now.items }
    {
        self.rows.len()
    }
}
