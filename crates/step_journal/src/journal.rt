//! The kept entries of a history.
ghost use Rattle.std.specs.Prelude.{◌≡◌, true, ◌+◌, ◌-◌, ◌<◌, ◌≤◌, ◌^◌, ◌++◌, ◌∷◌, [], min, take, drop, length, vec_len, vec_capacity, IfOk};

use crate::entry::Entry;
use rt_base::OutOfMemory;
use std::alloc::Global;
use std::marker::Model;
use std::mem;

/// The entries of a history that are not drained yet, with a room for them that never grows. Only `with_room` takes memory.
#[derive(Drop)]
pub struct Journal {
    entries: Vec<Entry>,
    room: usize,
    first: u64,
}

impl Model for Journal {
    ghost use Rattle.std.specs.Prelude.{◌≤◌, vec_capacity};
    ghost use Rattle.step_journal.specs.Journal.{JournalSeen};

    ghost Value = { JournalSeen };

    ghost view = { λ j. record { room = j.room; first = j.first; kept = j.entries.items } };

    ghost invariant = { λ j. j.room ≤ vec_capacity j.entries };
}

impl Journal {
    /// An empty journal with room for so many entries.
    pub fn with_room(alloc: Global, room: usize) -> Result<Journal, OutOfMemory>
        ensures { IfOk result (λ j. j ≡ record { room = room; first = 0; kept = [] }) }
    {
        let mut entries = Vec::new(alloc);
        entries.reserve(room)?;
        Ok(Journal {
            entries,
            room,
            first: 0,
        })
    }

    /// Keeps one more entry, after the others.
    pub fn push(&mut self, entry: Entry)
        requires { length self.old.kept < self.old.room }
        ensures { self.new ≡ record self.old { kept = self.old.kept ++ entry ∷ [] } }
    {
        self.entries.push_reserved(entry);
    }

    /// How many entries are kept.
    pub fn len(&self) -> usize
        ensures { result ≡ length self.now.kept }
    {
        self.entries.len()
    }

    /// How many entries can be kept at once.
    pub fn room(&self) -> usize
        ensures { result ≡ self.now.room }
    {
        self.room
    }

    /// How many entries were drained in all.
    pub fn first(&self) -> u64
        ensures { result ≡ self.now.first }
    {
        self.first
    }

    /// The kept entries, the oldest first.
    pub fn entries(&self) -> &[Entry]
        ensures { result.now ≡ self.now.kept }
    {
        self.entries.as_slice()
    }

    /// Moves the oldest kept entries to the end of `into`, and answers how many: the least of `most`, of the number of
    /// kept ones and of the spare places of `into`. It costs one move for each entry that was kept; an empty list of the same
    /// capacity, to which all go, changes places with the journal's at once.
    pub fn drain_into(&mut self, most: usize, into: &mut Vec<Entry>) -> usize
        requires { self.old.first + length self.old.kept < 2 ^ 64 }
        ensures count { result ≡ min most (min (length self.old.kept) (vec_capacity into.old - vec_len into.old)) }
        ensures moved { into.new.items ≡ into.old.items ++ take result self.old.kept }
        ensures places { vec_capacity into.new ≡ vec_capacity into.old }
        ensures left { self.new ≡ record self.old { first = self.old.first + result; kept = drop result self.old.kept } }
    {
        if changes_places(&self.entries, most, into) {
            let count = self.entries.len();
            mem::swap(&mut self.entries, into);
            self.first += count as u64;
            return count;
        }
        let count = most.min(self.entries.len().min(into.capacity() - into.len()));
        copy_front(self.entries.as_slice(), count, into);
        drop_front(&mut self.entries, count);
        self.first += count as u64;
        count
    }

    /// Lets go of all kept entries. It costs the same however many they are.
    pub fn discard(&mut self)
        requires { self.old.first + length self.old.kept < 2 ^ 64 }
        ensures { self.new ≡ record self.old { first = self.old.first + length self.old.kept; kept = [] } }
    {
        self.first += self.entries.len() as u64;
        self.entries.clear();
    }

    /// The kept entries, handed out.
    pub fn into_entries(self) -> Vec<Entry>
        ensures { result.items ≡ self.kept }
    {
        let Journal {
            entries,
            room: _,
            first: _,
        } = self;
        entries
    }
}

// Whether all entries go to an empty list of the same capacity.
fn changes_places(entries: &Vec<Entry>, most: usize, into: &Vec<Entry>) -> bool
    ensures { result ≡ true → (into.now.items ≡ []) × (vec_len entries.now ≤ most) × (vec_capacity into.now ≡ vec_capacity entries.now) }
{
    into.is_empty() && entries.len() <= most && into.capacity() == entries.capacity()
}

fn copy_front(entries: &[Entry], count: usize, into: &mut Vec<Entry>)
    requires there { count ≤ length entries.now }
    requires places { vec_len into.old + count ≤ vec_capacity into.old }
    ensures items { into.new.items ≡ into.old.items ++ take count entries.now }
    ensures places { vec_capacity into.new ≡ vec_capacity into.old }
{
    for i in 0..count {
        into.push_reserved(entries[i]);
    }
}

fn drop_front(entries: &mut Vec<Entry>, count: usize)
    requires { count ≤ vec_len entries.old }
    ensures items { entries.new.items ≡ drop count entries.old.items }
    ensures places { vec_capacity entries.new ≡ vec_capacity entries.old }
{
    if count == entries.len() {
        entries.clear();
    } else {
        let front = entries.drain(..count);
        drop(front);
    }
}
