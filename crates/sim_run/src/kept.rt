//! An out that keeps what it takes.
ghost use Rattle.std.specs.Prelude.{◌≡◌, ◌+◌, ◌≤◌, ◌++◌, [], length, vec_len, vec_capacity, IfOk};

use crate::out::{EntryOut, Stopped};
use rt_base::OutOfMemory;
use std::alloc::Global;
use std::marker::Model;
use step_journal::Entry;

/// Entries that are kept, with a room for them that never grows. Only `with_room` takes memory.
#[derive(Drop)]
pub struct KeptEntries {
    entries: Vec<Entry>,
    room: usize,
}

impl Model for KeptEntries {
    ghost use Rattle.std.specs.Prelude.{◌≤◌, vec_capacity};
    ghost use Rattle.sim_run.specs.Kept.{KeptSeen};

    ghost Value = { KeptSeen };

    ghost view = { λ k. record { room = k.room; kept = k.entries.items } };

    ghost invariant = { λ k. k.room ≤ vec_capacity k.entries };
}

impl KeptEntries {
    /// None kept yet, with room for so many entries.
    pub fn with_room(alloc: Global, room: usize) -> Result<KeptEntries, OutOfMemory>
        ensures { IfOk result (λ k. k ≡ record { room = room; kept = [] }) }
    {
        let mut entries = Vec::new(alloc);
        entries.reserve(room)?;
        Ok(KeptEntries { entries, room })
    }

    /// The kept entries, in the order in which they came.
    pub fn as_slice(&self) -> &[Entry]
        ensures { result.now ≡ self.now.kept }
    {
        self.entries.as_slice()
    }
}

/// It takes up to `room` entries in all, and never stops.
impl EntryOut for KeptEntries {
    ghost use Rattle.std.specs.Prelude.{◌≡◌, ◌≤◌, [], length};

    ghost got = { λ out history. out.kept ≡ history };

    ghost lost = { λ out history. history ≡ [] };

    ghost good = { λ out history. length history ≤ out.room };

    ghost stops = { λ out. 0 };

    /// It costs one move an entry.
    fn put(&mut self, entries: &[Entry]) -> Result<(), Stopped> {
        append(&mut self.entries, entries);
        Ok(())
    }
}

/// Appends the entries to a list that has places for them. It costs one move an entry, and takes no memory.
pub fn append(into: &mut Vec<Entry>, entries: &[Entry])
    requires places { vec_len into.old + length entries.now ≤ vec_capacity into.old }
    ensures items { into.new.items ≡ into.old.items ++ entries.now }
    ensures places { vec_capacity into.new ≡ vec_capacity into.old }
{
    for i in 0..entries.len() {
        into.push_reserved(entries[i]);
    }
}
