//! A core and a plain core, called side by side.
ghost use Rattle.std.specs.Prelude.{◌≤◌, ◌^◌};

use crate::compare::{Kinds, compared};
use board::Board;
use lock_core::Core;
use plain_core::PlainCore;
use std::alloc::Global;
use test_sets::{Call, make, write_look};
use txn_set::CompiledSet;

/// A core and a plain core of one set, and what the latter said last.
#[derive(Drop)]
pub struct Boards {
    core: Core,
    plain: PlainCore,
    other: String,
}

/// A core of a copy of the set.
pub fn new_core(alloc: Global, set: &CompiledSet, room: usize) -> Option<Core>
    requires { room ≤ 2 ^ 20 }
{
    match Core::new(alloc, set.copy(alloc).ok()?, room) {
        Ok(core) => Some(core),
        Err((set, _)) => {
            drop(set);
            None
        }
    }
}

/// A plain core of a copy of the set.
pub fn new_plain(alloc: Global, set: &CompiledSet, room: usize) -> Option<PlainCore>
    requires { room ≤ 2 ^ 20 }
{
    match PlainCore::new(alloc, set.copy(alloc).ok()?, room) {
        Ok(core) => Some(core),
        Err((set, _)) => {
            drop(set);
            None
        }
    }
}

/// Boards of the set with this room, at most 2^20.
pub fn boards_of(alloc: Global, set: &CompiledSet, room: usize) -> Option<Boards> {
    if room > 1 << 20 {
        return None;
    }
    let core = new_core(alloc, set, room)?;
    match new_plain(alloc, set, room) {
        Some(plain) => Some(Boards {
            core,
            plain,
            other: String::new(alloc),
        }),
        None => {
            drop(core);
            None
        }
    }
}

// Adds what a plain core said, where the core said something else.
fn add_other(said: &mut String, other: &str) -> Option<()> {
    if said.as_str() == other {
        Some(())
    } else {
        write!(said, ", and a plain core: {other}").ok()
    }
}

// Writes what a board says to a call.
fn write_call<B: Board>(board: &mut B, call: Call, said: &mut String) -> Option<()> {
    let answer = make(board, call);
    write!(said, "{answer:?}").ok()
}

// Drains so many entries at most, and writes them.
fn write_drained<B: Board>(
    alloc: Global,
    board: &mut B,
    most: usize,
    said: &mut String,
) -> Option<()> {
    let mut into = Vec::with_capacity(alloc, 16).ok()?;
    let count = board.drain(most, &mut into);
    let entries = into.as_slice();
    write!(said, "{count} {entries:?}").ok()
}

// Lets a board let go of its entries, and writes how many it kept before and after.
fn write_discarded<B: Board>(board: &mut B, said: &mut String) -> Option<()> {
    let kept = board.entries().len();
    board.discard();
    let left = board.entries().len();
    write!(said, "{kept}, then {left}").ok()
}

// Writes the items of a board, and how many entries it handed out.
fn write_parts<B: Board>(board: B, said: &mut String) -> Option<()> {
    let (items, entries) = board.into_parts();
    let count = entries.len();
    drop(entries);
    let written = write!(said, "{count} entries, {:?}", items.as_slice());
    drop(items);
    written.ok()
}

impl Boards {
    /// Writes what both say to a call, once where it is the same, as all that follows.
    pub fn call(&mut self, call: Call, said: &mut String) -> Option<()> {
        self.other.clear();
        write_call(&mut self.core, call, said)?;
        write_call(&mut self.plain, call, &mut self.other)?;
        add_other(said, self.other.as_str())
    }

    /// Drains so many entries at most from both, and writes them.
    pub fn drain(&mut self, alloc: Global, most: usize, said: &mut String) -> Option<()> {
        self.other.clear();
        write_drained(alloc, &mut self.core, most, said)?;
        write_drained(alloc, &mut self.plain, most, &mut self.other)?;
        add_other(said, self.other.as_str())
    }

    /// Writes how many entries both kept, and how many once they have let go of them.
    pub fn discard(&mut self, said: &mut String) -> Option<()> {
        self.other.clear();
        write_discarded(&mut self.core, said)?;
        write_discarded(&mut self.plain, &mut self.other)?;
        add_other(said, self.other.as_str())
    }

    /// Writes what both show.
    pub fn look(&mut self, said: &mut String) -> Option<()> {
        self.other.clear();
        write_look(said, &self.core).ok()?;
        write_look(&mut self.other, &self.plain).ok()?;
        add_other(said, self.other.as_str())
    }
}

/// Writes the items of both, and how many entries they handed out.
pub fn take_apart(boards: Boards, said: &mut String) -> Option<()> {
    let Boards {
        core,
        plain,
        mut other,
    } = boards;
    other.clear();
    let (one, two) = (write_parts(core, said), write_parts(plain, &mut other));
    let added = add_other(said, other.as_str());
    drop(other);
    one.and(two).and(added)
}

/// Writes whether new boards of the set with this room answer alike, driven from a seed. The kinds of their answers are added.
pub fn compare(
    alloc: Global,
    set: &CompiledSet,
    room: usize,
    seed: u64,
    kinds: &mut Kinds,
    said: &mut String,
) -> Option<()> {
    let Boards { core, plain, other } = boards_of(alloc, set, room)?;
    drop(other);
    compared(alloc, core, plain, seed, kinds, said)
}
