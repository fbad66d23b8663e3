//! The calls that are to be made on a file.
ghost use Rattle.std.specs.Prelude.{◌≡◌, ◌+◌, ◌-◌, ◌<◌, ◌≤◌, ◌++◌, [], ◌∷◌, false, take, drop, min, length, reverse, IfOk, OnErr, OnOk, vec_capacity, vec_len};
ghost use Rattle.std.specs.List.{All};
ghost use Rattle.durable_disk.specs.Memory.{after_write};
ghost use Rattle.c_stations.specs.Calls.{EndsWithin, IsWriteOf, after, held, held_all};
ghost use Rattle.c_stations.specs.declared.call.Call.TheVariants.{Sync};

use crate::call::{Call, WIDTH, piece_of};
use io_edge::Failed;
use rt_base::OutOfMemory;
use std::alloc::Global;
use std::marker::Model;

/// A file as it was when all earlier calls had been made, and the calls since, in order. It takes its room when it is made:
/// the bytes of the file, and 280 bytes for each call. Contracts see the file and the calls.
#[derive(Drop)]
pub struct Queue {
    base: Vec<u8>,
    calls: Vec<Call>,
    room: usize,
    places: usize,
    written: bool,
}

impl Model for Queue {
    ghost use Rattle.std.specs.Prelude.{◌≡◌, ◌≤◌, false, reverse, vec_len, vec_capacity};
    ghost use Rattle.std.specs.List.{All};
    ghost use Rattle.c_stations.specs.Calls.{EndsWithin, held};
    ghost use Rattle.c_stations.specs.Device.{Queued};

    ghost Value = { Queued };

    ghost view = { λ s. record { base = s.base.items; calls = s.calls.items } };

    ghost invariant = { λ s. (vec_len s.base ≤ s.room) × (s.room ≤ vec_capacity s.base) × (vec_len s.calls ≤ s.places) × (s.places ≤ vec_capacity s.calls)
        × All (EndsWithin s.room) s.calls.items × (s.written ≡ false → held s.base.items (reverse s.calls.items) ≡ s.base.items) };
}

// Moves bytes from the front of one slice to the front of the other.
fn copy_front(from: &[u8], into: &mut [u8]) -> usize
    ensures count { result ≡ min (length from.now) (length into.old) }
    ensures copied { take result into.new ≡ take result from.now }
{
    let count = from.len().min(into.len());
    into[..count].copy_from_slice(&from[..count]);
    count
}

// Whether a write of so many bytes passes the room, or the width of a call.
fn is_too_wide(room: usize, at: u64, count: usize) -> bool
    ensures { result ≡ false → (at + count ≤ room) × (count ≤ 256) }
{
    let room = room as u64;
    count > WIDTH || at > room || count as u64 > room - at
}

// One call more.
fn note(calls: &mut Vec<Call>, newest: Call, room: usize)
    requires place { vec_len calls.old < vec_capacity calls.old }
    requires within { All (EndsWithin room) calls.old.items × EndsWithin room newest }
    ensures items { calls.new.items ≡ calls.old.items ++ newest ∷ [] }
    ensures reversed { reverse calls.new.items ≡ newest ∷ reverse calls.old.items }
    ensures within { All (EndsWithin room) calls.new.items }
    ensures len { vec_len calls.new ≡ vec_len calls.old + 1 }
    ensures capacity { vec_capacity calls.old ≤ vec_capacity calls.new }
{
    calls.push_reserved(newest);
}

// Writes bytes, and zeros in a gap before them. The file has room for them.
fn overwrite(file: &mut Vec<u8>, at: usize, bytes: &[u8])
    requires { at + length bytes.now ≤ vec_capacity file.old }
    ensures bytes { file.new.items ≡ after_write at bytes.now file.old.items }
    ensures capacity { vec_capacity file.old ≤ vec_capacity file.new }
{
    if bytes.is_empty() {
        return;
    }
    let end = at + bytes.len();
    if end > file.len() {
        file.resize(end, 0).unwrap();
    }
    file[at..end].copy_from_slice(bytes);
}

// Makes a call on the bytes of a file.
fn make(file: &mut Vec<u8>, call: &Call, room: usize)
    requires within { EndsWithin room call.now }
    requires room { (vec_len file.old ≤ room) × (room ≤ vec_capacity file.old) }
    ensures bytes { file.new.items ≡ after call.now file.old.items }
    ensures len { vec_len file.new ≤ room }
    ensures capacity { room ≤ vec_capacity file.new }
{
    if let Call::Write(piece) = call {
        overwrite(file, piece.at as usize, &piece.bytes[..piece.count]);
    }
}

// Makes calls on the bytes of a file, in order.
fn make_all(file: &mut Vec<u8>, calls: &[Call], room: usize)
    requires within { All (EndsWithin room) calls.now }
    requires room { (vec_len file.old ≤ room) × (room ≤ vec_capacity file.old) }
    ensures bytes { file.new.items ≡ held_all file.old.items calls.now }
    ensures len { vec_len file.new ≤ room }
    ensures capacity { room ≤ vec_capacity file.new }
{
    for call in calls {
        make(file, call, room);
    }
}

impl Queue {
    /// No call yet on a file of these bytes. It has room for so many bytes at least, and places for so many calls. After
    /// `OutOfMemory` there is none.
    pub fn new(
        alloc: Global,
        bytes: &[u8],
        room: usize,
        places: usize,
    ) -> Result<Queue, OutOfMemory>
        ensures { IfOk result (λ q. q ≡ record { base = bytes.now; calls = [] }) }
    {
        let room = room.max(bytes.len());
        let mut base = Vec::with_capacity(alloc, room)?;
        base.extend_from_slice(bytes)?;
        let calls = Vec::with_capacity(alloc, places)?;
        Ok(Queue {
            base,
            calls,
            room,
            places,
            written: false,
        })
    }

    /// A queue with no room. It takes no memory.
    pub fn none(alloc: Global) -> Queue
        ensures { result ≡ record { base = []; calls = [] } }
    {
        Queue {
            base: Vec::new(alloc),
            calls: Vec::new(alloc),
            room: 0,
            places: 0,
            written: false,
        }
    }

    /// The calls, in order.
    pub fn calls(&self) -> &[Call]
        ensures { result.now ≡ self.now.calls }
    {
        &self.calls
    }

    /// The calls were made: the file is what they made of it.
    #[tactic(auto, using(crate::proofs::Moments::held_all_is))]
    pub fn settle(&mut self)
        ensures { self.new ≡ record { base = held self.old.base (reverse self.old.calls); calls = [] } }
    {
        make_all(&mut self.base, &self.calls, self.room);
        self.calls.clear();
        self.written = false;
    }

    /// The calls will not be made.
    pub fn forget(&mut self)
        ensures { self.new ≡ record { base = self.old.base; calls = [] } }
    {
        self.calls.clear();
        self.written = false;
    }

    /// Reads the file into the front of the buffer. It fails where a write is to be made.
    pub(crate) fn read(&self, at: u64, into: &mut [u8]) -> Result<usize, Failed>
        ensures count { IfOk result (λ n. n ≡ min (length self.now.base - at) (length into.old)) }
        ensures bytes { IfOk result (λ n. take n into.new ≡ take n (drop at self.now.base)) }
        ensures length { length into.new ≡ length into.old }
        ensures same { OnOk result (held self.now.base (reverse self.now.calls) ≡ self.now.base) }
    {
        if self.written {
            return Err(Failed);
        }
        let from = (self.base.len() as u64).min(at) as usize;
        Ok(copy_front(&self.base[from..], into))
    }

    /// One write more. It fails where there is no place for it.
    pub(crate) fn write(&mut self, at: u64, bytes: &[u8]) -> Result<(), Failed>
        ensures base { self.new.base ≡ self.old.base }
        ensures noted { OnOk result (IsWriteOf at bytes.now self.old.calls self.new.calls) }
        ensures refused { OnErr result (self.new.calls ≡ self.old.calls) }
    {
        if is_too_wide(self.room, at, bytes.len()) || self.calls.len() >= self.places {
            return Err(Failed);
        }
        note(&mut self.calls, Call::Write(piece_of(at, bytes)), self.room);
        self.written = true;
        Ok(())
    }

    /// One sync more. It fails where there is no place for it.
    pub(crate) fn sync(&mut self) -> Result<(), Failed>
        ensures base { self.new.base ≡ self.old.base }
        ensures noted { OnOk result ((self.new.calls ≡ self.old.calls ++ Sync ∷ []) × (reverse self.new.calls ≡ Sync ∷ reverse self.old.calls)) }
        ensures refused { OnErr result (self.new.calls ≡ self.old.calls) }
    {
        if self.calls.len() >= self.places {
            return Err(Failed);
        }
        note(&mut self.calls, Call::Sync, self.room);
        Ok(())
    }
}
