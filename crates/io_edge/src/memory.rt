//! Sources and sinks in memory. They tell their bytes, and their calls fail where the maker says so.
ghost use Rattle.std.specs.Prelude.{◌≡◌, ◌+◌, ◌-◌, ◌^◌, ◌<◌, ◌≤◌, ◌↔◌, ◌⊎◌, [], Some, drop, take, min, length, IfOk, IsErr, IsTrue, OnErr, OnOk};
ghost use Rattle.std.specs.Io.{ReadsAtMost};
ghost use Rattle.std.specs.Io.KnownBytes.{ReadConsumes, WriteAppends};
ghost use Rattle.io_edge.specs.Causes.{HasCause, counted};
ghost use Rattle.io_edge.specs.Memory.{Fails, IsFull};

use crate::{Failed, Sink, Source};
use rt_base::OutOfMemory;
use std::alloc::Global;
use std::marker::Model;

/// Bytes in memory. Its calls are numbered from 0, and those whose numbers are given fail; after the first `u64::MAX`
/// calls each call fails. Contracts see the bytes still to come, the given numbers, the next call's number and how many
/// calls failed. A call takes time in the given numbers and the bytes taken, and no memory.
#[derive(Drop)]
pub struct MemSource {
    bytes: Vec<u8>,
    at: usize,
    failing: Vec<u64>,
    calls: u64,
    faults: u64,
}

impl Model for MemSource {
    ghost use Rattle.std.specs.Prelude.{◌≤◌, drop, vec_len};
    ghost use Rattle.io_edge.specs.Memory.{SourceState};

    ghost Value = { SourceState };

    ghost view = { λ s. record {
      left = drop s.at s.bytes.items;
      failing = s.failing.items;
      calls = s.calls;
      faults = s.faults;
    } };

    ghost invariant = { λ s. s.at ≤ vec_len s.bytes };
}

// Whether the call of this number fails.
fn fails(failing: &[u64], call: u64) -> bool
    ensures { IsTrue result ↔ Fails failing.now call }
{
    call == u64::MAX || failing.contains(&call)
}

// Moves bytes from the front of one slice to the front of the other.
fn copy_front(from: &[u8], into: &mut [u8]) -> usize
    ensures count { result ≡ min (length from.now) (length into.old) }
    ensures copied { take result into.new ≡ take result from.now }
{
    let count = from.len().min(into.len());
    into[..count].copy_from_slice(&from[..count]);
    count
}

impl MemSource {
    /// These bytes; the calls of these numbers fail. It takes no memory.
    pub fn new(bytes: Vec<u8>, failing: Vec<u64>) -> MemSource
        ensures { result ≡ record { left = bytes.items; failing = failing.items; calls = 0; faults = 0 } }
    {
        MemSource {
            bytes,
            at: 0,
            failing,
            calls: 0,
            faults: 0,
        }
    }
}

impl Source for MemSource {
    ghost left = { λ s. Some s.left };

    ghost faults = { λ s. s.faults };

    fn take(&mut self, into: &mut [u8]) -> Result<usize, Failed>
        ensures bound { ReadsAtMost result into.new }
        ensures bytes { ReadConsumes (Some self.old.left) (Some self.new.left) result into.new }
        ensures cause { HasCause self.old.faults self.new.faults result }
        ensures count { self.new.faults ≤ 2 ^ 64 - 1 }
        ensures fails { IsErr result ↔ Fails self.old.failing self.old.calls }
        ensures gives { IfOk result (λ n. n ≡ min (length self.old.left) (length into.old)) }
        ensures call { self.new.calls ≡ counted self.old.calls }
        ensures fault { OnErr result (self.new.faults ≡ counted self.old.faults) }
        ensures none { OnOk result (self.new.faults ≡ self.old.faults) }
        ensures failing { self.new.failing ≡ self.old.failing }
    {
        let failed = fails(&self.failing, self.calls);
        self.calls = self.calls.saturating_add(1);
        if failed {
            return Err(Failed::counted_in(&mut self.faults));
        }
        let count = copy_front(&self.bytes[self.at..], into);
        self.at += count;
        Ok(count)
    }
}

/// Bytes in memory, and no call fails. Contracts see the bytes still to come. A call takes no memory.
#[derive(Drop)]
pub struct SureSource {
    bytes: Vec<u8>,
    at: usize,
}

impl Model for SureSource {
    ghost use Rattle.std.specs.Prelude.{ℕ, ◌≤◌, List, drop, vec_len};

    ghost Value = { List ℕ };

    ghost view = { λ s. drop s.at s.bytes.items };

    ghost invariant = { λ s. s.at ≤ vec_len s.bytes };
}

impl SureSource {
    /// These bytes. It takes no memory.
    pub fn new(bytes: Vec<u8>) -> SureSource
        ensures { result ≡ bytes.items }
    {
        SureSource { bytes, at: 0 }
    }
}

impl Source for SureSource {
    ghost left = { λ s. Some s };

    ghost faults = { λ _. 0 };

    fn take(&mut self, into: &mut [u8]) -> Result<usize, Failed>
        ensures bound { ReadsAtMost result into.new }
        ensures bytes { ReadConsumes (Some self.old) (Some self.new) result into.new }
        ensures cause { HasCause 0 0 result }
        ensures gives { IfOk result (λ n. n ≡ min (length self.old) (length into.old)) }
    {
        let count = copy_front(&self.bytes[self.at..], into);
        self.at += count;
        Ok(count)
    }
}

/// A sink in memory. Its calls are numbered from 0, and those whose numbers are given fail; after the first `u64::MAX`
/// calls each call fails. Contracts see what it took, its room, the most it takes a call, the given numbers, the next
/// call's number and the count. Its room is reserved when it is made, and it takes no memory afterwards.
#[derive(Drop)]
pub struct MemSink {
    bytes: Vec<u8>,
    room: usize,
    most: usize,
    failing: Vec<u64>,
    calls: u64,
    faults: u64,
}

impl Model for MemSink {
    ghost use Rattle.std.specs.Prelude.{◌≤◌, vec_len, vec_capacity};
    ghost use Rattle.io_edge.specs.Memory.{SinkState};

    ghost Value = { SinkState };

    ghost view = { λ s. record {
      taken = s.bytes.items;
      room = s.room;
      most = s.most;
      failing = s.failing.items;
      calls = s.calls;
      faults = s.faults;
    } };

    ghost invariant = { λ s. (s.room ≤ vec_capacity s.bytes) × (vec_len s.bytes ≤ s.room) × (1 ≤ s.most) };
}

impl MemSink {
    /// An empty sink that takes at most `most` bytes a call and `room` bytes in all; the calls of these numbers fail.
    /// After `OutOfMemory` there is none.
    pub fn new(
        alloc: Global,
        room: usize,
        most: usize,
        failing: Vec<u64>,
    ) -> Result<MemSink, OutOfMemory>
        requires { 1 ≤ most }
        ensures { IfOk result (λ s. s ≡ record {
          taken = [];
          room = room;
          most = most;
          failing = failing.items;
          calls = 0;
          faults = 0;
        }) }
    {
        let bytes = Vec::with_capacity(alloc, room)?;
        Ok(MemSink {
            bytes,
            room,
            most,
            failing,
            calls: 0,
            faults: 0,
        })
    }

    /// What it took so far.
    pub fn bytes(&self) -> &[u8]
        ensures { result.now ≡ self.now.taken }
    {
        &self.bytes
    }
}

impl Sink for MemSink {
    ghost taken = { λ s. Some s.taken };

    ghost faults = { λ s. s.faults };

    fn give(&mut self, bytes: &[u8]) -> Result<usize, Failed>
        ensures bound { IfOk result (λ n. n ≤ length bytes.now) }
        ensures some { 0 < length bytes.now → IfOk result (λ n. 0 < n) }
        ensures bytes { WriteAppends (Some self.old.taken) (Some self.new.taken) result bytes.now }
        ensures cause { HasCause self.old.faults self.new.faults result }
        ensures count { self.new.faults ≤ 2 ^ 64 - 1 }
        ensures fails { IsErr result ↔ (Fails self.old.failing self.old.calls ⊎ IsFull self.old (length bytes.now)) }
        ensures takes { IfOk result (λ n.
            n ≡ min (min (length bytes.now) self.old.most) (self.old.room - length self.old.taken)) }
        ensures call { self.new.calls ≡ counted self.old.calls }
        ensures fault { OnErr result (self.new.faults ≡ counted self.old.faults) }
        ensures none { OnOk result (self.new.faults ≡ self.old.faults) }
        ensures failing { self.new.failing ≡ self.old.failing }
        ensures room { self.new.room ≡ self.old.room }
        ensures most { self.new.most ≡ self.old.most }
    {
        let count = bytes.len().min(self.most).min(self.room - self.bytes.len());
        let full = count == 0 && !bytes.is_empty();
        let failed = fails(&self.failing, self.calls);
        self.calls = self.calls.saturating_add(1);
        if failed || full {
            return Err(Failed::counted_in(&mut self.faults));
        }
        self.bytes.extend_from_slice(&bytes[..count]).unwrap();
        Ok(count)
    }
}
