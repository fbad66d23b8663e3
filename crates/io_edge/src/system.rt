//! Sources and sinks over readers and writers of the system. They tell nothing of bytes.
ghost use Rattle.std.specs.Prelude.{◌≡◌, ◌-◌, ◌^◌, ◌<◌, ◌≤◌, length, None, IfOk, IfSome, OnErr, OnOk};
ghost use Rattle.std.specs.Io.{ReadsAtMost};
ghost use Rattle.std.specs.Io.KnownBytes.{ReadConsumes, WriteAppends};
ghost use Rattle.io_edge.specs.Causes.{HasCause, counted};

use crate::{Failed, Sink, Source};
use std::io::{Read, Write};
use std::marker::Model;

/// A reader, such as standard input. It tells nothing of bytes. Contracts see the count of reads that failed.
#[derive(Drop)]
pub struct StdSource<R> {
    reader: R,
    faults: u64,
}

impl<R> Model for StdSource<R> {
    ghost use Rattle.std.specs.Prelude.{ℕ, ◌-◌, ◌^◌, ◌≤◌};

    ghost Value = { ℕ };

    ghost view = { λ s. s.faults };

    ghost invariant = { λ s. s.faults ≤ 2 ^ 64 - 1 };
}

impl<R: Read> StdSource<R> {
    /// The bytes of this reader.
    pub fn new(reader: R) -> StdSource<R>
        ensures { result ≡ 0 }
    {
        StdSource { reader, faults: 0 }
    }
}

impl<R: Read> Source for StdSource<R> {
    ghost left = { λ _. None };

    ghost faults = { λ s. s };

    fn take(&mut self, into: &mut [u8]) -> Result<usize, Failed>
        ensures bound { ReadsAtMost result into.new }
        ensures bytes { ReadConsumes None None result into.new }
        ensures cause { HasCause self.old self.new result }
        ensures count { self.new ≤ 2 ^ 64 - 1 }
        ensures fault { OnErr result (self.new ≡ counted self.old) }
        ensures none { OnOk result (self.new ≡ self.old) }
    {
        match self.reader.read(into) {
            Ok(count) => Ok(count),
            Err(_) => Err(Failed::counted_in(&mut self.faults)),
        }
    }
}

/// A writer, such as standard output. It tells nothing of bytes, flushes after each write, and counts a write that
/// takes nothing as one that failed. Contracts see the count of calls that failed.
#[derive(Drop)]
pub struct StdSink<W> {
    writer: W,
    faults: u64,
}

impl<W> Model for StdSink<W> {
    ghost use Rattle.std.specs.Prelude.{ℕ, ◌-◌, ◌^◌, ◌≤◌};

    ghost Value = { ℕ };

    ghost view = { λ s. s.faults };

    ghost invariant = { λ s. s.faults ≤ 2 ^ 64 - 1 };
}

impl<W: Write> StdSink<W> {
    /// Gives bytes to this writer.
    pub fn new(writer: W) -> StdSink<W>
        ensures { result ≡ 0 }
    {
        StdSink { writer, faults: 0 }
    }
}

// Writes what the writer takes, at least one byte of some, and flushes it.
fn write_some<W: Write>(writer: &mut W, bytes: &[u8]) -> Option<usize>
    ensures bound { IfSome result (λ n. n ≤ length bytes.now) }
    ensures some { 0 < length bytes.now → IfSome result (λ n. 0 < n) }
{
    let count = writer.write(bytes).ok()?;
    writer.flush().ok()?;
    if count == 0 && !bytes.is_empty() {
        return None;
    }
    Some(count)
}

impl<W: Write> Sink for StdSink<W> {
    ghost taken = { λ _. None };

    ghost faults = { λ s. s };

    fn give(&mut self, bytes: &[u8]) -> Result<usize, Failed>
        ensures bound { IfOk result (λ n. n ≤ length bytes.now) }
        ensures some { 0 < length bytes.now → IfOk result (λ n. 0 < n) }
        ensures bytes { WriteAppends None None result bytes.now }
        ensures cause { HasCause self.old self.new result }
        ensures count { self.new ≤ 2 ^ 64 - 1 }
        ensures fault { OnErr result (self.new ≡ counted self.old) }
        ensures none { OnOk result (self.new ≡ self.old) }
    {
        match write_some(&mut self.writer, bytes) {
            Some(count) => Ok(count),
            None => Err(Failed::counted_in(&mut self.faults)),
        }
    }
}
