//! A sink of bytes, and writing all of a text to it.
ghost use Rattle.std.specs.Prelude.{◌≡◌, ℕ, ◌-◌, ◌^◌, ◌<◌, ◌≤◌, List, Option, length, take, IfOk, OnOk, OnErr};
ghost use Rattle.std.specs.Io.KnownBytes.{Appends, WriteAppends};
ghost use Rattle.io_edge.specs.Causes.{HasCause};

use crate::Failed;

/// Takes bytes in pieces, and counts the calls that failed.
pub trait Sink {
    /// All bytes taken so far, where the sink tells them.
    ghost taken: { Self → Option (List ℕ) };

    /// How many calls failed. It never falls, and stands still at `u64::MAX`.
    ghost faults: { Self → ℕ };

    /// Gives bytes, of which the first few are taken, and answers how many: at least one, unless there is none.
    /// `Failed` comes only where the count of failed calls rose, and nothing is taken then.
    fn give(&mut self, bytes: &[u8]) -> Result<usize, Failed>
        ensures bound { IfOk result (λ n. n ≤ length bytes.now) }
        ensures some { 0 < length bytes.now → IfOk result (λ n. 0 < n) }
        ensures bytes { WriteAppends (taken self.old) (taken self.new) result bytes.now }
        ensures cause { HasCause (faults self.old) (faults self.new) result }
        ensures count { faults self.new ≤ 2 ^ 64 - 1 };
}

/// A sink failed, and counted it. A prefix of the bytes was taken.
#[derive(Clone, Copy, Debug, PartialEq, Eq)]
pub struct WriteFault;

/// Gives all of the bytes, in order. `WriteFault` comes only where the sink's count rose in this call. It takes no
/// memory, and calls the sink at most once for each byte.
pub fn write_all<K: Sink>(sink: &mut K, bytes: &[u8]) -> Result<(), WriteFault>
    ensures all { OnOk result (Appends (K.taken sink.old) (K.taken sink.new) bytes.now) }
    ensures prefix { OnErr result ((n : ℕ) × Appends (K.taken sink.old) (K.taken sink.new) (take n bytes.now)) }
    ensures cause { HasCause (K.faults sink.old) (K.faults sink.new) result }
{
    let mut done = 0;
    while done < bytes.len() {
        match sink.give(&bytes[done..]) {
            Ok(count) => done += count,
            Err(_) => return Err(WriteFault),
        }
    }
    Ok(())
}
