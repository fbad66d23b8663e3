//! A source of bytes, and reading all of it.
ghost use Rattle.std.specs.Prelude.{◌≡◌, ℕ, ◌-◌, ◌^◌, ◌≤◌, List, Option, length, IsErrOf};
ghost use Rattle.std.specs.Io.{ReadsAtMost};
ghost use Rattle.std.specs.Io.KnownBytes.{ReadConsumes};
ghost use Rattle.io_edge.specs.Causes.{Rose, HasCause};
ghost use Rattle.io_edge.specs.Reading.{ReadsAll};

use crate::Failed;
use std::alloc::Global;

const PIECE: usize = 4096;

/// Bytes that come in pieces, and a count of the calls that failed.
pub trait Source {
    /// The bytes still to come, where the source tells them.
    ghost left: { Self → Option (List ℕ) };

    /// How many calls failed. It never falls, and stands still at `u64::MAX`.
    ghost faults: { Self → ℕ };

    /// Takes bytes from the front into the piece, and answers how many. No byte, for a piece that is not empty, is the
    /// end of input. `Failed` comes only where the count of failed calls rose, and takes nothing.
    fn take(&mut self, into: &mut [u8]) -> Result<usize, Failed>
        ensures bound { ReadsAtMost result into.new }
        ensures bytes { ReadConsumes (left self.old) (left self.new) result into.new }
        ensures cause { HasCause (faults self.old) (faults self.new) result }
        ensures count { faults self.new ≤ 2 ^ 64 - 1 };
}

/// Why not all of a source was read.
#[derive(Clone, Copy, Debug, PartialEq, Eq)]
pub enum ReadError {
    /// A call of the source failed, and was counted.
    ReadFault,
    /// More bytes than the limit were taken.
    TooLong,
    /// A growth of the bytes read so far was refused.
    OutOfMemory,
}

/// All bytes to the end of input, at most `limit` of them. `ReadFault` comes only where the source's count rose in this
/// call, and `TooLong` exactly where more than `limit` bytes were taken. After an error some input may have been taken.
/// Each turn takes at least one byte or ends, so there are at most `limit + 2` calls of the source.
pub fn read_all<S: Source>(
    alloc: Global,
    source: &mut S,
    limit: usize,
) -> Result<Vec<u8>, ReadError>
    ensures bytes { ReadsAll limit (S.left source.old) (S.left source.new) result }
    ensures fault { IsErrOf result ReadError.ReadFault → Rose (S.faults source.old) (S.faults source.new) }
    ensures later { S.faults source.old ≤ S.faults source.new }
{
    let mut bytes = Vec::new(alloc);
    let mut piece = [0u8; PIECE];
    loop {
        let Ok(count) = source.take(&mut piece) else {
            return Err(ReadError::ReadFault);
        };
        if count == 0 {
            return Ok(bytes);
        }
        if count > limit - bytes.len() {
            return Err(ReadError::TooLong);
        }
        if bytes.extend_from_slice(&piece[..count]).is_err() {
            return Err(ReadError::OutOfMemory);
        }
    }
}
