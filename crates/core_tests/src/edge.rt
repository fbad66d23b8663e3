//! Sources and sinks: ends, limits and faults, and what a caller learns from the contracts alone.
ghost use Rattle.std.specs.Prelude.{◌≡◌, ◌≤◌, IfOk, IsErrOf};

use crate::words::{numbers, size, tell};
use io_edge::{MemSink, MemSource, ReadError, StdSink, StdSource, SureSource, read_all, write_all};
use std::alloc::Global;
use std::io::{self, ErrorKind, Read, Write};

// A source that never fails is read whole, and no fault of reading comes.
fn read_sure(alloc: Global, bytes: Vec<u8>, limit: usize) -> Result<Vec<u8>, ReadError>
    ensures whole { IfOk result (λ v. v.items ≡ bytes.items) }
    ensures no_fault { IsErrOf result ReadError.ReadFault → ⊥ }
{
    let mut source = SureSource::new(bytes);
    read_all(alloc, &mut source, limit)
}

// Writes what comes of a source that never fails, up to a limit.
fn try_sure(alloc: Global, text: &str, limit: usize, said: &mut String) -> Option<()> {
    let bytes = text.as_bytes().to_vec(alloc).ok()?;
    tell(said, read_sure(alloc, bytes, limit))
}

// So many sevens.
fn sevens(alloc: Global, count: &str) -> Option<Vec<u8>> {
    vec![in alloc; 7u8; size(count)?].ok()
}

// How many bytes came of a source, up to a limit.
fn count_read(alloc: Global, source: &mut MemSource, limit: usize) -> Result<usize, ReadError> {
    read_all(alloc, source, limit).map(|v| v.len())
}

// Writes how many bytes two calls read: the words are how many there are, a limit, and the calls that fail.
fn try_read(alloc: Global, words: &str, said: &mut String) -> Option<()> {
    let (len, rest) = words.split_once(' ')?;
    let (limit, failing) = rest.split_once(' ')?;
    let limit = if limit == "none" {
        usize::MAX
    } else {
        size(limit)?
    };
    let failing = numbers(alloc, failing)?;
    let mut source = MemSource::new(sevens(alloc, len)?, failing);
    let first = count_read(alloc, &mut source, limit);
    let second = count_read(alloc, &mut source, limit);
    drop(source);
    write!(said, "{first:?}, then {second:?}").ok()
}

// Writes whether the bytes were all taken by a sink with this room that takes at most so many a call, of which these fail, and
// what it has.
fn try_write(
    alloc: Global,
    bytes: &[u8],
    room: usize,
    most: usize,
    failing: Vec<u64>,
    said: &mut String,
) -> Option<()>
    requires { 1 ≤ most }
{
    let mut sink = MemSink::new(alloc, room, most, failing).ok()?;
    let all = write_all(&mut sink, bytes).is_ok();
    let taken = sink.bytes();
    let (count, same) = (taken.len(), taken == bytes);
    drop(sink);
    write!(said, "all {all}, {count} taken, as they were {same}").ok()
}

// Writes so many sevens to a sink that takes 10 bytes a call: the words are how many, its room, and the calls that fail.
fn try_sevens(alloc: Global, words: &str, said: &mut String) -> Option<()> {
    let (len, rest) = words.split_once(' ')?;
    let (room, failing) = rest.split_once(' ')?;
    let room = size(room)?;
    let failing = numbers(alloc, failing)?;
    let bytes = sevens(alloc, len)?;
    try_write(alloc, &bytes, room, 10, failing, said)
}

// One byte, then an error, and then the end.
#[derive(Drop)]
struct Broken(u8);

impl Read for Broken {
    fn read(&mut self, buf: &mut [u8]) -> io::Result<usize> {
        let turn = self.0;
        self.0 = turn.saturating_add(1);
        match (turn, buf.first_mut()) {
            (0, Some(first)) => {
                *first = b'a';
                Ok(1)
            }
            (1, _) => Err(ErrorKind::Other.into()),
            _ => Ok(0),
        }
    }
}

// Writes what comes of a reader over the text, and of two reads of one that fails after a byte.
fn try_readers(alloc: Global, text: &str, said: &mut String) -> Option<()> {
    let mut source = StdSource::new(text.as_bytes());
    tell(said, read_all(alloc, &mut source, 3))?;
    said.push_str(", ").ok()?;
    let mut broken = StdSource::new(Broken(0));
    tell(said, read_all(alloc, &mut broken, 3))?;
    said.push_str(", ").ok()?;
    tell(said, read_all(alloc, &mut broken, 3))
}

// Takes 3 bytes a call while it has room, and then none. It counts its flushes.
#[derive(Drop)]
struct Narrow {
    room: usize,
    taken: usize,
    flushes: usize,
}

impl Write for Narrow {
    fn write(&mut self, buf: &[u8]) -> io::Result<usize> {
        let count = buf.len().min(3).min(self.room);
        self.room -= count;
        self.taken = self.taken.saturating_add(count);
        Ok(count)
    }

    fn flush(&mut self) -> io::Result<()> {
        self.flushes = self.flushes.saturating_add(1);
        Ok(())
    }
}

// Writes whether a writer over a list takes a text, as it is.
fn try_list(alloc: Global, text: &str, said: &mut String) -> Option<()> {
    let mut bytes = Vec::new(alloc);
    let all = write_all(&mut StdSink::new(&mut bytes), text.as_bytes()).is_ok();
    let same = bytes.as_slice() == text.as_bytes();
    drop(bytes);
    write!(said, "all {all} {same}; ").ok()
}

// Writes what a writer over a list takes of a text, and what one takes that has this room and takes 3 bytes a call: whether all,
// how many, and with how many flushes.
fn try_writers(alloc: Global, text: &str, room: usize, said: &mut String) -> Option<()> {
    try_list(alloc, text, said)?;
    let mut narrow = Narrow {
        room,
        taken: 0,
        flushes: 0,
    };
    let all = write_all(&mut StdSink::new(&mut narrow), text.as_bytes()).is_ok();
    let (taken, flushes) = (narrow.taken, narrow.flushes);
    write!(said, "all {all}, {taken} taken, {flushes} flushes").ok()
}

// Writes what comes of a text, behind a limit or a room.
fn try_text(alloc: Global, word: &str, words: &str, said: &mut String) -> Option<()> {
    let (room, text) = words.split_once(' ')?;
    let room = size(room)?;
    match word {
        "sure" => try_sure(alloc, text, room, said),
        "text" => try_write(alloc, text.as_bytes(), room, 5, Vec::new(alloc), said),
        _ => try_writers(alloc, text, room, said),
    }
}

/// Writes what comes of a line.
pub fn try_edge(alloc: Global, word: &str, rest: &str, said: &mut String) -> Option<()> {
    match word {
        "read" => try_read(alloc, rest, said),
        "sevens" => try_sevens(alloc, rest, said),
        "readers" => try_readers(alloc, rest, said),
        _ => try_text(alloc, word, rest, said),
    }
}
