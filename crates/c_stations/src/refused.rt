//! Why a call of a log was not made.
use txn_compiler::CompileError;

/// Why the log of a file is not opened.
#[derive(Drop)]
pub enum LogRefused {
    /// The text, the file or the room is too long.
    TooLong,
    /// The text has a bad line, counted from 1, the first.
    BadLine { line: usize },
    /// The text has no mode line.
    Unfinished,
    /// The set of the text breaks a rule, the first.
    NotCompiled(CompileError),
    /// This record of the file is not the header, is none of an entry's line, or its entry is no legal step; the first.
    BadRecord { number: u64 },
    /// The file has more entries than there is room for.
    Full,
    /// There was no memory.
    OutOfMemory,
}

/// Why entries are not taken.
#[derive(Clone, Copy)]
pub enum AppendRefused {
    /// A call failed.
    Stopped,
    /// Calls are still to be made.
    Unanswered,
    /// They are more than a piece may have, or than there is room for.
    NoRoom,
    /// One of them names what the set has not, or tells what its operation does not.
    Unknown,
    /// The calls have no place.
    OutOfMemory,
}
