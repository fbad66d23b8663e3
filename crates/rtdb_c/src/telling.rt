//! The text of a status and its record.
ghost use Rattle.std.specs.Prelude.{◌≡◌, ◌≤◌, length};
ghost use Rattle.rtdb_c.specs.Texts.{text_of, laid};

use crate::causes::{admission_words, numbered_words, rule_words, status_words, table_words};
use crate::words::Words;
use c_forms::{BAD_TABLE, NOT_ADMITTED, NOT_COMPILED, RefusalForm};

/// No text is longer, in bytes.
pub const MOST_TEXT: usize = 96;

// The statuses of a log whose refusal has a number.
const BAD_TEXT: u32 = 23;

const BAD_RECORD: u32 = 24;

fn words_of(status: u32, refusal: RefusalForm) -> Words
    ensures { result.items ≡ text_of status refusal }
{
    match status {
        BAD_TABLE => table_words(refusal),
        NOT_COMPILED => rule_words(refusal),
        NOT_ADMITTED => admission_words(refusal),
        BAD_TEXT => numbered_words(b"BadText", refusal),
        BAD_RECORD => numbered_words(b"BadRecord", refusal),
        _ => status_words(status),
    }
}

// Lays bytes over the front of a slice, as many as it has.
fn lay(into: &mut [u8], bytes: &[u8])
    ensures { into.new ≡ laid bytes.now into.old }
{
    let count = bytes.len().min(into.len());
    into[..count].copy_from_slice(&bytes[..count]);
}

/// Writes the words of a status, with the numbers of its refusal if it has one, to the front of a slice, as much of them as
/// it has places for, and answers how many bytes they are. What stands behind them stays. It takes no memory.
pub fn text(status: u32, refusal: RefusalForm, into: &mut [u8]) -> usize
    ensures needed { result ≡ length (text_of status refusal) }
    ensures most { result ≤ MOST_TEXT }
    ensures written { into.new ≡ laid (text_of status refusal) into.old }
{
    let words = words_of(status, refusal);
    lay(into, words.as_slice());
    words.len()
}
