//! Statuses and refusals in words.
ghost use Rattle.std.specs.Prelude.{◌≡◌, ◌≤◌, length};
ghost use Rattle.rtdb_c.specs.Texts.{text_of, laid};

use crate::telling::text;
use c_forms::RefusalForm;

/// Writes the words of a status, with the numbers of its refusal if it has one, to the front of a slice, as much of them as
/// it has places for, and answers how many bytes they are, 96 at most. It takes no memory.
#[unsafe(no_mangle)]
pub extern "C" fn rtdb_text(status: u32, refusal: &RefusalForm, into: &mut [u8]) -> usize
    ensures needed { result ≡ length (text_of status refusal.now) }
    ensures most { result ≤ 96 }
    ensures written { into.new ≡ laid (text_of status refusal.now) into.old }
{
    text(status, *refusal, into)
}
