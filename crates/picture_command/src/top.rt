//! The top call.
ghost use Rattle.std.specs.Prelude.{◌≡◌, ◌⊎◌, ℕ, List as Many, Option as Maybe, IfOk, Some, None};
ghost use Rattle.io_edge.specs.Causes.{Rose};
ghost use Rattle.command_replies.specs.Causes.{HasReadCause, HasWriteCause, HasSourceCause};
ghost use Rattle.picture_command.specs.Parts.{wanted_of, IsEarly};
ghost use Rattle.picture_command.specs.Answers.{IsAnswer, Answers, IsDue};

use crate::drawn::drawn;
use crate::wanted::{Wanted, read_wanted};
use command_replies::{REPORT_LIMIT, Reply, Unanswered, refused};
use io_edge::{ReadError, Sink, Source, Status, Word, read_all, write_all};
use std::alloc::Global;

const USAGE: &[u8] = b"usage: rtdb-picture [--page] [--from TICK --to TICK]\n";

// The reply to the report that is read.
fn reply_to<S: Source>(alloc: Global, wanted: Wanted, source: &mut S) -> Result<Reply, Unanswered>
    requires { IsEarly wanted }
    ensures said { IfOk result (λ r. IsAnswer (Some wanted) (S.left source.old) (S.left source.new) r.status r.text.items) }
    ensures read { HasSourceCause (S.faults source.old) (S.faults source.new) result }
{
    match read_all(alloc, source, REPORT_LIMIT) {
        Ok(input) => Ok(drawn(alloc, &input, wanted)?),
        Err(ReadError::TooLong) => Ok(refused(alloc, Status::TooLong, b"TooLong")?),
        Err(ReadError::ReadFault) => Err(Unanswered::Reading),
        Err(ReadError::OutOfMemory) => Err(Unanswered::Memory),
    }
}

fn answer<S: Source, K: Sink>(alloc: Global, wanted: Wanted, source: &mut S, sink: &mut K) -> Status
    requires { IsEarly wanted }
    ensures answer { Answers (Some wanted) (S.left source.old) (S.left source.new) (K.taken sink.old) (K.taken sink.new) result }
    ensures read { HasReadCause (S.faults source.old) (S.faults source.new) result }
    ensures write { HasWriteCause (K.faults sink.old) (K.faults sink.new) result }
{
    match reply_to(alloc, wanted, source) {
        Ok(reply) => match write_all(sink, &reply.text) {
            Ok(()) => reply.status,
            Err(_) => Status::WriteFault,
        },
        Err(Unanswered::Reading) => Status::ReadFault,
        Err(Unanswered::Memory) => Status::OutOfMemory,
    }
}

fn answer_usage<K: Sink>(sink: &mut K) -> Status
    ensures answer { (left : Maybe (Many ℕ)) → Answers None left left (K.taken sink.old) (K.taken sink.new) result }
    ensures read { result ≡ Status.ReadFault → ⊥ }
    ensures write { HasWriteCause (K.faults sink.old) (K.faults sink.new) result }
{
    match write_all(sink, USAGE) {
        Ok(()) => Status::Usage,
        Err(_) => Status::WriteFault,
    }
}

/// Draws the wanted part of the report from the source to the sink. The words are looked at first, then the source is read,
/// then its bytes are judged, then the picture is written, as one piece.
pub fn draw_report<S: Source, K: Sink>(
    alloc: Global,
    words: &[Word],
    source: &mut S,
    sink: &mut K,
) -> Status
    // Which status, and what is written.
    ensures answer { Answers (wanted_of words.now) (S.left source.old) (S.left source.new) (K.taken sink.old) (K.taken sink.new) result }
    // No fault is told unless there was one.
    ensures read { HasReadCause (S.faults source.old) (S.faults source.new) result }
    ensures write { HasWriteCause (K.faults sink.old) (K.faults sink.new) result }
    // Without a wanted part nothing is read, whatever the status is.
    ensures unread { wanted_of words.now ≡ None → source.new ≡ source.old }
    // The status that is due is answered, unless memory runs out.
    ensures complete { (due : Status) → IsDue (wanted_of words.now) (S.left source.old) due
        → ¬ Rose (S.faults source.old) (S.faults source.new) → ¬ Rose (K.faults sink.old) (K.faults sink.new)
        → (result ≡ due) ⊎ (result ≡ Status.OutOfMemory) }
{
    match read_wanted(words) {
        Some(wanted) => answer(alloc, wanted, source, sink),
        None => answer_usage(sink),
    }
}
