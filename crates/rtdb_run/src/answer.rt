//! What the program answers to its words.
ghost use Rattle.std.specs.Prelude.{◌≡◌, ◌⊎◌, true, false, option_map};
ghost use Rattle.io_edge.specs.Causes.{Rose};
ghost use Rattle.command_replies.specs.Causes.{HasReadCause, HasWriteCause};
ghost use Rattle.command_words.specs.Commands.{command_of};
ghost use Rattle.scenario_run.specs.JournalReplies.{LeavesDisk};
ghost use Rattle.rtdb_command.specs.Answers.{Answers, IsGood, TakesNoInput};
ghost use Rattle.rtdb_command.specs.Journals.{is_journal as is_journal_of, JournalAnswers, HoldsFrom, IsGoodFor};
ghost use Rattle.rtdb_run.specs.Asked.{is_for_journal as is_for_journal_of, path_in};

use durable_disk::Disk;
use io_edge::{Sink, Source};
use rtdb_command::{Status, Word, is_journal, rtdb, rtdb_journal};
use std::alloc::Global;
use std::convert::AsStr;
use std::sync::Wait;
use std::thread::Threads;
use txn_threads::NoGate;

// Whether the first word is `journal`.
fn is_for_journal(words: &[Word]) -> bool
    ensures { result ≡ is_for_journal_of words.now }
{
    match words {
        [first, ..] => first.as_slice() == b"journal".as_slice(),
        [] => false,
    }
}

/// The path of the journal, where the words are `journal PATH`, and else none.
pub fn journal_path(words: &[Word]) -> Option<&str>
    ensures { option_map (λ path. path.now) result ≡ path_in words.now }
{
    match words {
        [_, path] if is_journal(words) => Some(path.as_str()),
        _ => None,
    }
}

/// What the program answers to the words, over the disk where the first of them is `journal`; no other words touch it. The
/// disk is handed back. `run` and `load` may wait; every other command always returns.
pub fn answer<R: Threads + Wait + Sync, S: Source, K: Sink, D: Disk>(
    rt: &R,
    alloc: Global,
    words: &[Word],
    source: &mut S,
    sink: &mut K,
    disk: D,
) -> (Status, D)
    // Which status, and what is written.
    ensures journal { is_for_journal_of words.now ≡ true
        → JournalAnswers (is_journal_of words.now) (D.seen disk) (S.left source.old) (S.left source.new) (K.taken sink.old) (K.taken sink.new) result.0 }
    ensures command { is_for_journal_of words.now ≡ false
        → Answers (command_of words.now) (S.left source.old) (S.left source.new) (K.taken sink.old) (K.taken sink.new) result.0 }
    // After Ok to `journal PATH` the disk has the whole run, and so has what a crash leaves of it.
    ensures holds { is_for_journal_of words.now ≡ true → result.0 ≡ Status.Ok
        → HoldsFrom (S.left source.old) (S.left source.new) (D.seen result.1) (D.may_leave result.1) }
    // Words that do not begin with `journal` leave the disk as it was, and so do those that do where the run is refused.
    ensures untouched { is_for_journal_of words.now ≡ false → result.1 ≡ disk }
    ensures refused { is_for_journal_of words.now ≡ true → LeavesDisk result.0 → result.1 ≡ disk }
    // Without a command, to generate and to load, nothing is read, whatever the status is.
    ensures unread { is_for_journal_of words.now ≡ false → TakesNoInput (command_of words.now) → source.new ≡ source.old }
    // No fault is told unless there was one.
    ensures read { HasReadCause (S.faults source.old) (S.faults source.new) result.0 }
    ensures write { HasWriteCause (K.faults sink.old) (K.faults sink.new) result.0 }
    ensures fault { is_for_journal_of words.now ≡ true → result.0 ≡ Status.DiskFault → Rose (D.faults disk) (D.faults result.1) }
    // What can be answered is, unless memory runs out.
    ensures complete { is_for_journal_of words.now ≡ false → IsGood (command_of words.now) (S.left source.old)
        → ¬ Rose (S.faults source.old) (S.faults source.new) → ¬ Rose (K.faults sink.old) (K.faults sink.new)
        → (result.0 ≡ Status.Ok) ⊎ (result.0 ≡ Status.OutOfMemory) }
    ensures journaled { is_for_journal_of words.now ≡ true → IsGoodFor (is_journal_of words.now) (D.seen disk) (S.left source.old)
        → ¬ Rose (S.faults source.old) (S.faults source.new) → ¬ Rose (K.faults sink.old) (K.faults sink.new)
        → ¬ Rose (D.faults disk) (D.faults result.1) → (result.0 ≡ Status.Ok) ⊎ (result.0 ≡ Status.OutOfMemory) }
{
    if is_for_journal(words) {
        rtdb_journal(alloc, words, source, sink, disk)
    } else {
        (rtdb(rt, alloc, words, source, sink, &NoGate), disk)
    }
}
