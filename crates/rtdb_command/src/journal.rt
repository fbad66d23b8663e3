//! The call for a journal.
ghost use Rattle.std.specs.Prelude.{◌≡◌, ◌⊎◌, ◌↔◌, true, IfOk, IfErr, IfSome, IsErrOf, IsSome, IsTrue};
ghost use Rattle.io_edge.specs.Causes.{Rose};
ghost use Rattle.command_replies.specs.Causes.{HasReadCause, HasWriteCause};
ghost use Rattle.scenario_run.specs.JournalReplies.{LeavesDisk};
ghost use Rattle.scenario_run.specs.JournalLeft.{IsSameFile};
ghost use Rattle.rtdb_command.specs.Journals.{is_path as is_path_of, is_journal as is_journal_of, IsAnswerFor, JournalAnswers, HoldsFrom, KeptFrom, IsGoodFor, IsMute};

use crate::top::answer_no_command;
use command_replies::{Reply, Unanswered, scenario_from};
use durable_disk::Disk;
use durable_journal::opened_again;
use io_edge::{Sink, Source, Status, Word, write_all};
use law_histories::one_run_at_most;
use scenario_run::run_journal;
use sim_run::RunFault;
use std::alloc::Global;

fn is_path(word: &[u8]) -> bool
    ensures { result ≡ is_path_of word.now }
{
    match word {
        [first, ..] => *first != b'-',
        [] => false,
    }
}

/// Whether the words are `journal PATH`, PATH not empty and without a minus at its beginning.
pub fn is_journal(words: &[Word]) -> bool
    ensures { result ≡ is_journal_of words.now }
{
    match words {
        [name, path] => name.as_slice() == b"journal".as_slice() && is_path(path.as_slice()),
        _ => false,
    }
}

fn unread(stop: Unanswered) -> Status
    ensures reading { result ≡ Status.ReadFault → stop ≡ Unanswered.Reading }
    ensures memory { (result ≡ Status.ReadFault) ⊎ (result ≡ Status.OutOfMemory) }
{
    match stop {
        Unanswered::Reading => Status::ReadFault,
        Unanswered::Memory => Status::OutOfMemory,
    }
}

fn unended(fault: RunFault) -> Status
    ensures disk { result ≡ Status.DiskFault → fault ≡ RunFault.Writing }
    ensures memory { (result ≡ Status.DiskFault) ⊎ (result ≡ Status.OutOfMemory) }
{
    match fault {
        RunFault::Writing => Status::DiskFault,
        RunFault::Memory => Status::OutOfMemory,
    }
}

// The reply to the scenario that is read, over the disk; or the status where there is none.
fn journal_reply<S: Source, D: Disk>(
    alloc: Global,
    source: &mut S,
    disk: D,
) -> (Result<Reply, Status>, D)
    ensures said { IfOk result.0 (λ r. IsAnswerFor true (D.seen disk) (S.left source.old) (S.left source.new) r.status r.text.items) }
    ensures holds { IfOk result.0 (λ r. r.status ≡ Status.Ok → HoldsFrom (S.left source.old) (S.left source.new) (D.seen result.1) (D.may_leave result.1)) }
    ensures mute { IfErr result.0 IsMute }
    ensures read { IsErrOf result.0 Status.ReadFault → Rose (S.faults source.old) (S.faults source.new) }
    ensures fault { IsErrOf result.0 Status.DiskFault → Rose (D.faults disk) (D.faults result.1) }
    ensures told { IsSome (D.seen disk) ↔ IsSome (D.seen result.1) }
    ensures left { IfSome (D.seen disk) (λ file. (result.1 ≡ disk) ⊎ KeptFrom D.seen D.may_leave D.moment D.left_since (S.left source.old) (S.left source.new) file disk result.1) }
    ensures bad { IfOk result.0 (λ r. r.status ≡ Status.BadJournal → IfSome (D.seen disk) (λ file. IfSome (D.seen result.1) (IsSameFile file))) }
    ensures refused { IfOk result.0 (λ r. LeavesDisk r.status → result.1 ≡ disk) }
    ensures unread { IfErr result.0 (λ status. LeavesDisk status → result.1 ≡ disk) }
{
    let scenario = match scenario_from(alloc, source) {
        Ok(Ok(scenario)) => scenario,
        Ok(Err(reply)) => return (Ok(reply), disk),
        Err(stop) => return (Err(unread(stop)), disk),
    };
    let (ran, disk) = run_journal(alloc, scenario, disk);
    match ran {
        Ok(reply) => (Ok(reply), disk),
        Err(stop) => (Err(unended(stop)), disk),
    }
}

/// Runs the scenario that the source gives over the journal on a disk, where the words are `journal PATH`; other words are
/// Usage. The words are looked at first, then the source is read, then the scenario is judged, then it is run, and the
/// report is written when the run is over, as one piece. The journal is made where the disk reads as empty. The disk is
/// handed back with every status. It always returns.
pub fn rtdb_journal<S: Source, K: Sink, D: Disk>(
    alloc: Global,
    words: &[Word],
    source: &mut S,
    sink: &mut K,
    disk: D,
) -> (Status, D)
    // Which status, and what is written.
    ensures answer { JournalAnswers (is_journal_of words.now) (D.seen disk) (S.left source.old) (S.left source.new) (K.taken sink.old) (K.taken sink.new) result.0 }
    // After Ok the disk has the whole run, and so has what a crash leaves of it.
    ensures holds { result.0 ≡ Status.Ok → HoldsFrom (S.left source.old) (S.left source.new) (D.seen result.1) (D.may_leave result.1) }
    // No fault is told unless there was one.
    ensures read { HasReadCause (S.faults source.old) (S.faults source.new) result.0 }
    ensures write { HasWriteCause (K.faults sink.old) (K.faults sink.new) result.0 }
    ensures fault { result.0 ≡ Status.DiskFault → Rose (D.faults disk) (D.faults result.1) }
    // A disk that tells goes on telling. It is as it was; or the scenario is read, and the disk reads as, and a crash at each moment
    // of the call leaves, what there was, with a gate more at its end at most, or first entries of the run that hold at least what
    // there was, or, of an empty disk, a journal that was begun.
    ensures told { IsSome (D.seen disk) ↔ IsSome (D.seen result.1) }
    ensures left { IfSome (D.seen disk) (λ file. (result.1 ≡ disk) ⊎ KeptFrom D.seen D.may_leave D.moment D.left_since (S.left source.old) (S.left source.new) file disk result.1) }
    // A journal that is refused reads as it did, with a gate more at its end at most.
    ensures bad { result.0 ≡ Status.BadJournal → IfSome (D.seen disk) (λ file. IfSome (D.seen result.1) (IsSameFile file)) }
    // With other words, an input that is not read or too long, or a scenario that is refused, the disk is as it was.
    ensures untouched { LeavesDisk result.0 → result.1 ≡ disk }
    // What can be answered is, unless memory runs out.
    ensures complete { IsGoodFor (is_journal_of words.now) (D.seen disk) (S.left source.old)
        → ¬ Rose (S.faults source.old) (S.faults source.new) → ¬ Rose (K.faults sink.old) (K.faults sink.new)
        → ¬ Rose (D.faults disk) (D.faults result.1) → (result.0 ≡ Status.Ok) ⊎ (result.0 ≡ Status.OutOfMemory) }
{
    one_run_at_most();
    opened_again();
    if !is_journal(words) {
        return (answer_no_command(sink), disk);
    }
    let (replied, disk) = journal_reply(alloc, source, disk);
    match replied {
        Ok(reply) => match write_all(sink, &reply.text) {
            Ok(()) => (reply.status, disk),
            Err(_) => (Status::WriteFault, disk),
        },
        Err(status) => (status, disk),
    }
}
