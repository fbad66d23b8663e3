//! The run of a scenario over a journal.
ghost use Rattle.std.specs.Prelude.{◌≡◌, ◌<◌, ◌↔◌, length, IfOk, IfSome, IsSome, IsErrOf};
ghost use Rattle.std.specs.Prelude.{List as Many};
ghost use Rattle.io_edge.specs.Causes.{Rose};
ghost use Rattle.step_journal.specs.declared.entry.Entry.{Entry as Noted};
ghost use Rattle.step_script.specs.Shown.{Shown, shown};
ghost use Rattle.step_script.specs.Scenarios.{IsScenario};
ghost use Rattle.law_histories.specs.Sim.{IsSim};
ghost use Rattle.durable_journal.specs.Opened.{IfFull};
ghost use Rattle.scenario_run.specs.JournalReady.{CanRun, workload_in};
ghost use Rattle.scenario_run.specs.Plans.{HasBegun};
ghost use Rattle.scenario_run.specs.JournalReplies.{JournalReply, Journaled, HoldsRun, LeavesDisk, bad_line};
ghost use Rattle.scenario_run.specs.Refused.{IsNamed, IsHaltReply};
ghost use Rattle.scenario_run.specs.JournalLeft.{IsKept, IsSameFile, LeavesSo};

use crate::beside::number_beside;
use crate::equip::{Begun, equipped};
use crate::opening::opened;
use crate::over::{Halt, run_log};
use crate::plan::planned;
use crate::refusals::bad_record;
use crate::runner::Runner;
use board::Board;
use command_replies::{Reply, written};
use durable_disk::Disk;
use durable_journal::LogError;
use io_edge::Status;
use rt_base::OutOfMemory;
use run_report::report_with_items;
use sim_run::{KeptEntries, RunFault};
use std::alloc::Global;
use step_script::{Body, Scenario};

// The reply that names a bad record.
fn bad(alloc: Global, number: u64) -> Result<Reply, RunFault>
    ensures reply { IfOk result (λ r. (r.status ≡ Status.BadJournal) × (r.text.items ≡ bad_line number)) }
    ensures memory { IsErrOf result RunFault.Writing → ⊥ }
{
    Ok(bad_record(alloc, number)?)
}

// What is answered where a run over a log was not kept.
fn halted(alloc: Global, halt: Halt) -> Result<Reply, RunFault>
    ensures reply { IfOk result (λ r. IsHaltReply halt r.status r.text.items) }
    ensures fault { IsErrOf result RunFault.Writing → halt ≡ Halt.Fault }
{
    match halt {
        Halt::Other { number } => bad(alloc, number),
        Halt::Fault => Err(RunFault::Writing),
    }
}

// What is answered where a journal is not opened: the reply names the record that was refused, or the first of those that
// Full hands out that is not the run's.
fn unopened<B: Board, Y: Body>(
    alloc: Global,
    runner: &mut Runner<B, Y>,
    room: usize,
    error: LogError,
) -> Result<Reply, RunFault>
    requires ready { CanRun B.stands B.set B.room Y.gives runner.old }
    requires places { (history : Many Noted) → IsSim (workload_in B.set Y.gives runner.old) history → length history < room }
    requires full { IfFull error (λ first. length first ≡ room) }
    ensures reply { IfOk result (λ r. IsNamed (workload_in B.set Y.gives runner.old) error r.status r.text.items) }
    ensures fault { IsErrOf result RunFault.Writing → error ≡ LogError.DiskFault }
{
    match error {
        LogError::DiskFault => Err(RunFault::Writing),
        LogError::BadRecord { number } => bad(alloc, number),
        LogError::Full { first, .. } => {
            let kept = KeptEntries::with_room(alloc, room)?;
            bad(alloc, number_beside(runner, kept, first.as_slice()))
        }
        LogError::Stopped | LogError::OutOfMemory => Err(RunFault::Memory),
    }
}

fn run_over<B: Board + Drop, Y: Body + Drop, D: Disk>(
    alloc: Global,
    begun: Begun,
    runner: Runner<B, Y>,
    disk: D,
) -> (Result<Reply, RunFault>, D)
    requires ready { CanRun B.stands B.set B.room Y.gives runner }
    requires begun { (s : Shown) × HasBegun s (workload_in B.set Y.gives runner) begun }
    ensures reply { (s : Shown) → HasBegun s (workload_in B.set Y.gives runner) begun → IfOk result.0 (λ r. Journaled s (D.seen disk) r.status r.text.items) }
    ensures holds { (s : Shown) → HasBegun s (workload_in B.set Y.gives runner) begun → IfOk result.0 (λ r. r.status ≡ Status.Ok → HoldsRun s (D.seen result.1) (D.may_leave result.1)) }
    ensures fault { IsErrOf result.0 RunFault.Writing → Rose (D.faults disk) (D.faults result.1) }
    ensures left { (s : Shown) → HasBegun s (workload_in B.set Y.gives runner) begun → IfSome (D.seen disk) (λ file. LeavesSo D.seen D.may_leave D.moment D.left_since (IsKept s file) file disk result.1) }
    ensures bad { IfOk result.0 (λ r. r.status ≡ Status.BadJournal → IfSome (D.seen disk) (λ file. IfSome (D.seen result.1) (IsSameFile file))) }
    ensures told { IsSome (D.seen disk) ↔ IsSome (D.seen result.1) }
{
    let Begun {
        names,
        set,
        kept,
        room,
    } = begun;
    let declared = set.set();
    let mut runner = runner;
    let found = match opened(alloc, disk, &names, declared, room) {
        Ok(found) => found,
        Err((disk, error)) => {
            let reply = unopened(alloc, &mut runner, room, error);
            drop(runner);
            drop(names);
            drop(set);
            drop(kept);
            return (reply, disk);
        }
    };
    let (ran, disk) = run_log(&mut runner, &names, declared, found, kept, room);
    match ran {
        Ok(history) => {
            let items = runner.into_items();
            let text = report_with_items(alloc, &names, declared, Some(&set), &history, &items);
            drop(names);
            drop(set);
            drop(history);
            drop(items);
            match text {
                Ok(text) => (Ok(written(text)), disk),
                Err(OutOfMemory) => (Err(RunFault::Memory), disk),
            }
        }
        Err(halt) => {
            drop(runner);
            drop(names);
            drop(set);
            (halted(alloc, halt), disk)
        }
    }
}

/// Runs a scenario over the journal on a disk, which is made where the disk reads as empty. The scenario is compiled and
/// admitted, and has to have no eager transaction. Each entry of the run is compared with the one that the disk has in its
/// place, or added where there is none. The reply is the report of the run, which the disk holds then; the line of a
/// refusal; or the line that names the first record that is not the run's. The disk is handed back. It always returns.
pub fn run_journal<D: Disk>(
    alloc: Global,
    scenario: Scenario,
    disk: D,
) -> (Result<Reply, RunFault>, D)
    requires { IsScenario (shown scenario) }
    ensures reply { IfOk result.0 (λ r. JournalReply (shown scenario) (D.seen disk) r.status r.text.items) }
    ensures holds { IfOk result.0 (λ r. r.status ≡ Status.Ok → HoldsRun (shown scenario) (D.seen result.1) (D.may_leave result.1)) }
    // The disk's fault is told only where it counted one.
    ensures fault { IsErrOf result.0 RunFault.Writing → Rose (D.faults disk) (D.faults result.1) }
    // A disk that tells goes on telling. What it reads as then, and what a crash leaves at each moment of the call: what there was,
    // with a gate more at its end at most; or first entries of the run that hold at least what was there; or, of an empty disk,
    // a journal that was begun.
    ensures told { IsSome (D.seen disk) ↔ IsSome (D.seen result.1) }
    ensures left { IfSome (D.seen disk) (λ file. LeavesSo D.seen D.may_leave D.moment D.left_since (IsKept (shown scenario) file) file disk result.1) }
    // A journal that is refused reads as it did, with a gate more at its end at most.
    ensures bad { IfOk result.0 (λ r. r.status ≡ Status.BadJournal → IfSome (D.seen disk) (λ file. IfSome (D.seen result.1) (IsSameFile file))) }
    // A scenario that is refused leaves the disk as it was.
    ensures untouched { IfOk result.0 (λ r. LeavesDisk r.status → result.1 ≡ disk) }
{
    match planned(alloc, scenario) {
        Ok(Ok(plan)) => match equipped(alloc, plan) {
            Ok((begun, runner)) => run_over(alloc, begun, runner, disk),
            Err(_) => (Err(RunFault::Memory), disk),
        },
        Ok(Err(reply)) => (Ok(reply), disk),
        Err(_) => (Err(RunFault::Memory), disk),
    }
}
