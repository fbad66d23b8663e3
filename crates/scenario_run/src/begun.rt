//! What the run of a scenario begins with: a board, bodies, and a report.
ghost use Rattle.std.specs.Prelude.{◌≡◌, ◌⊎◌, IfOk, IfSome, IsErrOf, OnOk, is_some};
ghost use Rattle.std.specs.Io.KnownBytes.{Keeps};
ghost use Rattle.io_edge.specs.Causes.{Rose};
ghost use Rattle.report_text.specs.Texts.{NamesSet};
ghost use Rattle.run_report.specs.Judged.{is_admitted, set_in};
ghost use Rattle.scenario_run.specs.Written.{Wrote, WroteFront};
ghost use Rattle.scenario_run.specs.Runs.{Declares};
ghost use Rattle.scenario_run.specs.Begun.{AreTasks, AreBegun, HasBegun, IsBegun, BegunText};

use crate::making::{BOARD_ROOM, Bodies, prepared, run_on};
use crate::report::Report;
use crate::written::write_run;
use board::Board;
use command_replies::Tasks;
use io_edge::Sink;
use lock_core::Core;
use rt_base::{Names, OutOfMemory};
use run_report::ReportedSet;
use set_admission::AdmittedSet;
use sim_run::{RunFault, Workers};
use std::alloc::Global;
use std::sync::Wait;
use std::thread::Threads;
use txn_set::CompiledSet;
use txn_threads::Gate;

/// A new board, the bodies that run on it, and the report of its set.
#[derive(Drop)]
pub(crate) struct Begun<'a, B> {
    pub board: B,
    pub bodies: Bodies,
    pub report: Report<'a>,
}

fn bounds_of(set: &ReportedSet) -> Option<&AdmittedSet>
    ensures which { is_some result ≡ is_admitted set.now }
    ensures same { IfSome result (λ b. b.now ≡ set_in set.now) }
{
    match set {
        ReportedSet::Trial(_) => None,
        ReportedSet::Admitted(set) => Some(set),
    }
}

fn into_set(set: ReportedSet) -> CompiledSet
    ensures { result ≡ set_in set }
{
    match set {
        ReportedSet::Trial(set) => set,
        ReportedSet::Admitted(set) => set.into_set(),
    }
}

// The bodies of tasks, and a report with a place for each of their jobs.
fn bodies_and_report<'a>(
    alloc: Global,
    names: &'a Names,
    set: &ReportedSet,
    tasks: Tasks,
) -> Result<(Bodies, Report<'a>), OutOfMemory>
    requires names { NamesSet names.now (set_in set.now) }
    requires tasks { Declares (set_in set.now) tasks.scripts tasks.releases }
    ensures { IfOk result (λ p. AreBegun names.now (is_admitted set.now) (set_in set.now) tasks p.0 p.1) }
{
    let room = tasks.room;
    let bounds = bounds_of(set);
    let set = set.set();
    let bodies = prepared(alloc, set, tasks)?;
    match Report::begin(alloc, names, set, bounds, bodies.jobs(), room) {
        Ok(report) => Ok((bodies, report)),
        Err(OutOfMemory) => {
            drop(bodies);
            Err(OutOfMemory)
        }
    }
}

/// Tasks on a new core, as admitted or on trial.
pub(crate) fn begun_on_core<'a>(
    alloc: Global,
    names: &'a Names,
    set: ReportedSet,
    tasks: Tasks,
) -> Result<Begun<'a, Core>, OutOfMemory>
    requires names { NamesSet names.now (set_in set) }
    requires tasks { AreTasks (set_in set) tasks }
    ensures begun { IfOk result (HasBegun ⟦<Core as Board>⟧.stands ⟦<Core as Board>⟧.set ⟦<Core as Board>⟧.room names.now (is_admitted set) (set_in set) tasks) }
    ensures ready { IfOk result (IsBegun ⟦<Core as Board>⟧.stands ⟦<Core as Board>⟧.set ⟦<Core as Board>⟧.room) }
{
    let (bodies, report) = match bodies_and_report(alloc, names, &set, tasks) {
        Ok(parts) => parts,
        Err(OutOfMemory) => {
            drop(set);
            return Err(OutOfMemory);
        }
    };
    match Core::new(alloc, into_set(set), BOARD_ROOM) {
        Ok(board) => Ok(Begun {
            board,
            bodies,
            report,
        }),
        Err((set, _)) => {
            drop(set);
            drop(bodies);
            drop(report);
            Err(OutOfMemory)
        }
    }
}

/// Runs what has begun, by so many workers, and writes its report.
pub(crate) fn run_begun<R: Threads + Wait + Sync, B: Board + Send + Drop, K: Sink, G: Gate + Sync>(
    rt: &R,
    alloc: Global,
    workers: Workers,
    begun: Begun<B>,
    sink: &mut K,
    gate: &G,
) -> Result<(), RunFault>
    requires { IsBegun B.stands B.set B.room begun }
    ensures whole { OnOk result (Wrote (BegunText B.set begun.entry) (K.taken sink.old) (K.taken sink.new)) }
    ensures cut { IsErrOf result RunFault.Writing → WroteFront (BegunText B.set begun.entry) (K.taken sink.old) (K.taken sink.new) }
    ensures short { IsErrOf result RunFault.Memory → Keeps (K.taken sink.old) (K.taken sink.new) ⊎ WroteFront (BegunText B.set begun.entry) (K.taken sink.old) (K.taken sink.new) }
    ensures fault { IsErrOf result RunFault.Writing → Rose (K.faults sink.old) (K.faults sink.new) }
{
    let Begun {
        board,
        bodies,
        report,
    } = begun;
    let Bodies {
        scripts,
        ticks,
        eager_jobs,
    } = bodies;
    let run = match run_on(alloc, board, scripts, &ticks, &eager_jobs, workers) {
        Ok(run) => run,
        Err(OutOfMemory) => {
            drop(report);
            drop(ticks);
            drop(eager_jobs);
            return Err(RunFault::Memory);
        }
    };
    let written = write_run(rt, alloc, run, report, gate, sink);
    drop(ticks);
    drop(eager_jobs);
    written
}
