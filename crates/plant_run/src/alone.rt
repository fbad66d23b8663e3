//! The whole run by one worker, without a plant.
ghost use Rattle.std.specs.Prelude.{◌≡◌, ◌≤◌, ℕ, [], IfOk, IsErrOf};
ghost use Rattle.std.specs.Prelude.{List as Many};
ghost use Rattle.io_edge.specs.Causes.{Rose};
ghost use Rattle.step_journal.specs.declared.entry.Entry.{Entry as Noted};
ghost use Rattle.step_journal.specs.History.{IsLegal};
ghost use Rattle.sim_run.specs.Outs.{StaysGood, LosesNone};
ghost use Rattle.sim_run.specs.Handed.{CanTake};
ghost use Rattle.plant_run.specs.Ready.{CanRun, workload_in, eager_jobs_in};
ghost use Rattle.plant_run.specs.Runs.{IsHandedBack, IsWholeRun, IsStoppedRun, IsShortRun};

use crate::run::Run;
use crate::watched::watch;
use board::Board;
use sim_run::{EntryOut, RunFault};
use std::alloc::Global;
use step_script::Body;
use txn_threads::Gate;

// Runs a workload in which no transaction is eager in the thread of the caller. Where only one asks, the board needs no
// plant: sim_run makes the calls, and so costs less.
pub(crate) fn run_alone<B: Board + Drop, Y: Body + Drop, G: Gate, O: EntryOut>(
    alloc: Global,
    run: Run<B, Y>,
    gate: &G,
    out: &mut O,
) -> Result<B, RunFault>
    requires ready { CanRun B.stands B.set B.room Y.gives run }
    requires none_eager { (tx : ℕ) → eager_jobs_in run tx ≡ 0 }
    requires nothing_lost { O.lost out.old [] }
    requires good { (history : Many Noted) → IsLegal (B.set run.board) history → CanTake (O.got out.old) (O.good out.old) history }
    ensures whole { IfOk result (λ b. IsWholeRun (workload_in B.set Y.gives run.entry) (eager_jobs_in run.entry) (B.stands b) (O.got out.old) (O.got out.new)) }
    ensures left { IfOk result (λ b. IsHandedBack B.kept B.set B.room run.entry.board b) }
    ensures none_lost { LosesNone O.lost out.new result }
    ensures stopped { IsErrOf result RunFault.Writing → IsStoppedRun (workload_in B.set Y.gives run.entry) (eager_jobs_in run.entry) (O.got out.old) (O.got out.new) (O.lost out.new) }
    ensures short { IsErrOf result RunFault.Memory → IsShortRun (workload_in B.set Y.gives run.entry) (eager_jobs_in run.entry) (O.got out.old) (O.got out.new) (O.lost out.new) }
    ensures cause { IsErrOf result RunFault.Writing → Rose (O.stops out.old) (O.stops out.new) }
    ensures later { O.stops out.old ≤ O.stops out.new }
    ensures good { StaysGood O.good out.old out.new }
{
    let Run {
        mut board,
        bodies,
        ticks,
        eager_jobs: _,
        workers: _,
        spare: _,
    } = run;
    let mut serials = vec![in alloc; 0; bodies.len()]?;
    let mut bodies = watch(alloc, bodies, gate)?;
    sim_run::run(
        &mut board,
        bodies.as_mut_slice(),
        serials.as_mut_slice(),
        ticks,
        out,
    )?;
    Ok(board)
}
