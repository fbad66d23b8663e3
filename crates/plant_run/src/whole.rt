//! The whole run.
ghost use Rattle.std.specs.Prelude.{◌≤◌, [], IfOk, IsErrOf};
ghost use Rattle.std.specs.Prelude.{List as Many};
ghost use Rattle.io_edge.specs.Causes.{Rose};
ghost use Rattle.step_journal.specs.declared.entry.Entry.{Entry as Noted};
ghost use Rattle.step_journal.specs.History.{IsLegal};
ghost use Rattle.sim_run.specs.Outs.{StaysGood, LosesNone};
ghost use Rattle.sim_run.specs.Handed.{CanTake};
ghost use Rattle.plant_run.specs.Ready.{CanRun, workload_in, eager_jobs_in};
ghost use Rattle.plant_run.specs.Runs.{IsHandedBack, IsWholeRun, IsStoppedRun, IsShortRun};

use crate::alone::run_alone;
use crate::deal::Crew;
use crate::laws::histories_are;
use crate::run::Run;
use crate::work::{Staffed, work};
use board::Board;
use sim_run::{EntryOut, RunFault, hand_on, plan_all};
use std::alloc::Global;
use std::sync::Wait;
use std::thread::Threads;
use step_script::Body;
use txn_threads::Gate;

/// Runs a workload by workers, each in a thread of its own where one can be made. It plans every release, by transaction and
/// then by index, starts a plant on the board, deals the transactions out to the workers, that of index i with those of the
/// same i modulo their number, lets them run the bodies until all jobs have ended, and closes the plant. An eager
/// transaction plans its jobs itself, each when those before it have ended. Where no transaction is eager one worker needs no
/// plant, and the board is called in the thread of the caller. The out gets the history in its order; it is a run of the
/// workload, and where no transaction is eager the one run, whatever the number of workers (`fixed_runs`). The board is
/// handed back with none left in it. Each body begins anew. `gate` is told of each question to a body.
///
/// Writing comes only where the out stopped in this call: what it got, and after it what it lost, are how a run of the
/// workload begins. Memory comes where a growth was refused, most of them before anything is planned: the out has then got
/// the first entries of a run of the workload so far, and lost none. It may wait.
pub fn run_workers<
    R: Threads + Wait + Sync,
    B: Board + Send + Drop,
    Y: Body + Send + Drop,
    G: Gate + Sync,
    O: EntryOut,
>(rt: &R, alloc: Global, run: Run<B, Y>, gate: &G, out: &mut O) -> Result<B, RunFault>
    requires ready { CanRun B.stands B.set B.room Y.gives run }
    requires nothing_lost { O.lost out.old [] }
    requires good { (history : Many Noted) → IsLegal (B.set run.board) history → CanTake (O.got out.old) (O.good out.old) history }
    ensures whole { IfOk result (λ b. IsWholeRun (workload_in B.set Y.gives run.entry) (eager_jobs_in run.entry) (B.stands b) (O.got out.old) (O.got out.new)) }
    ensures left { IfOk result (λ b. IsHandedBack B.kept B.set B.room run.entry.board b) }
    ensures none_lost { LosesNone O.lost out.new result }
    ensures stopped { IsErrOf result RunFault.Writing → IsStoppedRun (workload_in B.set Y.gives run.entry) (eager_jobs_in run.entry) (O.got out.old) (O.got out.new) (O.lost out.new) }
    ensures short { IsErrOf result RunFault.Memory → IsShortRun (workload_in B.set Y.gives run.entry) (eager_jobs_in run.entry) (O.got out.old) (O.got out.new) (O.lost out.new) }
    ensures cause { IsErrOf result RunFault.Writing → Rose (O.stops out.old) (O.stops out.new) }
    ensures later { O.stops out.old ≤ O.stops out.new }
    ensures good { StaysGood O.good out.old out.new }
{
    if run.workers.get() == 1 && run.is_fixed() {
        return run_alone(alloc, run, gate, out);
    }
    histories_are::<B>();
    let Run {
        mut board,
        bodies,
        ticks,
        eager_jobs,
        workers,
        spare,
    } = run;
    let crew = Crew::reserve(alloc, bodies.len(), workers)?;
    plan_all(&mut board, ticks, out)?;
    let run = Run {
        board,
        bodies,
        ticks,
        eager_jobs,
        workers,
        spare,
    };
    let mut board = work(rt, alloc, Staffed { run, crew }, gate, out)?;
    hand_on(&mut board, out)?;
    Ok(board)
}
