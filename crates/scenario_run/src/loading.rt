//! The summary of a generated scenario's run.
ghost use Rattle.std.specs.Prelude.{◌≡◌, ◌+◌, ◌<◌, ◌≤◌, ℕ, [], length, IfOk};
ghost use Rattle.txn_set.specs.Set.{IsCompiled};
ghost use Rattle.law_histories.specs.Counting.{room_of_jobs};
ghost use Rattle.sim_run.specs.Workloads.{workload, ticks_of};
ghost use Rattle.plant_run.specs.Runs.{eager_jobs_at};
ghost use Rattle.plant_run.specs.Ready.{CanRun, workload_in, eager_jobs_in};
ghost use Rattle.scenario_run.specs.Runs.{Declares, IsReady, asked_by, functions_of, IsSummaryBy};
ghost use Rattle.scenario_run.specs.Begun.{workload_by, own_by};
ghost use Rattle.scenario_run.specs.Replies.{LoadReply};

use crate::making::{BOARD_ROOM, Bodies, prepared, run_on};
use crate::worked::keep_run;
use board::Board;
use command_replies::{Accepted, Reply, Tasks, compiled_scenario, written};
use lock_core::Core;
use plant_run::Run;
use rt_base::OutOfMemory;
use run_report::summary;
use scenario_writer::generated;
use sim_run::Workers;
use std::alloc::Global;
use std::sync::Wait;
use std::thread::Threads;
use step_script::Script;
use txn_set::CompiledSet;
use txn_threads::Gate;

// The summary of a run of scripts. There is room for so many entries.
fn summary_on<R: Threads + Wait + Sync, B: Board + Send + Drop, G: Gate + Sync>(
    rt: &R,
    alloc: Global,
    run: Run<B, Script>,
    entries: usize,
    gate: &G,
) -> Result<Vec<u8>, OutOfMemory>
    requires ready { CanRun B.stands B.set B.room asked_by run }
    requires compiled { IsCompiled (B.set run.board) }
    requires fixed { (tx : ℕ) → eager_jobs_in run tx ≡ 0 }
    requires entries { room_of_jobs (B.set run.board).txns (λ tx. length (ticks_of run.ticks.now tx) + eager_jobs_in run tx) ≤ entries }
    ensures { IfOk result (λ text. IsSummaryBy (workload_in B.set asked_by run.entry) text.items) }
{
    let (board, history) = keep_run(rt, alloc, run, entries, gate)?;
    summary(alloc, board.set(), history.as_slice())
}

// A new board, the bodies that are to run on it, and for how many entries there is to be room.
struct LoadRun<B> {
    board: B,
    bodies: Bodies,
    room: usize,
}

// The summary of the run of bodies on a new board, by so many workers.
fn summary_of<R: Threads + Wait + Sync, B: Board + Send + Drop, G: Gate + Sync>(
    rt: &R,
    alloc: Global,
    workers: Workers,
    load: LoadRun<B>,
    gate: &G,
) -> Result<Vec<u8>, OutOfMemory>
    requires opened { B.stands load.board [] }
    requires room { 1024 < B.room load.board }
    requires ready { IsReady (B.set load.board) load.bodies.scripts.items load.bodies.ticks.items load.bodies.eager_jobs.items }
    requires compiled { IsCompiled (B.set load.board) }
    requires fixed { (tx : ℕ) → eager_jobs_at load.bodies.eager_jobs.items tx ≡ 0 }
    requires entries { room_of_jobs (B.set load.board).txns (λ tx. length (ticks_of load.bodies.ticks.items tx) + eager_jobs_at load.bodies.eager_jobs.items tx) ≤ load.room }
    ensures { IfOk result (λ text. IsSummaryBy (workload (B.set load.board) (functions_of load.bodies.scripts.items) load.bodies.ticks.items) text.items) }
{
    let LoadRun {
        board,
        bodies,
        room,
    } = load;
    let Bodies {
        scripts,
        ticks,
        eager_jobs,
    } = bodies;
    let run = match run_on(alloc, board, scripts, &ticks, &eager_jobs, workers) {
        Ok(run) => run,
        Err(OutOfMemory) => {
            drop(ticks);
            drop(eager_jobs);
            return Err(OutOfMemory);
        }
    };
    let text = summary_on(rt, alloc, run, room, gate);
    drop(ticks);
    drop(eager_jobs);
    text
}

// The summary of the run of tasks in which no transaction is eager.
fn loaded<R: Threads + Wait + Sync, G: Gate + Sync>(
    rt: &R,
    alloc: Global,
    workers: Workers,
    set: CompiledSet,
    tasks: Tasks,
    gate: &G,
) -> Result<Vec<u8>, OutOfMemory>
    requires tasks { Declares set tasks.scripts tasks.releases }
    requires fixed { (tx : ℕ) → own_by tasks tx ≡ 0 }
    requires entries { room_of_jobs set.txns (λ tx. length (ticks_of (workload_by set tasks).releases tx) + own_by tasks tx) ≤ tasks.room }
    ensures { IfOk result (λ text. IsSummaryBy (workload_by set tasks) text.items) }
{
    set.is_compiled();
    let room = tasks.room;
    let bodies = match prepared(alloc, &set, tasks) {
        Ok(bodies) => bodies,
        Err(OutOfMemory) => {
            drop(set);
            return Err(OutOfMemory);
        }
    };
    match Core::new(alloc, set, BOARD_ROOM) {
        Ok(board) => {
            let load = LoadRun {
                board,
                bodies,
                room,
            };
            summary_of(rt, alloc, workers, load, gate)
        }
        Err((set, _)) => {
            drop(set);
            drop(bodies);
            Err(OutOfMemory)
        }
    }
}

/// The reply of `load`: the summary of the run, by so many workers, of the scenario that is generated of so many
/// transactions. Err comes only where a growth was refused. It may wait.
pub fn load<R: Threads + Wait + Sync, G: Gate + Sync>(
    rt: &R,
    alloc: Global,
    n: u32,
    workers: Workers,
    gate: &G,
) -> Result<Reply, OutOfMemory>
    requires n { (1 ≤ n) × (n ≤ 64) }
    ensures { IfOk result (λ r. LoadReply n r.status r.text.items) }
{
    match compiled_scenario(alloc, generated(alloc, n)?)? {
        Ok(Accepted { names, set, tasks }) => {
            drop(names);
            Ok(written(loaded(rt, alloc, workers, set, tasks, gate)?))
        }
        Err(_) => unreachable!(),
    }
}
