//! Workers on a plant, from its start to its closing.
ghost use Rattle.std.specs.Prelude.{◌≡◌, ◌+◌, ◌≤◌, ◌++◌, ◌∷◌, [], None, length, IfOk, IsErrOf};
ghost use Rattle.sim_run.specs.Outs.{StaysGood, LosesNone};
ghost use Rattle.io_edge.specs.Causes.{Rose};
ghost use Rattle.shared_plant.specs.Seats.{AreOf, newcomer, newcomers};
ghost use Rattle.law_histories.specs.Sim.{plans_from};
ghost use Rattle.sim_run.specs.Boards.{IsFixed};
ghost use Rattle.plant_run.specs.Deals.{IsReserved};
ghost use Rattle.plant_run.specs.Works.{HasWorked, WasCut, CanGoOn};
ghost use Rattle.plant_run.specs.Ready.{IsPlanned, workload_in, eager_jobs_in};

use crate::deal::Crew;
use crate::gather::shut;
use crate::laws::histories_are;
use crate::run::Run;
use board::Board;
use law_runs::{closed_so_far, closed_whole, never_unplanned, no_refusal};
use rt_base::{List, OutOfMemory, Tick};
use shared_plant::{Plant, Seat};
use sim_run::{EntryOut, RunFault};
use std::alloc::Global;
use std::marker::Brand;
use std::sync::Wait;
use std::thread::Threads;
use step_journal::Entry;
use step_script::Body;
use turn_cell::Past;
use txn_threads::{Drain, Gate, run_all};

// A plant on a board that stands for the plans of all releases.
fn start_on<P: Past<Entry>, B: Board + Drop>(
    alloc: Global,
    board: B,
    releases: &[List<Tick>],
) -> Result<(Plant<B>, Vec<Seat<B>>), OutOfMemory>
    requires past { P.past ≡ plans_from 0 releases.now }
    requires stands { B.stands board (plans_from 0 releases.now) }
    ensures plant { IfOk result (λ r. (r.0.set ≡ B.set board) × (r.0.room ≡ B.room board) × (r.0.start ≡ length (plans_from 0 releases.now)) × (r.0.seats ≡ length (B.set board).txns + 1)) }
    ensures seats { IfOk result (λ r. r.1.items ≡ newcomers r.0.id (plans_from 0 releases.now) (B.first board) (length (B.set board).txns) ++ newcomer r.0.id (plans_from 0 releases.now) (B.first board) None ∷ []) }
    ensures members { IfOk result (λ r. AreOf r.0 r.1.items) }
{
    let _releases = releases;
    match Plant::start::<P>(alloc, board) {
        Ok(started) => Ok(started),
        Err((_, refused)) => Err(refused),
    }
}

fn start<B: Board + Drop>(
    alloc: Global,
    board: B,
    releases: &[List<Tick>],
) -> Result<(Plant<B>, Vec<Seat<B>>), OutOfMemory>
    requires stands { B.stands board (plans_from 0 releases.now) }
    ensures plant { IfOk result (λ r. (r.0.set ≡ B.set board) × (r.0.room ≡ B.room board) × (r.0.start ≡ length (plans_from 0 releases.now)) × (r.0.seats ≡ length (B.set board).txns + 1)) }
    ensures seats { IfOk result (λ r. r.1.items ≡ newcomers r.0.id (plans_from 0 releases.now) (B.first board) (length (B.set board).txns) ++ newcomer r.0.id (plans_from 0 releases.now) (B.first board) None ∷ []) }
    ensures members { IfOk result (λ r. AreOf r.0 r.1.items) }
{
    start_on::<Brand, B>(alloc, board, releases)
}

// A run whose releases were planned, and places for its members and workers.
#[derive(Drop)]
pub(crate) struct Staffed<'a, B: Board, Y: Body> {
    pub(crate) run: Run<'a, B, Y>,
    pub(crate) crew: Crew<B, Y>,
}

// Starts a plant on a board on which all releases were planned, lets workers run the bodies, and closes it.
pub(crate) fn work<
    R: Threads + Wait + Sync,
    B: Board + Send + Drop,
    Y: Body + Send + Drop,
    G: Gate + Sync,
    O: EntryOut,
>(rt: &R, alloc: Global, staffed: Staffed<B, Y>, gate: &G, out: &mut O) -> Result<B, RunFault>
    requires planned { IsPlanned B.stands B.set Y.gives staffed.run }
    requires crew { IsReserved (length staffed.run.ticks.now) staffed.crew }
    requires nothing_lost { O.lost out.old [] }
    requires good { CanGoOn (workload_in B.set Y.gives staffed.run) (O.got out.old) (O.good out.old) (B.kept staffed.run.board) }
    ensures worked { IfOk result (λ b. HasWorked (workload_in B.set Y.gives staffed.entry.run) (eager_jobs_in staffed.entry.run) (B.stands b) (O.got out.old) (O.got out.new) (B.kept staffed.entry.run.board) (B.kept b)) }
    ensures fixed { IfOk result (λ b. IsFixed B.set B.room staffed.entry.run.board b) }
    ensures none_lost { LosesNone O.lost out.new result }
    ensures cut { IsErrOf result RunFault.Writing → WasCut (workload_in B.set Y.gives staffed.entry.run) (eager_jobs_in staffed.entry.run) (O.got out.old) (O.got out.new) (O.lost out.new) (B.kept staffed.entry.run.board) }
    ensures memory { IsErrOf result RunFault.Memory → out.new ≡ out.old }
    ensures cause { IsErrOf result RunFault.Writing → Rose (O.stops out.old) (O.stops out.new) }
    ensures later { O.stops out.old ≤ O.stops out.new }
    ensures good { StaysGood O.good out.old out.new }
{
    histories_are::<B>();
    let Staffed { run, crew } = staffed;
    let Run {
        board,
        bodies,
        ticks,
        eager_jobs,
        workers: _,
        spare,
    } = run;
    let (plant, mut seats) = start(alloc, board, ticks)?;
    let operator = seats.pop().unwrap();
    let mut workers = crew.hire(&mut seats, bodies, ticks, eager_jobs);
    let mut drain = Drain { operator, spare };
    let ran = run_all(rt, &plant, workers.as_mut_slice(), &mut drain, gate, out);
    let Drain { operator, spare: _ } = drain;
    let board = shut(plant, workers, operator, seats);
    closed_so_far::<B>();
    closed_whole::<B>();
    no_refusal::<B>();
    never_unplanned::<B, Y>();
    match ran {
        Ok(()) => Ok(board),
        // Nothing but the out stops a run of an obedient workload whose eager jobs can be planned.
        Err(_) => Err(RunFault::Writing),
    }
}
