//! Runs by one, two and three workers, against the run on one board; an eager transaction; an out that stops; a set
//! without transactions.
ghost use Rattle.std.specs.Prelude.{◌≡◌, ℕ, ◌<◌, ◌≤◌, [], length, vec_capacity, IfOk};
ghost use Rattle.sim_run.specs.Workloads.{workload, ticks_of, AreAccepted};
ghost use Rattle.law_runs.specs.Plannable.{ArePlannable};
ghost use Rattle.plant_run.specs.Ready.{CanRun};
ghost use Rattle.plant_run.specs.Runs.{eager_jobs_at};
ghost use Rattle.plant_run.specs.EagerSlow.{fast_releases};
ghost use Rattle.plain_core.specs.Stands.{Stands};
ghost use Rattle.sim_run.specs.Steady.{steady_op, steady_set as set_of_two};

use crate::steady::{Steady, new_board, releases};
use board::Board;
use plain_core::PlainCore;
use plant_run::{Run, run_workers};
use rt_base::{List, OutOfMemory, Tick};
use sim_run::{RunFault, Workers, run};
use std::alloc::Global;
use std::sync::Wait;
use std::test::Fail;
use std::thread::Threads;
use step_journal::Entry;
use test_sets::{FewEntries, call_of, make};
use txn_set::CompiledSet;
use txn_threads::NoGate;

const ROOM: usize = 1100;

// So many workers, from 1 to 64.
fn few_workers(number: u32) -> Result<Workers, OutOfMemory> {
    match Workers::new(number) {
        Some(workers) => Ok(workers),
        None => Err(OutOfMemory),
    }
}

fn spare(alloc: Global) -> Result<Vec<Entry>, OutOfMemory>
    ensures { IfOk result (λ v. (v.items ≡ []) × (1100 ≤ vec_capacity v)) }
{
    let spare = Vec::with_capacity(alloc, ROOM)?;
    Ok(spare)
}

// Runs on one board: the fast one's jobs overrun by their second step, the slow one's quit.
fn run_one(board: &mut PlainCore, releases: &[List<Tick>], out: &mut FewEntries)
    requires opened { Stands board.old [] }
    requires set { board.old.set ≡ set_of_two }
    requires room { board.old.journal.room ≡ 1100 }
    requires accepted { AreAccepted set_of_two releases.now }
{
    let mut bodies = [Steady { computes: true }, Steady { computes: false }];
    let mut serials = [7u32; 2];
    let _whole = run(board, &mut bodies, &mut serials, releases, out);
}

// The entries of such a run.
fn alone(alloc: Global, fast: usize, slow: usize) -> Result<Vec<Entry>, OutOfMemory> {
    let Some(releases) = releases(alloc, fast, slow)? else {
        return Err(OutOfMemory);
    };
    let mut out = FewEntries::new(alloc, 20000, 20000)?;
    let mut board = new_board(alloc, ROOM)?;
    run_one(&mut board, releases.as_slice(), &mut out);
    drop(board);
    drop(releases);
    Ok(out.entries)
}

// What a run answers, without its board.
fn ended(ran: Result<PlainCore, RunFault>) -> Result<(), RunFault> {
    match ran {
        Ok(board) => {
            drop(board);
            Ok(())
        }
        Err(fault) => Err(fault),
    }
}

// What a run answers, and the entries that this out took.
fn told<R: Threads + Wait + Sync>(
    rt: &R,
    alloc: Global,
    run: Run<PlainCore, Steady>,
    out: FewEntries,
) -> (Result<(), RunFault>, Vec<Entry>)
    requires { CanRun Stands (λ c. c.set) (λ c. c.journal.room) (λ b serial outcomes. steady_op b.computes) run }
{
    let mut out = out;
    let ran = ended(run_workers(rt, alloc, run, &NoGate, &mut out));
    (ran, out.entries)
}

// A run of both bodies on a new board.
fn run_of<'a>(
    alloc: Global,
    workers: Workers,
    releases: &'a [List<Tick>],
    eager_jobs: &'a [u32],
) -> Result<Run<'a, PlainCore, Steady>, OutOfMemory>
    requires accepted { AreAccepted set_of_two releases.now }
    requires each { length eager_jobs.now ≡ 2 }
    requires eager { (tx : ℕ) → 0 < eager_jobs_at eager_jobs.now tx → ticks_of releases.now tx ≡ [] }
    requires plannable { ArePlannable (workload set_of_two [] releases.now) (eager_jobs_at eager_jobs.now) }
    ensures { IfOk result (λ r. CanRun Stands (λ c. c.set) (λ c. c.journal.room) (λ b serial outcomes. steady_op b.computes) r) }
{
    let spare = spare(alloc)?;
    let mut bodies = Vec::with_capacity(alloc, 2)?;
    bodies.push_reserved(Steady { computes: true });
    bodies.push_reserved(Steady { computes: false });
    Ok(Run {
        board: new_board(alloc, ROOM)?,
        bodies,
        ticks: releases,
        eager_jobs,
        workers,
        spare,
    })
}

// What a run by workers answers, and the entries that its out took.
fn by_workers<R: Threads + Wait + Sync>(
    rt: &R,
    alloc: Global,
    workers: Workers,
    releases: &[List<Tick>],
    eager_jobs: &[u32],
    most: usize,
) -> Result<(Result<(), RunFault>, Vec<Entry>), OutOfMemory>
    requires accepted { AreAccepted set_of_two releases.now }
    requires each { length eager_jobs.now ≡ 2 }
    requires eager { (tx : ℕ) → 0 < eager_jobs_at eager_jobs.now tx → ticks_of releases.now tx ≡ [] }
    requires plannable { ArePlannable (workload set_of_two [] releases.now) (eager_jobs_at eager_jobs.now) }
{
    let out = FewEntries::new(alloc, 20000, most)?;
    let run = run_of(alloc, workers, releases, eager_jobs)?;
    Ok(told(rt, alloc, run, out))
}

// What a run by workers answers, and its entries, where no transaction plans its jobs itself.
fn none_eager<R: Threads + Wait + Sync>(
    rt: &R,
    alloc: Global,
    workers: Workers,
    releases: &[List<Tick>],
    most: usize,
) -> Result<(Result<(), RunFault>, Vec<Entry>), OutOfMemory>
    requires accepted { AreAccepted set_of_two releases.now }
{
    by_workers(rt, alloc, workers, releases, &[0u32, 0], most)
}

// What a run by workers of so many fast and slow jobs answers, and its entries.
fn of_fixed<R: Threads + Wait + Sync>(
    rt: &R,
    alloc: Global,
    workers: Workers,
    jobs: (usize, usize),
    most: usize,
) -> Result<(Result<(), RunFault>, Vec<Entry>), OutOfMemory> {
    let Some(releases) = releases(alloc, jobs.0, jobs.1)? else {
        return Err(OutOfMemory);
    };
    let ran = none_eager(rt, alloc, workers, releases.as_slice(), most);
    drop(releases);
    ran
}

// The releases of the fast transaction beside a slow one that plans its jobs itself.
fn beside_eager(alloc: Global) -> Result<Vec<List<Tick>>, OutOfMemory>
    ensures { IfOk result (λ v. v.items ≡ fast_releases) }
{
    let mut ticks: Vec<Tick> = Vec::new(alloc);
    ticks.push(0)?;
    ticks.push(4)?;
    ticks.push(8)?;
    let mut releases = Vec::new(alloc);
    releases.push(List::of(ticks))?;
    releases.push(List::of(Vec::new(alloc)))?;
    Ok(releases)
}

// A run in which the slow transaction plans two jobs itself.
fn of_eager<R: Threads + Wait + Sync>(
    rt: &R,
    alloc: Global,
    workers: Workers,
    most: usize,
) -> Result<(Result<(), RunFault>, Vec<Entry>), OutOfMemory> {
    let releases = beside_eager(alloc)?;
    let ran = by_workers(rt, alloc, workers, releases.as_slice(), &[0u32, 2], most);
    drop(releases);
    ran
}

// How many jobs of a transaction the entries plan, and how many they end.
fn jobs_in(entries: &[Entry], of: u32) -> (u32, u32) {
    let mut planned: u32 = 0;
    let mut ended: u32 = 0;
    for i in 0..entries.len() {
        match entries[i] {
            Entry::Planned { tx, tick: _ } => {
                if tx.0 == of {
                    planned = planned.saturating_add(1);
                }
            }
            Entry::Step { job, over, .. } => {
                if job.tx.0 == of && over.is_some() {
                    ended = ended.saturating_add(1);
                }
            }
            _ => {}
        }
    }
    (planned, ended)
}

// Whether a new board that is asked the same notes the same.
fn is_replayed(alloc: Global, entries: &[Entry]) -> Result<bool, OutOfMemory> {
    let mut board = new_board(alloc, ROOM)?;
    for i in 0..entries.len() {
        make(&mut board, call_of(entries[i]));
    }
    let same = board.entries() == entries;
    drop(board);
    Ok(same)
}

// A board of no transaction.
fn board_of_none(alloc: Global) -> Result<PlainCore, OutOfMemory>
    ensures stands { IfOk result (λ c. Stands c []) }
    ensures set { IfOk result (λ c. c.set ≡ record { items = []; txns = []; together = [] }) }
    ensures room { IfOk result (λ c. c.journal.room ≡ 1100) }
{
    let set = CompiledSet::of(
        Vec::new(alloc),
        Vec::new(alloc),
        Vec::new(alloc),
        Vec::new(alloc),
    );
    match PlainCore::new(alloc, set, ROOM) {
        Ok(core) => Ok(core),
        Err((set, error)) => {
            drop(set);
            Err(error)
        }
    }
}

// A run of no transaction.
fn of_none<R: Threads + Wait + Sync>(
    rt: &R,
    alloc: Global,
    workers: Workers,
) -> Result<(Result<(), RunFault>, Vec<Entry>), OutOfMemory> {
    let spare = spare(alloc)?;
    let out = FewEntries::new(alloc, 20000, 0)?;
    let run = Run {
        board: board_of_none(alloc)?,
        bodies: Vec::<Steady>::new(alloc),
        ticks: &[],
        eager_jobs: &[],
        workers,
        spare,
    };
    Ok(told(rt, alloc, run, out))
}

fn is_front(front: &[Entry], whole: &[Entry]) -> bool {
    match whole.get(0..front.len()) {
        Some(first) => first == front,
        None => false,
    }
}

// Whether a run by so many workers is whole, and its entries are these.
fn is_whole<R: Threads + Wait + Sync>(
    rt: &R,
    alloc: Global,
    number: u32,
    whole: &[Entry],
) -> Result<bool, OutOfMemory> {
    let workers = few_workers(number)?;
    let (ran, entries) = of_fixed(rt, alloc, workers, (800, 400), 20000)?;
    let same = entries.as_slice() == whole;
    drop(entries);
    Ok(ran == Ok(()) && same)
}

#[test]
fn any_number_of_workers(rt: HostRuntime) -> Result<(), Fail> {
    let alloc = rt.alloc();
    let whole = alone(alloc, 800, 400)?;
    assert_eq!(rt; whole.len(), 1200 + 1600 + 400 + 799);
    for number in 1..4 {
        assert!(rt;
            is_whole(&rt, alloc, number, whole.as_slice())?,
            "{number} workers"
        );
    }
    drop(whole);
    Ok(())
}

// Whether a run stops whose out takes so many entries, and has no more than those, the first of these.
fn is_stopped<R: Threads + Wait + Sync>(
    rt: &R,
    alloc: Global,
    number: u32,
    most: usize,
    whole: &[Entry],
) -> Result<bool, OutOfMemory> {
    let workers = few_workers(number)?;
    let (ran, entries) = of_fixed(rt, alloc, workers, (800, 400), most)?;
    let front = entries.len() <= most && is_front(entries.as_slice(), whole);
    drop(entries);
    Ok(ran == Err(RunFault::Writing) && front)
}

#[test]
fn an_out_that_stops(rt: HostRuntime) -> Result<(), Fail> {
    let alloc = rt.alloc();
    let whole = alone(alloc, 800, 400)?;
    // while releases are planned, at the first drain, and later
    for most in [1023usize, 1024, 3000] {
        for number in 1..4 {
            assert!(rt;
                is_stopped(&rt, alloc, number, most, whole.as_slice())?,
                "{number} workers"
            );
        }
    }
    drop(whole);
    Ok(())
}

// Whether three jobs of the fast transaction and two of the slow one are planned and ended.
fn has_all_jobs(entries: &[Entry]) -> bool {
    jobs_in(entries, 0) == (3, 3) && jobs_in(entries, 1) == (2, 2)
}

// Whether an eager run by so many workers is whole, has all jobs, and is replayed.
fn is_eager<R: Threads + Wait + Sync>(
    rt: &R,
    alloc: Global,
    number: u32,
) -> Result<bool, OutOfMemory> {
    let workers = few_workers(number)?;
    let (ran, entries) = of_eager(rt, alloc, workers, 20000)?;
    let all = has_all_jobs(entries.as_slice());
    let replayed = is_replayed(alloc, entries.as_slice());
    drop(entries);
    Ok(replayed? && ran == Ok(()) && all)
}

#[test]
fn an_eager_transaction(rt: HostRuntime) -> Result<(), Fail> {
    let alloc = rt.alloc();
    for number in 1..4 {
        assert!(rt; is_eager(&rt, alloc, number)?, "{number} workers");
    }
    Ok(())
}

// Whether a run of no transaction by so many workers is whole, and has no entry.
fn is_empty<R: Threads + Wait + Sync>(
    rt: &R,
    alloc: Global,
    number: u32,
) -> Result<bool, OutOfMemory> {
    let workers = few_workers(number)?;
    let (ran, entries) = of_none(rt, alloc, workers)?;
    let count = entries.len();
    drop(entries);
    Ok(ran == Ok(()) && count == 0)
}

#[test]
fn no_transaction(rt: HostRuntime) -> Result<(), Fail> {
    for number in 1..4 {
        assert!(rt; is_empty(&rt, rt.alloc(), number)?, "{number} workers");
    }
    Ok(())
}
