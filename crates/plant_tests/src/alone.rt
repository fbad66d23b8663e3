//! Runs of more than a piece on a board with little room, against a board that keeps all.
ghost use Rattle.std.specs.Prelude.{◌≡◌, ◌≤◌, [], length};
ghost use Rattle.plain_core.specs.Stands.{Stands};
ghost use Rattle.law_histories.specs.Counting.{room_of_jobs};
ghost use Rattle.sim_run.specs.Workloads.{AreAccepted, ticks_of};
ghost use Rattle.sim_run.specs.Steady.{steady_set as set_of_two};

use crate::steady::{Steady, new_board, releases};
use board::{Board, IdleReply};
use plain_core::PlainCore;
use rt_base::{List, OutOfMemory, Tick, TxId};
use sim_run::{KeptEntries, Stopped, run};
use std::alloc::Global;
use std::test::Fail;
use step_journal::Entry;
use step_script::Body;

fn run_steady(
    board: &mut PlainCore,
    bodies: &mut [Steady],
    releases: &[List<Tick>],
    out: &mut KeptEntries,
) -> Result<(), Stopped>
    requires opened { Stands board.old [] }
    requires set { board.old.set ≡ set_of_two }
    requires room { board.old.journal.room ≡ 1100 }
    requires two { length bodies.old ≡ 2 }
    requires accepted { AreAccepted set_of_two releases.now }
    requires empty { out.old.kept ≡ [] }
    requires enough { room_of_jobs set_of_two.txns (λ tx. length (ticks_of releases.now tx)) ≤ out.old.room }
{
    let mut serials = [7u32; 2];
    run(board, bodies, &mut serials, releases, out)
}

// The entries that a run hands on. None where it stopped.
fn handed_on(
    alloc: Global,
    bodies: &mut [Steady],
    releases: &[List<Tick>],
) -> Result<Option<KeptEntries>, OutOfMemory>
    requires two { length bodies.old ≡ 2 }
    requires accepted { AreAccepted set_of_two releases.now }
    requires short { room_of_jobs set_of_two.txns (λ tx. length (ticks_of releases.now tx)) ≤ 20000 }
{
    let mut out = KeptEntries::with_room(alloc, 20000)?;
    let mut board = new_board(alloc, 1100)?;
    let ran = run_steady(&mut board, bodies, releases, &mut out);
    drop(board);
    match ran {
        Ok(()) => Ok(Some(out)),
        Err(Stopped) => {
            drop(out);
            Ok(None)
        }
    }
}

// Plans a transaction's releases.
fn plan_ticks<B: Board>(board: &mut B, tx: TxId, ticks: &[Tick]) {
    for tick in ticks {
        if (tx.0 as usize) < board.set().txns().len() {
            let _planned = board.plan(tx, *tick);
        }
    }
}

// Lets the running job ask, or idles; false where nothing is left.
fn goes_on<B: Board>(board: &mut B, bodies: &[Steady]) -> bool {
    match board.running() {
        Some(job) if (job.tx.0 as usize) < board.set().txns().len() => {
            let Some(body) = bodies.get(job.tx.0 as usize) else {
                return false;
            };
            let _reply = board.step(job, body.next());
            true
        }
        _ => matches!(board.idle(), IdleReply::Advanced { to: _ }),
    }
}

// Plans the releases of all transactions.
fn plan_all<B: Board>(board: &mut B, releases: &[List<Tick>]) {
    let mut tx: u32 = 0;
    for ticks in releases {
        plan_ticks(board, TxId(tx), ticks.as_slice());
        tx = tx.saturating_add(1);
    }
}

// Whether a board with room for all keeps these entries after the same calls.
fn keeps_same(
    alloc: Global,
    bodies: &[Steady],
    releases: &[List<Tick>],
    entries: &[Entry],
) -> Result<bool, OutOfMemory> {
    let mut board = new_board(alloc, 20000)?;
    plan_all(&mut board, releases);
    for _ in 0..20000 {
        if !goes_on(&mut board, bodies) {
            break;
        }
    }
    let same = board.entries() == entries;
    drop(board);
    Ok(same)
}

// How many entries are handed on, where they are those that a board with room for all keeps.
fn count_of_same(
    alloc: Global,
    bodies: &mut [Steady],
    releases: &[List<Tick>],
) -> Result<Option<usize>, OutOfMemory>
    requires two { length bodies.old ≡ 2 }
    requires accepted { AreAccepted set_of_two releases.now }
    requires short { room_of_jobs set_of_two.txns (λ tx. length (ticks_of releases.now tx)) ≤ 20000 }
{
    let Some(out) = handed_on(alloc, bodies, releases)? else {
        return Ok(None);
    };
    let count = out.as_slice().len();
    let same = keeps_same(alloc, bodies, releases, out.as_slice());
    drop(out);
    if same? { Ok(Some(count)) } else { Ok(None) }
}

// How many entries a run of so many fast and slow jobs has; None where a board that keeps them notes others.
fn same_entries(
    alloc: Global,
    computes: (bool, bool),
    fast: usize,
    slow: usize,
) -> Result<Option<usize>, OutOfMemory> {
    let mut bodies = [
        Steady {
            computes: computes.0,
        },
        Steady {
            computes: computes.1,
        },
    ];
    let Some(releases) = releases(alloc, fast, slow)? else {
        return Ok(None);
    };
    let same = count_of_same(alloc, &mut bodies, releases.as_slice());
    drop(releases);
    same
}

#[test]
fn pieces(rt: HostRuntime) -> Result<(), Fail> {
    let alloc = rt.alloc();
    // each job of the fast one overruns by its second step, and each of the slow one quits: plans, steps and idling
    assert_eq!(rt;
        same_entries(alloc, (true, false), 800, 400)?,
        Some(1200 + 1600 + 400 + 799)
    );
    // each job of the fast one quits at once
    assert_eq!(rt;
        same_entries(alloc, (false, true), 1050, 0)?,
        Some(1050 + 1050 + 1049)
    );
    Ok(())
}
