//! All that a run over a journal needs, taken before it begins.
ghost use Rattle.std.specs.Prelude.{◌≡◌, ◌≤◌, [], length, vec_capacity, IfOk};
ghost use Rattle.step_script.specs.Shown.{Shown};
ghost use Rattle.sim_run.specs.Workloads.{workload};
ghost use Rattle.scenario_run.specs.Runs.{IsReady, asked_by, functions_of};
ghost use Rattle.scenario_run.specs.JournalReady.{CanRun, workload_in};
ghost use Rattle.scenario_run.specs.Plans.{IsPlan, HasBegun};

use crate::making::{BOARD_ROOM, Bodies};
use crate::plan::Plan;
use crate::runner::Runner;
use board::Board;
use lock_core::Core;
use rt_base::{Names, OutOfMemory};
use set_admission::AdmittedSet;
use std::alloc::Global;
use step_journal::Entry;
use step_script::Script;
use txn_set::CompiledSet;

/// What the run of a scenario has beside its board and bodies: its names, its set, and a place for its entries.
#[derive(Drop)]
pub(crate) struct Begun {
    pub(crate) names: Names,
    pub(crate) set: AdmittedSet,
    pub(crate) kept: Vec<Entry>,
    pub(crate) room: usize,
}

// A copy of a set, and a place for so many entries.
fn copy_and_place(
    alloc: Global,
    set: &AdmittedSet,
    room: usize,
) -> Result<(CompiledSet, Vec<Entry>), OutOfMemory>
    ensures { IfOk result (λ r. (r.0 ≡ set.now) × (r.1.items ≡ []) × (room ≤ vec_capacity r.1)) }
{
    let kept = Vec::with_capacity(alloc, room)?;
    let copy = set.set().copy(alloc)?;
    Ok((copy, kept))
}

// The serial numbers of so many bodies.
fn serials_for(alloc: Global, bodies: usize) -> Result<Vec<u32>, OutOfMemory>
    ensures { IfOk result (λ r. length r.items ≡ bodies) }
{
    Ok(vec![in alloc; 0; bodies]?)
}

// Bodies on a new board over their set.
fn on_board(
    alloc: Global,
    set: CompiledSet,
    bodies: Bodies,
) -> Result<Runner<Core, Script>, OutOfMemory>
    requires { IsReady set bodies.scripts.items bodies.ticks.items bodies.eager_jobs.items }
    ensures ready { IfOk result (λ r. CanRun ⟦<Core as Board>⟧.stands ⟦<Core as Board>⟧.set ⟦<Core as Board>⟧.room asked_by r) }
    ensures runs { IfOk result (λ r. workload_in ⟦<Core as Board>⟧.set asked_by r ≡ workload set (functions_of bodies.scripts.items) bodies.ticks.items) }
{
    let board = match Core::new(alloc, set, BOARD_ROOM) {
        Ok(board) => board,
        Err((set, _)) => {
            drop(set);
            drop(bodies);
            return Err(OutOfMemory);
        }
    };
    let serials = match serials_for(alloc, bodies.scripts.len()) {
        Ok(serials) => serials,
        Err(OutOfMemory) => {
            drop(board);
            drop(bodies);
            return Err(OutOfMemory);
        }
    };
    let Bodies {
        scripts,
        ticks,
        eager_jobs,
    } = bodies;
    drop(eager_jobs);
    Ok(Runner {
        board,
        bodies: scripts,
        ticks,
        serials,
    })
}

/// All that a run needs, taken before it begins.
pub(crate) fn equipped(
    alloc: Global,
    plan: Plan,
) -> Result<(Begun, Runner<Core, Script>), OutOfMemory>
    requires { (s : Shown) × IsPlan s plan }
    ensures begun { (s : Shown) → IsPlan s plan → IfOk result (λ r. HasBegun s (workload_in ⟦<Core as Board>⟧.set asked_by r.1) r.0) }
    ensures ready { IfOk result (λ r. CanRun ⟦<Core as Board>⟧.stands ⟦<Core as Board>⟧.set ⟦<Core as Board>⟧.room asked_by r.1) }
{
    let Plan {
        names,
        set,
        bodies,
        room,
    } = plan;
    let (copy, kept) = match copy_and_place(alloc, &set, room) {
        Ok(parts) => parts,
        Err(OutOfMemory) => {
            drop(names);
            drop(set);
            drop(bodies);
            return Err(OutOfMemory);
        }
    };
    match on_board(alloc, copy, bodies) {
        Ok(runner) => Ok((
            Begun {
                names,
                set,
                kept,
                room,
            },
            runner,
        )),
        Err(OutOfMemory) => {
            drop(names);
            drop(set);
            drop(kept);
            Err(OutOfMemory)
        }
    }
}
