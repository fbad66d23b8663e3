//! The history of a run by workers, kept until the run is over.
ghost use Rattle.std.specs.Prelude.{◌≡◌, ℕ, ◌+◌, ◌≤◌, [], length, false, vec_len, vec_capacity, IfOk};
ghost use Rattle.txn_set.specs.Set.{IsCompiled};
ghost use Rattle.law_histories.specs.Counting.{room_of_jobs};
ghost use Rattle.sim_run.specs.Workloads.{ticks_of};
ghost use Rattle.law_runs.specs.Histories.{IsRunOf};
ghost use Rattle.plant_run.specs.Ready.{CanRun, workload_in, eager_jobs_in};
ghost use Rattle.sim_run.specs.declared.fault.RunFault.TheVariants as faults;

use board::Board;
use plant_run::{Run, run_workers};
use rt_base::OutOfMemory;
use sim_run::{EntryOut, RunFault, Stopped, append};
use std::alloc::Global;
use std::marker::{Brand, PhantomData};
use std::sync::Wait;
use std::thread::Threads;
use step_journal::Entry;
use step_script::Body;
use txn_threads::Gate;

/// For how many entries an out has room.
pub(crate) trait Roomy {
    ghost room: { ℕ };
}

impl Roomy for Brand {
    ghost room = { 0 };
}

/// The entries of a run, kept up to a room that never grows.
pub(crate) struct RunEntries<T> {
    entries: Vec<Entry>,
    room: usize,
    full: bool,
    of: PhantomData<T>,
    ghost places: { room ≤ vec_capacity entries },
    ghost within: { vec_len entries ≤ room },
}

/// It can take every list of entries, since it refuses a piece for which its room does not suffice, and stops.
impl<T: Roomy> EntryOut for RunEntries<T> {
    ghost use Rattle.std.specs.Prelude.{◌≡◌, ⊤};
    ghost use Rattle.scenario_run.specs.Kept.{IsRefused, stops_of};

    ghost got = { λ out history. (out.room ≡ T.room) × (out.entries.items ≡ history) };

    ghost lost = { λ out history. IsRefused (record { room = out.room; kept = out.entries.items; full = out.full }) history };

    ghost good = { λ out history. ⊤ };

    ghost stops = { λ out. stops_of out.full };

    /// It costs one move an entry.
    fn put(&mut self, entries: &[Entry]) -> Result<(), Stopped> {
        if entries.len() > self.room - self.entries.len() {
            self.full = true;
            return Err(Stopped);
        }
        append(&mut self.entries, entries);
        Ok(())
    }
}

// No run of the workload has more entries than there is room for.
fn no_memory(fault: RunFault) -> OutOfMemory
    requires { fault ≡ faults.Memory }
{
    match fault {
        RunFault::Memory => OutOfMemory,
        RunFault::Writing => unreachable!(),
    }
}

fn run_into<
    R: Threads + Wait + Sync,
    B: Board + Send + Drop,
    Y: Body + Send + Drop,
    G: Gate + Sync,
    T: Roomy,
>(
    rt: &R,
    alloc: Global,
    run: Run<B, Y>,
    gate: &G,
    out: &mut RunEntries<T>,
) -> Result<B, OutOfMemory>
    requires ready { CanRun B.stands B.set B.room Y.gives run }
    requires compiled { IsCompiled (B.set run.board) }
    requires entries { room_of_jobs (B.set run.board).txns (λ tx. length (ticks_of run.ticks.now tx) + eager_jobs_in run tx) ≤ out.old.room }
    requires fresh { (out.old.room ≡ T.room) × (out.old.entries.items ≡ []) × (out.old.full ≡ false) }
    ensures run { IfOk result (λ b. IsRunOf (workload_in B.set Y.gives run.entry) (eager_jobs_in run.entry) out.new.entries.items) }
    ensures stood { IfOk result (λ b. B.stands b out.new.entries.items) }
    ensures set { IfOk result (λ b. B.set b ≡ B.set run.entry.board) }
{
    match run_workers(rt, alloc, run, gate, out) {
        Ok(board) => Ok(board),
        Err(fault) => Err(no_memory(fault)),
    }
}

/// Runs a workload on a new board by workers, each in a thread of its own where one can be made, and answers the board and
/// the whole history, kept in a list with room for `entries` entries, which suffices for all jobs, so that want of memory
/// comes only before the run. It may wait.
pub fn keep_run<
    R: Threads + Wait + Sync,
    B: Board + Send + Drop,
    Y: Body + Send + Drop,
    G: Gate + Sync,
>(
    rt: &R,
    alloc: Global,
    run: Run<B, Y>,
    entries: usize,
    gate: &G,
) -> Result<(B, Vec<Entry>), OutOfMemory>
    requires ready { CanRun B.stands B.set B.room Y.gives run }
    requires compiled { IsCompiled (B.set run.board) }
    requires entries { room_of_jobs (B.set run.board).txns (λ tx. length (ticks_of run.ticks.now tx) + eager_jobs_in run tx) ≤ entries }
    ensures run { IfOk result (λ r. IsRunOf (workload_in B.set Y.gives run.entry) (eager_jobs_in run.entry) r.1.items) }
    ensures stood { IfOk result (λ r. B.stands r.0 r.1.items) }
    ensures set { IfOk result (λ r. B.set r.0 ≡ B.set run.entry.board) }
{
    let kept = Vec::with_capacity(alloc, entries)?;
    let mut out: RunEntries<Brand> = RunEntries {
        entries: kept,
        room: entries,
        full: false,
        of: PhantomData,
    };
    let ran = run_into::<R, B, Y, G, Brand>(rt, alloc, run, gate, &mut out);
    let RunEntries {
        entries,
        room: _,
        full: _,
        of: _,
    } = out;
    match ran {
        Ok(board) => Ok((board, entries)),
        Err(refused) => Err(refused),
    }
}
