//! All workers, in rounds.
ghost use Rattle.std.specs.Prelude.{◌≡◌, ◌<◌, ◌≤◌, All, None, [], length, IfOk, IfErr, IfSome, IfNone, vec_capacity, true, false};
ghost use Rattle.step_journal.specs.History.{IsLegal};
ghost use Rattle.shared_plant.specs.Seats.{IsOf};
ghost use Rattle.sim_run.specs.Outs.{StaysGood, IsEmptied};
ghost use Rattle.io_edge.specs.Causes.{Rose};
ghost use Rattle.txn_threads.specs.Rounds.{Each, WorkerSits, WorkerRan};
ghost use Rattle.txn_threads.specs.Runs.{MayRun, HasRun, IsDone, Operated, CanDrain, HasDrained, GotMore, MayDrain, FirstHalt, HaltIs, StopIs, run_stop, IfStopped, Collected, CollectedTo, part, Cleared, WorkerCleared, NoMembers};

use crate::drain::Drain;
use crate::gate::Gate;
use crate::member::{Halt, Member, RunStop, Worker};
use crate::places::{Homes, Places};
use crate::tries::TryOutcome;
use board::Board;
use rt_base::TxId;
use shared_plant::Plant;
use sim_run::{EntryOut, Stopped};
use std::sync::Wait;
use std::thread;
use std::thread::Threads;
use step_script::Body;

// How many turns a round in the caller's thread has, at most.
const TURNS: u32 = 512;

// One round of all workers, in at most 64 threads.
fn round_all<R: Threads + Sync, B: Board + Send, Y: Body + Send, G: Gate + Sync>(
    rt: &R,
    plant: &Plant<B>,
    workers: &mut [Worker<B, Y>],
    gate: &G,
)
    requires sit { All (WorkerSits Y.gives Y.stands plant.now) workers.old }
    ensures ran { Each (WorkerRan Y.gives Y.stands plant.now) workers.old workers.new }
{
    thread::for_each_mut(
        rt,
        workers,
        64,
        &|_, worker: &mut Worker<B, Y>|
            requires { WorkerSits Y.gives Y.stands plant.now worker.old }
            ensures { WorkerRan Y.gives Y.stands plant.entry.now worker.old worker.new }
        { worker.round(plant, gate) },
    );
}

// The transaction whose job runs after a round of all, as the first answer told. None where an eager member has jobs to
// plan.
fn first_running<B: Board, Y: Body>(workers: &[Worker<B, Y>]) -> Option<TxId> {
    let mut running = None;
    for i in 0..workers.len() {
        let worker = &workers[i];
        if worker.has_plans() {
            return None;
        }
        if let TryOutcome::NotYet(tx) = worker.outcome {
            running = running.or(Some(tx));
        }
    }
    running
}

// A turn of the member of a transaction. NoJob where there is none, or where its worker met a stop.
#[inline(always)]
fn go_on_at<B: Board, Y: Body, G: Gate>(
    plant: &Plant<B>,
    workers: &mut [Worker<B, Y>],
    homes: &Homes,
    tx: TxId,
    gate: &G,
) -> TryOutcome
    requires sit { All (WorkerSits Y.gives Y.stands plant.now) workers.old }
    ensures ran { Each (WorkerRan Y.gives Y.stands plant.now) workers.old workers.new }
{
    let Some((at, place)) = homes.of(tx) else {
        return TryOutcome::NoJob;
    };
    if at >= workers.len() {
        return TryOutcome::NoJob;
    }
    let worker = &mut workers[at];
    worker.go_on(plant, gate, place)
}

// Turns in the thread of the caller, each of the member whose job runs, as far as the answers tell: the first is that of a
// transaction. It gives the one whose job runs after them.
fn chain<B: Board, Y: Body, G: Gate>(
    plant: &Plant<B>,
    workers: &mut [Worker<B, Y>],
    homes: &Homes,
    tx: TxId,
    gate: &G,
) -> Option<TxId>
    requires sit { All (WorkerSits Y.gives Y.stands plant.now) workers.old }
    ensures ran { Each (WorkerRan Y.gives Y.stands plant.now) workers.old workers.new }
{
    let mut running = tx;
    for _ in 0..TURNS {
        match go_on_at(plant, workers, homes, running, gate) {
            TryOutcome::NotYet(tx) => running = tx,
            TryOutcome::Full => return Some(running),
            TryOutcome::NoJob => return None,
            _ => {}
        }
    }
    Some(running)
}

// One round: turns of the member whose job runs, in the thread of the caller, or else of all workers. It gives the transaction
// whose job runs after it, as far as the answers tell.
fn round_of<R: Threads + Sync, B: Board + Send, Y: Body + Send, G: Gate + Sync>(
    rt: &R,
    plant: &Plant<B>,
    workers: &mut [Worker<B, Y>],
    homes: &Homes,
    running: Option<TxId>,
    gate: &G,
) -> Option<TxId>
    requires sit { All (WorkerSits Y.gives Y.stands plant.now) workers.old }
    ensures ran { Each (WorkerRan Y.gives Y.stands plant.now) workers.old workers.new }
{
    match running {
        Some(tx) => chain(plant, workers, homes, tx, gate),
        None => {
            round_all(rt, plant, workers, gate);
            first_running(workers)
        }
    }
}

// All kept entries, through the operator's list to the out.
fn drain_all<R: Wait, B: Board, O: EntryOut>(
    rt: &R,
    plant: &Plant<B>,
    drain: &mut Drain<B>,
    out: &mut O,
) -> Result<(), Stopped>
    requires { CanDrain O.got O.lost O.good plant.now drain.old out.old }
    ensures drained { HasDrained O.good O.stops plant.now drain.old drain.new out.old out.new }
    ensures can { IfOk result (λ _. CanDrain O.got O.lost O.good plant.now drain.new out.new) }
    ensures got { IfOk result (λ _. GotMore O.got out.old out.new (part drain.new.operator.seen drain.old.operator.drained drain.new.operator.drained)) }
    ensures cut { IfErr result (λ _. Rose (O.stops out.old) (O.stops out.new) × CollectedTo O.got O.lost drain.old.operator drain.new.operator out.old out.new) }
{
    plant.drain(rt, &mut drain.operator, usize::MAX, &mut drain.spare);
    let put = out.put(drain.spare.as_slice());
    drain.spare.clear();
    put
}

fn stop_of(halt: Halt) -> RunStop
    ensures { result ≡ run_stop halt }
{
    match halt {
        Halt::Refused { job, reply } => RunStop::Refused { job, reply },
        Halt::NoPlan { tx, cause } => RunStop::NoPlan { tx, cause },
    }
}

// The stop of the first worker that met one.
fn first_halt<B: Board, Y: Body>(workers: &[Worker<B, Y>]) -> Option<Halt>
    ensures some { IfSome result (λ h. FirstHalt workers.now h) }
    ensures none { IfNone result (All (λ w. w.halt ≡ None) workers.now) }
{
    for i in 0..workers.len() {
        let worker = &workers[i];
        match worker.halt {
            Some(halt) => return Some(halt),
            None => {}
        }
    }
    None
}

fn are_done<B: Board, Y: Body>(members: &[Member<B, Y>]) -> bool
    ensures { result ≡ true → All (λ m. m.jobs ≤ m.ended) members.now }
{
    for i in 0..members.len() {
        let member = &members[i];
        if member.ended < member.jobs {
            return false;
        }
    }
    true
}

fn all_done<B: Board, Y: Body>(workers: &[Worker<B, Y>]) -> bool
    ensures { result ≡ true → All (λ w. All (λ m. m.jobs ≤ m.ended) w.members.items) workers.now }
{
    for i in 0..workers.len() {
        let worker = &workers[i];
        if !are_done(worker.members.as_slice()) {
            return false;
        }
    }
    true
}

fn has_members<B: Board, Y: Body>(workers: &[Worker<B, Y>]) -> bool
    ensures none { result ≡ false → NoMembers workers.now }
    ensures some { result ≡ true → NoMembers workers.now → ⊥ }
{
    for i in 0..workers.len() {
        let worker = &workers[i];
        if worker.members.len() > 0 {
            return true;
        }
    }
    false
}

fn clear_members<B: Board, Y: Body>(members: &mut Vec<Member<B, Y>>)
    ensures { Each (Cleared Y.gives Y.stands) members.old.items members.new.items }
{
    for i in 0..members.len() {
        let member = &mut members[i];
        member.clear();
    }
}

// The places of members.
fn places_of<B: Board, Y: Body>(members: &[Member<B, Y>]) -> Places {
    let mut places = Places::none();
    for i in 0..members.len() {
        if let Some(tx) = members[i].seat.tx() {
            places.put(tx, i);
        }
    }
    places
}

// The homes of the members of all workers.
fn homes_of<B: Board, Y: Body>(workers: &[Worker<B, Y>]) -> Homes {
    let mut homes = Homes::none();
    for i in 0..workers.len() {
        let members = workers[i].members.as_slice();
        for k in 0..members.len() {
            if let Some(tx) = members[k].seat.tx() {
                homes.put(tx, i, k);
            }
        }
    }
    homes
}

// A worker as a run begins.
fn clear_worker<B: Board, Y: Body>(worker: &mut Worker<B, Y>)
    ensures { WorkerCleared Y.gives Y.stands worker.old worker.new }
{
    clear_members(&mut worker.members);
    worker.halt = None;
    worker.places = places_of(worker.members.as_slice());
    worker.first = 0;
    worker.outcome = TryOutcome::NoJob;
}

fn clear_all<B: Board, Y: Body>(workers: &mut [Worker<B, Y>])
    ensures { Each (WorkerCleared Y.gives Y.stands) workers.old workers.new }
{
    for i in 0..workers.len() {
        let worker = &mut workers[i];
        clear_worker(worker);
    }
}

// Rounds of workers that have been cleared.
fn rounds<R: Threads + Wait + Sync, B: Board + Send, Y: Body + Send, G: Gate + Sync, O: EntryOut>(
    rt: &R,
    plant: &Plant<B>,
    workers: &mut [Worker<B, Y>],
    drain: &mut Drain<B>,
    gate: &G,
    out: &mut O,
) -> Result<(), RunStop>
    requires sit { All (WorkerSits Y.gives Y.stands plant.now) workers.old }
    requires clear { All (λ w. w.halt ≡ None) workers.old }
    requires drain { CanDrain O.got O.lost O.good plant.now drain.old out.old }
    ensures ran { Each (WorkerRan Y.gives Y.stands plant.now) workers.old workers.new }
    ensures done { IfOk result (λ _. All (λ w. All (λ m. m.jobs ≤ m.ended) w.members.items) workers.new) }
    ensures none { IfOk result (λ _. All (λ w. w.halt ≡ None) workers.new) }
    ensures stop { IfErr result (λ s. HaltIs workers.new s) }
    ensures drained { HasDrained O.good O.stops plant.now drain.old drain.new out.old out.new }
    ensures got { IfStopped result (Rose (O.stops out.old) (O.stops out.new) × CollectedTo O.got O.lost drain.old.operator drain.new.operator out.old out.new) (Collected O.got O.lost drain.old.operator drain.new.operator out.old out.new) }
{
    let Ok(()) = drain_all(rt, plant, drain, out) else {
        return Err(RunStop::Stopped);
    };
    let homes = homes_of(workers);
    let mut running = None;
    for _ in rt.forever() {
        if running.is_none() && all_done(workers) {
            return Ok(());
        }
        running = round_of(rt, plant, workers, &homes, running, gate);
        let Ok(()) = drain_all(rt, plant, drain, out) else {
            return Err(RunStop::Stopped);
        };
        match first_halt(workers) {
            Some(halt) => return Err(stop_of(halt)),
            None => {}
        }
    }
    unreachable!()
}

/// Runs all workers, each in a thread of its own where one can be made, in rounds, until of every member's transaction
/// as many jobs have ended as it is to have. Before the first round and after each it drains the kept entries through
/// `drain` to `out`. A worker that meets a stop makes no further try. At its start the call clears what workers and members
/// keep from an earlier one. It takes no memory, and it may wait.
///
/// A worker's part of a round has at most sixteen times as many goes as it has members. A go is a turn of the member whose job
/// runs, as far as the answers told: its job's steps for as long as it runs, at most `MOST_STEPS`; and where no job runs then a
/// try to idle. The part ends where the journal is full, and that step is asked for again after the next drain; where the job of
/// another worker's member runs; and where nothing is pending or planned, after a step try of each member. A worker that has
/// eager members with jobs to plan goes at most sixteen times through its members instead. Each time it begins with the member
/// whose job runs, as far as the answers told, and makes at most one step try a member, a plan try for an eager one whose planned
/// jobs have ended, and a try to idle where no member's job is pending, which ends its part too unless the turn is taken. So it
/// has at most 32 tries for each member then, and 15 more.
///
/// One job runs at a time. Where the answers of a round told whose, and no eager member has jobs to plan, the next round is in the
/// thread of the caller: up to 512 goes, each of the member whose job runs, whichever worker has it. The others could only be told
/// to wait, and starting their threads costs more than many steps. Where nothing is pending or planned the next round is of all
/// workers again. A go costs one exchange for the turn and one look for the member.
///
/// A round of all workers has one part of each. Each step and each try adds at most one entry, and none where the journal is full,
/// so that a round adds at most as many entries as the board has room for.
///
/// That no two members have the same transaction, and that a member's transaction has exactly `jobs` planned jobs, or
/// none if it is eager, is left to the caller: no promise needs it. Where the list of `drain` has reserved places for the
/// board's room, each drain moves all that the board keeps.
///
/// Refused and NoPlan are the stop of the first worker that met one, in the first round in which some worker did. Where
/// the out failed in the drain after that round, Stopped comes in their place. Stopped comes only where the stops of
/// `out` rose in this call.
pub fn run_all<
    R: Threads + Wait + Sync,
    B: Board + Send,
    Y: Body + Send,
    G: Gate + Sync,
    O: EntryOut,
>(
    rt: &R,
    plant: &Plant<B>,
    workers: &mut [Worker<B, Y>],
    drain: &mut Drain<B>,
    gate: &G,
    out: &mut O,
) -> Result<(), RunStop>
    requires members { All (λ w. All (MayRun plant.now) w.members.items) workers.old }
    requires plant { IsOf plant.now drain.old.operator }
    requires operator { drain.old.operator.tx ≡ None }
    requires spare { drain.old.spare.items ≡ [] }
    requires lost { O.lost out.old [] }
    requires good { MayDrain (IsLegal plant.now.set) O.got O.good drain.old.operator out.old }
    ensures members { Each (λ w u. Each (HasRun Y.gives plant.now) w.members.items u.members.items) workers.old workers.new }
    ensures done { IfOk result (λ _. All (λ w. All (IsDone plant.now) w.members.items) workers.new) }
    ensures none { IfOk result (λ _. All (λ w. w.halt ≡ None) workers.new) }
    ensures stop { IfErr result (λ s. StopIs Y.gives plant.now workers.new s) }
    ensures operated { Operated drain.old.operator drain.new.operator }
    ensures within { drain.old.operator.drained ≤ length drain.old.operator.seen → drain.new.operator.drained ≤ length drain.new.operator.seen }
    ensures all { (NoMembers workers.old → ⊥) → plant.now.room ≤ vec_capacity drain.old.spare → drain.new.operator.drained ≡ length drain.new.operator.seen }
    ensures at_once { NoMembers workers.old → IfErr result (λ _. ⊥) × (drain.new.operator ≡ drain.old.operator) × (out.new ≡ out.old) }
    ensures good { StaysGood O.good out.old out.new }
    ensures spare { IsEmptied drain.old.spare drain.new.spare }
    ensures stops { O.stops out.old ≤ O.stops out.new }
    ensures got { IfStopped result (Rose (O.stops out.old) (O.stops out.new) × CollectedTo O.got O.lost drain.old.operator drain.new.operator out.old out.new) (Collected O.got O.lost drain.old.operator drain.new.operator out.old out.new) }
{
    clear_all(workers);
    if !has_members(workers) {
        return Ok(());
    }
    rounds(rt, plant, workers, drain, gate, out)
}
