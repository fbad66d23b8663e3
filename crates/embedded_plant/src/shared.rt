//! The run on a shared plant: the sampler's seat and the controller's are each on a thread of its own. The operator's seat
//! drains when both are back.
ghost use Rattle.std.specs.Prelude.{◌≡◌, ◌≤◌, ◌<◌, [], None, Some, length, vec_len, IfOk};
ghost use Rattle.rt_base.specs.declared.ids.TxId.{TxId as Transaction};
ghost use Rattle.shared_plant.specs.Seats.{AreOf, IsOf, newcomer, tx_of};

use crate::bodies::Progress;
use crate::faults::Fault;
use crate::out::Counts;
use crate::tank::{CONTROLLER, SAMPLER, VALVE, core_of};
use admitted_core::AdmittedCore;
use board::{Board, StepReply};
use rt_base::{Op, Tick, TxId};
use shared_plant::{Plant, Seat, Tried};
use std::alloc::Global;
use std::sync::Wait;
use std::thread;
use std::thread::{Threads, join};
use step_journal::Entry;
use turn_cell::Past;

// Room for all entries of the run, since nobody drains while the threads run: a job has at most its steps and 3.
const ROOM: usize = 64;

type Tank = Plant<AdmittedCore>;

type TankSeat = Seat<AdmittedCore>;

// The history of a new core.
struct NoEntry;

impl Past<Entry> for NoEntry {
    ghost past = { [] };
}

// A plant with its three seats.
struct Callers {
    plant: Tank,
    sampler: TankSeat,
    controller: TankSeat,
    operator: TankSeat,
}

// A plant on a new core. All memory but that of `closed` is taken here.
fn opened(alloc: Global) -> Result<Callers, Fault>
    ensures plant { IfOk result (λ r. (length r.plant.set.txns ≡ 2) × (r.plant.seats ≡ 3)) }
    ensures sampler { IfOk result (λ r. r.sampler ≡ newcomer r.plant.id [] 0 (Some (tx_of 0))) }
    ensures controller { IfOk result (λ r. r.controller ≡ newcomer r.plant.id [] 0 (Some (tx_of 1))) }
    ensures operator { IfOk result (λ r. r.operator ≡ newcomer r.plant.id [] 0 None) }
{
    let core = core_of(alloc, ROOM)?;
    match Plant::start::<NoEntry>(alloc, core) {
        Ok((plant, mut seats)) => {
            let operator = seats.pop().unwrap();
            let controller = seats.pop().unwrap();
            let sampler = seats.pop().unwrap();
            drop(seats);
            Ok(Callers {
                plant,
                sampler,
                controller,
                operator,
            })
        }
        Err((core, refusal)) => {
            drop(core);
            Err(refusal.into())
        }
    }
}

// Plans so many jobs of the seat's own transaction, the first for a tick and each further one a period later. No other
// thread runs yet, so no try is Busy.
fn plan(plant: &Tank, seat: &mut TankSeat, tx: TxId, first: Tick, jobs: u32) -> Result<(), Fault>
    requires { IsOf plant.now seat.old × (tx.0 < length plant.now.set.txns) }
    ensures { (seat.new.plant ≡ seat.old.plant) × (seat.new.tx ≡ seat.old.tx) }
{
    match plant.try_plan(seat, tx, first) {
        Tried::Said(Ok(_)) => plan_more(plant, seat, tx, jobs),
        Tried::Said(Err(refusal)) => Err(Fault::NotPlanned(refusal)),
        Tried::Busy => Err(Fault::Busy),
    }
}

fn plan_more(plant: &Tank, seat: &mut TankSeat, tx: TxId, jobs: u32) -> Result<(), Fault>
    requires { IsOf plant.now seat.old × (tx.0 < length plant.now.set.txns) }
    ensures { (seat.new.plant ≡ seat.old.plant) × (seat.new.tx ≡ seat.old.tx) }
{
    for _ in 1..jobs {
        match plant.try_plan_next(seat, tx) {
            Tried::Said(Ok(_)) => (),
            Tried::Said(Err(refusal)) => return Err(Fault::NotPlanned(refusal)),
            Tried::Busy => return Err(Fault::Busy),
        }
    }
    Ok(())
}

// What a step is answered; None where another thread has the turn.
fn asked(plant: &Tank, seat: &mut TankSeat, serial: u32, op: Op) -> Option<StepReply>
    requires { IsOf plant.now seat.old × ((tx : Transaction) × (seat.old.tx ≡ Some tx)) }
    ensures { (seat.new.plant ≡ seat.old.plant) × (seat.new.tx ≡ seat.old.tx) }
{
    match plant.try_step(seat, serial, op) {
        Tried::Said(reply) => Some(reply),
        Tried::Busy => None,
    }
}

// With nothing pending the time goes on, by whichever thread comes first.
fn idle(plant: &Tank, seat: &mut TankSeat)
    requires { IsOf plant.now seat.old }
    ensures { (seat.new.plant ≡ seat.old.plant) × (seat.new.tx ≡ seat.old.tx) }
{
    match plant.try_idle(seat) {
        Tried::Said(_) => (),
        Tried::Busy => (),
    }
}

// One try of the job that a seat's thread is at.
fn try_once(plant: &Tank, seat: &mut TankSeat, tx: TxId, job: Progress) -> Progress
    requires { IsOf plant.now seat.old × ((tx : Transaction) × (seat.old.tx ≡ Some tx)) }
    ensures { (seat.new.plant ≡ seat.old.plant) × (seat.new.tx ≡ seat.old.tx) }
{
    match asked(plant, seat, job.serial, job.next(tx)) {
        Some(StepReply::Done { outcome, over }) => job.after(outcome, over),
        // The job ended late, or it is not released yet.
        Some(StepReply::NoJob { ended, last: _ }) => {
            if ended > job.serial {
                Progress::of(ended)
            } else {
                idle(plant, seat);
                job
            }
        }
        Some(
            StepReply::Undeclared { .. } | StepReply::TooEarly { .. } | StepReply::Unwritten { .. },
        ) => job.at_fault(),
        // Another job runs, or the journal is full until the operator drains it.
        Some(StepReply::NotYet { .. } | StepReply::Blocked { .. } | StepReply::Full { .. })
        | None => {
            thread::yield_now();
            job
        }
    }
}

// What the thread of a seat does: it runs so many jobs of its transaction to their ends.
fn run_jobs<R: Wait>(rt: &R, plant: &Tank, mut seat: TankSeat, tx: TxId, jobs: u32) -> TankSeat
    requires { IsOf plant.now seat × ((tx : Transaction) × (seat.tx ≡ Some tx)) }
    ensures { IsOf plant.now result }
{
    let mut job = Progress::of(0);
    for _ in rt.forever() {
        if job.serial >= jobs {
            return seat;
        }
        job = try_once(plant, &mut seat, tx, job);
    }
    unreachable!()
}

// The core of a plant whose seats are all back.
fn core_back(plant: Tank, seats: Vec<TankSeat>) -> AdmittedCore
    requires { (plant.seats ≡ vec_len seats) × AreOf plant seats.items }
{
    match plant.close(seats) {
        Ok(core) => core,
        Err(_) => unreachable!(),
    }
}

// The core, once all seats are back.
fn closed(
    alloc: Global,
    plant: Tank,
    sampler: TankSeat,
    controller: TankSeat,
    operator: TankSeat,
) -> Result<AdmittedCore, Fault>
    requires { (plant.seats ≡ 3) × IsOf plant sampler × IsOf plant controller × IsOf plant operator }
{
    match Vec::with_capacity(alloc, 3) {
        Ok(mut seats) => {
            seats.push_reserved(sampler);
            seats.push_reserved(controller);
            seats.push_reserved(operator);
            Ok(core_back(plant, seats))
        }
        Err(error) => {
            drop(plant);
            drop(sampler);
            drop(controller);
            drop(operator);
            Err(error.into())
        }
    }
}

fn summed(core: &AdmittedCore, entries: &[Entry]) -> Counts {
    let mut out = Counts::new();
    out.take(entries);
    if (VALVE.0 as usize) < core.set().items().len() {
        let (valve, stamp) = core.peek(VALVE);
        out.valve = valve;
        out.stamp = stamp;
    }
    out
}

// Plans four jobs of the sampler and two of the controller.
fn plan_both(plant: &Tank, sampler: &mut TankSeat, controller: &mut TankSeat) -> Result<(), Fault>
    requires { IsOf plant.now sampler.old × IsOf plant.now controller.old × (length plant.now.set.txns ≡ 2) }
    ensures sampler { (sampler.new.plant ≡ sampler.old.plant) × (sampler.new.tx ≡ sampler.old.tx) }
    ensures controller { (controller.new.plant ≡ controller.old.plant) × (controller.new.tx ≡ controller.old.tx) }
{
    plan(plant, sampler, SAMPLER, 0, 4)?;
    plan(plant, controller, CONTROLLER, 8, 2)
}

// Runs the jobs of both, each transaction on a thread of its own.
fn run_both<R: Threads + Wait + Sync>(
    rt: &R,
    plant: &Tank,
    sampler: TankSeat,
    controller: TankSeat,
) -> (TankSeat, TankSeat)
    requires sampler { IsOf plant.now sampler × ((tx : Transaction) × (sampler.tx ≡ Some tx)) }
    requires controller { IsOf plant.now controller × ((tx : Transaction) × (controller.tx ≡ Some tx)) }
    ensures { IsOf plant.now result.0 × IsOf plant.now result.1 }
{
    join(
        rt,
        || -> TankSeat
            requires { IsOf plant.now sampler × ((tx : Transaction) × (sampler.tx ≡ Some tx)) }
            ensures { IsOf plant.entry.now result }
        { run_jobs(rt, plant, sampler, SAMPLER, 4) },
        || -> TankSeat
            requires { IsOf plant.now controller × ((tx : Transaction) × (controller.tx ≡ Some tx)) }
            ensures { IsOf plant.entry.now result }
        { run_jobs(rt, plant, controller, CONTROLLER, 2) },
    )
}

// Plans the jobs and runs them. The operator's seat drains the entries.
fn run_into<R: Threads + Wait + Sync>(
    rt: &R,
    alloc: Global,
    entries: &mut Vec<Entry>,
) -> Result<Counts, Fault> {
    let Callers {
        plant,
        mut sampler,
        mut controller,
        mut operator,
    } = opened(alloc)?;
    if let Err(fault) = plan_both(&plant, &mut sampler, &mut controller) {
        drop(plant);
        drop(sampler);
        drop(controller);
        drop(operator);
        return Err(fault);
    }
    let (sampler, controller) = run_both(rt, &plant, sampler, controller);
    plant.drain(rt, &mut operator, ROOM, entries);
    let core = closed(alloc, plant, sampler, controller, operator)?;
    let counts = summed(&core, entries.as_slice());
    drop(core);
    Ok(counts)
}

/// Four jobs of the sampler and two of the controller, each transaction on a thread of its own. It may wait.
pub fn run<R: Threads + Wait + Sync>(rt: &R, alloc: Global) -> Result<Counts, Fault> {
    let mut entries = Vec::with_capacity(alloc, ROOM)?;
    let counts = run_into(rt, alloc, &mut entries);
    drop(entries);
    counts
}
