//! Workers: what a run leaves, whatever their number.
ghost use Rattle.std.specs.Prelude.{◌≡◌, All, IfOk, OnOk, IfSome, IsTrue, map};
ghost use Rattle.std.specs.List.{list_all};
ghost use Rattle.txn_threads.specs.Runs.{MayRun};
ghost use Rattle.seat_tests.specs.Fresh.{IsFresh};
ghost use Rattle.step_script.specs.Scripts.{is_good, operation};

use crate::calls::plan_each;
use crate::house::House;
use crate::turns::PLANS;
use board::Board;
use rt_base::{End, ItemId, OutOfMemory, TxId};
use shared_plant::{Plant, Seat};
use sim_run::{EntryOut, Stopped};
use std::alloc::Global;
use std::sync::Wait;
use std::thread::Threads;
use step_journal::Entry;
use step_script::{BinOp, Expr, Script, ScriptOp};
use txn_threads::{Drain, Member, NoGate, RunStop, Worker, run_all};

const TEMP: ItemId = ItemId(0);

const VALVE: ItemId = ItemId(1);

// An out that keeps what it takes, and stops where that would be more than it may take.
#[derive(Drop)]
struct FewEntries {
    entries: Vec<Entry>,
    most: usize,
    stops: u64,
}

impl EntryOut for FewEntries {
    ghost got = { λ out history. Unit {0} };

    ghost lost = { λ out history. Unit {0} };

    ghost good = { λ out history. Unit {0} };

    ghost stops = { λ out. out.stops };

    fn put(&mut self, entries: &[Entry]) -> Result<(), Stopped> {
        if entries.len() > self.most.saturating_sub(self.entries.len()) {
            self.stops = self.stops.saturating_add(1);
            return Err(Stopped);
        }
        match self.entries.extend_from_slice(entries) {
            Ok(()) => Ok(()),
            Err(_) => {
                self.stops = self.stops.saturating_add(1);
                Err(Stopped)
            }
        }
    }
}

type BaseMember<B> = Member<B, Script>;

type BaseWorker<B> = Worker<B, Script>;

// A member at its seat, which has a transaction.
#[tactic(auto, using(crate::proofs::Freshness::may_run))]
fn member<B: Board>(
    plant: &Plant<B>,
    seat: Seat<B>,
    body: Script,
    jobs: u32,
    eager: bool,
) -> Option<BaseMember<B>>
    requires { IsFresh plant.now seat }
    ensures { IfSome result (λ m. MayRun plant.now m) }
{
    let _plant = plant;
    match seat.tx() {
        Some(_) => Some(Member::new(seat, body, jobs, eager)),
        None => None,
    }
}

fn give<B: Board>(
    plant: &Plant<B>,
    members: &mut Vec<BaseMember<B>>,
    member: BaseMember<B>,
) -> Result<(), OutOfMemory>
    requires { All (MayRun plant.now) members.old.items × MayRun plant.now member }
    ensures { OnOk result (All (MayRun plant.now) members.new.items) }
{
    let _plant = plant;
    members.push(member)?;
    Ok(())
}

fn hire<B: Board>(
    plant: &Plant<B>,
    workers: &mut Vec<BaseWorker<B>>,
    worker: BaseWorker<B>,
) -> Result<(), OutOfMemory>
    requires all { All (λ w. All (MayRun plant.now) w.members.items) workers.old.items }
    requires one { All (MayRun plant.now) worker.members.items }
    ensures { OnOk result (All (λ w. All (MayRun plant.now) w.members.items) workers.new.items) }
{
    let _plant = plant;
    workers.push(worker)?;
    Ok(())
}

// The members to go on with: these, or where a worker takes them none.
fn left<B: Board>(
    plant: &Plant<B>,
    alloc: Global,
    workers: &mut Vec<BaseWorker<B>>,
    members: Vec<BaseMember<B>>,
    is_hired: bool,
) -> Result<Vec<BaseMember<B>>, OutOfMemory>
    requires all { All (λ w. All (MayRun plant.now) w.members.items) workers.old.items }
    requires one { All (MayRun plant.now) members.items }
    ensures all { OnOk result (All (λ w. All (MayRun plant.now) w.members.items) workers.new.items) }
    ensures one { IfOk result (λ ms. All (MayRun plant.now) ms.items) }
{
    if !is_hired {
        return Ok(members);
    }
    hire(plant, workers, Worker::new(members))?;
    Ok(Vec::new(alloc))
}

// One, two or three workers of three members.
fn workers<B: Board>(
    plant: &Plant<B>,
    alloc: Global,
    number: u32,
    a: BaseMember<B>,
    b: BaseMember<B>,
    c: BaseMember<B>,
) -> Result<Vec<BaseWorker<B>>, OutOfMemory>
    requires { MayRun plant.now a × MayRun plant.now b × MayRun plant.now c }
    ensures { IfOk result (λ ws. All (λ w. All (MayRun plant.now) w.members.items) ws.items) }
{
    let mut workers = Vec::new(alloc);
    let mut members = Vec::new(alloc);
    give(plant, &mut members, a)?;
    let mut members = left(plant, alloc, &mut workers, members, number != 1)?;
    give(plant, &mut members, b)?;
    let is_third = number != 1 && number != 2;
    let mut members = left(plant, alloc, &mut workers, members, is_third)?;
    give(plant, &mut members, c)?;
    hire(plant, &mut workers, Worker::new(members))?;
    Ok(workers)
}

/// The bodies of a run, whether the controller plans its jobs itself, and how many entries the out takes.
#[derive(Drop)]
pub struct Case {
    sample: Script,
    control: Script,
    logger: Script,
    eager: bool,
    most: usize,
}

fn script(alloc: Global, ops: Vec<ScriptOp>) -> Result<Script, OutOfMemory>
    requires { IsTrue (list_all (is_good 2) (map operation ops.items)) }
{
    let samples = vec![in alloc; 5, 7, 9, 11]?;
    Script::new(alloc, ops, samples, 2)
}

fn sampling(alloc: Global) -> Result<Script, OutOfMemory> {
    script(
        alloc,
        vec![in alloc; ScriptOp::Write(TEMP, Expr::Sample), ScriptOp::Commit]?,
    )
}

fn controlling(alloc: Global) -> Result<Script, OutOfMemory> {
    let more = Expr::Bin(
        BinOp::Add,
        Box::new(alloc, Expr::Last(TEMP))?,
        Box::new(alloc, Expr::Const(100))?,
    );
    script(
        alloc,
        vec![in alloc;
            ScriptOp::Read(TEMP),
            ScriptOp::Compute(1),
            ScriptOp::Write(VALVE, more),
            ScriptOp::Commit,
        ]?,
    )
}

fn logging(alloc: Global) -> Result<Script, OutOfMemory> {
    script(
        alloc,
        vec![in alloc;
            ScriptOp::Read(TEMP),
            ScriptOp::Read(VALVE),
            ScriptOp::Compute(3),
            ScriptOp::Commit,
        ]?,
    )
}

fn sample_of(alloc: Global, name: &str) -> Result<Script, OutOfMemory> {
    match name {
        "unwritten" => script(alloc, vec![in alloc; ScriptOp::Commit]?),
        "hostile" => script(
            alloc,
            vec![in alloc; ScriptOp::Write(TEMP, Expr::Sample), ScriptOp::Quit]?,
        ),
        _ => sampling(alloc),
    }
}

fn control_of(alloc: Global, name: &str) -> Result<Script, OutOfMemory> {
    match name {
        "undeclared" => script(
            alloc,
            vec![in alloc; ScriptOp::Write(TEMP, Expr::Const(1))]?,
        ),
        "hostile" => script(
            alloc,
            vec![in alloc;
                ScriptOp::Read(TEMP),
                ScriptOp::Write(VALVE, Expr::Const(1)),
            ]?,
        ),
        _ => controlling(alloc),
    }
}

fn logger_of(alloc: Global, name: &str) -> Result<Script, OutOfMemory> {
    match name {
        "overrun" | "hostile" => script(
            alloc,
            vec![in alloc; ScriptOp::Read(TEMP), ScriptOp::Compute(100)]?,
        ),
        "never" => script(
            alloc,
            vec![in alloc; ScriptOp::Read(TEMP), ScriptOp::Read(VALVE)]?,
        ),
        "quit" => script(
            alloc,
            vec![in alloc; ScriptOp::Read(TEMP), ScriptOp::Compute(4), ScriptOp::Quit]?,
        ),
        _ => logging(alloc),
    }
}

/// The case of this name: `base`, one body that is none of its transaction's or never commits, `hostile`, where no body
/// commits, or an eager controller. The out takes so many entries.
pub fn case_of(alloc: Global, name: &str, most: usize) -> Result<Case, OutOfMemory> {
    Ok(Case {
        sample: sample_of(alloc, name)?,
        control: control_of(alloc, name)?,
        logger: logger_of(alloc, name)?,
        eager: name == "eager",
        most,
    })
}

/// What a run of so many workers, up to three, answers, and the entries that its out took.
pub fn ran<R: Threads + Wait + Sync, B: Board + Send + Drop>(
    rt: &R,
    alloc: Global,
    house: House<B>,
    number: u32,
    case: Case,
) -> Result<(Result<(), RunStop>, Vec<Entry>), OutOfMemory>
    requires { IsFresh house.plant house.sample × IsFresh house.plant house.control × IsFresh house.plant house.logger }
{
    let House {
        plant,
        mut operator,
        sample,
        control,
        logger,
    } = house;
    let _granted = if case.eager {
        plan_each(
            &plant,
            &mut operator,
            &[(0, 0), (0, 10), (0, 20), (0, 30), (2, 0)],
        )
    } else {
        plan_each(&plant, &mut operator, &PLANS)
    };
    let a = member(&plant, sample, case.sample, 4, false);
    let b = member(&plant, control, case.control, 2, case.eager);
    let c = member(&plant, logger, case.logger, 1, false);
    let (Some(a), Some(b), Some(c)) = (a, b, c) else {
        return Err(OutOfMemory);
    };
    let mut workers = workers(&plant, alloc, number, a, b, c)?;
    let spare = Vec::with_capacity(alloc, 4096)?;
    let mut drain = Drain { operator, spare };
    let mut out = FewEntries {
        entries: Vec::with_capacity(alloc, 4096)?,
        most: case.most,
        stops: 0,
    };
    let answer = run_all(
        rt,
        &plant,
        workers.as_mut_slice(),
        &mut drain,
        &NoGate,
        &mut out,
    );
    Ok((answer, out.entries))
}

/// How many jobs of the transaction ended by a step of their own in this way, and how many were planned.
pub fn counts(entries: &[Entry], of: u32, end: End) -> (usize, usize) {
    let (mut ends, mut plans) = (0usize, 0usize);
    for entry in entries.iter() {
        match *entry {
            Entry::Step {
                job,
                over: Some(over),
                ..
            } if job.tx == TxId(of) && over == end => ends = ends.saturating_add(1),
            Entry::Planned { tx, .. } if tx == TxId(of) => plans = plans.saturating_add(1),
            _ => {}
        }
    }
    (ends, plans)
}
