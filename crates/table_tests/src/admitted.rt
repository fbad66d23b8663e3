//! A sampler, a controller and a logger on an admitted core: whatever is planned, nobody is late; and what is read is young
//! enough if the sampler is released exactly at tick 0 and each period after it.
ghost use Rattle.std.specs.Prelude.{◌<◌};

use admitted_core::AdmittedCore;
use board::{Board, IdleReply, StepReply};
use rt_base::{End, ItemId, JobId, Op, Outcome, Tick, TxId};
use set_admission::{AdmittedSet, admit};
use std::alloc::Global;
use std::test::Fail;
use step_journal::Entry;
use test_sets::{Told, declared};

const PERIODS: [Tick; 3] = [10, 20, 40];

const SET: &str = "rtdb report 1
item temp sensor 20 0
item valve state - 0
txn sample 3 10 0 10 2 reads - writes temp
txn control 2 20 0 20 4 reads temp writes valve
txn logger 1 40 0 40 6 reads temp,valve writes -
mode trial
";

fn base(alloc: Global) -> Result<AdmittedCore, Fail> {
    let Some(told) = declared(alloc, SET) else {
        return Err("not compiled".into());
    };
    let Told { names, set } = told;
    drop(names);
    let Ok(set) = admit(alloc, set) else {
        return Err("not admitted".into());
    };
    match AdmittedCore::new(alloc, set, 4096) {
        Ok(core) => Ok(core),
        Err(_) => Err("memory".into()),
    }
}

// The operation of a job that has taken so many steps.
fn op_of(tx: TxId, done: u64) -> Op {
    match (tx.0, done) {
        (0, 0) => Op::Write(ItemId(0), 7),
        (1, 0) | (2, 0) => Op::Read(ItemId(0)),
        (2, 1) => Op::Read(ItemId(1)),
        (1, 2) => Op::Write(ItemId(1), 107),
        (0, 1) | (1, 3) | (2, 5) => Op::Commit,
        _ => Op::Compute,
    }
}

// The next number below a bound, from a seed that goes on (a linear congruential generator after Knuth).
fn random(seed: &mut u64, below: u64) -> u64
    requires { 0 < below }
{
    *seed = seed
        .wrapping_mul(6_364_136_223_846_793_005)
        .wrapping_add(1_442_695_040_888_963_407);
    (*seed >> 33) % below
}

// Plans six jobs of a transaction from a first tick on, each a period and at most so many ticks more after the one before.
// It answers how many were planned.
fn plan_some(core: &mut AdmittedCore, tx: u32, period: Tick, slack: u64, seed: &mut u64) -> u64 {
    let mut tick = random(seed, 40);
    let mut planned = 0u64;
    for _ in 0..6 {
        if (tx as usize) < core.set().txns().len() && core.plan(TxId(tx), tick).is_ok() {
            planned = planned.wrapping_add(1);
        }
        let gap = if slack == 0 { 0 } else { random(seed, slack) };
        tick = tick.wrapping_add(period).wrapping_add(gap);
    }
    planned
}

// The event that the state fixes; false where there is none. `done` counts the steps of each transaction's latest job.
fn turn(core: &mut AdmittedCore, done: &mut [(u32, u64)]) -> bool {
    let Some(job) = core.running() else {
        return match core.idle() {
            IdleReply::Advanced { .. } => true,
            _ => false,
        };
    };
    let at = job.tx.0 as usize;
    if at >= done.len() || at >= core.set().txns().len() {
        return false;
    }
    if done[at].0 != job.serial {
        done[at] = (job.serial, 0);
    }
    if let StepReply::Done { .. } = core.step(job, op_of(job.tx, done[at].1)) {
        done[at].1 = done[at].1.wrapping_add(1);
    }
    true
}

// So many turns at most.
fn run(core: &mut AdmittedCore, turns: u32) {
    let mut done = [(0, 0); 3];
    for _ in 0..turns {
        if !turn(core, &mut done) {
            break;
        }
    }
}

// The tick for which a job was planned.
fn release_of(entries: &[Entry], job: JobId) -> Option<Tick> {
    let mut serial = 0u32;
    for entry in entries {
        if let Entry::Planned { tx, tick } = entry {
            if tx.0 == job.tx.0 {
                if serial == job.serial {
                    return Some(*tick);
                }
                serial = serial.wrapping_add(1);
            }
        }
    }
    None
}

// How many jobs ended by their release plus the response, and not late. A job that is cancelled while another one runs has
// no entry, and is not counted.
fn ended_in_time(entries: &[Entry], set: &AdmittedSet) -> u64 {
    let mut count = 0u64;
    for entry in entries {
        if let Entry::Step {
            job,
            over: Some(end),
            tick,
            ..
        } = entry
        {
            if *end != End::Late && (job.tx.0 as usize) < set.set().txns().len() {
                if let Some(release) = release_of(entries, *job) {
                    if tick.wrapping_sub(release) < set.response(job.tx) {
                        count = count.wrapping_add(1);
                    }
                }
            }
        }
    }
    count
}

#[test]
fn nobody_is_late(rt: HostRuntime) -> Result<(), Fail> {
    let alloc = rt.alloc();
    for list in 0..40u64 {
        let mut core = base(alloc)?;
        let mut seed = list;
        // every other list is sporadic
        let slack = if list % 2 == 0 { 0 } else { 17 };
        let mut planned = 0u64;
        for tx in 0..3u32 {
            let period = PERIODS[tx as usize];
            planned = planned.wrapping_add(plan_some(&mut core, tx, period, slack, &mut seed));
        }
        assert_eq!(rt; planned, 18);
        run(&mut core, 4000);
        assert_eq!(rt; core.planned(), 0);
        assert_eq!(rt; ended_in_time(core.entries(), core.admitted()), 18);
    }
    Ok(())
}

// The greatest age that a read of the first item has at the commit of its job, in a list of one job after another.
fn greatest_age(entries: &[Entry]) -> Tick {
    let mut stamps = [None; 3];
    let mut age: Tick = 0;
    for entry in entries {
        if let Entry::Step {
            job,
            op,
            outcome,
            over,
            tick,
        } = entry
        {
            let at = job.tx.0 as usize;
            if at < stamps.len() {
                if let (Op::Read(ItemId(0)), Outcome::Got { stamp, .. }) = (*op, *outcome) {
                    stamps[at] = stamp;
                }
                if let (Some(End::Committed), Some(stamp)) = (*over, stamps[at]) {
                    age = age.max(tick.wrapping_add(1).wrapping_sub(stamp));
                    stamps[at] = None;
                }
            }
        }
    }
    age
}

#[test]
fn reads_are_young(rt: HostRuntime) -> Result<(), Fail> {
    let mut core = base(rt.alloc())?;
    let plans = [(0, 0), (0, 10), (0, 20), (0, 30), (1, 0), (1, 20), (2, 0)];
    for (tx, tick) in plans {
        if tx < core.set().txns().len() {
            assert!(rt; core.plan(TxId(tx as u32), tick).is_ok());
        }
    }
    run(&mut core, 100);
    assert_eq!(rt; core.entries().len(), 32);
    assert_eq!(rt; core.now(), 32);
    // the bound is 17: a period of 10 and a response of 7
    assert_eq!(rt; greatest_age(core.entries()), 12);
    Ok(())
}
