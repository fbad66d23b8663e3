//! Two transactions that read and write nothing, with bodies that always compute or always quit.
ghost use Rattle.std.specs.Prelude.{◌≡◌, ◌≤◌, ◌^◌, ◌∷◌, [], length, true, IfOk, IfSome};
ghost use Rattle.plain_core.specs.Stands.{Stands};
ghost use Rattle.law_histories.specs.Counting.{room_of_jobs};
ghost use Rattle.sim_run.specs.Workloads.{AreSpaced, AreAccepted, ticks_of};
ghost use Rattle.sim_run.specs.Steady.{steady_txn as steady_of, steady_txns, steady_set as set_of_two};

use plain_core::PlainCore;
use rt_base::{List, Op, OutOfMemory, Outcome, Prio, Tick};
use std::alloc::Global;
use step_script::Body;
use test_sets::plain_txn;
use txn_set::{CompiledSet, TxnDecl};

const LATEST: Tick = 1_099_511_627_776;

/// A body that always computes, or always quits.
#[derive(Clone, Copy)]
pub struct Steady {
    pub computes: bool,
}

impl Body for Steady {
    ghost use Rattle.std.specs.Prelude.{◌≡◌};
    ghost use Rattle.sim_run.specs.Steady.{steady_op};

    ghost gives = { λ b serial outcomes. steady_op b.computes };

    ghost stands = { λ b serial outcomes. b ≡ b };

    fn begin(&mut self, _serial: u32) {}

    fn next(&self) -> Op {
        if self.computes { Op::Compute } else { Op::Quit }
    }

    fn told(&mut self, _outcome: Outcome) {}
}

fn steady_txn(alloc: Global, prio: Prio, period: Tick) -> TxnDecl
    ensures { result ≡ steady_of prio period }
{
    let (reads, writes) = (List::of(Vec::new(alloc)), List::of(Vec::new(alloc)));
    plain_txn(prio, period, 2, reads, writes)
}

fn set_of(alloc: Global, txns: Vec<TxnDecl>) -> CompiledSet
    requires { txns.items ≡ steady_txns }
    ensures { result ≡ set_of_two }
{
    CompiledSet::of(Vec::new(alloc), txns, Vec::new(alloc), Vec::new(alloc))
}

fn steady_set(alloc: Global) -> Result<CompiledSet, OutOfMemory>
    ensures { IfOk result (λ s. s ≡ set_of_two) }
{
    let mut txns = Vec::with_capacity(alloc, 2)?;
    txns.push_reserved(steady_txn(alloc, 2, 4));
    txns.push_reserved(steady_txn(alloc, 1, 8));
    Ok(set_of(alloc, txns))
}

/// A board of two transactions, whose history is empty.
pub fn new_board(alloc: Global, room: usize) -> Result<PlainCore, OutOfMemory>
    requires { room ≤ 2 ^ 20 }
    ensures stands { IfOk result (λ c. Stands c []) }
    ensures set { IfOk result (λ c. c.set ≡ set_of_two) }
    ensures room { IfOk result (λ c. c.journal.room ≡ room) }
{
    let set = steady_set(alloc)?;
    match PlainCore::new(alloc, set, room) {
        Ok(core) => Ok(core),
        Err((set, error)) => {
            drop(set);
            Err(error)
        }
    }
}

// So many ticks, each a period after the one before.
fn ticks(alloc: Global, period: Tick, jobs: usize) -> Result<List<Tick>, OutOfMemory> {
    let mut ticks = Vec::new(alloc);
    let mut tick: Tick = 0;
    for _ in 0..jobs {
        ticks.push(tick)?;
        tick = tick.saturating_add(period);
    }
    Ok(List::of(ticks))
}

fn are_spaced(period: Tick, ticks: &[Tick]) -> bool
    requires { period ≤ 2 ^ 40 }
    ensures { result ≡ true → AreSpaced period 0 ticks.now }
{
    let mut from: Tick = 0;
    for tick in ticks {
        if *tick < from {
            return false;
        }
        if *tick > LATEST {
            return false;
        }
        from = *tick + period;
    }
    true
}

// Whether a run of these releases may be planned, and is short.
fn are_accepted(fast: &[Tick], slow: &[Tick]) -> bool
    ensures accepted { result ≡ true → AreAccepted set_of_two (fast.now ∷ slow.now ∷ []) }
    ensures short { result ≡ true → room_of_jobs set_of_two.txns (λ tx. length (ticks_of (fast.now ∷ slow.now ∷ []) tx)) ≤ 20000 }
{
    if fast.len() > 2000 {
        return false;
    }
    if slow.len() > 2000 {
        return false;
    }
    if !are_spaced(4, fast) {
        return false;
    }
    are_spaced(8, slow)
}

// A list of both.
fn both(alloc: Global, fast: List<Tick>, slow: List<Tick>) -> Result<Vec<List<Tick>>, OutOfMemory>
    ensures { IfOk result (λ v. v.items ≡ fast ∷ slow ∷ []) }
{
    let mut both = Vec::with_capacity(alloc, 2)?;
    both.push_reserved(fast);
    both.push_reserved(slow);
    Ok(both)
}

/// The releases of so many jobs of the fast transaction and of the slow one. None where they are not spaced, or the run is
/// long.
pub fn releases(
    alloc: Global,
    fast: usize,
    slow: usize,
) -> Result<Option<Vec<List<Tick>>>, OutOfMemory>
    ensures accepted { IfOk result (λ r. IfSome r (λ v. AreAccepted set_of_two v.items)) }
    ensures short { IfOk result (λ r. IfSome r (λ v. room_of_jobs set_of_two.txns (λ tx. length (ticks_of v.items tx)) ≤ 20000)) }
{
    let fast = ticks(alloc, 4, fast)?;
    let slow = ticks(alloc, 8, slow)?;
    let accepted = are_accepted(fast.as_slice(), slow.as_slice());
    let both = both(alloc, fast, slow)?;
    if accepted {
        Ok(Some(both))
    } else {
        drop(both);
        Ok(None)
    }
}
