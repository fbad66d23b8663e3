//! The response test of the transactions that have no priority yet, at the level above the placed ones.
ghost use Rattle.std.specs.Prelude.{◌≡◌, ◌+◌, ◌<◌, ◌≤◌, ◌^◌, ◌==◌, ◌&&◌, not, length, map, true, false, if◌then◌else◌, IfOk};
ghost use Rattle.txn_set.specs.Set.{IsCompiled};
ghost use Rattle.txn_set.specs.Ceilings.{blocking as blocking_at};
ghost use Rattle.law_times.specs.Response.{demand};
ghost use Rattle.law_times.specs.Pass.{prio_at, is_placed, passes as passes_at, first_passing as first_passing_at, left};
ghost use Rattle.txn_priorities.specs.Limits.{limit_of as limit_in, limit};
ghost use Rattle.txn_priorities.specs.Around.{around_set, trial_set, StandForHigher};
ghost use Rattle.txn_priorities.specs.Answers.{unplaced};

use crate::blocking::{blocking_above, is_free};
use crate::refusal::Unplaced;
use response_test::Loads;
use rt_base::{OutOfMemory, Prio, Steps, Tick, TxId};
use std::alloc::Global;
use std::sync::ledger::Ledger;
use txn_set::CompiledSet;

// The level above the placed transactions, with the blocking at it.
#[derive(Clone, Copy)]
struct Level<'a> {
    set: &'a CompiledSet,
    prios: &'a [Prio],
    blocking: u64,
}

// Whether a transaction stands above `tx`: another one without a priority.
fn is_above(prios: &[Prio], other: usize, tx: usize) -> bool
    requires { other < length prios.now }
    ensures { result ≡ (not (other == tx) && not (is_placed prios.now other)) }
{
    other != tx && is_free(prios, other)
}

// The loads of those above `tx`.
fn loads_above(
    alloc: Global,
    set: &CompiledSet,
    prios: &[Prio],
    tx: usize,
) -> Result<Loads, OutOfMemory>
    requires compiled { IsCompiled set.now }
    requires one_each { length prios.now ≡ length set.now.txns }
    requires free { is_placed prios.now tx ≡ false }
    ensures { IfOk result (StandForHigher set.now prios.now tx) }
{
    let mut loads = Loads::new(alloc, prios.len())?;
    for other in 0..prios.len() {
        if is_above(prios, other, tx) {
            let txn = set.txn(TxId(other as u32));
            loads.add(txn.steps, txn.period)?;
        }
    }
    Ok(loads)
}

// What `tx`, its blocking and those above it may take of so many ticks.
fn demand_of(level: Level, tx: usize, ticks: Tick) -> u64
    requires compiled { IsCompiled level.set.now }
    requires one_each { length level.prios.now ≡ length level.set.now.txns }
    requires tx { tx < length level.set.now.txns }
    requires free { is_placed level.prios.now tx ≡ false }
    requires blocking { level.blocking ≡ blocking_at (around_set level.set.now level.prios.now) 2 }
    requires few { level.blocking ≤ 9999 }
    requires ticks { ticks ≤ 2 ^ 30 }
    ensures { result ≡ demand (trial_set level.entry.set.now level.entry.prios.now tx) tx ticks }
{
    let Level {
        set,
        prios,
        blocking,
    } = level;
    let mut total = set.txn(TxId(tx as u32)).steps + blocking;
    for other in 0..prios.len() {
        if is_above(prios, other, tx) {
            let txn = set.txn(TxId(other as u32));
            total += ticks.div_ceil(txn.period) * txn.steps;
        }
    }
    total
}

// Whether a window that was found for another transaction holds what `tx` may ask of it, and is within the limit.
fn is_held(level: Level, tx: usize, most: Tick, window: Tick) -> bool
    requires compiled { IsCompiled level.set.now }
    requires one_each { length level.prios.now ≡ length level.set.now.txns }
    requires tx { tx < length level.set.now.txns }
    requires free { is_placed level.prios.now tx ≡ false }
    requires blocking { level.blocking ≡ blocking_at (around_set level.set.now level.prios.now) 2 }
    requires few { level.blocking ≤ 9999 }
    requires most { most ≡ limit level.set.now tx }
    requires small { most ≤ 2 ^ 30 }
    ensures { result ≡ true → passes_at level.entry.set.now (limit level.entry.set.now) level.entry.prios.now tx ≡ true }
{
    if window == 0 || window > most {
        return false;
    }
    demand_of(level, tx, window) <= window
}

// Whether `tx`, which has no priority yet, has a response of at most so many ticks. One look. The window that was found last is tried
// first.
fn is_in_time<L: Ledger>(
    alloc: Global,
    level: Level,
    tx: usize,
    most: Tick,
    window: &mut Tick,
    steps: &mut Steps<L>,
) -> Result<bool, OutOfMemory>
    requires compiled { IsCompiled level.set.now }
    requires one_each { length level.prios.now ≡ length level.set.now.txns }
    requires tx { tx < length level.set.now.txns }
    requires free { is_placed level.prios.now tx ≡ false }
    requires blocking { level.blocking ≡ blocking_at (around_set level.set.now level.prios.now) 2 }
    requires few { level.blocking ≤ 9999 }
    requires most { most ≡ limit level.set.now tx }
    ensures passes { IfOk result (λ passed. passed ≡ passes_at level.entry.set.now (limit level.entry.set.now) level.entry.prios.now tx) }
    ensures look { steps.new ≡ steps.old + 1 }
{
    steps.look();
    if is_held(level, tx, most, *window) {
        return Ok(true);
    }
    let own = level.set.txn(TxId(tx as u32)).steps + level.blocking;
    let mut loads = loads_above(alloc, level.set, level.prios, tx)?;
    let found = loads.least_window(own, most);
    *window = found.unwrap_or(*window);
    Ok(found.is_some())
}

// Whether `tx` has no priority yet and passes. A look if it has none.
fn passes<L: Ledger>(
    alloc: Global,
    level: Level,
    tx: usize,
    most: Tick,
    window: &mut Tick,
    steps: &mut Steps<L>,
) -> Result<bool, OutOfMemory>
    requires compiled { IsCompiled level.set.now }
    requires one_each { length level.prios.now ≡ length level.set.now.txns }
    requires tx { tx < length level.set.now.txns }
    requires blocking { level.blocking ≡ blocking_at (around_set level.set.now level.prios.now) 2 }
    requires few { level.blocking ≤ 9999 }
    requires most { most ≡ limit level.set.now tx }
    ensures passes { IfOk result (λ passed. passed ≡ passes_at level.entry.set.now (limit level.entry.set.now) level.entry.prios.now tx) }
    ensures look { steps.new ≤ steps.old + (if prio_at level.entry.prios.now tx == 0 then 1 else 0) }
{
    if is_free(level.prios, tx) {
        is_in_time(alloc, level, tx, most, window, steps)
    } else {
        Ok(false)
    }
}

/// The first transaction in list order, of those that have no priority yet, which passes with all others of them above it; given
/// the limits in list order. A look for each that is tried.
///
/// It takes memory for the loads of each. Its time is that of `Loads::least_window` for each that is tried, and once of
/// the blocking. A window that was found for another transaction is tried first, since it often holds all at the next level.
pub fn first_passing<L: Ledger>(
    alloc: Global,
    set: &CompiledSet,
    limits: &[Tick],
    prios: &[Prio],
    window: &mut Tick,
    steps: &mut Steps<L>,
) -> Result<Option<usize>, OutOfMemory>
    requires one_each { length prios.now ≡ length set.now.txns }
    requires limits { limits.now ≡ map (limit_in set.now) set.now.txns }
    ensures first { IfOk result (λ found. found ≡ first_passing_at set.now (limit set.now) prios.now) }
    ensures looks { steps.new ≤ steps.old + left prios.now }
{
    set.is_compiled();
    let blocking = blocking_above(set, prios);
    let level = Level {
        set,
        prios,
        blocking,
    };
    for tx in 0..prios.len() {
        let passed = passes(alloc, level, tx, limits[tx], window, steps)?;
        if passed {
            return Ok(Some(tx));
        }
    }
    Ok(None)
}

/// The transactions that have no priority yet, in list order, each with its limit and its demand within it.
pub fn unplaced_of(
    alloc: Global,
    set: &CompiledSet,
    limits: &[Tick],
    prios: &[Prio],
) -> Result<Vec<Unplaced>, OutOfMemory>
    requires one_each { length prios.now ≡ length set.now.txns }
    requires limits { limits.now ≡ map (limit_in set.now) set.now.txns }
    ensures { IfOk result (λ rows. rows.items ≡ unplaced set.now prios.now) }
{
    set.is_compiled();
    let blocking = blocking_above(set, prios);
    let level = Level {
        set,
        prios,
        blocking,
    };
    let mut rows = Vec::with_capacity(alloc, prios.len())?;
    for tx in 0..prios.len() {
        if is_free(prios, tx) {
            let limit = limits[tx];
            let demand = demand_of(level, tx, limit);
            rows.push(Unplaced {
                tx: TxId(tx as u32),
                limit,
                demand,
            })?;
        }
    }
    Ok(rows)
}
