//! Jobs and releases.
ghost use Rattle.std.specs.Prelude.{◌≡◌, ◌≤◌, ◌<◌, ◌+◌, ◌-◌, ◌*◌, ◌^◌, IfNone, IfSome, IsTrue, None, length, map, min};
ghost use Rattle.std.specs.List.{All};
ghost use Rattle.txn_set.specs.Ceilings.{greatest};
ghost use Rattle.step_script.specs.Shown.{shown};
ghost use Rattle.step_script.specs.Releases.{jobs_of, eager_of, ticks_of, is_eager, total_jobs as total_jobs_of, eager_jobs as eager_jobs_of, refused_tick, refused_from, bad_release as bad_release_of, fixed_ticks, entries_of, entries_in, room_of, eager_end as eager_end_of};
ghost use Rattle.step_script.specs.Scenarios.{HasTextTimes};
ghost use Rattle.scenario_reader.specs.Planning.{tick_refusal};

use rt_base::{PlanRefused, Tick};
use step_script::{Releases, Scenario};
use txn_set::TxnDecl;

const LAST_TICK: Tick = 1 << 40;

// How many jobs there are.
fn jobs(releases: &Releases) -> u64
    ensures { result ≡ jobs_of releases.now }
{
    match releases {
        Releases::At(ticks) => ticks.as_slice().len() as u64,
        Releases::Jobs(n) | Releases::Eager(n) => u64::from(*n),
    }
}

/// The number of all jobs, and 2^64 - 1 where there are more. A step for each transaction.
pub fn total_jobs(releases: &[Releases]) -> u64
    ensures { result ≡ min (total_jobs_of releases.now) (2 ^ 64 - 1) }
{
    let mut total = 0u64;
    for one in releases {
        total = total.saturating_add(jobs(one));
    }
    total
}

// Why a tick may not be planned where this one is the earliest.
fn refused(earliest: Tick, tick: Tick) -> Option<PlanRefused>
    ensures same { result ≡ tick_refusal earliest tick }
    ensures near { IfNone result (tick ≤ 2 ^ 40) }
{
    if tick < earliest {
        Some(PlanRefused::TooSoon { earliest })
    } else if LAST_TICK < tick {
        Some(PlanRefused::TooFar { limit: LAST_TICK })
    } else {
        None
    }
}

// The first of a transaction's ticks that may not be planned. A step for each tick.
fn refused_in(txn: &TxnDecl, releases: &Releases) -> Option<(u32, PlanRefused)>
    requires few { jobs_of releases.now ≤ 65536 }
    requires times { HasTextTimes txn.now }
    ensures { result ≡ refused_tick 0 0 txn.now.period (ticks_of txn.now releases.now) }
{
    if releases.is_eager() {
        return None;
    }
    let mut earliest = 0;
    for index in 0..releases.jobs() {
        let tick = releases.tick(txn, index);
        if let Some(cause) = refused(earliest, tick) {
            return Some((index, cause));
        }
        earliest = tick + txn.period;
    }
    None
}

// The first tick of all transactions that may not be planned: its transaction, its place there, and why.
fn first_refused(txns: &[TxnDecl], releases: &[Releases]) -> Option<(usize, u32, PlanRefused)>
    requires each { length releases.now ≡ length txns.now }
    requires few { total_jobs_of releases.now ≤ 65536 }
    requires times { All HasTextTimes txns.now }
    ensures first { result ≡ refused_from 0 txns.now releases.now }
    ensures within { IfSome result (λ bad. bad.0 < length txns.now) }
{
    for (tx, txn) in txns.iter().enumerate() {
        if let Some((index, cause)) = refused_in(txn, &releases[tx]) {
            return Some((tx, index, cause));
        }
    }
    None
}

/// The first release that may not be planned: its transaction, its index, and why. A step for each job.
pub fn bad_release(scenario: &Scenario) -> Option<(usize, u32, PlanRefused)>
    requires each { length scenario.now.releases ≡ length scenario.now.txns }
    requires few { total_jobs_of scenario.now.releases ≤ 65536 }
    requires times { All HasTextTimes scenario.now.txns }
    ensures first { result ≡ bad_release_of (shown scenario.now) }
    ensures within { IfSome result (λ bad. bad.0 < length scenario.now.txns) }
{
    first_refused(scenario.txns.as_slice(), scenario.releases.as_slice())
}

// The entries that the jobs of a transaction may have.
fn entries(jobs: u64, steps: u64) -> u64
    requires jobs { jobs ≤ 65536 }
    requires steps { steps ≤ 2 ^ 40 }
    ensures { result ≡ entries_of jobs steps }
{
    jobs + jobs * (steps + 2)
}

// The entries that all jobs may have.
fn all_entries(txns: &[TxnDecl], releases: &[Releases]) -> u64
    requires each { length releases.now ≡ length txns.now }
    requires few { total_jobs_of releases.now ≤ 65536 }
    requires times { All HasTextTimes txns.now }
    ensures same { result ≡ entries_in txns.now releases.now }
    ensures fits { result ≤ 65536 * (2 ^ 40 + 3) }
{
    let mut total = 0;
    for (tx, txn) in txns.iter().enumerate() {
        total += entries(jobs(&releases[tx]), txn.steps);
    }
    total
}

/// The room: more entries than a run has. A step for each transaction.
pub fn room(scenario: &Scenario) -> u64
    requires each { length scenario.now.releases ≡ length scenario.now.txns }
    requires few { total_jobs_of scenario.now.releases ≤ 65536 }
    requires times { All HasTextTimes scenario.now.txns }
    ensures { result ≡ room_of (shown scenario.now) }
{
    all_entries(scenario.txns.as_slice(), scenario.releases.as_slice()) + 2
}

// The greatest fixed tick of a transaction.
fn last_tick(txn: &TxnDecl, releases: &Releases) -> Tick
    requires few { jobs_of releases.now ≤ 65536 }
    requires times { HasTextTimes txn.now }
    ensures { result ≡ greatest (ticks_of txn.now releases.now) }
{
    if releases.is_eager() {
        return 0;
    }
    let mut last = 0;
    for index in 0..releases.jobs() {
        last = releases.tick(txn, index).max(last);
    }
    last
}

// The greatest fixed tick of all.
fn last_of_all(txns: &[TxnDecl], releases: &[Releases]) -> Tick
    requires each { length releases.now ≡ length txns.now }
    requires few { total_jobs_of releases.now ≤ 65536 }
    requires times { All HasTextTimes txns.now }
    ensures { result ≡ greatest (map greatest (fixed_ticks txns.now releases.now)) }
{
    let mut last = 0;
    for (tx, txn) in txns.iter().enumerate() {
        last = last_tick(txn, &releases[tx]).max(last);
    }
    last
}

fn eager(releases: &Releases) -> u64
    ensures { result ≡ eager_of releases.now }
{
    match releases {
        Releases::Eager(n) => u64::from(*n),
        Releases::At(_) | Releases::Jobs(_) => 0,
    }
}

// The number of all eager jobs.
fn eager_jobs(releases: &[Releases]) -> u64
    requires few { total_jobs_of releases.now ≤ 65536 }
    ensures same { result ≡ eager_jobs_of releases.now }
    ensures few { result ≤ 65536 }
{
    let mut total = 0;
    for one in releases {
        total += eager(one);
    }
    total
}

// The greatest period.
fn longest_period(txns: &[TxnDecl]) -> Tick
    requires times { All HasTextTimes txns.now }
    ensures same { result ≡ greatest (map (λ t. t.period) txns.now) }
    ensures fits { result ≤ 2 ^ 40 }
{
    let mut longest = 0;
    for txn in txns {
        longest = txn.period.max(longest);
    }
    longest
}

/// The greatest fixed tick and, for each eager job, the greatest period of a transaction. A step for each job that is
/// not eager, and for each transaction.
pub fn eager_end(scenario: &Scenario) -> Tick
    requires each { length scenario.now.releases ≡ length scenario.now.txns }
    requires few { total_jobs_of scenario.now.releases ≤ 65536 }
    requires times { All HasTextTimes scenario.now.txns }
    requires planned { bad_release_of (shown scenario.now) ≡ None }
    ensures { result ≡ eager_end_of (shown scenario.now) }
{
    let txns = scenario.txns.as_slice();
    let releases = scenario.releases.as_slice();
    last_of_all(txns, releases) + eager_jobs(releases) * longest_period(txns)
}
