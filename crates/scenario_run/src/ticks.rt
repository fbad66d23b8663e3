//! The fixed releases of a scenario, and its eager jobs.
ghost use Rattle.std.specs.Prelude.{◌≡◌, ◌≤◌, length, map, IfOk};
ghost use Rattle.std.specs.List.{All, sum};
ghost use Rattle.step_script.specs.Releases.{jobs_of, eager_of, ticks_of, total_jobs, fixed_ticks};
ghost use Rattle.step_script.specs.Scenarios.{HasTextTimes};

use rt_base::{List, OutOfMemory, Tick};
use std::alloc::Global;
use step_script::Releases;
use txn_set::TxnDecl;

// So many periodic releases.
fn periodic(alloc: Global, txn: &TxnDecl, jobs: u32) -> Result<List<Tick>, OutOfMemory>
    requires times { HasTextTimes txn.now }
    requires few { jobs ≤ 65536 }
    ensures { IfOk result (λ l. l ≡ ticks_of txn.now (Releases.Jobs jobs)) }
{
    let mut ticks = Vec::with_capacity(alloc, jobs as usize)?;
    for k in 0..u64::from(jobs) {
        ticks.push(txn.periodic_release(k))?;
    }
    Ok(List::of(ticks))
}

// The fixed ticks of one transaction.
fn fixed(alloc: Global, txn: &TxnDecl, releases: &Releases) -> Result<List<Tick>, OutOfMemory>
    requires times { HasTextTimes txn.now }
    requires few { jobs_of releases.now ≤ 65536 }
    ensures { IfOk result (λ l. l ≡ ticks_of txn.now releases.now) }
{
    match releases {
        Releases::At(ticks) => Ok(List::of(Vec::from_slice(alloc, ticks.as_slice())?)),
        Releases::Jobs(jobs) => periodic(alloc, txn, *jobs),
        Releases::Eager(_) => Ok(List::of(Vec::new(alloc))),
    }
}

/// The fixed ticks of each transaction.
pub(crate) fn all_fixed(
    alloc: Global,
    txns: &[TxnDecl],
    releases: &[Releases],
) -> Result<Vec<List<Tick>>, OutOfMemory>
    requires times { All HasTextTimes txns.now }
    requires few { total_jobs releases.now ≤ 65536 }
    requires each { length releases.now ≡ length txns.now }
    ensures { IfOk result (λ ticks. ticks.items ≡ fixed_ticks txns.now releases.now) }
{
    let mut ticks = Vec::with_capacity(alloc, txns.len())?;
    for i in 0..txns.len() {
        ticks.push(fixed(alloc, &txns[i], &releases[i])?)?;
    }
    Ok(ticks)
}

/// How many ticks there are in all.
pub(crate) fn count(ticks: &[List<Tick>]) -> usize
    requires { sum (map length ticks.now) ≤ 65536 }
    ensures { result ≡ sum (map length ticks.now) }
{
    let mut count = 0;
    for list in ticks {
        count += list.as_slice().len();
    }
    count
}

fn eager_count(releases: &Releases) -> u32
    ensures { result ≡ eager_of releases.now }
{
    match releases {
        Releases::Eager(jobs) => *jobs,
        Releases::At(_) | Releases::Jobs(_) => 0,
    }
}

/// How many jobs each transaction plans itself.
pub(crate) fn eager_jobs_of_all(
    alloc: Global,
    releases: &[Releases],
) -> Result<Vec<u32>, OutOfMemory>
    ensures { IfOk result (λ eager_jobs. eager_jobs.items ≡ map eager_of releases.now) }
{
    let mut eager_jobs = Vec::with_capacity(alloc, releases.len())?;
    for list in releases {
        eager_jobs.push(eager_count(list))?;
    }
    Ok(eager_jobs)
}

/// How many jobs the transactions plan themselves in all.
pub(crate) fn count_eager_jobs(eager_jobs: &[u32]) -> usize
    requires { sum eager_jobs.now ≤ 65536 }
    ensures { result ≡ sum eager_jobs.now }
{
    let mut count = 0;
    for jobs in eager_jobs {
        count += *jobs as usize;
    }
    count
}
