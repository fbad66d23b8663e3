//! The greatest age of each item at the end of the committed jobs that had read it.
ghost use Rattle.std.specs.Prelude.{◌≡◌, ◌<◌, ◌^◌, length, replicate, IfOk, OnOk, [], None};
ghost use Rattle.std.specs.List.{All};
ghost use Rattle.step_journal.specs.Timing.{outside_read as outside_read_of};
ghost use Rattle.report_export.specs.Worsts.{commit_tick as commit_tick_of};
ghost use Rattle.report_export.specs.Ages.{with_place, with_tick, commit_at as commit_at_job, with_commit, commits_in, with_age, with_end_of, with_read, with_entry, worst_ages};

use crate::tally::at_least;
use item_model::OutsideRead;
use job_rows::JobRow;
use rt_base::{End, JobId, List, Op, OutOfMemory, Outcome, Tick};
use std::alloc::Global;
use std::mem;
use step_journal::Entry;

// The tick of an end, if it is a commit.
fn commit_tick(end: Option<(End, Tick)>) -> Option<Tick>
    ensures { result ≡ commit_tick_of end }
{
    match end {
        Some((End::Committed, tick)) => Some(tick),
        _ => None,
    }
}

fn reach(ticks: &mut Vec<Option<Tick>>, at: usize) -> Result<(), OutOfMemory>
    requires { at < 2 ^ 32 }
    ensures items { OnOk result (ticks.new.items ≡ with_place ticks.old.items at) }
    ensures long { OnOk result (at < length ticks.new.items) }
{
    if at < ticks.len() {
        return Ok(());
    }
    ticks.resize(at + 1, None)?;
    Ok(())
}

fn put_tick(ticks: &mut Vec<Option<Tick>>, at: usize, tick: Option<Tick>) -> Result<(), OutOfMemory>
    requires { at < 2 ^ 32 }
    ensures { OnOk result (ticks.new.items ≡ with_tick ticks.old.items at tick) }
{
    reach(ticks, at)?;
    ticks[at] = tick;
    Ok(())
}

fn note_tick(
    alloc: Global,
    ticks: &mut List<Option<Tick>>,
    at: usize,
    tick: Option<Tick>,
) -> Result<(), OutOfMemory>
    requires { at < 2 ^ 32 }
    ensures { OnOk result (ticks.new ≡ with_tick ticks.old at tick) }
{
    let mut own = mem::replace(ticks, List::of(Vec::new(alloc))).into_vec();
    put_tick(&mut own, at, tick)?;
    *ticks = List::of(own);
    Ok(())
}

fn note(alloc: Global, commits: &mut [List<Option<Tick>>], row: &JobRow) -> Result<(), OutOfMemory>
    requires { row.now.job.tx.0 < length commits.old }
    ensures { OnOk result (commits.new ≡ with_commit commits.old row.now) }
{
    let ticks = &mut commits[row.job.tx.0 as usize];
    note_tick(alloc, ticks, row.job.serial as usize, commit_tick(row.end))
}

#[tactic(auto, using(std::proofs::lemmas::List::replicate_more))]
fn no_commits(alloc: Global, txns: usize) -> Result<Vec<List<Option<Tick>>>, OutOfMemory>
    ensures { IfOk result (λ commits. commits.items ≡ replicate txns []) }
{
    let mut commits = Vec::new(alloc);
    for _ in 0..txns {
        commits.push(List::of(Vec::new(alloc)))?;
    }
    Ok(commits)
}

/// The ticks at which jobs committed, by transaction and serial: those of the rows, each of which is gone through once.
pub(crate) fn commits(
    alloc: Global,
    txns: usize,
    rows: &[JobRow],
) -> Result<Vec<List<Option<Tick>>>, OutOfMemory>
    requires { All (λ row. row.job.tx.0 < txns) rows.now }
    ensures { IfOk result (λ commits. commits.items ≡ commits_in txns rows.now) }
{
    let mut commits = no_commits(alloc, txns)?;
    for i in (0..rows.len()).rev() {
        note(alloc, commits.as_mut_slice(), &rows[i])?;
    }
    Ok(commits)
}

fn commit_at(commits: &[List<Option<Tick>>], job: JobId) -> Option<Tick>
    ensures { result ≡ commit_at_job commits.now job }
{
    let at = job.tx.0 as usize;
    if at >= commits.len() {
        return None;
    }
    let ticks = commits[at].as_slice();
    let serial = job.serial as usize;
    if serial < ticks.len() {
        ticks[serial]
    } else {
        None
    }
}

// What a job read from outside by a step.
fn outside_read(op: Op, outcome: Outcome) -> Option<OutsideRead>
    ensures { result ≡ outside_read_of op outcome }
{
    match op {
        Op::Read(item) => match outcome {
            Outcome::Got {
                stamp: Some(stamp),
                ..
            } => Some(OutsideRead { item, stamp }),
            _ => None,
        },
        _ => None,
    }
}

fn put_age(worsts: &mut [Option<Tick>], item: usize, age: Tick)
    ensures { worsts.new ≡ with_age worsts.old item age }
{
    if item < worsts.len() {
        worsts[item] = Some(at_least(age, worsts[item]));
    }
}

fn put_read(
    worsts: &mut [Option<Tick>],
    commits: &[List<Option<Tick>>],
    job: JobId,
    read: OutsideRead,
)
    ensures { worsts.new ≡ with_end_of worsts.old read (commit_at_job commits.now job) }
{
    if let Some(tick) = commit_at(commits, job) {
        put_age(
            worsts,
            read.item.0 as usize,
            tick.saturating_sub(read.stamp),
        );
    }
}

fn put_step(
    worsts: &mut [Option<Tick>],
    commits: &[List<Option<Tick>>],
    job: JobId,
    read: Option<OutsideRead>,
)
    ensures { worsts.new ≡ with_read commits.now worsts.old job read }
{
    if let Some(read) = read {
        put_read(worsts, commits, job, read);
    }
}

#[inline(always)]
fn put_entry(worsts: &mut [Option<Tick>], commits: &[List<Option<Tick>>], entry: &Entry)
    ensures { worsts.new ≡ with_entry commits.now worsts.old entry.now }
{
    match *entry {
        Entry::Step {
            job,
            op,
            outcome,
            ..
        } => put_step(worsts, commits, job, outside_read(op, outcome)),
        _ => {}
    }
}

fn no_ages(alloc: Global, items: usize) -> Result<Vec<Option<Tick>>, OutOfMemory>
    ensures { IfOk result (λ worsts. worsts.items ≡ replicate items None) }
{
    let mut worsts = Vec::new(alloc);
    worsts.resize(items, None)?;
    Ok(worsts)
}

/// The greatest age of each of so many items, by the commits, in one pass over the entries.
pub(crate) fn ages(
    alloc: Global,
    items: usize,
    commits: &[List<Option<Tick>>],
    entries: &[Entry],
) -> Result<Vec<Option<Tick>>, OutOfMemory>
    ensures { IfOk result (λ worsts. worsts.items ≡ worst_ages items commits.now entries.now) }
{
    let mut worsts = no_ages(alloc, items)?;
    for i in (0..entries.len()).rev() {
        put_entry(worsts.as_mut_slice(), commits, &entries[i]);
    }
    Ok(worsts)
}
