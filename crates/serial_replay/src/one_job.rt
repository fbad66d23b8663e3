//! The delay of one job, from the entries alone.
ghost use Rattle.std.specs.Prelude.{◌≡◌, ◌↔◌, None};
ghost use Rattle.step_journal.specs.State.{prio_of as level_of, same_job};
ghost use Rattle.step_journal.specs.Timing.{planned_tick_in, delayer_in};
ghost use Rattle.step_journal.specs.History.{IsLegal};
ghost use Rattle.law_histories.specs.Protocol.{DelayedByOne};
ghost use Rattle.job_rows.specs.Rows.{delay_of};
ghost use Rattle.serial_replay.specs.Spans.{WasReleased, release_in, ends_at, end_in, delay_between, is_early, AreEarly};

use job_rows::Delay;
use law_histories::one_delay;
use rt_base::{JobId, Prio, Tick, TxId};
use step_journal::Entry;
use txn_set::CompiledSet;

// The tick of a plan of this transaction.
fn planned_tick(entry: Entry, tx: TxId) -> Option<Tick>
    ensures { result ≡ planned_tick_in tx.0 entry }
{
    match entry {
        Entry::Planned { tx: by, tick } => { if by.0 == tx.0 { Some(tick) } else { None } }
        _ => None,
    }
}

// The tick for which a job was planned; 0 where it was not.
fn release_of(entries: &[Entry], job: JobId) -> Tick
    ensures { result ≡ release_in entries.now job }
{
    let mut left = job.serial;
    for entry in entries {
        if let Some(tick) = planned_tick(*entry, job.tx) {
            if left == 0 {
                return tick;
            }
            left -= 1;
        }
    }
    0
}

fn is_job(a: JobId, b: JobId) -> bool
    ensures { result ≡ same_job a b }
{
    a.tx.0 == b.tx.0 && a.serial == b.serial
}

// The tick at which a step of the job ended it.
fn step_end(entry: Entry, job: JobId) -> Option<Tick>
    requires { is_early entry }
    ensures { result ≡ ends_at job entry }
{
    match entry {
        Entry::Step {
            job: by,
            over,
            tick,
            ..
        } => {
            if is_job(by, job) && over.is_some() {
                Some(tick + 1)
            } else {
                None
            }
        }
        _ => None,
    }
}

// The tick at which a step of the job ended it, or else its deadline.
fn end_of(entries: &[Entry], job: JobId, deadline: Tick) -> Tick
    requires { AreEarly entries.now }
    ensures { result ≡ end_in entries.now job deadline }
{
    for entry in entries {
        if let Some(tick) = step_end(*entry, job) {
            return tick;
        }
    }
    deadline
}

fn prio_of(set: &CompiledSet, job: JobId) -> Prio
    ensures { result ≡ level_of set.now job }
{
    let txns = set.txns();
    let at = job.tx.0 as usize;
    if at < txns.len() { txns[at].prio } else { 0 }
}

// The lower job of a step from one tick up to another.
fn delayer(set: &CompiledSet, entry: Entry, job: JobId, from: Tick, to: Tick) -> Option<JobId>
    ensures { result ≡ delayer_in set.now job (record { from = from; to = to }) entry }
{
    match entry {
        Entry::Step { job: by, tick, .. } => {
            if prio_of(set, by) < prio_of(set, job) && from <= tick && tick < to {
                Some(by)
            } else {
                None
            }
        }
        _ => None,
    }
}

fn between(set: &CompiledSet, entries: &[Entry], job: JobId, from: Tick, to: Tick) -> Delay
    ensures { result ≡ delay_between set.now entries.now job from to }
{
    let mut by: Option<JobId> = None;
    let mut ticks: Tick = 0;
    for entry in entries {
        if let Some(lower) = delayer(set, *entry, job, from, to) {
            by = Some(by.unwrap_or(lower));
            ticks += 1;
        }
    }
    Delay { by, ticks }
}

/// The delay of a job: the ticks that lower jobs used from its release to its end, or to the last instant, and the one job
/// that used them. It takes no memory, and goes three times over the entries.
pub fn delay(set: &CompiledSet, entries: &[Entry], job: JobId) -> Delay
    requires legal { IsLegal set.now entries.now }
    requires released { WasReleased set.now entries.now job }
    ensures delay { result ≡ delay_of set.now entries.now job }
    ensures nobody { (result.by ≡ None) ↔ (result.ticks ≡ 0) }
    ensures one { DelayedByOne set.now entries.now job }
{
    set.is_compiled();
    one_delay();
    let from = release_of(entries, job);
    let deadline = set.txn(job.tx).deadline;
    let to = end_of(entries, job, from + deadline);
    between(set, entries, job, from, to)
}
