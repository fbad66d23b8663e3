//! The lanes of items with a validity: how old the value was that stood, and which commits had read it; and the bounds of jobs.
ghost use Rattle.std.specs.Prelude.{◌≡◌, ◌++◌, None, OnOk, IfOk, length};
ghost use Rattle.std.specs.Option.{option_to_list};
ghost use Rattle.std.specs.List.{find, filter, filter_map};
ghost use Rattle.item_model.specs.Kinds.{is_dated as is_dated_item};
ghost use Rattle.item_model.specs.Work.{of_reads, is_older as is_older_read, older as older_of, oldest, stamp_for};
ghost use Rattle.txn_set.specs.Set.{txn_of, may_write};
ghost use Rattle.step_journal.specs.Timing.{outside_read as read_by, read_in, outside_reads_of};
ghost use Rattle.schedule_marks.specs.Lanes.{commits as is_commit, commit_tick as tick_of_commit, install_tick as tick_of_install, stamp_by as stamp_by_job, stamp_of as stamp_of_value, or_start, start_of as start_of_value, age_span as span_of_age, age_until, spans_from, dated_below, age_spans_to, age_spans_of, read_of_item, read_at, read_in_part, age_reads_of, bound_at, bound_in, bounds_of};

use crate::held::is_job;
use crate::lists::{add, add_each};
use crate::part::{Part, Window, has_instant, meets};
use crate::whole::last_instant;
use item_model::{ItemDecl, OutsideRead, is_dated, is_derived};
use job_rows::JobRow;
use rt_base::{End, ItemId, JobId, Op, OutOfMemory, Outcome, Tick, TxId};
use std::alloc::Global;
use step_journal::Entry;
use txn_set::{CompiledSet, names_item};

/// A value of an item: its stamp, and the ticks from one up to another for which it stood. Its age in a tick is the tick less the
/// stamp.
#[derive(Clone, Copy, PartialEq, Eq, Debug)]
pub struct AgeSpan {
    pub item: ItemId,
    pub stamp: Tick,
    pub from: Tick,
    pub to: Tick,
}

/// A commit of a job that had read an item: the stamp that it had read, and the instant of the commit.
#[derive(Clone, Copy, PartialEq, Eq, Debug)]
pub struct AgeRead {
    pub item: ItemId,
    pub job: JobId,
    pub stamp: Tick,
    pub tick: Tick,
}

/// The instant at which a job has ended at the latest, by the response of its transaction.
#[derive(Clone, Copy, PartialEq, Eq, Debug)]
pub struct Bound {
    pub job: JobId,
    pub tick: Tick,
}

// A value of an item that stood up to a tick: that of a job, or the one at the start.
#[derive(Clone, Copy)]
struct Standing {
    item: ItemId,
    by: Option<JobRow>,
    to: Tick,
}

/// Whether an end is a commit.
pub fn commits(end: End) -> bool
    ensures { result ≡ is_commit end }
{
    matches!(end, End::Committed)
}

fn commit_tick(end: Option<(End, Tick)>) -> Option<Tick>
    ensures { result ≡ tick_of_commit end }
{
    let (end, tick) = end?;
    commits(end).then_some(tick)
}

fn writes(set: &CompiledSet, tx: TxId, item: ItemId) -> bool
    ensures { result ≡ may_write (txn_of set.now tx.0) item.0 }
{
    match set.txns().get(tx.0 as usize) {
        Some(txn) => names_item(txn.writes.as_slice(), item),
        None => false,
    }
}

fn install_tick(set: &CompiledSet, item: ItemId, row: &JobRow) -> Option<Tick>
    ensures { result ≡ tick_of_install set.now item.0 row.now }
{
    if writes(set, row.job.tx, item) {
        commit_tick(row.end)
    } else {
        None
    }
}

fn outside_read(op: Op, outcome: Outcome) -> Option<OutsideRead>
    ensures { result ≡ read_by op outcome }
{
    match op {
        Op::Read(item) => match outcome {
            Outcome::Got {
                stamp: Some(stamp),
                ..
            } => Some(OutsideRead { item, stamp }),
            _ => None,
        },
        _ => None,
    }
}

fn read_of_entry(job: JobId, entry: &Entry) -> Option<OutsideRead>
    ensures { result ≡ read_in job entry.now }
{
    match *entry {
        Entry::Step {
            job: by,
            op,
            outcome,
            ..
        } => {
            if is_job(by, job) {
                outside_read(op, outcome)
            } else {
                None
            }
        }
        _ => None,
    }
}

// What a job read from outside.
fn outside_reads(
    alloc: Global,
    entries: &[Entry],
    job: JobId,
) -> Result<Vec<OutsideRead>, OutOfMemory>
    ensures { IfOk result (λ v. v.items ≡ outside_reads_of entries.now job) }
{
    let reads = entries.iter().filter_map(|entry| read_of_entry(job, entry));
    Ok(reads.collect(alloc)?)
}

#[tactic(auto, unfolding(item_model::specs::Work::is_older))]
fn is_older(read: OutsideRead, other: OutsideRead) -> bool
    ensures { result ≡ is_older_read read other }
{
    read.stamp < other.stamp || read.stamp == other.stamp && read.item.0 < other.item.0
}

fn older(read: OutsideRead, other: Option<OutsideRead>) -> OutsideRead
    ensures { result ≡ older_of read other }
{
    match other {
        None => read,
        Some(other) => { if is_older(other, read) { other } else { read } }
    }
}

fn oldest_dated(decls: &[ItemDecl], reads: &[OutsideRead]) -> Option<OutsideRead>
    ensures { result ≡ oldest (filter (λ r. is_dated_item decls.now r.item.0) reads.now) }
{
    let mut best: Option<OutsideRead> = None;
    for i in (0..reads.len()).rev() {
        if is_dated(decls, reads[i].item) {
            best = Some(older(reads[i], best));
        }
    }
    best
}

#[tactic(auto, unfolding(item_model::specs::Work::stamp_for))]
fn stamp_with(decls: &[ItemDecl], reads: &[OutsideRead], release: Tick, item: ItemId) -> Tick
    ensures { result ≡ stamp_for decls.now (of_reads reads.now) release item.0 }
{
    if is_derived(decls, item) {
        match oldest_dated(decls, reads) {
            Some(read) => read.stamp,
            None => release,
        }
    } else {
        release
    }
}

fn stamp_by(
    alloc: Global,
    set: &CompiledSet,
    entries: &[Entry],
    item: ItemId,
    row: &JobRow,
) -> Result<Tick, OutOfMemory>
    ensures { IfOk result (λ stamp. stamp ≡ stamp_by_job set.now entries.now item.0 row.now) }
{
    let reads = outside_reads(alloc, entries, row.job)?;
    Ok(stamp_with(set.items(), &reads, row.release, item))
}

fn stamp_of(
    alloc: Global,
    set: &CompiledSet,
    entries: &[Entry],
    item: ItemId,
    by: Option<JobRow>,
) -> Result<Tick, OutOfMemory>
    ensures { IfOk result (λ stamp. stamp ≡ stamp_of_value set.now entries.now item.0 by) }
{
    match by {
        Some(row) => stamp_by(alloc, set, entries, item, &row),
        None => Ok(0),
    }
}

fn start_of(by: Option<JobRow>) -> Tick
    ensures { result ≡ start_of_value by }
{
    match by {
        Some(row) => commit_tick(row.end).unwrap_or(0),
        None => 0,
    }
}

// How long the value stood, if in the part.
fn age_span(
    alloc: Global,
    set: &CompiledSet,
    part: Part,
    entries: &[Entry],
    value: Standing,
) -> Result<Option<AgeSpan>, OutOfMemory>
    ensures { IfOk result (λ span. span ≡ age_until set.now part entries.now value.item.0 value.by value.to) }
{
    let from = start_of(value.by);
    if !meets(part, from, value.to) {
        return Ok(None);
    }
    let stamp = stamp_of(alloc, set, entries, value.item, value.by)?;
    Ok(Some(AgeSpan {
        item: value.item,
        stamp,
        from,
        to: value.to,
    }))
}

fn add_age_span(
    into: &mut Vec<AgeSpan>,
    set: &CompiledSet,
    part: Part,
    entries: &[Entry],
    value: Standing,
) -> Result<(), OutOfMemory>
    ensures { OnOk result (into.new.items ≡ into.old.items ++ option_to_list (age_until set.now part entries.now value.item.0 value.by value.to)) }
{
    let span = age_span(*into.allocator(), set, part, entries, value)?;
    add(into, span)
}

fn add_spans_of(
    into: &mut Vec<AgeSpan>,
    set: &CompiledSet,
    window: Window,
    rows: &[JobRow],
    entries: &[Entry],
    item: ItemId,
) -> Result<(), OutOfMemory>
    ensures { OnOk result (into.new.items ≡ into.old.items ++ spans_from set.now window.part window.stop entries.now item.0 None rows.now) }
{
    let mut by = None;
    for row in rows {
        if let Some(to) = install_tick(set, item, row) {
            add_age_span(into, set, window.part, entries, Standing { item, by, to })?;
            by = Some(*row);
        }
    }
    let to = window.stop;
    add_age_span(into, set, window.part, entries, Standing { item, by, to })
}

fn add_all_spans(
    into: &mut Vec<AgeSpan>,
    set: &CompiledSet,
    window: Window,
    rows: &[JobRow],
    entries: &[Entry],
) -> Result<(), OutOfMemory>
    ensures { OnOk result (into.new.items ≡ into.old.items ++ age_spans_to set.now window.part window.stop rows.now entries.now) }
{
    set.is_compiled();
    for i in 0..set.items().len() {
        let item = ItemId(i as u32);
        if is_dated(set.items(), item) {
            add_spans_of(into, set, window, rows, entries, item)?;
        }
    }
    Ok(())
}

/// For each sensor and derived item the values that it had in the part. It goes over the rows for each item, and over the
/// entries for each value.
pub fn age_spans(
    alloc: Global,
    set: &CompiledSet,
    part: Part,
    rows: &[JobRow],
    entries: &[Entry],
) -> Result<Vec<AgeSpan>, OutOfMemory>
    ensures { IfOk result (λ v. v.items ≡ age_spans_of set.now part rows.now entries.now) }
{
    let mut into = Vec::new(alloc);
    let stop = last_instant(part.to, entries);
    add_all_spans(&mut into, set, Window { part, stop }, rows, entries)?;
    Ok(into)
}

// What a job read of an item from outside.
fn read_of(entries: &[Entry], job: JobId, item: ItemId) -> Option<OutsideRead>
    ensures { result ≡ read_of_item entries.now job item.0 }
{
    let mut reads = entries.iter().filter_map(|entry| read_of_entry(job, entry));
    reads.find(|read| read.item.0 == item.0)
}

fn read_mark(
    part: Part,
    entries: &[Entry],
    item: ItemId,
    job: JobId,
    tick: Option<Tick>,
) -> Option<AgeRead>
    ensures { result ≡ read_at part entries.now item.0 job tick }
{
    let tick = tick?;
    if !has_instant(part, tick) {
        return None;
    }
    let read = read_of(entries, job, item)?;
    Some(AgeRead {
        item: read.item,
        job,
        stamp: read.stamp,
        tick,
    })
}

fn age_read(part: Part, entries: &[Entry], item: ItemId, row: &JobRow) -> Option<AgeRead>
    ensures { result ≡ read_in_part part entries.now item.0 row.now }
{
    read_mark(part, entries, item, row.job, commit_tick(row.end))
}

/// For each sensor and derived item the commits in the part of jobs that had read it. For each of these jobs it goes over the
/// entries.
pub fn age_reads(
    alloc: Global,
    set: &CompiledSet,
    part: Part,
    rows: &[JobRow],
    entries: &[Entry],
) -> Result<Vec<AgeRead>, OutOfMemory>
    ensures { IfOk result (λ v. v.items ≡ age_reads_of set.now part rows.now entries.now) }
{
    set.is_compiled();
    let mut into = Vec::new(alloc);
    for i in 0..set.items().len() {
        let item = ItemId(i as u32);
        if is_dated(set.items(), item) {
            add_each(&mut into, rows, |row| age_read(part, entries, item, row))?;
        }
    }
    Ok(into)
}

fn bound_mark(part: Part, responses: &[Tick], row: &JobRow) -> Option<Bound>
    ensures { result ≡ bound_in part responses.now row.now }
{
    let at = row.job.tx.0 as usize;
    if at >= responses.len() {
        return None;
    }
    let tick = row.release.checked_add(responses[at])?;
    has_instant(part, tick).then_some(Bound { job: row.job, tick })
}

/// Of each job the instant at which it has ended at the latest, if that is in the part, by the responses of the transactions, in
/// ticks. None of a transaction without a response among these.
pub fn bound_marks(
    alloc: Global,
    part: Part,
    responses: &[Tick],
    rows: &[JobRow],
) -> Result<Vec<Bound>, OutOfMemory>
    ensures { IfOk result (λ v. v.items ≡ bounds_of part responses.now rows.now) }
{
    let bounds = rows
        .iter()
        .filter_map(|row| bound_mark(part, responses, row));
    Ok(bounds.collect(alloc)?)
}
