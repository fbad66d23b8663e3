//! A report whose entries are put in pieces.
ghost use Rattle.std.specs.Prelude.{◌≡◌, ◌≤◌, ◌<◌, ℕ, [], take, IfOk};
ghost use Rattle.std.specs.Io.KnownBytes.{Appends};
ghost use Rattle.step_journal.specs.History.{IsLegal, state_of};
ghost use Rattle.job_rows.specs.Upkeep.{Follows};
ghost use Rattle.report_text.specs.Texts.{NamesSet, entries_text};
ghost use Rattle.sim_run.specs.Outs.{StaysGood, LosesNone};
ghost use Rattle.scenario_run.specs.declared.standing.ReportStanding.TheVariants.{Going};

use crate::worked::Worked;
use io_edge::{MemSink, Sink};
use rt_base::OutOfMemory;
use run_report::ReportWriter;
use scenario_run::{ReportOut, ReportStanding, Reported};
use sim_run::{EntryOut, Stopped};
use std::alloc::Global;
use std::marker::Brand;
use step_journal::Entry;
use txn_set::CompiledSet;

// Puts the entries in pieces of this size, the last of which may be smaller.
fn put_pieces<O: EntryOut>(out: &mut O, entries: &[Entry], size: usize) -> Result<(), Stopped>
    requires some { 0 < size }
    requires nothing_lost { O.lost out.old [] }
    requires nothing { O.got out.old [] }
    requires good { (n : ℕ) → O.good out.old (take n entries.now) }
    ensures all { IfOk result (λ _. O.got out.new entries.now) }
    ensures none_lost { LosesNone O.lost out.new result }
    ensures same { StaysGood O.good out.old out.new }
{
    let mut done = 0;
    while done < entries.len() {
        let count = size.min(entries.len() - done);
        out.put(&entries[done..done + count])?;
        done += count;
    }
    Ok(())
}

// Puts all entries, so many at a time, to an out that has got none.
fn put_all<K: Sink, T: Reported>(
    out: &mut ReportOut<K, T>,
    set: &CompiledSet,
    entries: &[Entry],
    size: usize,
) -> Result<(), Stopped>
    requires some { 0 < size }
    requires begun { T.begun ≡ record { sink = out.old.sink.ghost_name; front = K.taken out.old.sink.now; names = out.old.names.now; set = set.now; room = out.old.writer.room } }
    requires going { out.old.standing ≡ Going }
    requires bytes { out.old.bytes ≡ 0 }
    requires empty { out.old.lines.items ≡ [] }
    requires named { NamesSet out.old.names.now set.now }
    requires follows { Follows set.now out.old.writer [] }
    requires legal { IsLegal set.now entries.now }
    ensures names { IfOk result (λ _. out.new.names.now ≡ out.old.names.now) }
    ensures follows { IfOk result (λ _. Follows set.now out.new.writer entries.now) }
    ensures taken { IfOk result (λ _.
        Appends (K.taken out.old.sink.now) (K.taken out.new.sink.now) (entries_text out.old.names.now entries.now)) }
{
    put_pieces(out, entries, size)
}

// What stands before the entries of a report with places for so many jobs, and after them; or how the out stopped.
fn put_worked(
    alloc: Global,
    worked: &Worked,
    jobs: usize,
    size: usize,
    room: usize,
    sink: &mut MemSink,
) -> Result<(Vec<u8>, Result<Vec<u8>, ReportStanding>), OutOfMemory>
    requires some { 0 < size }
    requires room { 256 ≤ room }
    requires named { NamesSet worked.now.names worked.now.set }
    requires legal { IsLegal worked.now.set worked.now.entries }
    requires last { worked.now.items ≡ (state_of worked.now.set worked.now.entries).items }
{
    let mut front = Vec::new(alloc);
    let writer = ReportWriter::begin(alloc, &worked.names, &worked.set, None, jobs, &mut front)?;
    let lines = Vec::with_capacity(alloc, room)?;
    let mut out: ReportOut<MemSink, Brand> = ReportOut::new(&worked.names, writer, lines, sink);
    let all = put_all::<MemSink, Brand>(&mut out, &worked.set, worked.entries.as_slice(), size);
    let ReportOut {
        names: _,
        writer,
        lines: _,
        bytes: _,
        standing,
        sink: _,
        of: _,
    } = out;
    match all {
        Ok(()) => {
            let mut close = Vec::new(alloc);
            writer.finish(&worked.names, &worked.items, &mut close)?;
            Ok((front, Ok(close)))
        }
        Err(Stopped) => Ok((front, Err(standing))),
    }
}

/// A report with places for so many jobs, whose entries are put in pieces of a size, with a place for so many bytes of lines, to a
/// sink that takes so many bytes a call and fails at a call.
#[derive(Clone, Copy)]
pub struct Pieces {
    pub jobs: usize,
    pub size: usize,
    pub room: usize,
    pub most: usize,
    pub failing: u64,
}

/// What becomes of a report in pieces: the whole text, or how it stopped and what the sink has by then.
pub fn put_row(alloc: Global, worked: &Worked, row: Pieces) -> Option<String>
    requires named { NamesSet worked.now.names worked.now.set }
    requires legal { IsLegal worked.now.set worked.now.entries }
    requires last { worked.now.items ≡ (state_of worked.now.set worked.now.entries).items }
{
    let Pieces {
        jobs,
        size,
        room,
        most,
        failing,
    } = row;
    if size == 0 || room < 256 || most == 0 {
        return None;
    }
    let failing = vec![in alloc; failing].ok()?;
    let mut sink = MemSink::new(alloc, 65_536, most, failing).ok()?;
    let (mut text, close) = put_worked(alloc, worked, jobs, size, room, &mut sink).ok()?;
    match close {
        Ok(close) => {
            text.extend_from_slice(sink.bytes()).ok()?;
            text.extend_from_slice(&close).ok()?;
            String::from_utf8(text).ok()
        }
        Err(standing) => {
            let taken = str::from_utf8(sink.bytes()).ok()?;
            format!(in alloc; "{standing:?}, after\n{taken}").ok()
        }
    }
}
