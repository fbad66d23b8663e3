//! The lines of entries, handed to a sink.
ghost use Rattle.std.specs.Prelude.{◌≡◌, ◌<◌, ◌≤◌, ◌+◌, ◌*◌, ◌^◌, ℕ, ◌++◌, ◌∷◌, [], List as Many, take, length, vec_len, vec_capacity, IfOk, OnOk, OnErr};
ghost use Rattle.std.specs.Io.KnownBytes.{Appends};
ghost use Rattle.io_edge.specs.Causes.{HasCause};
ghost use Rattle.txn_set.specs.Set.{Set};
ghost use Rattle.step_journal.specs.declared.entry.Entry.{Entry as Noted};
ghost use Rattle.step_journal.specs.History.{IsLegal};
ghost use Rattle.job_rows.specs.Upkeep.{Follows};
ghost use Rattle.report_text.specs.Texts.{entries_text};
ghost use Rattle.run_report.specs.Report.{Continues};

use io_edge::{Sink, WriteFault, write_all};
use rt_base::Names;
use run_report::ReportWriter;
use step_journal::Entry;

// The most bytes of a line.
const LINE: usize = 256;

// Where less is free, the lines are handed on.
const SPARE: usize = 32 * LINE;

// Hands all lines to the sink.
fn send<K: Sink>(lines: &mut Vec<u8>, sink: &mut K) -> Result<(), WriteFault>
    ensures all { OnOk result (Appends (K.taken sink.old) (K.taken sink.new) lines.old.items × (lines.new.items ≡ [])) }
    ensures front { OnErr result ((n : ℕ) × Appends (K.taken sink.old) (K.taken sink.new) (take n lines.old.items)) }
    ensures places { vec_capacity lines.new ≡ vec_capacity lines.old }
    ensures cause { HasCause (K.faults sink.old) (K.faults sink.new) result }
{
    write_all(sink, lines)?;
    lines.clear();
    Ok(())
}

// Makes room for a line: hands the lines on if there is little.
fn make_room<K: Sink>(lines: &mut Vec<u8>, sink: &mut K) -> Result<(), WriteFault>
    requires room { 256 ≤ vec_capacity lines.old }
    ensures sent { OnOk result ((sent : Many ℕ) × Appends (K.taken sink.old) (K.taken sink.new) sent ×
        (sent ++ lines.new.items ≡ lines.old.items)) }
    ensures front { OnErr result ((n : ℕ) × Appends (K.taken sink.old) (K.taken sink.new) (take n lines.old.items)) }
    ensures fits { OnOk result (vec_len lines.new + 256 ≤ vec_capacity lines.new) }
    ensures places { vec_capacity lines.new ≡ vec_capacity lines.old }
    ensures cause { HasCause (K.faults sink.old) (K.faults sink.new) result }
{
    if lines.capacity() - lines.len() < SPARE {
        send(lines, sink)
    } else {
        Ok(())
    }
}

// Adds the lines of the next entries after the others, as many as there is surely room for, and answers how many entries these
// are and how many bytes the lines have.
fn add_some<K: Sink>(
    writer: &mut ReportWriter,
    names: &Names,
    entries: &[Entry],
    lines: &mut Vec<u8>,
    sink: &mut K,
) -> Result<(usize, u64), WriteFault>
    requires next { Continues names.now writer.old entries.now }
    requires some { 0 < length entries.now }
    requires room { 256 ≤ vec_capacity lines.old }
    ensures some { IfOk result (λ p. (0 < p.0) × (p.0 ≤ length entries.now)) }
    ensures added { IfOk result (λ p. (sent : Many ℕ) × Appends (K.taken sink.old) (K.taken sink.new) sent ×
        (sent ++ lines.new.items ≡ lines.old.items ++ entries_text names.now (take p.0 entries.now))) }
    ensures bytes { IfOk result (λ p. (p.1 ≡ length (entries_text names.now (take p.0 entries.now))) × (p.1 ≤ 256 * p.0)) }
    ensures front { OnErr result ((n : ℕ) × Appends (K.taken sink.old) (K.taken sink.new) (take n lines.old.items)) }
    ensures follows { IfOk result (λ p. (set : Set) (history : Many Noted) → Follows set writer.old history →
        IsLegal set (history ++ take p.0 entries.now) → Follows set writer.new (history ++ take p.0 entries.now)) }
    ensures places { writer.new.room ≡ writer.old.room }
    ensures room { vec_capacity lines.old ≤ vec_capacity lines.new }
    ensures cause { HasCause (K.faults sink.old) (K.faults sink.new) result }
{
    make_room(lines, sink)?;
    let before = lines.len();
    let count = ((lines.capacity() - before) / LINE).min(entries.len());
    writer.push_all(names, &entries[..count], lines);
    Ok((count, (lines.len() - before) as u64))
}

/// Hands the lines of the next entries to the sink, and answers how many bytes they have. `lines` is a place for them, of
/// at least 256 bytes: as many of them as it holds are handed on at once. It takes no memory.
pub(crate) fn add_lines<K: Sink>(
    writer: &mut ReportWriter,
    names: &Names,
    entries: &[Entry],
    lines: &mut Vec<u8>,
    sink: &mut K,
) -> Result<u64, WriteFault>
    requires next { Continues names.now writer.old entries.now }
    requires room { 256 ≤ vec_capacity lines.old }
    requires empty { lines.old.items ≡ [] }
    requires few { length entries.now < 2 ^ 42 }
    ensures all { OnOk result (Appends (K.taken sink.old) (K.taken sink.new) (entries_text names.now entries.now) × (lines.new.items ≡ [])) }
    ensures bytes { IfOk result (λ n. (n ≡ length (entries_text names.now entries.now)) × (n ≤ 256 * length entries.now)) }
    ensures front { OnErr result ((n : ℕ) × Appends (K.taken sink.old) (K.taken sink.new) (take n (entries_text names.now entries.now))) }
    ensures follows { OnOk result ((set : Set) (history : Many Noted) → Follows set writer.old history →
        IsLegal set (history ++ entries.now) → Follows set writer.new (history ++ entries.now)) }
    ensures places { writer.new.room ≡ writer.old.room }
    ensures room { vec_capacity lines.old ≤ vec_capacity lines.new }
    ensures cause { HasCause (K.faults sink.old) (K.faults sink.new) result }
{
    let mut bytes = 0;
    let mut done = 0;
    while done < entries.len() {
        let (count, more) = add_some(writer, names, &entries[done..], lines, sink)?;
        done += count;
        bytes += more;
    }
    send(lines, sink)?;
    Ok(bytes)
}
