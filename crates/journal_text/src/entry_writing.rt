//! From entries to lines.
ghost use Rattle.std.specs.Prelude.{◌≡◌, ◌+◌, ◌*◌, ◌<◌, ◌≤◌, ◌++◌, ◌^◌, length, codes, vec_len, vec_capacity, false, None, IsTrue, IfSome};
ghost use Rattle.std.specs.List.{All};
ghost use Rattle.step_journal.specs.declared.entry.Entry.TheVariants.{Step};
ghost use Rattle.journal_text.specs.Next.{front_of, IsOwn};
ghost use Rattle.journal_text.specs.Ids.{job_text, IsJob};
ghost use Rattle.line_fields.specs.Cuts.{field};
ghost use Rattle.journal_text.specs.Lines.{op_text, stamp_text, outcome_text, end_text, over_text, entry_line, IsOp, IsOutcome, IsEnd, IsOver, HasLine, whole_line, whole_lines, KnownOp, KnownEnd, KnownOver, IsWritable};

use crate::next_step::NextStep;
use crate::numerals::Numerals;
use crate::writing::{put, put_name, put_short, put_signed, put_unsigned};
use rt_base::{End, JobId, Names, Op, Outcome, Tick};
use std::mem;
use step_journal::Entry;

#[inline(always)]
#[tactic(auto, using(crate::proofs::IdLaws::in_i64))]
fn put_op(into: &mut Vec<u8>, names: &Names, op: Op)
    requires known { KnownOp names.now op }
    requires room { vec_len into.old + 60 ≤ vec_capacity into.old }
    ensures items { into.new.items ≡ into.old.items ++ op_text names.now op }
    ensures line { IsOp names.now op }
    ensures len { vec_len into.new ≤ vec_len into.old + 60 }
    ensures room { vec_capacity into.old ≤ vec_capacity into.new }
{
    match op {
        Op::Read(item) => {
            put(into, b" read");
            put_name(into, names.items.as_slice(), item.0);
        }
        Op::Write(item, value) => {
            put(into, b" write");
            put_name(into, names.items.as_slice(), item.0);
            put_signed(into, value);
        }
        Op::Compute => put(into, b" compute"),
        Op::Commit => put(into, b" commit"),
        Op::Quit => put(into, b" quit"),
    }
}

#[inline(always)]
fn put_stamp(into: &mut Vec<u8>, stamp: Option<u64>)
    requires { vec_len into.old + 21 ≤ vec_capacity into.old }
    ensures items { into.new.items ≡ into.old.items ++ field (stamp_text stamp) }
    ensures len { vec_len into.new ≤ vec_len into.old + 21 }
    ensures room { vec_capacity into.old ≤ vec_capacity into.new }
{
    match stamp {
        Some(stamp) => put_unsigned(into, stamp),
        None => put(into, b" own"),
    }
}

#[inline(always)]
#[tactic(auto, using(crate::proofs::IdLaws::in_i64))]
fn put_outcome(into: &mut Vec<u8>, outcome: Outcome)
    requires { vec_len into.old + 42 ≤ vec_capacity into.old }
    ensures items { into.new.items ≡ into.old.items ++ outcome_text outcome }
    ensures line { IsOutcome outcome }
    ensures len { vec_len into.new ≤ vec_len into.old + 42 }
    ensures room { vec_capacity into.old ≤ vec_capacity into.new }
{
    match outcome {
        Outcome::Got { value, stamp } => {
            put_signed(into, value);
            put_stamp(into, stamp);
        }
        Outcome::Put => {}
        Outcome::Computed => {}
        Outcome::Closed => {}
    }
}

/// Adds a blank and an end: at most 72 bytes.
#[inline(always)]
pub fn put_end(into: &mut Vec<u8>, names: &Names, end: End)
    requires known { KnownEnd names.now end }
    requires room { vec_len into.old + 72 ≤ vec_capacity into.old }
    ensures items { into.new.items ≡ into.old.items ++ end_text names.now end }
    ensures line { IsEnd names.now end }
    ensures len { vec_len into.new ≤ vec_len into.old + 72 }
    ensures room { vec_capacity into.old ≤ vec_capacity into.new }
{
    match end {
        End::Committed => put(into, b" committed"),
        End::Overrun => put(into, b" overrun"),
        End::Late => put(into, b" late"),
        End::Stale { item, stamp } => {
            put(into, b" stale");
            put_name(into, names.items.as_slice(), item.0);
            put_unsigned(into, stamp);
        }
        End::Apart { a, b } => {
            put(into, b" apart");
            put_name(into, names.items.as_slice(), a.0);
            put_name(into, names.items.as_slice(), b.0);
        }
        End::Quit => put(into, b" quit"),
    }
}

#[inline(always)]
fn put_over(into: &mut Vec<u8>, names: &Names, over: Option<End>)
    requires known { KnownOver names.now over }
    requires room { vec_len into.old + 76 ≤ vec_capacity into.old }
    ensures items { into.new.items ≡ into.old.items ++ over_text names.now over }
    ensures line { IsOver names.now over }
    ensures len { vec_len into.new ≤ vec_len into.old + 76 }
    ensures room { vec_capacity into.old ≤ vec_capacity into.new }
{
    match over {
        None => {}
        Some(end) => {
            put(into, b" end");
            put_end(into, names, end);
        }
    }
}

// Adds the line of a step up to its operation. It makes that of the job's next step likely.
#[inline(always)]
fn put_step(
    into: &mut Vec<u8>,
    names: &Names,
    job: JobId,
    tick: Tick,
    numerals: &mut Numerals,
    likely: &mut NextStep,
)
    requires known { job.tx.0 < length names.now.txns }
    requires own { IsOwn names.now likely.old }
    requires room { vec_len into.old + 103 ≤ vec_capacity into.old }
    ensures items { into.new.items ≡ into.old.items ++ front_of (job_text names.now.txns job) tick }
    ensures line { IsJob names.now.txns job × (tick < 2 ^ 64) }
    ensures len { vec_len into.new ≤ vec_len into.old + 69 }
    ensures room { vec_capacity into.old ≤ vec_capacity into.new }
    ensures own { IsOwn names.now likely.new }
{
    if likely.put_front(job, tick, into) {
        return;
    }
    put(into, b"step");
    let start = into.len();
    numerals.put_job(into, names.txns.as_slice(), job);
    numerals.put_tick(into, tick);
    likely.note(&into[start..], job, tick);
}

#[inline(always)]
fn put_entry(
    into: &mut Vec<u8>,
    names: &Names,
    entry: &Entry,
    numerals: &mut Numerals,
    likely: &mut NextStep,
)
    requires known { IsWritable names.now entry.now }
    requires own { IsOwn names.now likely.old }
    requires room { vec_len into.old + 255 ≤ vec_capacity into.old }
    ensures items { into.new.items ≡ into.old.items ++ entry_line names.now entry.now }
    ensures line { HasLine names.now entry.now }
    ensures len { vec_len into.new ≤ vec_len into.old + 254 }
    ensures room { vec_capacity into.old ≤ vec_capacity into.new }
    ensures own { IsOwn names.now likely.new }
{
    match entry {
        Entry::Planned { tx, tick } => {
            put(into, b"plan");
            put_name(into, names.txns.as_slice(), tx.0);
            put_unsigned(into, *tick);
        }
        Entry::Step {
            job,
            op,
            outcome,
            over,
            tick,
        } => {
            put_step(into, names, *job, *tick, numerals, likely);
            put_op(into, names, *op);
            put_outcome(into, *outcome);
            put_over(into, names, *over);
        }
        Entry::Blocked {
            job,
            op,
            by,
            ceiling,
            tick,
        } => {
            put(into, b"block");
            numerals.put_job(into, names.txns.as_slice(), *job);
            numerals.put_tick(into, *tick);
            put_op(into, names, *op);
            put(into, b" by");
            numerals.put_job(into, names.txns.as_slice(), *by);
            put_short(into, *ceiling);
        }
        Entry::Idle { from, to } => {
            put(into, b"idle");
            put_unsigned(into, *from);
            put_unsigned(into, *to);
        }
    }
}

// The job and the tick of a Compute at which nothing ends.
#[inline(always)]
fn computed(entry: &Entry) -> Option<(JobId, Tick)>
    ensures { IfSome result (λ p. entry.now ≡ Step p.0 Op.Compute Outcome.Computed None p.1) }
{
    match entry {
        Entry::Step {
            job,
            op: Op::Compute,
            outcome: Outcome::Computed,
            over: None,
            tick,
        } => Some((*job, *tick)),
        _ => None,
    }
}

// Adds the line that is likely, if it is that of the entry: whether it is. Else nothing changes.
#[inline(always)]
fn put_likely(into: &mut Vec<u8>, names: &Names, entry: &Entry, likely: &mut NextStep) -> bool
    requires known { IsWritable names.now entry.now }
    requires own { IsOwn names.now likely.old }
    requires room { vec_len into.old + 255 ≤ vec_capacity into.old }
    ensures items { IsTrue result → into.new.items ≡ into.old.items ++ whole_line names.now entry.now }
    ensures line { IsTrue result → HasLine names.now entry.now }
    ensures other { result ≡ false → (into.new.items ≡ into.old.items) × (vec_len into.new ≡ vec_len into.old) }
    ensures len { vec_len into.new ≤ vec_len into.old + 255 }
    ensures room { vec_capacity into.old ≤ vec_capacity into.new }
    ensures own { IsOwn names.now likely.new }
{
    let _names = names;
    match computed(entry) {
        Some((job, tick)) => likely.put(job, tick, into),
        None => false,
    }
}

/// Adds the lines of entries, each with its line end and of at most 256 bytes. It takes no memory. Each line is that of its entry
/// alone (`lines_both_ways`). Digits that are those of an earlier line are taken from `numerals`, and the line of a Compute
/// that follows another step of its job from that one's.
#[inline(never)]
pub fn write_entries(names: &Names, entries: &[Entry], numerals: &mut Numerals, into: &mut Vec<u8>)
    requires known { All (IsWritable names.now) entries.now }
    requires room { vec_len into.old + 256 * length entries.now ≤ vec_capacity into.old }
    ensures items { into.new.items ≡ into.old.items ++ whole_lines names.now entries.now }
    ensures lines { All (HasLine names.now) entries.now }
    ensures len { vec_len into.new ≤ vec_len into.old + 255 * length entries.now }
    ensures room { vec_capacity into.old ≤ vec_capacity into.new }
{
    // A list of its own stays in registers while the pieces are added.
    let alloc = *into.allocator();
    let mut lines = mem::replace(into, Vec::new(alloc));
    let mut likely = NextStep::new();
    for i in 0..entries.len() {
        let entry = &entries[i];
        if put_likely(&mut lines, names, entry, &mut likely) {
            continue;
        }
        put_entry(&mut lines, names, entry, numerals, &mut likely);
        lines.push_reserved(b'\n');
    }
    *into = lines;
}

/// Adds the line of an entry, with its line end: at most 256 bytes. It takes no memory. The line is that of this entry
/// alone (`lines_both_ways`). Digits that are those of an earlier line are taken from `numerals`.
pub fn write_entry(names: &Names, entry: &Entry, numerals: &mut Numerals, into: &mut Vec<u8>)
    requires known { IsWritable names.now entry.now }
    requires room { vec_len into.old + 256 ≤ vec_capacity into.old }
    ensures items { into.new.items ≡ into.old.items ++ entry_line names.now entry.now ++ codes "\n" }
    ensures line { HasLine names.now entry.now }
    ensures len { vec_len into.new ≤ vec_len into.old + 255 }
    ensures room { vec_capacity into.old ≤ vec_capacity into.new }
{
    write_entries(names, &[*entry], numerals, into);
}
