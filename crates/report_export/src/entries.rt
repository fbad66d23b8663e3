//! Entries as JSON.
ghost use Rattle.std.specs.Prelude.{◌≡◌, ◌+◌, ◌<◌, ◌≤◌, ◌++◌, length, OnOk, vec_len, vec_capacity};
ghost use Rattle.std.specs.List.{All};
ghost use Rattle.journal_text.specs.Lines.{KnownOp, KnownOver, IsWritable};
ghost use Rattle.report_text.specs.Rows.{numbered};
ghost use Rattle.report_export.specs.Adding.{Grows};
ghost use Rattle.report_export.specs.Json.{op_json, stamp_json, value_json, got_json, over_json, asked_json, answer_json, refusal_json, entry_body, entry_json};

use crate::digits::Digits;
use crate::parts::{put_counted, put_end, put_named, put_short, put_valued};
use journal_text::put;
use rt_base::{End, JobId, Names, Op, OutOfMemory, Outcome, Prio, Tick};
use std::mem;
use step_journal::Entry;

#[inline(always)]
fn put_op(into: &mut Vec<u8>, names: &Names, op: Op)
    requires known { KnownOp names.now op }
    requires room { vec_len into.old + 80 ≤ vec_capacity into.old }
    ensures items { into.new.items ≡ into.old.items ++ op_json names.now op }
    ensures most { Grows into.old into.new 80 }
{
    match op {
        Op::Read(item) => {
            put_named(into, b"{\"read\":\"", &names.items, item.0);
            put(into, b"\"}");
        }
        Op::Write(item, value) => {
            put_named(into, b"{\"write\":\"", &names.items, item.0);
            put_valued(into, b"\",\"value\":", value);
            put(into, b"}");
        }
        Op::Compute => put(into, b"\"compute\""),
        Op::Commit => put(into, b"\"commit\""),
        Op::Quit => put(into, b"\"quit\""),
    }
}

#[inline(always)]
#[tactic(auto, unfolding(crate::specs::Json::stamp_json))]
fn put_stamp(into: &mut Vec<u8>, stamp: Option<Tick>)
    requires { vec_len into.old + 30 ≤ vec_capacity into.old }
    ensures items { into.new.items ≡ into.old.items ++ stamp_json stamp }
    ensures most { Grows into.old into.new 30 }
{
    match stamp {
        Some(stamp) => {
            put_counted(into, b",\"stamp\":", stamp);
            put(into, b"}");
        }
        None => put(into, b",\"stamp\":null}"),
    }
}

// Adds the value that a read got.
#[inline(always)]
fn put_value(into: &mut Vec<u8>, outcome: Outcome)
    requires { vec_len into.old + 40 ≤ vec_capacity into.old }
    ensures items { into.new.items ≡ into.old.items ++ value_json outcome }
    ensures most { Grows into.old into.new 40 }
{
    match outcome {
        Outcome::Got { value, .. } => put_valued(into, b",\"got\":{\"value\":", value),
        _ => {}
    }
}

#[inline(always)]
fn put_got(into: &mut Vec<u8>, outcome: Outcome)
    requires { vec_len into.old + 70 ≤ vec_capacity into.old }
    ensures items { into.new.items ≡ into.old.items ++ got_json outcome }
    ensures most { Grows into.old into.new 70 }
{
    match outcome {
        Outcome::Got { stamp, .. } => {
            put_value(into, outcome);
            put_stamp(into, stamp);
        }
        _ => {}
    }
}

#[inline(always)]
fn put_over(into: &mut Vec<u8>, names: &Names, over: Option<End>)
    requires known { KnownOver names.now over }
    requires room { vec_len into.old + 100 ≤ vec_capacity into.old }
    ensures items { into.new.items ≡ into.old.items ++ over_json names.now over }
    ensures most { Grows into.old into.new 100 }
{
    match over {
        None => {}
        Some(end) => {
            put(into, b",\"end\":");
            put_end(into, names, end);
        }
    }
}

// Adds the job, when, and what it asked for.
#[inline(always)]
fn put_asked(into: &mut Vec<u8>, names: &Names, digits: &mut Digits, job: JobId, op: Op, tick: Tick)
    requires job { job.tx.0 < length names.now.txns }
    requires op { KnownOp names.now op }
    requires room { vec_len into.old + 160 ≤ vec_capacity into.old }
    ensures items { into.new.items ≡ into.old.items ++ asked_json names.now job op tick }
    ensures most { Grows into.old into.new 160 }
{
    digits.put_job(into, &names.txns, job);
    put(into, b"\",\"tick\":");
    digits.put_tick(into, tick);
    put(into, b",\"op\":");
    put_op(into, names, op);
}

// Adds what the job was answered, and how it ended, if it did.
#[inline(always)]
fn put_answer(into: &mut Vec<u8>, names: &Names, outcome: Outcome, over: Option<End>)
    requires known { KnownOver names.now over }
    requires room { vec_len into.old + 170 ≤ vec_capacity into.old }
    ensures items { into.new.items ≡ into.old.items ++ answer_json names.now outcome over }
    ensures most { Grows into.old into.new 170 }
{
    put_got(into, outcome);
    put_over(into, names, over);
}

// Adds by which job the operation was refused, and by which ceiling.
#[inline(always)]
fn put_refusal(into: &mut Vec<u8>, names: &Names, digits: &mut Digits, by: JobId, ceiling: Prio)
    requires by { by.tx.0 < length names.now.txns }
    requires room { vec_len into.old + 80 ≤ vec_capacity into.old }
    ensures items { into.new.items ≡ into.old.items ++ refusal_json names.now by ceiling }
    ensures most { Grows into.old into.new 80 }
{
    put(into, b",\"by\":\"");
    digits.put_job(into, &names.txns, by);
    put(into, b"\",\"ceiling\":");
    put_short(into, ceiling);
}

#[inline(always)]
fn put_body(into: &mut Vec<u8>, names: &Names, digits: &mut Digits, entry: &Entry)
    requires known { IsWritable names.now entry.now }
    requires room { vec_len into.old + 390 ≤ vec_capacity into.old }
    ensures items { into.new.items ≡ into.old.items ++ entry_body names.now entry.now }
    ensures most { Grows into.old into.new 390 }
{
    match entry {
        Entry::Planned { tx, tick } => {
            put_named(into, b"{\"plan\":{\"txn\":\"", &names.txns, tx.0);
            put_counted(into, b"\",\"tick\":", *tick);
        }
        Entry::Step {
            job,
            op,
            outcome,
            over,
            tick,
        } => {
            put(into, b"{\"step\":{\"job\":\"");
            put_asked(into, names, digits, *job, *op, *tick);
            put_answer(into, names, *outcome, *over);
        }
        Entry::Blocked {
            job,
            op,
            by,
            ceiling,
            tick,
        } => {
            put(into, b"{\"block\":{\"job\":\"");
            put_asked(into, names, digits, *job, *op, *tick);
            put_refusal(into, names, digits, *by, *ceiling);
        }
        Entry::Idle { from, to } => {
            put_counted(into, b"{\"idle\":{\"from\":", *from);
            put_counted(into, b",\"to\":", *to);
        }
    }
}

#[inline(never)]
fn put_entry_line(into: &mut Vec<u8>, names: &Names, digits: &mut Digits, entry: &Entry)
    requires known { IsWritable names.now entry.now }
    requires room { vec_len into.old + 400 ≤ vec_capacity into.old }
    ensures { into.new.items ≡ into.old.items ++ entry_json names.now 0 entry.now }
{
    // A list of its own stays in registers while the pieces are added.
    let alloc = *into.allocator();
    let mut line = mem::replace(into, Vec::new(alloc));
    put_body(&mut line, names, digits, entry);
    put(&mut line, b"}}\n");
    *into = line;
}

fn add_entry(
    into: &mut Vec<u8>,
    names: &Names,
    digits: &mut Digits,
    entry: &Entry,
) -> Result<(), OutOfMemory>
    requires { IsWritable names.now entry.now }
    ensures { OnOk result (into.new.items ≡ into.old.items ++ entry_json names.now 0 entry.now) }
{
    into.reserve(400)?;
    put_entry_line(into, names, digits, entry);
    Ok(())
}

/// Adds the lines of entries.
pub(crate) fn add_entries(
    into: &mut Vec<u8>,
    names: &Names,
    entries: &[Entry],
) -> Result<(), OutOfMemory>
    requires { All (IsWritable names.now) entries.now }
    ensures { OnOk result (into.new.items ≡ into.old.items ++ numbered (entry_json names.now) 0 entries.now) }
{
    let mut digits = Digits::new();
    for entry in entries {
        add_entry(into, names, &mut digits, entry)?;
    }
    Ok(())
}
