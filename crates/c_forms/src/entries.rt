//! Entries of the history as plain records, and back.
ghost use Rattle.std.specs.Prelude.{◌≡◌, ◌≤◌, ◌++◌, ◌==◌, if◌then◌else◌, None, Some, length, map, drop};
ghost use Rattle.c_forms.specs.Forms.{bare_entry, with_op, form_of_entry};
ghost use Rattle.c_forms.specs.Back.{asked_of, outcome_of, entry_of};

use crate::forms::{
    JobForm, OpForm, StepForm, bare_step, blocked_form, end_of, job_form, job_of, op_of, put_done,
};
use rt_base::{Op, Outcome, TxId};
use step_journal::Entry;

/// An event of the history. `kind` is 0 Planned (the `tx` of `job`, `tick`), 1 Step (`job`, the operation, `tick`,
/// `answer`), 2 Blocked (the same), 3 Idle (`tick`, `to`). The operation is `operation`, `item` and `value`.
#[repr(C)]
#[derive(Clone, Copy)]
pub struct EntryForm {
    pub kind: u32,
    pub operation: u32,
    pub job: JobForm,
    pub item: u32,
    pub value: i64,
    pub tick: u64,
    pub to: u64,
    pub answer: StepForm,
}

fn bare_entry(kind: u32) -> EntryForm
    ensures { result ≡ bare_entry kind }
{
    EntryForm {
        kind,
        operation: 0,
        job: JobForm { tx: 0, serial: 0 },
        item: 0,
        value: 0,
        tick: 0,
        to: 0,
        answer: bare_step(0),
    }
}

// Writes an operation.
#[inline(always)]
fn put_op(op: Op, form: &mut EntryForm)
    ensures { form.new ≡ with_op op form.old }
{
    match op {
        Op::Read(item) => form.item = item.0,
        Op::Write(item, value) => {
            form.operation = 1;
            form.item = item.0;
            form.value = value;
        }
        Op::Compute => form.operation = 2,
        Op::Commit => form.operation = 3,
        Op::Quit => form.operation = 4,
    }
}

/// Writes an entry as a record at its place.
#[inline(always)]
pub fn put_entry(entry: Entry, form: &mut EntryForm)
    ensures { form.new ≡ form_of_entry entry }
{
    match entry {
        Entry::Planned { tx, tick } => {
            *form = EntryForm {
                job: JobForm {
                    tx: tx.0,
                    serial: 0,
                },
                tick,
                ..bare_entry(0)
            };
        }
        Entry::Step {
            job,
            op,
            outcome,
            over,
            tick,
        } => {
            *form = EntryForm {
                job: job_form(job),
                tick,
                ..bare_entry(1)
            };
            put_done(&outcome, &over, &mut form.answer);
            put_op(op, form);
        }
        Entry::Blocked {
            job,
            op,
            by,
            ceiling,
            tick,
        } => {
            *form = EntryForm {
                job: job_form(job),
                tick,
                answer: blocked_form(by, ceiling),
                ..bare_entry(2)
            };
            put_op(op, form);
        }
        Entry::Idle { from, to } => {
            *form = EntryForm {
                tick: from,
                to,
                ..bare_entry(3)
            };
        }
    }
}

/// Writes entries as records at the head of a slice.
pub fn put_entries(into: &mut [EntryForm], entries: &[Entry])
    requires { length entries.now ≤ length into.old }
    ensures { into.new ≡ map form_of_entry entries.now ++ drop (length entries.now) into.old }
{
    for (place, entry) in entries.iter().enumerate() {
        put_entry(*entry, &mut into[place]);
    }
}

fn asked_of(form: &EntryForm) -> Op
    ensures { result ≡ asked_of form.now }
{
    let asked = op_of(OpForm {
        code: form.operation,
        item: form.item,
        value: form.value,
    });
    asked.unwrap_or(Op::Quit)
}

fn stamp_of(form: &StepForm) -> Option<u64>
    ensures { result ≡ (if form.now.has_stamp == 1 then Some form.now.stamp else None) }
{
    if form.has_stamp == 1 {
        Some(form.stamp)
    } else {
        None
    }
}

fn outcome_of(form: &StepForm) -> Outcome
    ensures { result ≡ outcome_of form.now }
{
    if form.outcome == 0 {
        Outcome::Got {
            value: form.value,
            stamp: stamp_of(form),
        }
    } else if form.outcome == 1 {
        Outcome::Put
    } else if form.outcome == 2 {
        Outcome::Computed
    } else {
        Outcome::Closed
    }
}

/// The entry that a record says. A number that names no kind of a thing is read as the last one.
pub fn entry_of(form: &EntryForm) -> Entry
    ensures { result ≡ entry_of form.now }
{
    if form.kind == 0 {
        Entry::Planned {
            tx: TxId(form.job.tx),
            tick: form.tick,
        }
    } else if form.kind == 1 {
        Entry::Step {
            job: job_of(form.job),
            op: asked_of(form),
            outcome: outcome_of(&form.answer),
            over: end_of(form.answer.over),
            tick: form.tick,
        }
    } else if form.kind == 2 {
        Entry::Blocked {
            job: job_of(form.job),
            op: asked_of(form),
            by: job_of(form.answer.job),
            ceiling: form.answer.ceiling,
            tick: form.tick,
        }
    } else {
        Entry::Idle {
            from: form.tick,
            to: form.to,
        }
    }
}
