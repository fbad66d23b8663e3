//! What is asked and answered as plain records, and back. Each says which it is by a number, and has its numbers in fields
//! of their own; a field that it does not have is 0.
ghost use Rattle.std.specs.Prelude.{◌≡◌, Some};
ghost use Rattle.board.specs.declared.replies.StepReply.TheVariants.{Done, Blocked};
ghost use Rattle.c_forms.specs.Forms.{op_named, no_end, bare_step, bare_time, form_of_job, job_of, form_of_end, end_of, with_outcome, form_of_step, number_of_outcome, number_of_end, form_of_refused, form_of_idle, form_of_plan, form_of_plan_next};

use board::{IdleReply, StepReply};
use rt_base::{End, ItemId, JobId, Op, Outcome, PlanRefused, Prio, Tick, TxId};

/// A job.
#[repr(C)]
#[derive(Clone, Copy)]
pub struct JobForm {
    pub tx: u32,
    pub serial: u32,
}

/// What a job asks for: `code` is 0 Read (`item`), 1 Write (`item`, `value`), 2 Compute, 3 Commit, 4 Quit.
#[repr(C)]
#[derive(Clone, Copy)]
pub struct OpForm {
    pub code: u32,
    pub item: u32,
    pub value: i64,
}

/// How a job ended. `kind` is 0 where there is no end, 1 Committed, 2 Overrun, 3 Late, 4 Stale (`item`, `stamp`), 5 Apart
/// (`item` is the older one, `other` the newer one), 6 Quit.
#[repr(C)]
#[derive(Clone, Copy)]
pub struct EndForm {
    pub kind: u32,
    pub item: u32,
    pub other: u32,
    pub stamp: u64,
}

/// What a job is told that asked for an operation. `reply` is 0 Done (`outcome`, `value`, `has_stamp`, `stamp`, `over`),
/// 1 Blocked (`job` is the one that blocks, `ceiling`), 2 NoJob (`count` ended, `over` is how the latest did), 3 NotYet
/// (`job` runs), 4 Undeclared (`item`), 5 TooEarly (`count` quiet steps left), 6 Unwritten (`item`), 7 Full (`count` is
/// the room). `outcome` is 0 Got, 1 Put, 2 Computed, 3 Closed.
#[repr(C)]
#[derive(Clone, Copy)]
pub struct StepForm {
    pub reply: u32,
    pub outcome: u32,
    pub job: JobForm,
    pub item: u32,
    pub ceiling: u32,
    pub count: u64,
    pub value: i64,
    pub stamp: u64,
    pub has_stamp: u32,
    pub over: EndForm,
}

/// What is answered to a plan or to idling. `reply` is 0 where a job is planned (`job`, `tick`) or the time went on
/// (`tick`), 1 Past (`tick` is now), 2 TooSoon (`tick` is the earliest), 3 TooFar (`tick` is the limit), 4 CalendarFull
/// (`count`), 5 NoSerial (`count`), 6 Full (`count` is the room), 7 NotIdle (`job` runs), 8 Nothing.
#[repr(C)]
#[derive(Clone, Copy)]
pub struct TimeForm {
    pub reply: u32,
    pub job: JobForm,
    pub tick: u64,
    pub count: u64,
}

const NO_JOB: JobForm = JobForm { tx: 0, serial: 0 };

const NO_END: EndForm = EndForm {
    kind: 0,
    item: 0,
    other: 0,
    stamp: 0,
};

// A record of an answer without numbers.
pub(crate) fn bare_step(reply: u32) -> StepForm
    ensures { result ≡ bare_step reply }
{
    StepForm {
        reply,
        outcome: 0,
        job: NO_JOB,
        item: 0,
        ceiling: 0,
        count: 0,
        value: 0,
        stamp: 0,
        has_stamp: 0,
        over: NO_END,
    }
}

fn bare_time(reply: u32) -> TimeForm
    ensures { result ≡ bare_time reply }
{
    TimeForm {
        reply,
        job: NO_JOB,
        tick: 0,
        count: 0,
    }
}

/// The operation that a record names; None where its number names none.
pub fn op_of(form: OpForm) -> Option<Op>
    ensures { result ≡ op_named form }
{
    if form.code == 0 {
        Some(Op::Read(ItemId(form.item)))
    } else if form.code == 1 {
        Some(Op::Write(ItemId(form.item), form.value))
    } else if form.code == 2 {
        Some(Op::Compute)
    } else if form.code == 3 {
        Some(Op::Commit)
    } else if form.code == 4 {
        Some(Op::Quit)
    } else {
        None
    }
}

/// A job as a record.
pub fn job_form(job: JobId) -> JobForm
    ensures { result ≡ form_of_job job }
{
    JobForm {
        tx: job.tx.0,
        serial: job.serial,
    }
}

/// The job that a record names.
#[inline(always)]
pub fn job_of(form: JobForm) -> JobId
    ensures { result ≡ job_of form }
{
    JobId {
        tx: TxId(form.tx),
        serial: form.serial,
    }
}

// Which number an outcome has.
#[inline(always)]
fn outcome_number(outcome: &Outcome) -> u32
    ensures { result ≡ number_of_outcome outcome.now }
{
    match *outcome {
        Outcome::Got { .. } => 0,
        Outcome::Put => 1,
        Outcome::Computed => 2,
        Outcome::Closed => 3,
    }
}

// Which number an end has.
#[inline(always)]
fn end_number(end: &End) -> u32
    ensures { result ≡ number_of_end end.now }
{
    match *end {
        End::Committed => 1,
        End::Overrun => 2,
        End::Late => 3,
        End::Stale { .. } => 4,
        End::Apart { .. } => 5,
        End::Quit => 6,
    }
}

/// The end that a record says; None where its number is 0 or names none.
pub fn end_of(form: EndForm) -> Option<End>
    ensures { result ≡ end_of form }
{
    if form.kind == 1 {
        Some(End::Committed)
    } else if form.kind == 2 {
        Some(End::Overrun)
    } else if form.kind == 3 {
        Some(End::Late)
    } else if form.kind == 4 {
        Some(End::Stale {
            item: ItemId(form.item),
            stamp: form.stamp,
        })
    } else if form.kind == 5 {
        Some(End::Apart {
            a: ItemId(form.item),
            b: ItemId(form.other),
        })
    } else if form.kind == 6 {
        Some(End::Quit)
    } else {
        None
    }
}

// Writes what a granted operation is told.
#[inline(always)]
fn put_outcome(outcome: &Outcome, answer: &mut StepForm)
    ensures { answer.new ≡ with_outcome outcome.now (bare_step 0) }
{
    *answer = StepForm {
        outcome: outcome_number(outcome),
        ..bare_step(0)
    };
    if let Outcome::Got { value, stamp } = outcome {
        answer.value = *value;
        if let Some(stamp) = stamp {
            answer.stamp = *stamp;
            answer.has_stamp = 1;
        }
    }
}

// Writes how a job ended.
#[inline(always)]
fn put_end(end: &End, form: &mut EndForm)
    requires { form.old ≡ no_end }
    ensures { form.new ≡ form_of_end (Some end.now) }
{
    form.kind = end_number(end);
    if let End::Stale { item, stamp } = end {
        form.item = item.0;
        form.stamp = *stamp;
    }
    if let End::Apart { a, b } = end {
        form.item = a.0;
        form.other = b.0;
    }
}

/// An end as a record.
pub fn end_form(end: Option<End>) -> EndForm
    ensures { result ≡ form_of_end end }
{
    let mut form = NO_END;
    if let Some(end) = end {
        put_end(&end, &mut form);
    }
    form
}

// Writes how the job ended with it, if it did.
#[inline(always)]
fn put_over(over: &Option<End>, answer: &mut StepForm)
    requires { answer.old.over ≡ no_end }
    ensures { answer.new ≡ record answer.old { over = form_of_end over.now } }
{
    if let Some(end) = over {
        put_end(end, &mut answer.over);
    }
}

// Writes the answer to a granted operation.
#[inline(always)]
#[tactic(auto, using(crate::proofs::Told::told_over, crate::proofs::Told::not_over))]
pub fn put_done(outcome: &Outcome, over: &Option<End>, answer: &mut StepForm)
    ensures { answer.new ≡ form_of_step (Done outcome.now over.now) }
{
    put_outcome(outcome, answer);
    put_over(over, answer);
}

// The answer to a refused lock.
pub(crate) fn blocked_form(by: JobId, ceiling: Prio) -> StepForm
    ensures { result ≡ form_of_step (Blocked by ceiling) }
{
    StepForm {
        job: job_form(by),
        ceiling,
        ..bare_step(1)
    }
}

// Writes the answer to a step that was not granted.
#[inline(always)]
fn put_refused(reply: &StepReply, answer: &mut StepForm)
    ensures { answer.new ≡ form_of_step reply.now }
{
    match *reply {
        StepReply::Done { outcome, over } => put_done(&outcome, &over, answer),
        StepReply::Blocked { by, ceiling } => *answer = blocked_form(by, ceiling),
        StepReply::NoJob { ended, last } => {
            *answer = StepForm {
                count: ended as u64,
                over: end_form(last),
                ..bare_step(2)
            };
        }
        StepReply::NotYet { running } => {
            *answer = StepForm {
                job: job_form(running),
                ..bare_step(3)
            };
        }
        StepReply::Undeclared { item } => {
            *answer = StepForm {
                item: item.0,
                ..bare_step(4)
            };
        }
        StepReply::TooEarly { left } => {
            *answer = StepForm {
                count: left,
                ..bare_step(5)
            };
        }
        StepReply::Unwritten { item } => {
            *answer = StepForm {
                item: item.0,
                ..bare_step(6)
            };
        }
        StepReply::Full { room } => {
            *answer = StepForm {
                count: room as u64,
                ..bare_step(7)
            };
        }
    }
}

// Writes the answer to a step, of which no more is read than it has.
#[inline(always)]
pub fn put_reply(reply: &StepReply, answer: &mut StepForm)
    ensures { answer.new ≡ form_of_step reply.now }
{
    if let StepReply::Done { outcome, over } = reply {
        put_done(outcome, over, answer);
    } else {
        put_refused(reply, answer);
    }
}

/// Writes the answer to a step as a record, at its place: no record is made elsewhere and copied.
#[inline(always)]
pub fn put_step(reply: StepReply, answer: &mut StepForm)
    ensures { answer.new ≡ form_of_step reply }
{
    put_reply(&reply, answer);
}

fn refused_form(refused: PlanRefused) -> TimeForm
    ensures { result ≡ form_of_refused refused }
{
    match refused {
        PlanRefused::Past { now } => TimeForm {
            tick: now,
            ..bare_time(1)
        },
        PlanRefused::TooSoon { earliest } => TimeForm {
            tick: earliest,
            ..bare_time(2)
        },
        PlanRefused::TooFar { limit } => TimeForm {
            tick: limit,
            ..bare_time(3)
        },
        PlanRefused::CalendarFull { room } => TimeForm {
            count: room as u64,
            ..bare_time(4)
        },
        PlanRefused::NoSerial { planned } => TimeForm {
            count: planned as u64,
            ..bare_time(5)
        },
        PlanRefused::Full { room } => TimeForm {
            count: room as u64,
            ..bare_time(6)
        },
    }
}

/// The answer to a plan for a tick as a record.
pub fn plan_form(tick: Tick, answer: Result<JobId, PlanRefused>) -> TimeForm
    ensures { result ≡ form_of_plan tick answer }
{
    match answer {
        Ok(job) => TimeForm {
            job: job_form(job),
            tick,
            ..bare_time(0)
        },
        Err(refused) => refused_form(refused),
    }
}

/// The answer to a plan for the earliest tick as a record.
pub fn plan_next_form(answer: Result<(JobId, Tick), PlanRefused>) -> TimeForm
    ensures { result ≡ form_of_plan_next answer }
{
    match answer {
        Ok((job, tick)) => TimeForm {
            job: job_form(job),
            tick,
            ..bare_time(0)
        },
        Err(refused) => refused_form(refused),
    }
}

/// The answer to idling as a record.
pub fn idle_form(answer: IdleReply) -> TimeForm
    ensures { result ≡ form_of_idle answer }
{
    match answer {
        IdleReply::Advanced { to } => TimeForm {
            tick: to,
            ..bare_time(0)
        },
        IdleReply::NotIdle { running } => TimeForm {
            job: job_form(running),
            ..bare_time(7)
        },
        IdleReply::Nothing => bare_time(8),
        IdleReply::Full { room } => TimeForm {
            count: room as u64,
            ..bare_time(6)
        },
    }
}
