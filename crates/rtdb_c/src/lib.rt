//! The database for programs in C: the functions of embed/rtdb.h. Each takes a handle, which is closed at first, and
//! answers a status: 0 where the call was made, CLOSED by a closed handle, and else which number names nothing of the set.
//! After each status but 0 the handle and what is written to are as they were. Nothing is required of a caller but what the
//! head of that file says.
#![tactic(auto)]

ghost use Rattle.std.specs.Prelude.{◌≡◌, ◌≢◌, None, MatchOption, IfOk, IfErr, IfSome, IsSomeAnd};
ghost use Rattle.c_forms.specs.Refusals.{WhyNotOpened, WhyNotTried, form_of_refusal};
ghost use Rattle.c_forms.specs.declared.refusals.Refused.TheVariants.{OutOfMemory as WantOfMemory};
ghost use Rattle.c_core.specs.Called.{Opened, OpenedTrial, Stepped, Planned, Idled, IsRunningOf, Peeked, PlannedNext, IsPendingOf, IsEndedOf, IsResponseOf, IsBlockingOf, IsAgeOf, Drained};
ghost use Rattle.rtdb_c.specs.Called.{Called, ToldWhy, ToldWhyNotTried, IsNowOf, IsKeptOf, IsPlannedOf};

mod causes;
mod log;
mod margin;
mod plant;
mod telling;
mod text;
mod text_laws;
mod words;

pub use c_core::{CLOSED, Handle};
use c_core::{CheckedCore, StoredForm};
use c_forms::{
    EntryForm, JobForm, OK, OpForm, RefusalForm, Refused, StepForm, Tables, TimeForm, refusal_form,
};
pub use c_stations::{LogHandle, SeatHandle};
pub use log::CallForm;
pub use margin::rtdb_margin;
pub use plant::{
    rtdb_plant_open, rtdb_seat_close, rtdb_seat_drain, rtdb_seat_front, rtdb_seat_idle,
    rtdb_seat_open, rtdb_seat_peek, rtdb_seat_plan, rtdb_seat_plan_next, rtdb_seat_step,
};
use std::alloc::Global;
pub use text::rtdb_text;
pub use text_laws::{numbers_are_names, refusals_are_told};

/// The handle is open already.
pub const OPEN: u32 = 2;

// A core in a box.
fn boxed(alloc: Global, core: CheckedCore) -> Result<Box<CheckedCore>, Refused>
    ensures boxed { IfOk result (λ b. b.value ≡ core) }
    ensures refused { IfErr result (λ e. e ≡ WantOfMemory) }
{
    match Box::new(alloc, core) {
        Ok(core) => Ok(core),
        Err(unboxed) => {
            drop(unboxed);
            Err(Refused::OutOfMemory)
        }
    }
}

// A core over the admitted set of these tables, in a box.
fn opened(alloc: Global, tables: &Tables, room: usize) -> Result<Box<CheckedCore>, Refused>
    ensures opened { IfOk result (λ b. Opened tables.now room b.value) }
    ensures refused { IfErr result (WhyNotOpened tables.now room) }
{
    boxed(alloc, CheckedCore::open(alloc, tables, room)?)
}

// A core over the set of these tables, which need not be admitted, in a box.
fn opened_trial(alloc: Global, tables: &Tables, room: usize) -> Result<Box<CheckedCore>, Refused>
    ensures opened { IfOk result (λ b. OpenedTrial tables.now room b.value) }
    ensures refused { IfErr result (WhyNotTried tables.now room) }
{
    boxed(alloc, CheckedCore::open_trial(alloc, tables, room)?)
}

// The status and the record of a refusal, by one code for all calls that tell of one.
#[inline(never)]
fn told_why(refused: Refused) -> (u32, RefusalForm)
    ensures { result ≡ form_of_refusal refused }
{
    refusal_form(refused)
}

/// Compiles and admits the set of these tables, and opens a database over it at the opening state, whose journal has room
/// for so many entries. OPEN where the handle is open already. Else status and record are those of the first cause, and the
/// handle stays closed; NO_MEMORY may come in place of each. All memory that the database needs is taken here.
#[unsafe(no_mangle)]
pub extern "C" fn rtdb_open(
    alloc: Global,
    db: &mut Handle,
    tables: &Tables,
    room: usize,
    refusal: &mut RefusalForm,
) -> u32
    ensures opened { result ≡ 0 → (db.old.core ≡ None) × (refusal.new ≡ refusal.old) × IsSomeAnd db.new.core (Opened tables.now room) }
    ensures refused { result ≢ 0 → db.new.core ≡ db.old.core }
    ensures open { IfSome db.old.core (λ s. (result ≡ 2) × (refusal.new ≡ refusal.old)) }
    ensures why { db.old.core ≡ None → result ≢ 0 → ToldWhy tables.now room result refusal.new }
{
    if let Some(core) = db.take(alloc) {
        db.put(core);
        return OPEN;
    }
    match opened(alloc, tables, room) {
        Ok(core) => {
            db.put(core);
            OK
        }
        Err(refused) => {
            let (status, form) = told_why(refused);
            *refusal = form;
            status
        }
    }
}

/// Compiles the set of these tables, and opens a database over it as `rtdb_open` does, without admitting it: nothing is
/// promised of deadlines and ages, and the calls for the bounds answer NOT_ADMITTED. NOT_ADMITTED does not come here.
#[unsafe(no_mangle)]
pub extern "C" fn rtdb_open_trial(
    alloc: Global,
    db: &mut Handle,
    tables: &Tables,
    room: usize,
    refusal: &mut RefusalForm,
) -> u32
    ensures opened { result ≡ 0 → (db.old.core ≡ None) × (refusal.new ≡ refusal.old) × IsSomeAnd db.new.core (OpenedTrial tables.now room) }
    ensures refused { result ≢ 0 → db.new.core ≡ db.old.core }
    ensures open { IfSome db.old.core (λ s. (result ≡ 2) × (refusal.new ≡ refusal.old)) }
    ensures why { db.old.core ≡ None → result ≢ 0 → ToldWhyNotTried tables.now room result refusal.new }
{
    if let Some(core) = db.take(alloc) {
        db.put(core);
        return OPEN;
    }
    match opened_trial(alloc, tables, room) {
        Ok(core) => {
            db.put(core);
            OK
        }
        Err(refused) => {
            let (status, form) = told_why(refused);
            *refusal = form;
            status
        }
    }
}

/// Frees what the handle has, and closes it. It answers whether it was open.
#[unsafe(no_mangle)]
pub extern "C" fn rtdb_close(alloc: Global, db: &mut Handle) -> u32
    ensures closed { db.new.core ≡ None }
    ensures status { MatchOption db.old.core (result ≡ 1) (λ _. result ≡ 0) }
{
    db.close(alloc)
}

/// Plans the transaction's next job for a tick. NO_TRANSACTION where it is none of the set.
#[unsafe(no_mangle)]
pub extern "C" fn rtdb_plan(
    alloc: Global,
    db: &mut Handle,
    tx: u32,
    tick: u64,
    answer: &mut TimeForm,
) -> u32
    ensures { Called db.old.core db.new.core ((result ≡ 1) × (answer.new ≡ answer.old)) (Planned tx tick result answer.old answer.new) }
{
    match db.take(alloc) {
        Some(mut core) => {
            let status = core.plan(tx, tick, answer);
            db.put(core);
            status
        }
        None => CLOSED,
    }
}

/// With nothing pending the time goes on to the next planned release.
#[unsafe(no_mangle)]
pub extern "C" fn rtdb_idle(alloc: Global, db: &mut Handle, answer: &mut TimeForm) -> u32
    ensures { Called db.old.core db.new.core ((result ≡ 1) × (answer.new ≡ answer.old)) (Idled result answer.new) }
{
    match db.take(alloc) {
        Some(mut core) => {
            core.idle(answer);
            db.put(core);
            OK
        }
        None => CLOSED,
    }
}

/// A job asks for an operation. NO_OPERATION, else NO_TRANSACTION, where a number names none.
#[unsafe(no_mangle)]
pub extern "C" fn rtdb_step(
    alloc: Global,
    db: &mut Handle,
    job: JobForm,
    op: OpForm,
    answer: &mut StepForm,
) -> u32
    ensures { Called db.old.core db.new.core ((result ≡ 1) × (answer.new ≡ answer.old)) (Stepped job op result answer.old answer.new) }
{
    match db.take(alloc) {
        Some(mut core) => {
            let status = core.step(job, op, answer);
            db.put(core);
            status
        }
        None => CLOSED,
    }
}

/// The job whose turn it is. NOTHING where none is pending.
#[unsafe(no_mangle)]
pub extern "C" fn rtdb_running(alloc: Global, db: &mut Handle, job: &mut JobForm) -> u32
    ensures { Called db.old.core db.new.core ((result ≡ 1) × (job.new ≡ job.old)) (IsRunningOf result job.old job.new) }
{
    match db.take(alloc) {
        Some(core) => {
            let status = core.running(job);
            db.put(core);
            status
        }
        None => CLOSED,
    }
}

/// An item's installed value and stamp. NO_ITEM where it is none of the set.
#[unsafe(no_mangle)]
pub extern "C" fn rtdb_peek(
    alloc: Global,
    db: &mut Handle,
    item: u32,
    stored: &mut StoredForm,
) -> u32
    ensures { Called db.old.core db.new.core ((result ≡ 1) × (stored.new ≡ stored.old)) (Peeked item result stored.old stored.new) }
{
    match db.take(alloc) {
        Some(core) => {
            let mut peeked = *stored;
            let status = core.peek(item, &mut peeked);
            db.put(core);
            *stored = peeked;
            status
        }
        None => CLOSED,
    }
}

/// The present tick.
#[unsafe(no_mangle)]
pub extern "C" fn rtdb_now(alloc: Global, db: &mut Handle, tick: &mut u64) -> u32
    ensures { Called db.old.core db.new.core ((result ≡ 1) × (tick.new ≡ tick.old)) (IsNowOf result tick.new) }
{
    match db.take(alloc) {
        Some(core) => {
            *tick = core.now();
            db.put(core);
            OK
        }
        None => CLOSED,
    }
}

/// Plans the transaction's next job for the earliest tick that may be. NO_TRANSACTION where it is none of the set.
#[unsafe(no_mangle)]
pub extern "C" fn rtdb_plan_next(
    alloc: Global,
    db: &mut Handle,
    tx: u32,
    answer: &mut TimeForm,
) -> u32
    ensures { Called db.old.core db.new.core ((result ≡ 1) × (answer.new ≡ answer.old)) (PlannedNext tx result answer.old answer.new) }
{
    match db.take(alloc) {
        Some(mut core) => {
            let status = core.plan_next(tx, answer);
            db.put(core);
            status
        }
        None => CLOSED,
    }
}

/// The transaction's pending job. NO_TRANSACTION where it is none of the set, NOTHING where none is pending.
#[unsafe(no_mangle)]
pub extern "C" fn rtdb_pending(alloc: Global, db: &mut Handle, tx: u32, job: &mut JobForm) -> u32
    ensures { Called db.old.core db.new.core ((result ≡ 1) × (job.new ≡ job.old)) (IsPendingOf tx result job.old job.new) }
{
    match db.take(alloc) {
        Some(core) => {
            let status = core.pending(tx, job);
            db.put(core);
            status
        }
        None => CLOSED,
    }
}

/// How many jobs of the transaction have ended. NO_TRANSACTION where it is none of the set.
#[unsafe(no_mangle)]
pub extern "C" fn rtdb_ended(alloc: Global, db: &mut Handle, tx: u32, count: &mut u32) -> u32
    ensures { Called db.old.core db.new.core ((result ≡ 1) × (count.new ≡ count.old)) (IsEndedOf tx result count.old count.new) }
{
    match db.take(alloc) {
        Some(core) => {
            let status = core.ended(tx, count);
            db.put(core);
            status
        }
        None => CLOSED,
    }
}

/// The response of the transaction, in ticks. NOT_ADMITTED where the set is not, else NO_TRANSACTION where it is
/// none of the set.
#[unsafe(no_mangle)]
pub extern "C" fn rtdb_response(alloc: Global, db: &mut Handle, tx: u32, ticks: &mut u64) -> u32
    ensures { Called db.old.core db.new.core ((result ≡ 1) × (ticks.new ≡ ticks.old)) (IsResponseOf tx result ticks.old ticks.new) }
{
    match db.take(alloc) {
        Some(core) => {
            let status = core.response(tx, ticks);
            db.put(core);
            status
        }
        None => CLOSED,
    }
}

/// For how many ticks one lower transaction blocks the transaction at most. NOT_ADMITTED where the set is not, else
/// NO_TRANSACTION where it is none of the set.
#[unsafe(no_mangle)]
pub extern "C" fn rtdb_blocking(alloc: Global, db: &mut Handle, tx: u32, ticks: &mut u64) -> u32
    ensures { Called db.old.core db.new.core ((result ≡ 1) × (ticks.new ≡ ticks.old)) (IsBlockingOf tx result ticks.old ticks.new) }
{
    match db.take(alloc) {
        Some(core) => {
            let status = core.blocking(tx, ticks);
            db.put(core);
            status
        }
        None => CLOSED,
    }
}

/// The age bound of the item, in ticks. NOT_ADMITTED where the set is not, else NO_ITEM where it is none of the set, NOTHING
/// for a state item.
#[unsafe(no_mangle)]
pub extern "C" fn rtdb_age(alloc: Global, db: &mut Handle, item: u32, ticks: &mut u64) -> u32
    ensures { Called db.old.core db.new.core ((result ≡ 1) × (ticks.new ≡ ticks.old)) (IsAgeOf item result ticks.old ticks.new) }
{
    match db.take(alloc) {
        Some(core) => {
            let status = core.age(item, ticks);
            db.put(core);
            status
        }
        None => CLOSED,
    }
}

/// Moves the oldest kept entries into the caller's array, as many as it has places for and no more than 64, and answers how
/// many.
#[unsafe(no_mangle)]
pub extern "C" fn rtdb_drain(
    alloc: Global,
    db: &mut Handle,
    into: &mut [EntryForm],
    moved: &mut usize,
) -> u32
    ensures { Called db.old.core db.new.core ((result ≡ 1) × (into.new ≡ into.old) × (moved.new ≡ moved.old)) (Drained result moved.new into.old into.new) }
{
    match db.take(alloc) {
        Some(mut core) => {
            *moved = core.drain(into);
            db.put(core);
            OK
        }
        None => CLOSED,
    }
}

/// How many entries are kept, and how many were drained in all.
#[unsafe(no_mangle)]
pub extern "C" fn rtdb_kept(
    alloc: Global,
    db: &mut Handle,
    kept: &mut usize,
    drained: &mut u64,
) -> u32
    ensures { Called db.old.core db.new.core ((result ≡ 1) × (kept.new ≡ kept.old) × (drained.new ≡ drained.old)) (IsKeptOf result kept.new drained.new) }
{
    match db.take(alloc) {
        Some(core) => {
            *kept = core.kept();
            *drained = core.drained();
            db.put(core);
            OK
        }
        None => CLOSED,
    }
}

/// How many releases are planned and did not take place yet.
#[unsafe(no_mangle)]
pub extern "C" fn rtdb_planned(alloc: Global, db: &mut Handle, count: &mut usize) -> u32
    ensures { Called db.old.core db.new.core ((result ≡ 1) × (count.new ≡ count.old)) (IsPlannedOf result count.new) }
{
    match db.take(alloc) {
        Some(core) => {
            *count = core.planned();
            db.put(core);
            OK
        }
        None => CLOSED,
    }
}
