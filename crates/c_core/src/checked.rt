//! A core over an admitted set, or over one that was not admitted, whose calls test each number that they are given. Such a
//! call answers a status: OK where the core was called, and else why it was not; then nothing is changed.
ghost use Rattle.std.specs.Prelude.{◌≡◌, ◌≤◌, ◌<◌, ◌^◌, [], List, length, nat_lt, if◌then◌else◌, IfOk, IfErr, IsTrue, false, Some, None, MatchOption, vec_capacity};
ghost use Rattle.step_journal.specs.declared.entry.Entry.{Entry as Noted};
ghost use Rattle.board.specs.Histories.{noted, now_of, step_entry, planned_of};
ghost use Rattle.lock_core.specs.Stands.{Stands};
ghost use Rattle.c_core.specs.Calls.{step_reply_of};
ghost use Rattle.c_core.specs.Called.{AskedOf, Drained, Idled, IsAgeOf, IsBlockingOf, IsEndedOf, IsPendingOf, IsResponseOf, IsRunningOf, Keeps, Opened, OpenedTrial, Peeked, Planned, PlannedNext, Stepped};
ghost use Rattle.c_core.specs.Open.{KeepsBoundsOf};
ghost use Rattle.c_forms.specs.Refusals.{WhyNotOpened, WhyNotTried};

use admitted_core::AdmittedCore;
use board::{Board, StepReply};
use c_forms::{
    EntryForm, JobForm, NOT_ADMITTED, OK, OpForm, Refused, StepForm, Tables, TimeForm, compiled,
    idle_form, job_form, job_of, op_of, plan_form, plan_next_form, put_done, put_entries,
    put_reply,
};
use lock_core::Core;
use rt_base::{ItemId, JobId, Op, OutOfMemory, Outcome, TxId};
use set_admission::{AdmittedSet, admit};
use std::alloc::Global;
use std::marker::Model;
use step_journal::Entry;
use txn_set::CompiledSet;

/// The number names no operation.
pub const NO_OPERATION: u32 = 3;

/// The number names no transaction of the set.
pub const NO_TRANSACTION: u32 = 4;

/// The number names no item of the set.
pub const NO_ITEM: u32 = 5;

/// No job is pending, or the item has no age bound.
pub const NOTHING: u32 = 6;

// A drain hands over no more entries at once.
const PLACES: usize = 64;

// The journal has room for no more entries.
const MOST_ROOM: usize = 1 << 20;

/// A value and its stamp.
#[repr(C)]
#[derive(Clone, Copy)]
pub struct StoredForm {
    pub value: i64,
    pub stamp: u64,
}

/// A core over an admitted set, or over one that was not admitted, of which nothing is promised of deadlines and ages; with
/// places for the entries that a drain hands over. Contracts see the core, and the set if it was admitted.
#[derive(Drop)]
pub struct CheckedCore {
    core: Core,
    admitted: Option<AdmittedSet>,
    spare: Vec<Entry>,
}

impl Model for CheckedCore {
    ghost use Rattle.std.specs.Prelude.{◌≡◌, [], vec_capacity};
    ghost use Rattle.c_core.specs.Open.{OpenSeen, IsOver};

    ghost Value = { OpenSeen };

    ghost view = { λ o. record { board = o.core; admitted = o.admitted } };

    ghost invariant = { λ o. IsOver (record { board = o.core; admitted = o.admitted }) × (o.spare.items ≡ []) × (vec_capacity o.spare ≡ 64) };
}

/// Places for the 64 entries that a drain hands over at the most.
pub fn places(alloc: Global) -> Result<Vec<Entry>, OutOfMemory>
    ensures items { IfOk result (λ spare. spare.items ≡ []) }
    ensures capacity { IfOk result (λ spare. vec_capacity spare ≡ 64) }
{
    Ok(Vec::with_capacity(alloc, PLACES)?)
}

// A core over a copy of the set.
fn core_over(alloc: Global, set: &AdmittedSet, room: usize) -> Result<Core, OutOfMemory>
    requires { room ≤ 2 ^ 20 }
    ensures { IfOk result (λ c. (c.set ≡ set.now) × (c.journal ≡ record { room = room; first = 0; kept = [] }) × Stands c []) }
{
    let copy = set.set().copy(alloc)?;
    match Core::new(alloc, copy, room) {
        Ok(core) => Ok(core),
        Err((copy, error)) => {
            drop(copy);
            Err(error)
        }
    }
}

// Why a step is not made whose operation or transaction is none. It stands apart, so that a step that is made pays nothing for it.
#[cold]
#[inline(never)]
fn unknown_step(code: u32) -> u32
    ensures { result ≡ (if nat_lt 4 code then 3 else 4) }
{
    if code > 4 {
        NO_OPERATION
    } else {
        NO_TRANSACTION
    }
}

impl CheckedCore {
    /// A core over the compiled and admitted set of these tables, whose journal has room for so many entries. All memory
    /// is taken here. Else the first cause for which there is none; OutOfMemory may come in place of each.
    pub fn open(alloc: Global, tables: &Tables, room: usize) -> Result<CheckedCore, Refused>
        ensures opened { IfOk result (Opened tables.now room) }
        ensures refused { IfErr result (WhyNotOpened tables.now room) }
    {
        if room > MOST_ROOM {
            return Err(Refused::NoRoom);
        }
        let set = compiled(alloc, tables)?;
        let set = match admit(alloc, set) {
            Ok(set) => set,
            Err((set, error)) => {
                drop(set);
                return Err(Refused::NotAdmitted(error));
            }
        };
        match CheckedCore::new(alloc, set, room) {
            Ok(core) => Ok(core),
            Err((set, _)) => {
                drop(set);
                Err(Refused::OutOfMemory)
            }
        }
    }

    /// A core over the compiled set of these tables, which is not admitted: nothing is promised of deadlines and ages. All
    /// memory is taken here. Else the first cause for which there is none; OutOfMemory may come in place of each.
    pub fn open_trial(alloc: Global, tables: &Tables, room: usize) -> Result<CheckedCore, Refused>
        ensures opened { IfOk result (OpenedTrial tables.now room) }
        ensures refused { IfErr result (WhyNotTried tables.now room) }
    {
        if room > MOST_ROOM {
            return Err(Refused::NoRoom);
        }
        let set = compiled(alloc, tables)?;
        match CheckedCore::trial(alloc, set, room) {
            Ok(core) => Ok(core),
            Err((set, _)) => {
                drop(set);
                Err(Refused::OutOfMemory)
            }
        }
    }

    /// A core over an admitted set at the opening state, whose journal has room for so many entries. After want of
    /// memory the set is handed back. No later call takes memory.
    pub fn new(
        alloc: Global,
        set: AdmittedSet,
        room: usize,
    ) -> Result<CheckedCore, (AdmittedSet, OutOfMemory)>
        requires { room ≤ 2 ^ 20 }
        ensures ok { IfOk result (λ c. (c.admitted ≡ Some set) × (c.board.set ≡ set) × (c.board.journal ≡ record { room = room; first = 0; kept = [] }) × Stands c.board []) }
        ensures err { IfErr result (λ e. e.0 ≡ set) }
    {
        let Ok(spare) = places(alloc) else {
            return Err((set, OutOfMemory));
        };
        match core_over(alloc, &set, room) {
            Ok(core) => {
                set.is_admitted();
                Ok(CheckedCore {
                    core,
                    admitted: Some(set),
                    spare,
                })
            }
            Err(error) => {
                drop(spare);
                Err((set, error))
            }
        }
    }

    /// A core with no entries over a set that need not be admitted; the set again where memory is refused.
    pub fn trial(
        alloc: Global,
        set: CompiledSet,
        room: usize,
    ) -> Result<CheckedCore, (CompiledSet, OutOfMemory)>
        requires { room ≤ 2 ^ 20 }
        ensures ok { IfOk result (λ c. (c.admitted ≡ None) × (c.board.set ≡ set) × (c.board.journal ≡ record { room = room; first = 0; kept = [] }) × Stands c.board []) }
        ensures err { IfErr result (λ e. e.0 ≡ set) }
    {
        let Ok(spare) = places(alloc) else {
            return Err((set, OutOfMemory));
        };
        match Core::new(alloc, set, room) {
            Ok(core) => Ok(CheckedCore {
                core,
                admitted: None,
                spare,
            }),
            Err(error) => {
                drop(spare);
                Err(error)
            }
        }
    }

    /// The core over its admitted set; None where the set was not admitted.
    pub fn into_admitted(self) -> Option<AdmittedCore>
        ensures { MatchOption result (self.admitted ≡ None) (λ a. (a.board ≡ self.board) × (self.admitted ≡ Some a.admitted)) }
    {
        let CheckedCore {
            core,
            admitted,
            spare,
        } = self;
        drop(spare);
        match admitted {
            Some(set) => Some(AdmittedCore::of(core, set)),
            None => {
                drop(core);
                None
            }
        }
    }

    /// That each history of the core keeps the bounds of the admitted set, if it has one. It does nothing.
    pub fn keeps_bounds(&self)
        ensures { (history : List Noted) → Stands self.now.board history → KeepsBoundsOf self.now history }
    {
        let _core = &self.core;
    }

    /// The set of the history.
    pub fn set(&self) -> &CompiledSet
        ensures { result.now ≡ self.now.board.set }
    {
        Board::set(&self.core)
    }

    // Whether the number names a transaction of the set.
    fn has_txn(&self, tx: u32) -> bool
        ensures { result ≡ nat_lt tx (length self.now.board.set.txns) }
    {
        (tx as usize) < self.set().txns().len()
    }

    fn has_item(&self, item: u32) -> bool
        ensures { result ≡ nat_lt item (length self.now.board.set.items) }
    {
        (item as usize) < self.set().items().len()
    }

    // Whether the job computes, and nothing else happens by that. Else nothing changes.
    #[inline(always)]
    fn computes(&mut self, job: JobId) -> bool
        requires { job.tx.0 < length self.old.board.set.txns }
        ensures keeps { Keeps self.old self.new × (self.new.board.journal.first ≡ self.old.board.journal.first) }
        ensures answer { IsTrue result → (history : List Noted) → Stands self.old.board history → step_reply_of self.old.board history job Op.Compute ≡ StepReply.Done Outcome.Computed None }
        ensures after { IsTrue result → (history : List Noted) → Stands self.old.board history → Stands self.new.board (noted history (step_entry (now_of self.old.board.set history) job Op.Compute (StepReply.Done Outcome.Computed None))) }
        ensures unchanged { result ≡ false → self.new ≡ self.old }
    {
        let computed = self.core.compute(job);
        self.keeps_bounds();
        computed
    }

    // As the core's call where the operation is known, and writes what it answers.
    #[inline(always)]
    fn answered(&mut self, job: JobId, op: Op, answer: &mut StepForm)
        requires { job.tx.0 < length self.old.board.set.txns }
        ensures { AskedOf job op answer.new self.old self.new }
    {
        put_reply(&self.core.asked(job, op), answer);
        self.keeps_bounds();
    }

    // As the core's call, and writes what it answers. Of a job that only computes the answer is known without a reply.
    #[inline(always)]
    fn asked(&mut self, job: JobId, op: Op, answer: &mut StepForm)
        requires { job.tx.0 < length self.old.board.set.txns }
        ensures { AskedOf job op answer.new self.old self.new }
    {
        match op {
            Op::Read(_) => self.answered(job, op, answer),
            Op::Write(_, _) => self.answered(job, op, answer),
            Op::Compute => {
                if self.computes(job) {
                    put_done(&Outcome::Computed, &None, answer);
                } else {
                    self.answered(job, op, answer);
                }
            }
            Op::Commit => self.answered(job, op, answer),
            Op::Quit => self.answered(job, op, answer),
        }
    }

    /// A job asks for an operation, as of `AdmittedCore`. NO_OPERATION, else NO_TRANSACTION, where a number names none.
    pub fn step(&mut self, job: JobForm, op: OpForm, answer: &mut StepForm) -> u32
        ensures { Stepped job op result answer.old answer.new self.old self.new }
    {
        self.keeps_bounds();
        if op.code > 4 || !self.has_txn(job.tx) {
            return unknown_step(op.code);
        }
        let Some(op) = op_of(op) else {
            return NO_OPERATION;
        };
        self.asked(job_of(job), op, answer);
        OK
    }

    /// Plans the transaction's next job for a tick, as of `AdmittedCore`. NO_TRANSACTION where it is none of the set.
    pub fn plan(&mut self, tx: u32, tick: u64, answer: &mut TimeForm) -> u32
        ensures { Planned tx tick result answer.old answer.new self.old self.new }
    {
        self.keeps_bounds();
        if !self.has_txn(tx) {
            return NO_TRANSACTION;
        }
        *answer = plan_form(tick, Board::plan(&mut self.core, TxId(tx), tick));
        self.keeps_bounds();
        OK
    }

    /// Plans for the earliest tick that may be, as of `AdmittedCore`. NO_TRANSACTION where it is none of the set.
    pub fn plan_next(&mut self, tx: u32, answer: &mut TimeForm) -> u32
        ensures { PlannedNext tx result answer.old answer.new self.old self.new }
    {
        self.keeps_bounds();
        if !self.has_txn(tx) {
            return NO_TRANSACTION;
        }
        *answer = plan_next_form(Board::plan_next(&mut self.core, TxId(tx)));
        self.keeps_bounds();
        OK
    }

    /// With nothing pending the time goes on, as of `AdmittedCore`.
    pub fn idle(&mut self, answer: &mut TimeForm)
        ensures { Idled 0 answer.new self.old self.new }
    {
        *answer = idle_form(Board::idle(&mut self.core));
        self.keeps_bounds();
    }

    /// The running job. NOTHING where none is pending.
    pub fn running(&self, job: &mut JobForm) -> u32
        ensures { IsRunningOf result job.old job.new self.now self.now }
    {
        match Board::running(&self.core) {
            Some(running) => {
                *job = job_form(running);
                OK
            }
            None => NOTHING,
        }
    }

    /// An item's installed value and stamp. NO_ITEM where it is none of the set.
    pub fn peek(&self, item: u32, stored: &mut StoredForm) -> u32
        ensures { Peeked item result stored.old stored.new self.now self.now }
    {
        if !self.has_item(item) {
            return NO_ITEM;
        }
        let (value, stamp) = Board::peek(&self.core, ItemId(item));
        *stored = StoredForm { value, stamp };
        OK
    }

    /// The transaction's pending job. NO_TRANSACTION where it is none of the set, NOTHING where none is pending.
    pub fn pending(&self, tx: u32, job: &mut JobForm) -> u32
        ensures { IsPendingOf tx result job.old job.new self.now self.now }
    {
        if !self.has_txn(tx) {
            return NO_TRANSACTION;
        }
        match Board::pending(&self.core, TxId(tx)) {
            Some(pending) => {
                *job = job_form(pending);
                OK
            }
            None => NOTHING,
        }
    }

    /// How many jobs of the transaction have ended. NO_TRANSACTION where it is none of the set.
    pub fn ended(&self, tx: u32, count: &mut u32) -> u32
        ensures { IsEndedOf tx result count.old count.new self.now self.now }
    {
        if !self.has_txn(tx) {
            return NO_TRANSACTION;
        }
        *count = Board::ended(&self.core, TxId(tx));
        OK
    }

    /// The response of a transaction, in ticks. NOT_ADMITTED where the set is not, else NO_TRANSACTION where it is none of
    /// the set.
    pub fn response(&self, tx: u32, ticks: &mut u64) -> u32
        ensures { IsResponseOf tx result ticks.old ticks.new self.now self.now }
    {
        let Some(set) = &self.admitted else {
            return NOT_ADMITTED;
        };
        if tx as usize >= set.set().txns().len() {
            return NO_TRANSACTION;
        }
        *ticks = set.response(TxId(tx));
        OK
    }

    /// For how many ticks one lower transaction blocks the transaction at most. NOT_ADMITTED where the set is not, else
    /// NO_TRANSACTION where it is none of the set.
    pub fn blocking(&self, tx: u32, ticks: &mut u64) -> u32
        ensures { IsBlockingOf tx result ticks.old ticks.new self.now self.now }
    {
        let Some(set) = &self.admitted else {
            return NOT_ADMITTED;
        };
        if tx as usize >= set.set().txns().len() {
            return NO_TRANSACTION;
        }
        *ticks = set.blocking(TxId(tx));
        OK
    }

    /// The age bound of an item, in ticks. NOT_ADMITTED where the set is not admitted, else NO_ITEM where it is none of the
    /// set, NOTHING for a state item.
    pub fn age(&self, item: u32, ticks: &mut u64) -> u32
        ensures { IsAgeOf item result ticks.old ticks.new self.now self.now }
    {
        let Some(set) = &self.admitted else {
            return NOT_ADMITTED;
        };
        if item as usize >= set.set().items().len() {
            return NO_ITEM;
        }
        match set.age(ItemId(item)) {
            Some(age) => {
                *ticks = age;
                OK
            }
            None => NOTHING,
        }
    }

    /// How many entries are kept.
    pub fn kept(&self) -> usize
        ensures { result ≡ length self.now.board.journal.kept }
    {
        Board::entries(&self.core).len()
    }

    /// How many entries were drained in all.
    pub fn drained(&self) -> u64
        ensures { result ≡ self.now.board.journal.first }
    {
        Board::first(&self.core)
    }

    /// Moves the oldest kept entries into a slice, as many as it has places for and no more than 64, and answers how many.
    /// It costs one move for each entry that was kept.
    pub fn drain(&mut self, into: &mut [EntryForm]) -> usize
        ensures { Drained 0 result into.old into.new self.old self.new }
    {
        let count = Board::drain(&mut self.core, into.len(), &mut self.spare);
        put_entries(into, self.spare.as_slice());
        self.spare.clear();
        self.keeps_bounds();
        count
    }

    /// How many releases are planned and did not take place yet.
    pub fn planned(&self) -> usize
        ensures { (history : List Noted) → Stands self.now.board history → result ≡ planned_of self.now.board.set history }
    {
        Board::planned(&self.core)
    }

    /// The present tick.
    pub fn now(&self) -> u64
        ensures { (history : List Noted) → Stands self.now.board history → result ≡ now_of self.now.board.set history }
    {
        Board::now(&self.core)
    }
}
