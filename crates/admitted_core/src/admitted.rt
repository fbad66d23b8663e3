//! A core and its admitted set.
ghost use Rattle.std.specs.Prelude.{◌≡◌, ◌≤◌, ◌+◌, ◌<◌, ◌^◌, List, [], length, Some, IfOk, IfErr};
ghost use Rattle.std.specs.Prelude.{◌-◌, ◌++◌, min, take, drop, vec_capacity, vec_len};
ghost use Rattle.step_journal.specs.declared.entry.Entry.{Entry as Noted};
ghost use Rattle.board.specs.Histories.{noted, plan_entry, plan_next_entry, step_entry, idle_entry, plan_answer, plan_next_answer, step_answer, idle_answer, now_of};
ghost use Rattle.set_admission.specs.Laws.{KeepsBounds};
ghost use Rattle.lock_core.specs.Stands.{Stands};
ghost use Rattle.lock_core.specs.Promises.{IsLawful, IsLawfulStep};

use board::{Board, IdleReply, StepReply};
use item_model::Items;
use lock_core::Core;
use rt_base::{ItemId, JobId, Op, OutOfMemory, Outcome, PlanRefused, Tick, TxId, Value};
use set_admission::AdmittedSet;
use std::alloc::Global;
use std::marker::Model;
use step_journal::Entry;
use txn_set::CompiledSet;

/// A core over an admitted set. In each history that it stands for each job ends within its transaction's response, no
/// job is late, and where the history is steady what was read is within the age bounds. Its calls take no memory, and
/// cost what those of the core cost.
pub struct AdmittedCore {
    pub(crate) board: Core,
    pub(crate) admitted: AdmittedSet,
}

impl Model for AdmittedCore {
    ghost use Rattle.admitted_core.specs.Seen.{AdmittedSeen, IsOver};

    ghost Value = { AdmittedSeen };

    ghost view = { λ a. record { board = a.board; admitted = a.admitted } };

    ghost invariant = { λ a. IsOver (record { board = a.board; admitted = a.admitted }) };
}

impl Drop for AdmittedCore {
    fn drop(self) {
        let Self {
            board: _,
            admitted: _,
        } = self;
    }
}

impl AdmittedCore {
    /// A core over an admitted set at the opening state, with room for so many entries. After want of memory the set is
    /// handed back. No later call takes memory.
    pub fn new(
        alloc: Global,
        set: AdmittedSet,
        room: usize,
    ) -> Result<AdmittedCore, (AdmittedSet, OutOfMemory)>
        requires { room ≤ 2 ^ 20 }
        ensures ok { IfOk result (λ a. (a.admitted ≡ set) × (a.board.set ≡ set) × (a.board.journal ≡ record { room = room; first = 0; kept = [] }) × Stands a.board []) }
        ensures err { IfErr result (λ e. e.0 ≡ set) }
    {
        let Ok(copy) = set.set().copy(alloc) else {
            return Err((set, OutOfMemory));
        };
        match Core::new(alloc, copy, room) {
            Ok(board) => Ok(AdmittedCore::of(board, set)),
            Err((_, e)) => Err((set, e)),
        }
    }

    /// The core over its admitted set.
    pub fn of(board: Core, admitted: AdmittedSet) -> AdmittedCore
        requires { board.set ≡ admitted }
        ensures { result ≡ record { board = board; admitted = admitted } }
    {
        admitted.is_admitted();
        AdmittedCore { board, admitted }
    }

    /// The admitted set, with its responses and age bounds.
    pub fn admitted(&self) -> &AdmittedSet
        ensures { result.now ≡ self.now.admitted }
    {
        &self.admitted
    }

    /// That each history of the core keeps the bounds of the admitted set: a caller learns it by this call, which does
    /// nothing.
    pub fn keeps_bounds(&self)
        ensures { (history : List Noted) → Stands self.now.board history → KeepsBounds self.now.admitted history }
    {
        self.admitted.is_admitted();
    }

    /// That the laws hold of each history of the core, as `Core::is_lawful` says of a core: a caller learns it by this call,
    /// which does nothing.
    pub fn is_lawful(&self)
        ensures { (history : List Noted) → Stands self.now.board history → IsLawful self.now.board.set history }
    {
        let _board = &self.board;
    }

    /// Plans as the core does. Every history that it then stands for keeps the bounds.
    pub fn plan(&mut self, tx: TxId, tick: Tick) -> Result<JobId, PlanRefused>
        requires { tx.0 < length self.old.board.set.txns }
        ensures fixed { (self.new.board.set ≡ self.old.board.set) × (self.new.board.journal.room ≡ self.old.board.journal.room) × (self.new.board.journal.first ≡ self.old.board.journal.first) }
        ensures admitted { self.new.admitted ≡ self.old.admitted }
        ensures answer { (history : List Noted) → Stands self.old.board history → result ≡ plan_answer self.old.board.set history (length self.old.board.journal.kept) self.old.board.journal.room tx.0 tick }
        ensures after { (history : List Noted) → Stands self.old.board history → Stands self.new.board (noted history (plan_entry tx tick result)) }
        ensures bounds { (history : List Noted) → Stands self.new.board history → KeepsBounds self.new.admitted history }
    {
        let reply = Board::plan(&mut self.board, tx, tick);
        self.keeps_bounds();
        reply
    }

    /// Plans as the core does for the earliest tick. Every history that it then stands for keeps the bounds.
    pub fn plan_next(&mut self, tx: TxId) -> Result<(JobId, Tick), PlanRefused>
        requires { tx.0 < length self.old.board.set.txns }
        ensures fixed { (self.new.board.set ≡ self.old.board.set) × (self.new.board.journal.room ≡ self.old.board.journal.room) × (self.new.board.journal.first ≡ self.old.board.journal.first) }
        ensures admitted { self.new.admitted ≡ self.old.admitted }
        ensures answer { (history : List Noted) → Stands self.old.board history → result ≡ plan_next_answer self.old.board.set history (length self.old.board.journal.kept) self.old.board.journal.room tx.0 }
        ensures after { (history : List Noted) → Stands self.old.board history → Stands self.new.board (noted history (plan_next_entry tx result)) }
        ensures bounds { (history : List Noted) → Stands self.new.board history → KeepsBounds self.new.admitted history }
    {
        let reply = Board::plan_next(&mut self.board, tx);
        self.keeps_bounds();
        reply
    }

    /// A job asks for an operation, as of the core, and the step promises what the core's does: the answer's entry is that of
    /// the step and is kept, a refusal other than Blocked changes nothing, Blocked comes only where the job holds no lock and
    /// was not blocked before, no two pending jobs hold locks in conflict, ended jobs hold nothing, no jobs wait in a cycle,
    /// and the replies are those of the ended jobs run alone. In every history that it then stands for each job ended by its
    /// release plus its transaction's response, none was late, and where the history is steady no job ended stale or
    /// apart, and what was read is within the age bounds.
    pub fn step(&mut self, job: JobId, op: Op) -> StepReply
        requires { job.tx.0 < length self.old.board.set.txns }
        ensures fixed { (self.new.board.set ≡ self.old.board.set) × (self.new.board.journal.room ≡ self.old.board.journal.room) × (self.new.board.journal.first ≡ self.old.board.journal.first) }
        ensures admitted { self.new.admitted ≡ self.old.admitted }
        ensures answer { (history : List Noted) → Stands self.old.board history → result ≡ step_answer self.old.board.set history (length self.old.board.journal.kept) self.old.board.journal.room job op }
        ensures after { (history : List Noted) → Stands self.old.board history → Stands self.new.board (noted history (step_entry (now_of self.old.board.set history) job op result)) }
        ensures lawful { IsLawfulStep (λ a history. Stands a.board history) (λ a. a.board.set) (λ a. a.board.journal.kept) self.old self.new job op result }
        ensures bounds { (history : List Noted) → Stands self.new.board history → KeepsBounds self.new.admitted history }
    {
        let reply = Board::step(&mut self.board, job, op);
        self.keeps_bounds();
        reply
    }

    /// The time goes on as on the core. Every history that it then stands for keeps the bounds.
    pub fn idle(&mut self) -> IdleReply
        ensures fixed { (self.new.board.set ≡ self.old.board.set) × (self.new.board.journal.room ≡ self.old.board.journal.room) × (self.new.board.journal.first ≡ self.old.board.journal.first) }
        ensures admitted { self.new.admitted ≡ self.old.admitted }
        ensures answer { (history : List Noted) → Stands self.old.board history → result ≡ idle_answer self.old.board.set history (length self.old.board.journal.kept) self.old.board.journal.room }
        ensures after { (history : List Noted) → Stands self.old.board history → Stands self.new.board (noted history (idle_entry (now_of self.old.board.set history) result)) }
        ensures bounds { (history : List Noted) → Stands self.new.board history → KeepsBounds self.new.admitted history }
    {
        let reply = Board::idle(&mut self.board);
        self.keeps_bounds();
        reply
    }

    /// Moves the oldest kept entries to the end of `into` as the core does: as many as it has places for and no more
    /// than `most`. The set stays admitted, and every history that was stood for keeps the bounds as before.
    pub fn drain(&mut self, most: usize, into: &mut Vec<Entry>) -> usize
        ensures count { result ≡ min most (min (length self.old.board.journal.kept) (vec_capacity into.old - vec_len into.old)) }
        ensures moved { into.new.items ≡ into.old.items ++ take result self.old.board.journal.kept }
        ensures left { self.new.board.journal.kept ≡ drop result self.old.board.journal.kept }
        ensures places { vec_capacity into.new ≡ vec_capacity into.old }
        ensures fixed { (self.new.board.set ≡ self.old.board.set) × (self.new.board.journal.room ≡ self.old.board.journal.room) × (self.new.board.journal.first ≡ self.old.board.journal.first + result) }
        ensures admitted { self.new.admitted ≡ self.old.admitted }
        ensures after { (history : List Noted) → Stands self.old.board history → Stands self.new.board history }
        ensures bounds { (history : List Noted) → Stands self.new.board history → KeepsBounds self.new.admitted history }
    {
        let count = Board::drain(&mut self.board, most, into);
        self.keeps_bounds();
        count
    }

    /// Lets go of all kept entries as the core does, and costs what it does there. The set stays admitted, and every history
    /// that was stood for keeps the bounds as before.
    pub fn discard(&mut self)
        ensures left { self.new.board.journal.kept ≡ [] }
        ensures fixed { (self.new.board.set ≡ self.old.board.set) × (self.new.board.journal.room ≡ self.old.board.journal.room) × (self.new.board.journal.first ≡ self.old.board.journal.first + length self.old.board.journal.kept) }
        ensures admitted { self.new.admitted ≡ self.old.admitted }
        ensures after { (history : List Noted) → Stands self.old.board history → Stands self.new.board history }
        ensures bounds { (history : List Noted) → Stands self.new.board history → KeepsBounds self.new.admitted history }
    {
        Board::discard(&mut self.board);
        self.keeps_bounds();
    }
}

impl Board for AdmittedCore {
    ghost stands = { λ a history. Stands a.board history };

    ghost set = { λ a. a.board.set };

    ghost room = { λ a. a.board.journal.room };

    ghost first = { λ a. a.board.journal.first };

    ghost kept = { λ a. a.board.journal.kept };

    ghost is_history = { λ a history h. h.is_history };

    fn plan(&mut self, tx: TxId, tick: Tick) -> Result<JobId, PlanRefused> {
        self.plan(tx, tick)
    }

    fn plan_next(&mut self, tx: TxId) -> Result<(JobId, Tick), PlanRefused> {
        self.plan_next(tx)
    }

    fn step(&mut self, job: JobId, op: Op) -> StepReply {
        self.step(job, op)
    }

    #[inline(always)]
    fn ask(&mut self, job: JobId, op: Op) -> Option<Outcome> {
        self.board.ask(job, op)
    }

    #[inline(always)]
    fn compute(&mut self, job: JobId) -> bool {
        self.board.compute(job)
    }

    fn idle(&mut self) -> IdleReply {
        self.idle()
    }

    fn peek(&self, item: ItemId) -> (Value, Tick) {
        self.board.peek(item)
    }

    fn now(&self) -> Tick {
        self.board.now()
    }

    fn running(&self) -> Option<JobId> {
        self.board.running()
    }

    fn pending(&self, tx: TxId) -> Option<JobId> {
        self.board.pending(tx)
    }

    fn ended(&self, tx: TxId) -> u32 {
        self.board.ended(tx)
    }

    fn planned(&self) -> usize {
        self.board.planned()
    }

    fn room(&self) -> usize {
        self.board.room()
    }

    fn entries(&self) -> &[Entry] {
        self.board.entries()
    }

    fn set(&self) -> &CompiledSet {
        self.board.set()
    }

    fn drain(&mut self, most: usize, into: &mut Vec<Entry>) -> usize {
        self.drain(most, into)
    }

    fn discard(&mut self) {
        self.discard();
    }

    fn first(&self) -> u64 {
        self.board.first()
    }

    fn count(&self) -> u64 {
        self.board.count()
    }

    fn into_parts(self) -> (Items, Vec<Entry>) {
        let AdmittedCore { board, admitted: _ } = self;
        board.into_parts()
    }
}
