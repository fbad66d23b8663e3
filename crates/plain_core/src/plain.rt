//! The core over plain lists.
ghost use Rattle.std.specs.Prelude.{◌≡◌, ◌<◌, ◌≤◌, ◌^◌, ◌++◌, ◌∷◌, [], ℕ, List, length, IfOk, IfErr};
ghost use Rattle.step_journal.specs.declared.entry.Entry.{Entry as Noted};
ghost use Rattle.step_journal.specs.Step.{earliest as earliest_of, plans_of};
ghost use Rattle.plain_core.specs.Rules.{idle_of};
ghost use Rattle.board.specs.Histories.{noted, plan_entry, now_of, step_answer};
ghost use Rattle.board.specs.Answers.{plan_reply};
ghost use Rattle.plain_core.specs.Stands.{Stands};
ghost use Rattle.plain_core.specs.Steps.{step_by};
ghost use Rattle.step_journal.specs.State.{Row as RowSeen, opening};
ghost use Rattle.plain_core.specs.TablesSeen.{tables_of};
ghost use Rattle.step_journal.specs.Running.{running};
ghost use Rattle.step_journal.specs.History.{state_of};

use crate::arrive::next_tick;
use crate::asks::{effect, is_pending, no_job, turn};
use crate::plans::{earliest, judged};
use crate::running::{idle_answer, running};
use crate::tables::{Tables, plans_at, tally_at};
use board::{IdleReply, StepReply};
use rt_base::{End, JobId, Op, OutOfMemory, Outcome, PlanRefused, Prio, Tick, TxId};
use std::alloc::Global;
use std::marker::Model;
use step_journal::{Entry, Journal};
use txn_set::CompiledSet;

/// A board over plain lists. No call after `new` takes memory. A plan, and each question on one transaction or item, looks
/// at one place of a table. A step scans the pending jobs and the work of each, and for each lock the declarations; a
/// granted step and idling also scan the planned releases. A drain moves the kept entries.
#[derive(Drop)]
pub struct PlainCore {
    pub(crate) set: CompiledSet,
    pub(crate) journal: Journal,
    pub(crate) tables: Tables,
}

impl Model for PlainCore {
    ghost use Rattle.plain_core.specs.Seen.{PlainIs};
    ghost use Rattle.plain_core.specs.Stands.{IsCore};

    ghost Value = { PlainIs };

    ghost view = { λ c. record { set = c.set; journal = c.journal; tables = c.tables } };

    ghost invariant = { λ c. IsCore (record { set = c.set; journal = c.journal; tables = c.tables }) };
}

fn parts(alloc: Global, set: &CompiledSet, room: usize) -> Result<(Journal, Tables), OutOfMemory>
    ensures { IfOk result (λ p. (p.0 ≡ record { room = room; first = 0; kept = [] }) × (p.1 ≡ tables_of set.now (opening set.now))) }
{
    let journal = Journal::with_room(alloc, room)?;
    let tables = Tables::new(alloc, set)?;
    Ok((journal, tables))
}

impl PlainCore {
    /// A core at the opening state, with room for so many entries. No later call takes memory.
    pub fn new(
        alloc: Global,
        set: CompiledSet,
        room: usize,
    ) -> Result<PlainCore, (CompiledSet, OutOfMemory)>
        requires { room ≤ 2 ^ 20 }
        ensures ok { IfOk result (λ c. (c.set ≡ set) × (c.journal ≡ record { room = room; first = 0; kept = [] }) × Stands c []) }
        ensures err { IfErr result (λ e. e.0 ≡ set) }
    {
        set.is_compiled();
        match parts(alloc, &set, room) {
            Ok((journal, tables)) => Ok(PlainCore {
                set,
                journal,
                tables,
            }),
            Err(e) => Err((set, e)),
        }
    }

    /// The earliest tick for the next job of a transaction.
    pub(crate) fn earliest(&self, tx: TxId) -> Tick
        requires { tx.0 < length self.now.set.txns }
        ensures { result ≡ earliest_of self.now.set tx.0 (plans_of self.now.tables.state tx.0) }
    {
        let plans = plans_at(self.tables.plans(), tx);
        earliest(self.set.txns(), tx, plans)
    }

    /// The answer to plan.
    pub(crate) fn plan_check(&self, tx: TxId, tick: Tick) -> Result<JobId, PlanRefused>
        requires { tx.0 < length self.now.set.txns }
        ensures { result ≡ plan_reply self.now.set self.now.tables.state (length self.now.journal.kept) self.now.journal.room tx.0 tick }
    {
        let earliest = self.earliest(tx);
        let serial = plans_at(self.tables.plans(), tx).number;
        let job = JobId { tx, serial };
        judged(&self.tables, &self.journal, tick, earliest, job)
    }

    /// Plans a job, or refuses it.
    pub(crate) fn plan_at(&mut self, tx: TxId, tick: Tick) -> Result<JobId, PlanRefused>
        requires { tx.0 < length self.old.set.txns }
        ensures fixed { (self.new.set ≡ self.old.set) × (self.new.journal.room ≡ self.old.journal.room) × (self.new.journal.first ≡ self.old.journal.first) }
        ensures answer { result ≡ plan_reply self.old.set self.old.tables.state (length self.old.journal.kept) self.old.journal.room tx.0 tick }
        ensures after { (history : List Noted) → Stands self.old history → Stands self.new (noted history (plan_entry tx tick result)) }
    {
        match self.plan_check(tx, tick) {
            Ok(job) => {
                self.tables.note_plan(tx, tick);
                self.journal.push(Entry::Planned { tx, tick });
                Ok(job)
            }
            Err(e) => Err(e),
        }
    }

    /// The answer to idle.
    pub(crate) fn idle_check(&self) -> IdleReply
        ensures { result ≡ idle_of self.now }
    {
        idle_answer(
            self.journal.len(),
            self.journal.room(),
            next_tick(self.tables.planned()),
            running(self.set.txns(), self.tables.slots()),
        )
    }

    /// With nothing pending, the time goes on to the least planned tick.
    pub(crate) fn go_on(&mut self, to: Tick)
        requires { idle_of self.old ≡ IdleReply.Advanced to }
        ensures fixed { (self.new.set ≡ self.old.set) × (self.new.journal.room ≡ self.old.journal.room) × (self.new.journal.first ≡ self.old.journal.first) }
        ensures after { (history : List Noted) → Stands self.old history → Stands self.new (history ++ Entry.Idle (now_of self.old.set history) to ∷ []) }
    {
        let from = self.tables.now();
        self.tables.arrive(self.set.txns(), to);
        self.journal.push(Entry::Idle { from, to });
    }

    /// The answer to step.
    pub(crate) fn step_check(&self, job: JobId, op: Op) -> StepReply
        requires { job.tx.0 < length self.now.set.txns }
        ensures { result ≡ step_by self.now job op }
    {
        if is_pending(self.tables.slots(), job) {
            let kept = self.journal.len();
            let room = self.journal.room();
            turn(&self.set, &self.tables, kept, room, job, op)
        } else {
            no_job(tally_at(self.tables.tallies(), job.tx))
        }
    }

    /// The job is refused, and waits.
    pub(crate) fn block(&mut self, job: JobId, op: Op, by: JobId, ceiling: Prio)
        requires in_set { job.tx.0 < length self.old.set.txns }
        requires refused { (history : List Noted) → Stands self.old history → step_answer self.old.set history (length self.old.journal.kept) self.old.journal.room job op ≡ StepReply.Blocked by ceiling }
        ensures fixed { (self.new.set ≡ self.old.set) × (self.new.journal.room ≡ self.old.journal.room) × (self.new.journal.first ≡ self.old.journal.first) }
        ensures after { (history : List Noted) → Stands self.old history → Stands self.new (history ++ Entry.Blocked job op by ceiling (now_of self.old.set history) ∷ []) }
    {
        let tick = self.tables.now();
        self.tables.wait(job, by);
        self.journal.push(Entry::Blocked {
            job,
            op,
            by,
            ceiling,
            tick,
        });
    }

    /// A granted step: its effect, and the arrival.
    pub(crate) fn go(&mut self, job: JobId, op: Op, outcome: Outcome, over: Option<End>)
        requires in_set { job.tx.0 < length self.old.set.txns }
        requires done { (history : List Noted) → Stands self.old history → step_answer self.old.set history (length self.old.journal.kept) self.old.journal.room job op ≡ StepReply.Done outcome over }
        ensures fixed { (self.new.set ≡ self.old.set) × (self.new.journal.room ≡ self.old.journal.room) × (self.new.journal.first ≡ self.old.journal.first) }
        ensures after { (history : List Noted) → Stands self.old history → Stands self.new (history ++ Entry.Step job op outcome over (now_of self.old.set history) ∷ []) }
    {
        let tick = self.tables.now();
        effect(&self.set, &mut self.tables, job, op);
        self.tables.arrive(self.set.txns(), tick + 1);
        self.journal.push(Entry::Step {
            job,
            op,
            outcome,
            over,
            tick,
        });
    }
}
