//! The tables, and what they answer.
ghost use Rattle.std.specs.Prelude.{◌≡◌, ℕ, ◌<◌, length, slice_get, None, Some, IfOk, OnErr};
ghost use Rattle.std.specs.Option.{option_map};
ghost use Rattle.txn_set.specs.Set.{Set};
ghost use Rattle.step_journal.specs.State.{State, row_of, opening};
ghost use Rattle.step_journal.specs.Running.{running as running_row};
ghost use Rattle.step_journal.specs.Step.{next_tick as tick_of, with_plan};
ghost use Rattle.release_calendar.specs.Agenda.{refusal};
ghost use Rattle.board.specs.Answers.{plan_reply, next_tick_for, ended_number, last_end};
ghost use Rattle.core_tables.specs.Tables.{AreTables};
ghost use Rattle.core_tables.specs.Legal.{IsLegalState, Stand};

use crate::openings::{calendar_of, no_tallies};
use crate::pending::Pending;
use crate::tally::Tally;
use item_model::Items;
use release_calendar::Calendar;
use rt_base::{ItemId, JobId, OutOfMemory, PlanRefused, Tick, TxId, Value};
use std::alloc::Global;
use std::marker::Model;
use txn_set::CompiledSet;

/// The state of a board but for its list of ended jobs, each part as a table. Only `new` takes memory.
#[derive(Drop)]
pub struct CoreTables {
    pub(crate) clock: Tick,
    pub(crate) items: Items,
    pub(crate) calendar: Calendar,
    pub(crate) pending: Pending,
    pub(crate) tallies: Vec<Tally>,
}

impl Model for CoreTables {
    ghost use Rattle.core_tables.specs.Seen.{TablesSeen};

    ghost Value = { TablesSeen };

    ghost view = { λ t. record { clock = t.clock; items = t.items; calendar = t.calendar; pending = t.pending; tallies = t.tallies.items } };
}

impl CoreTables {
    /// The tables of the opening state, with places for 65,536 planned releases.
    pub fn new(alloc: Global, set: &CompiledSet) -> Result<CoreTables, OutOfMemory>
        ensures { IfOk result (λ t. AreTables set.now t (opening set.now)) }
    {
        let tallies = no_tallies(alloc, set.txns().len())?;
        let items = Items::new(alloc, set.items())?;
        let calendar = calendar_of(alloc, set)?;
        let pending = Pending::new(alloc, set)?;
        Ok(CoreTables {
            clock: 0,
            items,
            calendar,
            pending,
            tallies,
        })
    }

    /// The present tick.
    pub fn now(&self) -> Tick
        ensures { result ≡ self.now.clock }
    {
        self.clock
    }

    /// An item's installed value and stamp, by one look-up.
    pub fn item(&self, item: ItemId) -> (Value, Tick)
        requires { item.0 < length self.now.items }
        ensures { slice_get self.now.items item.0 ≡ Some (record { value = result.0; stamp = result.1 }) }
    {
        self.items.get(item)
    }

    /// The items as they are installed, handed out.
    pub fn into_items(self) -> Items
        ensures { result ≡ self.items }
    {
        let CoreTables {
            clock: _,
            items,
            calendar,
            pending,
            tallies: _,
        } = self;
        drop(calendar);
        drop(pending);
        items
    }

    /// The first tick for which the transaction's next job may be planned. One look-up.
    pub fn next_for(&self, tx: TxId) -> Tick
        requires { tx.0 < length self.now.calendar.periods }
        ensures { (set : Set) (s : State) → AreTables set self.now s → result ≡ next_tick_for set s tx.0 }
    {
        self.calendar.next_for(tx, self.clock)
    }

    /// How many releases are planned and did not take place yet.
    pub fn planned(&self) -> usize
        ensures { (set : Set) (s : State) → AreTables set self.now s → result ≡ length s.planned }
    {
        self.calendar.waiting()
    }

    /// The least planned tick, by one look.
    pub fn next_tick(&self) -> Option<Tick>
        ensures { (set : Set) (s : State) → AreTables set self.now s → result ≡ tick_of s.planned }
    {
        self.calendar.next_tick()
    }

    /// The transaction's pending job. One look-up.
    pub fn pending(&self, tx: TxId) -> Option<JobId>
        requires { tx.0 < length self.now.pending.rows }
        ensures { (set : Set) (s : State) → AreTables set self.now s → result ≡ option_map (λ r. r.job) (row_of s.rows tx.0) }
    {
        self.pending.job(tx)
    }

    /// How many jobs of the transaction have ended, and how the latest did. One look-up.
    pub fn tally(&self, tx: TxId) -> Tally
        requires { tx.0 < length self.now.tallies }
        ensures { (set : Set) (s : State) → AreTables set self.now s → result ≡ record { number = ended_number s.ended tx.0; last = last_end s.ended tx.0 } }
    {
        self.tallies[tx.0 as usize]
    }

    /// The running job; None exactly where nothing is pending. A bounded number of looks.
    pub fn running(&self) -> Option<JobId>
        ensures { (set : Set) (s : State) → AreTables set self.now s → result ≡ option_map (λ r. r.job) (running_row set s.rows) }
    {
        self.pending.running()
    }

    /// The answer that a plan would get, from a board that keeps so many entries and has room for so many: the calendar's
    /// refusals in their order, then Full, and else the job. It changes nothing, and costs one look-up.
    pub fn plan_check(
        &self,
        tx: TxId,
        tick: Tick,
        kept: usize,
        room: usize,
    ) -> Result<JobId, PlanRefused>
        requires { tx.0 < length self.now.calendar.periods }
        ensures { (set : Set) (s : State) → AreTables set self.now s → result ≡ plan_reply set s kept room tx.0 tick }
    {
        match self.calendar.check(tx, tick, self.clock) {
            Err(refused) => Err(refused),
            Ok(_) if room <= kept => Err(PlanRefused::Full { room }),
            Ok(serial) => Ok(JobId { tx, serial }),
        }
    }

    /// Plans the transaction's next job for a tick, or refuses it as `plan_check` says. A job planned for the present tick is
    /// pending at once. A refusal changes nothing. It costs a few looks, however many are planned.
    #[inline(always)]
    pub fn plan(
        &mut self,
        tx: TxId,
        tick: Tick,
        kept: usize,
        room: usize,
    ) -> Result<JobId, PlanRefused>
        requires in_set { tx.0 < length self.old.calendar.periods }
        requires stand { (set : Set) × Stand set self.old }
        ensures answer { (set : Set) (s : State) → AreTables set self.old s → result ≡ plan_reply set s kept room tx.0 tick }
        ensures planned { IfOk result (λ _. (set : Set) (s : State) → AreTables set self.old s → IsLegalState set s → AreTables set self.new (with_plan s tx.0 tick)) }
        ensures unchanged { OnErr result (self.new ≡ self.old) }
    {
        match self.plan_check(tx, tick, kept, room) {
            Err(refused) => Err(refused),
            Ok(job) => {
                self.note_plan(tx, tick);
                Ok(job)
            }
        }
    }

    /// Notes a plan that the calendar does not refuse.
    fn note_plan(&mut self, tx: TxId, tick: Tick)
        requires in_set { tx.0 < length self.old.calendar.periods }
        requires stand { (set : Set) × Stand set self.old }
        requires free { refusal self.old.calendar tx.0 tick self.old.clock ≡ None }
        ensures { (set : Set) (s : State) → AreTables set self.old s → IsLegalState set s → AreTables set self.new (with_plan s tx.0 tick) }
    {
        let serial = self.calendar.plan_free(tx, tick);
        if tick != self.clock {
            return;
        }
        let _ = self.calendar.due(tick);
        self.pending.release(JobId { tx, serial }, tick);
    }
}
