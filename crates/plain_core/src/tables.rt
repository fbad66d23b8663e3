//! The state as tables: plans, slots and tallies go by the number of the transaction.
ghost use Rattle.std.specs.Prelude.{◌≡◌, ◌+◌, ◌-◌, ◌<◌, ◌≤◌, ◌^◌, ℕ, Some, length, slice_get, slice_index_or, IfOk};
ghost use Rattle.std.specs.Option.{option_map};
ghost use Rattle.step_journal.specs.State.{Row as RowSeen, row_of, opening};
ghost use Rattle.step_journal.specs.Step.{plans_of, with_plan};
ghost use Rattle.plain_core.specs.TablesSeen.{tally_of, tables_of};
ghost use Rattle.plain_core.specs.Arrivals.{arrived_tables};
ghost use Rattle.plain_core.specs.Waits.{waited};
ghost use Rattle.plain_core.specs.Effects.{IsLow, installed, settled_by, stepped_tables};

use crate::arrive::{
    collect_due, count_end, count_lates, drop_due, end_row, end_rows, release_due,
};
use crate::install::install;
use crate::openings::{opening_plans, opening_slots, opening_tallies};
use crate::slot::{Head, Slot};
use crate::tally::Tally;
use item_model::{ItemDecl, Items, Stored};
use rt_base::{End, ItemId, JobId, Op, OutOfMemory, Plans, Release, Tick, TxId, Value};
use std::alloc::Global;
use std::marker::Model;
use txn_set::{CompiledSet, TxnDecl};

/// The state, but for the list of all ended jobs. Only `new` takes memory.
#[derive(Drop)]
pub struct Tables {
    clock: Tick,
    items: Items,
    plans: Vec<Plans>,
    planned: Vec<Release>,
    slots: Vec<Slot>,
    tallies: Vec<Tally>,
    due: Vec<Head>,
}

impl Model for Tables {
    ghost use Rattle.std.specs.Prelude.{◌≤◌, [], vec_capacity};
    ghost use Rattle.plain_core.specs.TablesSeen.{TablesSeen};

    ghost Value = { TablesSeen };

    ghost view = { λ t. record { state = record { now = t.clock; items = t.items; plans = t.plans.items; planned = t.planned.items; rows = t.slots.items; ended = [] }; tallies = t.tallies.items } };

    ghost invariant = { λ t. (65536 ≤ vec_capacity t.planned) × (64 ≤ vec_capacity t.due) };
}

impl Tables {
    /// The tables of the opening state, with places for 65,536 planned releases and for the work of each transaction.
    #[tactic(auto, unfolding(step_journal::specs::State::opening))]
    pub fn new(alloc: Global, set: &CompiledSet) -> Result<Tables, OutOfMemory>
        ensures { IfOk result (λ t. t ≡ tables_of set.now (opening set.now)) }
    {
        let mut planned = Vec::new(alloc);
        planned.reserve(65536)?;
        let mut due = Vec::new(alloc);
        due.reserve(64)?;
        let plans = opening_plans(alloc, set.txns())?;
        let tallies = opening_tallies(alloc, set.txns())?;
        let items = Items::new(alloc, set.items())?;
        let slots = opening_slots(alloc, set.txns())?;
        Ok(Tables {
            clock: 0,
            items,
            plans,
            planned,
            slots,
            tallies,
            due,
        })
    }

    /// The present tick.
    pub fn now(&self) -> Tick
        ensures { result ≡ self.now.state.now }
    {
        self.clock
    }

    /// The items as they are installed.
    pub fn items(&self) -> &[Stored]
        ensures { result.now ≡ self.now.state.items }
    {
        self.items.as_slice()
    }

    /// An item's value and stamp.
    pub fn item(&self, item: ItemId) -> (Value, Tick)
        requires { item.0 < length self.now.state.items }
        ensures { slice_get self.now.state.items item.0 ≡ Some (record { value = result.0; stamp = result.1 }) }
    {
        self.items.get(item)
    }

    /// The plans of each transaction.
    pub fn plans(&self) -> &[Plans]
        ensures { result.now ≡ self.now.state.plans }
    {
        self.plans.as_slice()
    }

    /// The releases that are planned and did not take place yet.
    pub fn planned(&self) -> &[Release]
        ensures { result.now ≡ self.now.state.planned }
    {
        self.planned.as_slice()
    }

    /// The place of each transaction's pending job.
    pub fn slots(&self) -> &[Slot]
        ensures { result.now ≡ self.now.state.rows }
    {
        self.slots.as_slice()
    }

    /// What is kept of the ended jobs of each transaction.
    pub fn tallies(&self) -> &[Tally]
        ensures { result.now ≡ self.now.tallies }
    {
        self.tallies.as_slice()
    }

    /// The items, handed out.
    pub fn into_items(self) -> Items
        ensures { result ≡ self.state.items }
    {
        let Tables {
            clock: _,
            items,
            plans: _,
            planned: _,
            slots: _,
            tallies: _,
            due: _,
        } = self;
        items
    }

    /// Notes a release; for the present tick the job is pending at once.
    #[tactic(auto, unfolding(step_journal::specs::Step::with_plan))]
    pub fn note_plan(&mut self, tx: TxId, tick: Tick)
        requires plans { tx.0 < length self.old.state.plans }
        requires rows { tx.0 < length self.old.state.rows }
        requires few { length self.old.state.planned < 65536 }
        requires serial { (plans_of self.old.state tx.0).number < 2 ^ 32 - 1 }
        ensures { self.new ≡ record self.old { state = with_plan self.old.state tx.0 tick } }
    {
        let number = plans_at(self.plans.as_slice(), tx).number;
        self.plans[tx.0 as usize] = Plans {
            number: number + 1,
            last: tick,
        };
        let job = JobId { tx, serial: number };
        if tick == self.clock {
            let slot = &mut self.slots[tx.0 as usize];
            slot.release(job, tick);
        } else {
            self.planned.push_reserved(Release { job, tick });
        }
    }

    /// The time goes on to this tick: the jobs whose deadline it is end Late, then the releases planned for it take
    /// place.
    pub fn arrive(&mut self, txns: &[TxnDecl], tick: Tick)
        requires rows { length self.old.state.rows ≤ 64 }
        requires few { (n : ℕ) → (tally_of self.old.tallies n).number ≤ 2 ^ 40 }
        ensures { self.new ≡ arrived_tables txns.now tick self.old }
    {
        collect_due(txns, tick, self.slots.as_slice(), &mut self.due);
        end_rows(&mut self.slots, self.due.as_slice());
        count_lates(&mut self.tallies, self.due.as_slice());
        release_due(&mut self.slots, self.planned.as_slice(), tick);
        drop_due(&mut self.planned, tick);
        self.clock = tick;
    }

    /// The pending job of a transaction waits on another.
    pub fn wait(&mut self, job: JobId, on: JobId)
        requires { job.tx.0 < length self.old.state.rows }
        ensures { self.new ≡ waited self.old job on }
    {
        let slot = &mut self.slots[job.tx.0 as usize];
        slot.wait(on);
    }

    /// The pending job of a transaction takes a granted step: it is counted, and what it read or wrote is noted.
    pub fn step(&mut self, job: JobId, op: Op)
        requires slot { job.tx.0 < length self.old.state.rows }
        requires low { IsLow op }
        requires used { (row : RowSeen) → row_of self.old.state.rows job.tx.0 ≡ Some row → row.used < 2 ^ 63 }
        ensures { self.new ≡ stepped_tables self.old job op }
    {
        let slot = &mut self.slots[job.tx.0 as usize];
        slot.step(self.items.as_slice(), op);
    }

    /// The pending job of a transaction ends: a committed one's writes are installed, its place is free, and whoever
    /// waited on it waits no more.
    pub fn settle(&mut self, decls: &[ItemDecl], job: JobId, end: End)
        requires slot { job.tx.0 < length self.old.state.rows }
        requires few { (tally_of self.old.tallies job.tx.0).number < 2 ^ 48 }
        ensures { self.new ≡ settled_by decls.now self.old job (Some end) }
    {
        install_slot(&mut self.items, decls, &self.slots[job.tx.0 as usize], end);
        end_row(&mut self.slots, job);
        count_end(&mut self.tallies, job, end);
    }
}

fn install_slot(items: &mut Items, decls: &[ItemDecl], slot: &Slot, end: End)
    ensures { items.new ≡ installed decls.now end slot.now items.old }
{
    if let Some(head) = slot.head() {
        install(items, decls, slot.work(), head.release, end);
    }
}

/// The plans of a transaction.
pub fn plans_at(plans: &[Plans], tx: TxId) -> Plans
    requires { tx.0 < length plans.now }
    ensures { result ≡ slice_index_or plans.now tx.0 (record { number = 0; last = 0 }) }
{
    plans[tx.0 as usize]
}

/// The tally of a transaction.
pub fn tally_at(tallies: &[Tally], tx: TxId) -> Tally
    requires { tx.0 < length tallies.now }
    ensures { result ≡ tally_of tallies.now tx.0 }
{
    tallies[tx.0 as usize]
}

/// The name of a transaction's pending job.
pub fn job_at(slots: &[Slot], tx: TxId) -> Option<JobId>
    requires { tx.0 < length slots.now }
    ensures { result ≡ option_map (λ r. r.job) (row_of slots.now tx.0) }
{
    slots[tx.0 as usize].job()
}
