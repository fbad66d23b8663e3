//! The core, and what it is asked.
ghost use Rattle.std.specs.Prelude.{◌≡◌, ◌<◌, ◌≤◌, ◌^◌, [], ℕ, List, Some, length, slice_get, IfOk, IfErr};
ghost use Rattle.step_journal.specs.declared.entry.Entry.{Entry as Noted};
ghost use Rattle.step_journal.specs.State.{opening};
ghost use Rattle.step_journal.specs.History.{state_of};
ghost use Rattle.law_histories.specs.Protocol.{NeverStuck};
ghost use Rattle.board.specs.Histories.{now_of, running_of, pending_of, ended_of, planned_of};
ghost use Rattle.core_tables.specs.Tables.{AreTables};
ghost use Rattle.lock_core.specs.Stands.{Stands};
ghost use Rattle.lock_core.specs.Promises.{IsLawful};

use core_tables::CoreTables;
use item_model::Items;
use rt_base::{ItemId, JobId, OutOfMemory, Tick, TxId, Value};
use std::alloc::Global;
use std::marker::Model;
use step_journal::{Entry, Journal};
use txn_set::CompiledSet;

/// A board over tables: pending jobs by transaction and by rank, ceilings of locks, planned releases, and items. It
/// stands for one legal history of its set. Only `new` takes memory.
#[derive(Drop)]
pub struct Core {
    pub(crate) set: CompiledSet,
    pub(crate) journal: Journal,
    pub(crate) tables: CoreTables,
}

/// A core over a set that was not admitted: nothing is promised of its deadlines.
pub type TrialCore = Core;

impl Model for Core {
    ghost use Rattle.lock_core.specs.Seen.{CoreSeen};
    ghost use Rattle.lock_core.specs.Stands.{IsCore};

    ghost Value = { CoreSeen };

    ghost view = { λ c. record { set = c.set; journal = c.journal; tables = c.tables } };

    ghost invariant = { λ c. IsCore (record { set = c.set; journal = c.journal; tables = c.tables }) };
}

fn parts(
    alloc: Global,
    set: &CompiledSet,
    room: usize,
) -> Result<(Journal, CoreTables), OutOfMemory>
    ensures journal { IfOk result (λ p. p.0 ≡ record { room = room; first = 0; kept = [] }) }
    ensures tables { IfOk result (λ p. AreTables set.now p.1 (opening set.now)) }
{
    let journal = Journal::with_room(alloc, room)?;
    let tables = CoreTables::new(alloc, set)?;
    Ok((journal, tables))
}

impl Core {
    /// A core at the opening state: the time is 0, nothing is planned, and no entry is kept of at most so many. No later
    /// call takes memory.
    pub fn new(
        alloc: Global,
        set: CompiledSet,
        room: usize,
    ) -> Result<Core, (CompiledSet, OutOfMemory)>
        requires { room ≤ 2 ^ 20 }
        ensures ok { IfOk result (λ c. (c.set ≡ set) × (c.journal ≡ record { room = room; first = 0; kept = [] }) × Stands c []) }
        ensures err { IfErr result (λ e. e.0 ≡ set) }
    {
        set.is_compiled();
        match parts(alloc, &set, room) {
            Ok((journal, tables)) => Ok(Core {
                set,
                journal,
                tables,
            }),
            Err(e) => Err((set, e)),
        }
    }

    /// That the laws hold of each history that the core stands for: no two pending jobs hold locks in conflict, ended jobs
    /// hold nothing, no jobs wait in a cycle, a job is refused at most once and then holds no lock, replies and items are
    /// those of the ended jobs run alone, and one lower job at most delays a job. A caller learns it by this call, which does nothing.
    pub fn is_lawful(&self)
        ensures { (history : List Noted) → Stands self.now history → IsLawful self.now.set history }
    {
        let _set = &self.set;
    }

    /// An item's installed value and stamp. One look-up.
    pub fn peek(&self, item: ItemId) -> (Value, Tick)
        requires { item.0 < length self.now.set.items }
        ensures { (history : List Noted) → Stands self.now history → slice_get (state_of self.now.set history).items item.0 ≡ Some (record { value = result.0; stamp = result.1 }) }
    {
        self.tables.item(item)
    }

    /// The present tick.
    pub fn now(&self) -> Tick
        ensures { (history : List Noted) → Stands self.now history → result ≡ now_of self.now.set history }
    {
        self.tables.now()
    }

    /// The running job; None exactly where nothing is pending. No jobs wait in a cycle, so that there is one where a job
    /// is pending.
    pub fn running(&self) -> Option<JobId>
        ensures running { (history : List Noted) → Stands self.now history → result ≡ running_of self.now.set history }
        ensures no_cycle { (history : List Noted) → Stands self.now history → NeverStuck self.now.set (state_of self.now.set history) }
    {
        self.tables.running()
    }

    /// The transaction's pending job. One look-up.
    pub fn pending(&self, tx: TxId) -> Option<JobId>
        requires { tx.0 < length self.now.set.txns }
        ensures { (history : List Noted) → Stands self.now history → result ≡ pending_of self.now.set history tx.0 }
    {
        self.tables.pending(tx)
    }

    /// How many jobs of the transaction have ended. One look-up.
    pub fn ended(&self, tx: TxId) -> u32
        requires { tx.0 < length self.now.set.txns }
        ensures { (history : List Noted) → Stands self.now history → result ≡ ended_of self.now.set history tx.0 }
    {
        self.tables.tally(tx).number as u32
    }

    /// How many releases are planned and did not take place yet.
    pub fn planned(&self) -> usize
        ensures { (history : List Noted) → Stands self.now history → result ≡ planned_of self.now.set history }
    {
        self.tables.planned()
    }

    /// How many entries can be kept at once.
    pub fn room(&self) -> usize
        ensures { result ≡ self.now.journal.room }
    {
        self.journal.room()
    }

    /// The kept entries: those that were not drained.
    pub fn entries(&self) -> &[Entry]
        ensures { result.now ≡ self.now.journal.kept }
    {
        self.journal.entries()
    }

    /// The set of the history.
    pub fn set(&self) -> &CompiledSet
        ensures { result.now ≡ self.now.set }
    {
        &self.set
    }

    /// How many entries were drained in all.
    pub fn first(&self) -> u64
        ensures { result ≡ self.now.journal.first }
    {
        self.journal.first()
    }

    /// How many entries the history has, the drained ones too.
    pub fn count(&self) -> u64
        ensures { (history : List Noted) → Stands self.now history → length history ≡ result }
    {
        self.journal.first() + self.journal.len() as u64
    }

    /// The items as they are installed, and the kept entries.
    pub fn into_parts(self) -> (Items, Vec<Entry>)
        ensures entries { result.1.items ≡ self.journal.kept }
        ensures items { (history : List Noted) → Stands self history → result.0 ≡ (state_of self.set history).items }
    {
        let Core {
            set: _,
            journal,
            tables,
        } = self;
        (tables.into_items(), journal.into_entries())
    }
}
