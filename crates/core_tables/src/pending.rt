//! The pending jobs.
ghost use Rattle.std.specs.Prelude.{◌≡◌, ◌+◌, ◌<◌, ◌≤◌, ◌^◌, ℕ, [], length, map, is_some, slice_index_or, Some, None, IfOk, MatchOption};
ghost use Rattle.std.specs.List.{filter};
ghost use Rattle.std.specs.Option.{option_map};
ghost use Rattle.ceiling_table.specs.Held.{HasItem};
ghost use Rattle.ceiling_table.specs.Seated.{Changes};
ghost use Rattle.txn_set.specs.Set.{Set};
ghost use Rattle.step_journal.specs.State.{Row as RowSeen, State as StateSeen, row_of, pending as pending_rows};
ghost use Rattle.step_journal.specs.LockRule.{highest};
ghost use Rattle.step_journal.specs.Running.{job_row, running as running_row};
ghost use Rattle.step_journal.specs.Instant.{is_due, with_row};
ghost use Rattle.step_journal.specs.Step.{lock_refusal as refusal_of};
ghost use Rattle.core_tables.specs.Rows.{AreFactsOf, AreRows, IsDeclared, head_of, above_of, accesses_at, rows_stepped, rows_waiting, rows_ended};
ghost use Rattle.core_tables.specs.Waiting.{MayWait};
ghost use Rattle.core_tables.specs.Deadlines.{IsLeastDeadline};
ghost use Rattle.core_tables.specs.PendingTables.{access_of, op_locked_at, job_after};

use crate::head::{Blocker, Head};
use crate::pending_openings::{deadlines_of, locks_of, rows_of};
use crate::ranks::{earlier, first_due, least_deadline, refused, running_job};
use ceiling_table::Held;
use inherit_prio::Waits;
use item_model::Items;
use rt_base::{JobId, Op, OutOfMemory, RankSet, Tick, TxId};
use std::alloc::Global;
use std::marker::{Brand, Model};
use std::sync::ledger::Blank;
use strict_commit::Work;
use txn_set::CompiledSet;

/// The pending jobs of a compiled set, which contracts see as the rows of a state: by transaction the head and the work, the
/// locks, who waits on whom, the ranks of those that are pending, the least of their deadlines, and the job that runs. No
/// call after `new` takes memory.
#[derive(Drop)]
pub struct Pending {
    heads: Vec<Option<Head>>,
    works: Vec<Work>,
    held: Held,
    waits: Waits,
    deadlines: Vec<Tick>,
    ranks: RankSet,
    least: Option<Tick>,
    runs: Option<JobId>,
}

impl Model for Pending {
    ghost use Rattle.std.specs.Prelude.{map};
    ghost use Rattle.core_tables.specs.Rows.{PendingSeen};
    ghost use Rattle.core_tables.specs.PendingTables.{rows_by, access_of, IsTable};

    ghost Value = { PendingSeen };

    ghost view = { λ p. record { facts = record { ceilings = p.held.ceilings; prios = p.held.prios; deadlines = p.deadlines.items; accesses = map access_of p.works.items }; rows = rows_by p.heads.items p.works.items p.waits.on } };

    ghost invariant = { λ p. IsTable p.heads.items p.works.items p.held p.waits p.deadlines.items p.ranks p.least p.runs };
}

impl Pending {
    /// Nothing pending, of the transactions of this set.
    pub fn new(alloc: Global, set: &CompiledSet) -> Result<Pending, OutOfMemory>
        ensures { IfOk result (λ p. AreRows set.now p (map (λ t. None) set.now.txns)) }
    {
        set.is_compiled();
        let deadlines = deadlines_of(alloc, set.txns())?;
        let (heads, works) = rows_of(alloc, set)?;
        let (held, waits) = locks_of(alloc, set)?;
        Ok(Pending {
            heads,
            works,
            held,
            waits,
            deadlines,
            ranks: RankSet::empty(),
            least: None,
            runs: None,
        })
    }

    /// The pending job of a transaction, without its work. One look-up.
    pub fn head(&self, tx: TxId) -> Option<Head>
        requires { tx.0 < length self.now.rows }
        ensures { result ≡ option_map head_of (row_of self.now.rows tx.0) }
    {
        self.heads[tx.0 as usize]
    }

    /// The name of a transaction's pending job. One look-up.
    pub fn job(&self, tx: TxId) -> Option<JobId>
        requires { tx.0 < length self.now.rows }
        ensures { result ≡ option_map (λ r. r.job) (row_of self.now.rows tx.0) }
    {
        self.head(tx).map(|head| head.job)
    }

    /// Whether this job is pending. One look-up.
    pub fn is_pending(&self, job: JobId) -> bool
        requires { job.tx.0 < length self.now.rows }
        ensures { result ≡ is_some (job_row self.now.rows job) }
    {
        self.job(job.tx).is_some_and(|other| other == job)
    }

    /// What the pending job of a transaction has read and written, and what it may. One look-up.
    pub fn work(&self, tx: TxId) -> &Work
        requires { tx.0 < length self.now.rows }
        ensures work { (row : RowSeen) → row_of self.now.rows tx.0 ≡ Some row → result.now.work ≡ row.work }
        ensures reads { result.now.may_read ≡ (accesses_at self.now.facts tx.0).reads }
        ensures writes { result.now.may_write ≡ (accesses_at self.now.facts tx.0).writes }
    {
        &self.works[tx.0 as usize]
    }

    /// The running job: the highest pending one, or the one on which it waits, which then has its priority (Sha, Rajkumar,
    /// Son, Chang 1991). None exactly where nothing is pending. It is kept, so that no table is touched.
    #[inline(always)]
    pub fn running(&self) -> Option<JobId>
        ensures { (set : Set) → AreFactsOf set self.now.facts → result ≡ option_map (λ r. r.job) (running_row set self.now.rows) }
    {
        self.runs
    }

    /// Why an operation of a pending job does not get the lock that it needs, by the lock rule; None exactly where it gets the
    /// lock or needs none. At most four looks, and one look-up.
    #[inline(always)]
    pub fn lock_refusal(&self, tx: TxId, op: Op) -> Option<Blocker>
        requires tx { tx.0 < length self.now.rows }
        requires item { HasItem (length self.now.facts.ceilings) op }
        ensures { (set : Set) (s : StateSeen) (row : RowSeen) → AreRows set self.now s.rows → row_of s.rows tx.0 ≡ Some row → option_map above_of result ≡ refusal_of set s row op }
    {
        if !self.held.needs(tx, op) {
            return None;
        }
        let above = refused::<Brand>(&self.held, tx, Blank::new(1))?;
        let head = self.heads[above.holder.0 as usize]?;
        Some(Blocker {
            holder: head.job,
            ceiling: above.ceiling,
        })
    }

    /// A job is released: it is pending, has used no step and holds nothing. It touches the rows of its transaction, and looks
    /// for the running job by at most three looks and one look-up.
    pub fn release(&mut self, job: JobId, tick: Tick)
        requires tx { job.tx.0 < length self.old.rows }
        requires free { row_of self.old.rows job.tx.0 ≡ None }
        requires tick { tick < 2 ^ 63 }
        ensures { self.new ≡ record self.old { rows = with_row tick self.old.rows job } }
    {
        let at = job.tx.0 as usize;
        self.works[at].clear();
        self.heads[at] = Some(Head {
            job,
            release: tick,
            used: 0,
        });
        self.ranks = self.ranks.with(self.waits.rank(job.tx));
        self.least = Some(earlier(tick + self.deadlines[at], self.least));
        self.runs = running_job(self.heads.as_slice(), self.ranks, &self.waits);
    }

    /// The pending job of a transaction waits on another job. It touches the rows of the two transactions, and looks for the
    /// running job by at most three looks and one look-up.
    pub fn wait(&mut self, tx: TxId, on: JobId)
        requires tx { tx.0 < length self.old.rows }
        requires may { MayWait self.old.rows tx.0 on }
        ensures { (row : RowSeen) → row_of self.old.rows tx.0 ≡ Some row → self.new ≡ record self.old { rows = rows_waiting self.old.rows row on } }
    {
        self.waits.block(tx, on.tx);
        self.runs = running_job(self.heads.as_slice(), self.ranks, &self.waits);
    }

    /// The pending job of a transaction takes a granted step: it is counted, what it read or wrote is noted, and it holds the
    /// lock. A new lock goes over the holders' rows; else it touches the rows of its transaction and item alone, with a scan
    /// of the job's own reads or writes. It answers the job, as it is pending then.
    #[inline(always)]
    pub fn step(&mut self, tx: TxId, op: Op, items: &Items) -> Option<Head>
        requires tx { tx.0 < length self.old.rows }
        requires declared { IsDeclared (accesses_at self.old.facts tx.0) op }
        requires item { HasItem (length self.old.facts.ceilings) op }
        requires items { length items.now ≡ length self.old.facts.ceilings }
        requires used { (row : RowSeen) → row_of self.old.rows tx.0 ≡ Some row → row.used < 2 ^ 63 }
        ensures after { (row : RowSeen) → row_of self.old.rows tx.0 ≡ Some row → self.new ≡ record self.old { rows = rows_stepped self.old.rows items.now op row } }
        ensures head { (row : RowSeen) → row_of self.old.rows tx.0 ≡ Some row → result ≡ Some (record (head_of row) { used = row.used + 1 }) }
    {
        let at = tx.0 as usize;
        let head = self.heads[at]?;
        let stepped = Head {
            used: head.used + 1,
            ..head
        };
        self.heads[at] = Some(stepped);
        note(&mut self.works[at], op, items);
        lock(&mut self.held, tx, op);
        Some(stepped)
    }

    /// The pending job of a transaction ends: it holds nothing and waits on nobody, and nobody waits on it. It goes over the
    /// items and those that waited on it, and over the pending ranks where no other's deadline was earlier. It looks for the
    /// running job by at most three looks and one look-up.
    pub fn end(&mut self, tx: TxId)
        requires { tx.0 < length self.old.rows }
        ensures { (row : RowSeen) → row_of self.old.rows tx.0 ≡ Some row → self.new ≡ record self.old { rows = rows_ended self.old.rows row } }
    {
        let at = tx.0 as usize;
        let Some(head) = self.heads[at] else {
            return;
        };
        self.heads[at] = None;
        self.held.release_all(tx);
        self.waits.free(tx);
        self.ranks = self.ranks.without(self.waits.rank(tx));
        self.runs = running_job(self.heads.as_slice(), self.ranks, &self.waits);
        if self.least == Some(head.release + self.deadlines[at]) {
            self.least = least_deadline::<Brand>(
                self.heads.as_slice(),
                self.deadlines.as_slice(),
                &self.waits,
                self.ranks,
                Blank::new(1),
            );
        }
    }

    /// The least deadline of the pending jobs; None exactly where nothing is pending. One look-up.
    pub fn next_deadline(&self) -> Option<Tick>
        ensures { MatchOption result (pending_rows self.now.rows ≡ []) (IsLeastDeadline self.now.facts.deadlines self.now.rows) }
    {
        self.least
    }

    /// The highest pending job whose deadline is this tick. It goes over the pending ranks.
    pub fn due(&self, tick: Tick) -> Option<JobId>
        ensures { (set : Set) → AreFactsOf set self.now.facts → result ≡ option_map (λ r. r.job) (highest set (filter (is_due set tick) (pending_rows self.now.rows))) }
    {
        first_due::<Brand>(
            self.heads.as_slice(),
            self.deadlines.as_slice(),
            &self.waits,
            self.ranks,
            tick,
            Blank::new(1),
        )
    }
}

/// Notes what an operation reads from outside or writes.
#[inline(always)]
fn note(work: &mut Work, op: Op, items: &Items)
    requires declared { IsDeclared (access_of work.old) op }
    requires item { HasItem (length items.now) op }
    ensures { work.new ≡ job_after items.now op work.old }
{
    match op {
        Op::Read(item) => {
            if work.value_of(item).is_none() {
                let (_, stamp) = items.get(item);
                work.note_read(item, stamp);
            }
        }
        Op::Write(item, value) => work.put(item, value),
        Op::Compute => {}
        Op::Commit => {}
        Op::Quit => {}
    }
}

/// Adds the lock that an operation needs.
#[inline(always)]
fn lock(held: &mut Held, tx: TxId, op: Op)
    requires tx { tx.0 < length held.old.prios }
    requires item { HasItem (length held.old.ceilings) op }
    ensures { Changes held.old held.new (op_locked_at held.old tx.0 op) }
{
    if !held.needs(tx, op) {
        return;
    }
    match op {
        Op::Read(item) => held.lock_read(tx, item),
        Op::Write(item, _) => held.lock_write(tx, item),
        Op::Compute => {}
        Op::Commit => {}
        Op::Quit => {}
    }
}
