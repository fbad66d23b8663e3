//! What takes place: a wait, a granted step with its effect, and the arrival at a tick.
ghost use Rattle.std.specs.Prelude.{◌≡◌, ℕ, ◌+◌, ◌<◌, ◌^◌, ◌==◌, [], length, None, Some, false, IsTrue};
ghost use Rattle.ceiling_table.specs.Held.{HasItem};
ghost use Rattle.txn_set.specs.Set.{Set, txn_of};
ghost use Rattle.item_model.specs.Work.{outcome_of};
ghost use Rattle.step_journal.specs.State.{Row as RowSeen, State, row_of};
ghost use Rattle.step_journal.specs.Instant.{arrived};
ghost use Rattle.strict_commit.specs.Ends.{end_of as committed_end};
ghost use Rattle.step_journal.specs.Step.{given, end_by, row_after, after_effect, with_step, with_wait, end_of};
ghost use Rattle.board.specs.Over.{over_of};
ghost use Rattle.core_tables.specs.Rows.{AreFactsOf, head_of};
ghost use Rattle.core_tables.specs.Seen.{tally_of};
ghost use Rattle.core_tables.specs.Tables.{AreTables};
ghost use Rattle.core_tables.specs.Legal.{IsLegalState, IsGranted, IsBlocked, IsIdle, StandGranted, StandBlocked, StandIdle};
ghost use Rattle.core_tables.specs.Changes.{items_settled, late_jobs, pending_settled, tallies_settled};
ghost use Rattle.core_tables.specs.Arriving.{CanArrive, ArrivesSome, IsQuiet, Computes};

use crate::arrive::{cancel, count_end, has_time, release};
use crate::head::Head;
use crate::pending::Pending;
use crate::tables::CoreTables;
use crate::tally::Tally;
use item_model::Items;
use rt_base::{End, JobId, Op, Outcome, Tick, TxId};
use strict_commit::CommitRefused;
use txn_set::CompiledSet;

/// What a granted operation is told: a read the job's own write, or else the item's value and stamp.
#[inline(always)]
fn outcome(pending: &Pending, items: &Items, tx: TxId, op: Op) -> Outcome
    requires row { tx.0 < length pending.now.rows }
    requires item { HasItem (length items.now) op }
    ensures { (row : RowSeen) → row_of pending.now.rows tx.0 ≡ Some row → result ≡ outcome_of items.now row.work op }
{
    match op {
        Op::Read(item) => match pending.work(tx).value_of(item) {
            Some(value) => Outcome::Got { value, stamp: None },
            None => {
                let (value, stamp) = items.get(item);
                Outcome::Got {
                    value,
                    stamp: Some(stamp),
                }
            }
        },
        Op::Write(_, _) => Outcome::Put,
        Op::Compute => Outcome::Computed,
        Op::Commit => Outcome::Closed,
        Op::Quit => Outcome::Closed,
    }
}

fn end_of_commit(ended: Result<(), CommitRefused>) -> End
    ensures { result ≡ committed_end ended }
{
    match ended {
        Ok(()) => End::Committed,
        Err(CommitRefused::Stale(read)) => End::Stale {
            item: read.item,
            stamp: read.stamp,
        },
        Err(CommitRefused::Apart(pair)) => End::Apart {
            a: pair.a,
            b: pair.b,
        },
    }
}

fn overrun(used: u64, steps: u64) -> Option<End>
    ensures { result ≡ given (used == steps) End.Overrun }
{
    if used == steps {
        Some(End::Overrun)
    } else {
        None
    }
}

/// How the step that a pending job has just taken ends it at a tick, if it does: by its commit, which installs its writes or
/// not, by quitting, or by having used its steps.
#[inline(always)]
fn settle(
    set: &CompiledSet,
    pending: &Pending,
    items: &mut Items,
    head: Head,
    op: Op,
    at: Tick,
) -> Option<End>
    requires in_set { head.job.tx.0 < length set.now.txns }
    requires row { head.job.tx.0 < length pending.now.rows }
    requires facts { AreFactsOf set.now pending.now.facts }
    ensures end { (row : RowSeen) → row_of pending.now.rows head.job.tx.0 ≡ Some row → row.job.tx.0 ≡ head.job.tx.0 → head ≡ head_of row → result ≡ end_by set.now row at op }
    ensures items { (row : RowSeen) → row_of pending.now.rows head.job.tx.0 ≡ Some row → row.job.tx.0 ≡ head.job.tx.0 → head ≡ head_of row → items.new ≡ items_settled set.now row (end_by set.now row at op) items.old }
{
    let tx = head.job.tx;
    match op {
        Op::Commit => {
            let work = pending.work(tx);
            let ended = work.commit(set.items(), set.together(), items, head.release, at);
            Some(end_of_commit(ended))
        }
        Op::Quit => Some(End::Quit),
        Op::Read(_) => overrun(head.used, set.txn(tx).steps),
        Op::Write(_, _) => overrun(head.used, set.txn(tx).steps),
        Op::Compute => overrun(head.used, set.txn(tx).steps),
    }
}

/// A job that ended leaves the pending ones and is counted.
#[inline(always)]
fn close(pending: &mut Pending, tallies: &mut [Tally], tx: TxId, end: Option<End>)
    requires row { tx.0 < length pending.old.rows }
    requires tally { tx.0 < length tallies.old }
    requires few { (tally_of tallies.old tx.0).number < 2 ^ 63 }
    ensures pending { (row : RowSeen) → row_of pending.old.rows tx.0 ≡ Some row → pending.new ≡ pending_settled row end pending.old }
    ensures tallies { tallies.new ≡ tallies_settled tx.0 end tallies.old }
{
    if let Some(end) = end {
        pending.end(tx);
        count_end(tallies, tx, end);
    }
}

/// Whether the transaction's pending job has a step left after its next one.
#[inline(always)]
fn has_steps(pending: &Pending, set: &CompiledSet, tx: TxId) -> bool
    requires in_set { tx.0 < length set.now.txns }
    requires row { tx.0 < length pending.now.rows }
    requires used { (row : RowSeen) → row_of pending.now.rows tx.0 ≡ Some row → row.used < 2 ^ 63 }
    ensures { IsTrue result → (row : RowSeen) → row_of pending.now.rows tx.0 ≡ Some row → row.used + 1 < (txn_of set.now tx.0).steps }
{
    match pending.head(tx) {
        Some(head) => head.used + 1 < set.txn(tx).steps,
        None => false,
    }
}

/// Whether the transaction's pending job has its deadline at this tick.
#[inline(always)]
fn is_late(pending: &Pending, tx: TxId, deadline: Tick, tick: Tick) -> bool
    requires { tx.0 < length pending.now.rows }
    ensures { (row : RowSeen) → row_of pending.now.rows tx.0 ≡ Some row → result ≡ (row.release + deadline == tick) }
{
    match pending.head(tx) {
        Some(head) if head.release <= tick => tick - head.release == deadline,
        _ => false,
    }
}

#[inline(always)]
fn over(own: Option<End>, late: bool) -> Option<End>
    ensures { result ≡ over_of own late }
{
    match own {
        Some(end) => Some(end),
        None if late => Some(End::Late),
        None => None,
    }
}

impl CoreTables {
    /// The running job waits on the job that blocks it. It touches the rows of the two transactions alone.
    pub fn wait(&mut self, job: JobId, by: JobId)
        requires blocked { (set : Set) × StandBlocked set self.old job by }
        ensures { (set : Set) (s : State) (op : Op) (ceiling : ℕ) → AreTables set self.old s → IsLegalState set s → (b : IsBlocked set s job op by ceiling) → AreTables set self.new (with_wait s b.row by) }
    {
        self.pending.wait(job.tx, by);
    }

    /// The running job takes a granted step: its effect, then the arrival at the next tick. It answers the outcome, and the
    /// job's end where it has ended then, also where that end is Late. A step that ends nobody, and at whose end nothing is
    /// released, touches the rows of its job and item alone, with one look at the least deadline and one at the next release.
    /// A job that ends costs what `Pending::end` does, and each release what `Calendar::due` does, however many are planned.
    #[inline(always)]
    pub fn go(&mut self, set: &CompiledSet, job: JobId, op: Op) -> (Outcome, Option<End>)
        requires granted { StandGranted set.now self.old job op }
        ensures outcome { (s : State) → AreTables set.now self.old s → IsLegalState set.now s → (g : IsGranted set.now s job op) → result.0 ≡ outcome_of s.items g.row.work op }
        ensures over { (s : State) → AreTables set.now self.old s → IsLegalState set.now s → (g : IsGranted set.now s job op) → result.1 ≡ end_of (with_step set.now s g.row op) job }
        ensures after { (s : State) → AreTables set.now self.old s → IsLegalState set.now s → (g : IsGranted set.now s job op) → AreTables set.now self.new (with_step set.now s g.row op) }
    {
        let at = self.clock + 1;
        let outcome = outcome(&self.pending, &self.items, job.tx, op);
        if let Some(end) = self.effect(set, job, op) {
            self.arrive(at);
            return (outcome, Some(end));
        }
        if has_time(&self.pending, at) {
            self.arrive_in_time(at);
            return (outcome, None);
        }
        let late = is_late(&self.pending, job.tx, set.txn(job.tx).deadline, at);
        self.arrive_late(at);
        (outcome, over(None, late))
    }

    /// The running job computes for a tick, if no job ends and none is released by that: whether it did. Else nothing changes.
    /// Two comparisons, and the row of the job.
    #[inline(always)]
    pub fn compute(&mut self, set: &CompiledSet, job: JobId) -> bool
        requires granted { StandGranted set.now self.old job Op.Compute }
        ensures done { IsTrue result → (s : State) → AreTables set.now self.old s → IsLegalState set.now s → (g : IsGranted set.now s job Op.Compute) → Computes set.now self.new s g.row }
        ensures unchanged { result ≡ false → self.new ≡ self.old }
    {
        let at = self.clock + 1;
        if !self.is_quiet(set, job.tx, at) {
            return false;
        }
        self.pending.step(job.tx, Op::Compute, &self.items);
        self.clock = at;
        true
    }

    // Whether the pending job of a transaction has a step left after its next one, and no deadline comes and nothing is
    // released at a tick.
    #[inline(always)]
    fn is_quiet(&self, set: &CompiledSet, tx: TxId, at: Tick) -> bool
        requires in_set { tx.0 < length set.now.txns }
        requires row { tx.0 < length self.now.pending.rows }
        requires used { (row : RowSeen) → row_of self.now.pending.rows tx.0 ≡ Some row → row.used < 2 ^ 63 }
        ensures { IsTrue result → IsQuiet set.now self.now tx.0 at }
    {
        has_time(&self.pending, at)
            && !self.calendar.may_be_due(at)
            && has_steps(&self.pending, set, tx)
    }

    /// With nothing pending, the time goes on to the least planned tick, and the releases planned for it take place. Each
    /// costs what `Calendar::due` does, however many are planned.
    pub fn go_on(&mut self, to: Tick)
        requires idle { (set : Set) × StandIdle set self.old to }
        ensures { (set : Set) (s : State) → AreTables set self.old s → IsLegalState set s → IsIdle set s to → AreTables set self.new (arrived set to s) }
    {
        self.arrive(to);
    }

    /// The effect of a granted step: the job goes on, or ends with its writes installed or not. It answers that end.
    #[inline(always)]
    fn effect(&mut self, set: &CompiledSet, job: JobId, op: Op) -> Option<End>
        requires granted { StandGranted set.now self.old job op }
        ensures end { (s : State) → AreTables set.now self.old s → IsLegalState set.now s → (g : IsGranted set.now s job op) → result ≡ end_by set.now (row_after s g.row op) (s.now + 1) op }
        ensures after { (s : State) → AreTables set.now self.old s → IsLegalState set.now s → (g : IsGranted set.now s job op) → AreTables set.now self.new (after_effect set.now s g.row op) }
    {
        let at = self.clock + 1;
        let head = self.pending.step(job.tx, op, &self.items)?;
        let end = settle(set, &self.pending, &mut self.items, head, op, at);
        close(&mut self.pending, &mut self.tallies, job.tx, end);
        end
    }

    /// The events of a tick: the jobs whose deadline it is end Late, in falling priority, then the releases planned for it
    /// take place.
    #[inline(always)]
    fn arrive(&mut self, tick: Tick)
        requires arrives { (set : Set) × ArrivesSome set tick self.old }
        ensures { (set : Set) (s : State) → AreTables set self.old s → CanArrive set tick s → AreTables set self.new (arrived set tick s) }
    {
        if has_time(&self.pending, tick) {
            self.arrive_in_time(tick);
        } else {
            self.arrive_late(tick);
        }
    }

    // The events of a tick by which no pending job's deadline comes: only the releases planned for it.
    #[inline(always)]
    fn arrive_in_time(&mut self, tick: Tick)
        requires arrives { (set : Set) × ArrivesSome set tick self.old }
        requires in_time { (set : Set) → AreFactsOf set self.old.pending.facts → late_jobs set tick self.old.pending.rows ≡ [] }
        ensures { (set : Set) (s : State) → AreTables set self.old s → CanArrive set tick s → AreTables set self.new (arrived set tick s) }
    {
        self.clock = tick;
        release(&mut self.pending, &mut self.calendar, tick);
    }

    // The events of a tick by which deadlines may come. That is seldom, so this is not inlined.
    #[inline(never)]
    fn arrive_late(&mut self, tick: Tick)
        requires arrives { (set : Set) × ArrivesSome set tick self.old }
        ensures { (set : Set) (s : State) → AreTables set self.old s → CanArrive set tick s → AreTables set self.new (arrived set tick s) }
    {
        self.clock = tick;
        cancel(&mut self.pending, &mut self.tallies, tick);
        release(&mut self.pending, &mut self.calendar, tick);
    }
}
