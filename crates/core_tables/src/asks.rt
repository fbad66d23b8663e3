//! The answer to an operation, before it takes place.
ghost use Rattle.std.specs.Prelude.{◌≡◌, ◌+◌, ◌*◌, ◌<◌, ◌^◌, length, Some, MatchOption};
ghost use Rattle.std.specs.List.{AllPairs};
ghost use Rattle.std.specs.Option.{option_map};
ghost use Rattle.txn_set.specs.Set.{Set, names_item};
ghost use Rattle.step_journal.specs.State.{Row as RowSeen, State, row_of, same_job as same};
ghost use Rattle.step_journal.specs.Running.{running as running_row};
ghost use Rattle.board.specs.Answers.{IsAsking, step_reply, idle_reply};
ghost use Rattle.core_tables.specs.Rows.{AreFactsOf, head_of, above_of};
ghost use Rattle.core_tables.specs.Tables.{AreTables};
ghost use Rattle.core_tables.specs.Legal.{IsLegalState, Stand, StandAsking, IsGranted, IsBlocked, Refuses};
ghost use Rattle.core_tables.specs.Changes.{denied as denied_by, access_by};
ghost use Rattle.core_tables.specs.Asks.{blocked_by, asked_by, runs_now, waiting_for, waits_by, refused_by, idle_by};

use crate::head::{Blocker, Head};
use crate::pending::Pending;
use crate::tables::CoreTables;
use crate::tally::Tally;
use board::{IdleReply, StepReply};
use rt_base::{ItemId, JobId, Op, Tick};
use txn_set::CompiledSet;

// A job as one number.
#[inline(always)]
fn number(job: JobId) -> u64
    ensures { result ≡ job.serial * 2 ^ 32 + job.tx.0 }
{
    u64::from(job.serial) * 0x1_0000_0000 + u64::from(job.tx.0)
}

// By one comparison.
#[inline(always)]
#[tactic(auto, using(crate::proofs::Jobs::one_number))]
fn same_job(a: JobId, b: JobId) -> bool
    ensures { result ≡ same a b }
{
    number(a) == number(b)
}

/// Whether this job is the running one.
fn runs(running: Option<JobId>, job: JobId) -> bool
    ensures { result ≡ runs_now running job }
{
    match running {
        Some(running) => same_job(running, job),
        None => false,
    }
}

fn not_yet(job: JobId, running: Option<JobId>) -> StepReply
    ensures { result ≡ waiting_for job running }
{
    match running {
        Some(running) => StepReply::NotYet { running },
        None => StepReply::NotYet { running: job },
    }
}

/// Whether the item is among these, which stand in rising order. A binary search.
fn names(items: &[ItemId], item: ItemId) -> bool
    requires { AllPairs (λ a b. a.0 < b.0) items.now }
    ensures { result ≡ names_item items.now item.0 }
{
    items.binary_search_by_key(&item.0, |other| other.0).is_ok()
}

/// Why an access is refused: to an item that is not declared, or before the quiet steps are used.
#[inline(always)]
fn access(declared: &[ItemId], item: ItemId, quiet: u64, used: u64) -> Option<StepReply>
    requires { AllPairs (λ a b. a.0 < b.0) declared.now }
    ensures { result ≡ access_by declared.now item quiet used }
{
    if !names(declared, item) {
        Some(StepReply::Undeclared { item })
    } else if used < quiet {
        Some(StepReply::TooEarly { left: quiet - used })
    } else {
        None
    }
}

fn missed(item: Option<ItemId>) -> Option<StepReply>
    ensures { result ≡ option_map (λ i. StepReply.Unwritten i) item }
{
    match item {
        Some(item) => Some(StepReply::Unwritten { item }),
        None => None,
    }
}

/// Why an operation of a pending job is refused before the room is looked at. It looks up the declared item, and for a commit
/// goes over the declared writes.
#[inline(always)]
fn denied(set: &CompiledSet, pending: &Pending, head: Head, op: Op) -> Option<StepReply>
    requires in_set { head.job.tx.0 < length set.now.txns }
    requires row { head.job.tx.0 < length pending.now.rows }
    requires facts { AreFactsOf set.now pending.now.facts }
    ensures { (row : RowSeen) → row_of pending.now.rows head.job.tx.0 ≡ Some row → head ≡ head_of row → result ≡ denied_by set.now row op }
{
    set.is_compiled();
    let txn = set.txn(head.job.tx);
    match op {
        Op::Read(item) => access(txn.reads.as_slice(), item, txn.quiet, head.used),
        Op::Write(item, _) => access(txn.writes.as_slice(), item, txn.quiet, head.used),
        Op::Compute => None,
        Op::Commit => missed(pending.work(head.job.tx).unwritten(set.items())),
        Op::Quit => None,
    }
}

fn blocked(blocker: Option<Blocker>) -> Option<StepReply>
    ensures { result ≡ option_map blocked_by (option_map above_of blocker) }
{
    match blocker {
        Some(b) => Some(StepReply::Blocked {
            by: b.holder,
            ceiling: b.ceiling,
        }),
        None => None,
    }
}

fn no_job(tally: Tally) -> StepReply
    requires { tally.number < 2 ^ 32 }
    ensures { result ≡ StepReply.NoJob tally.number tally.last }
{
    StepReply::NoJob {
        ended: tally.number as u32,
        last: tally.last,
    }
}

/// The answer to idle, by the running job and the least planned tick.
fn idle_answer(kept: usize, room: usize, next: Option<Tick>, running: Option<JobId>) -> IdleReply
    ensures { result ≡ idle_by kept room next running }
{
    match (running, next) {
        (Some(running), _) => IdleReply::NotIdle { running },
        (None, None) => IdleReply::Nothing,
        (None, Some(to)) => {
            if room <= kept {
                IdleReply::Full { room }
            } else {
                IdleReply::Advanced { to }
            }
        }
    }
}

impl CoreTables {
    /// The refusal that an operation meets, of a board that keeps so many entries and has room for so many: NoJob, NotYet,
    /// Undeclared, TooEarly, Unwritten, Full or Blocked, the first that holds. None exactly where the operation is granted and
    /// there is room. It changes nothing. It touches a bounded number of table rows: the running job, the pending job of the
    /// transaction, the lock, and its tally where the job does not run; and the job's own declared items, by a binary search,
    /// or for a commit each declared write.
    #[inline(always)]
    pub fn refusal(
        &self,
        set: &CompiledSet,
        job: JobId,
        op: Op,
        kept: usize,
        room: usize,
    ) -> Option<StepReply>
        requires in_set { job.tx.0 < length set.now.txns }
        requires stand { Stand set.now self.now }
        ensures { (s : State) → AreTables set.now self.now s → IsLegalState set.now s → MatchOption result (IsGranted set.now s job op × (kept < room)) (λ reply. (step_reply set.now s kept room job op ≡ reply) × Refuses set.now s job op reply) }
    {
        self.refused(set, job, op, kept, room)
    }

    /// Whether this job is the running one. It is kept, so that no table is touched.
    #[inline(always)]
    pub fn runs(&self, job: JobId) -> bool
        ensures { (set : Set) (s : State) → AreTables set self.now s → result ≡ runs_now (option_map (λ r. r.job) (running_row set s.rows)) job }
    {
        runs(self.running(), job)
    }

    /// Why the running job does not get the lock that an operation needs, for which it may ask; None exactly where it gets the
    /// lock or needs none. It changes nothing. At most four looks, and one look-up.
    #[inline(always)]
    pub fn blocker(&self, job: JobId, op: Op) -> Option<Blocker>
        requires asks { (set : Set) × StandAsking set self.now job op }
        ensures { (set : Set) (s : State) → AreTables set self.now s → IsLegalState set s → IsAsking set s job op → MatchOption result (IsGranted set s job op) (λ b. IsBlocked set s job op b.holder b.ceiling) }
    {
        self.pending.lock_refusal(job.tx, op)
    }

    /// The answer to idle: NotIdle, Nothing, Full, or the least planned tick. It changes nothing. A bounded number of looks.
    pub fn idle_check(&self, kept: usize, room: usize) -> IdleReply
        ensures { (set : Set) (s : State) → AreTables set self.now s → result ≡ idle_reply set s kept room }
    {
        idle_answer(kept, room, self.next_tick(), self.running())
    }

    #[inline(always)]
    fn refused(
        &self,
        set: &CompiledSet,
        job: JobId,
        op: Op,
        kept: usize,
        room: usize,
    ) -> Option<StepReply>
        requires in_set { job.tx.0 < length set.now.txns }
        requires stand { Stand set.now self.now }
        ensures { (s : State) → AreTables set.now self.now s → IsLegalState set.now s → result ≡ refused_by set.now s kept room job op }
    {
        let running = self.pending.running();
        if runs(running, job) {
            return self.asked(set, job, op, kept, room);
        }
        Some(self.out_of_turn(job, running))
    }

    /// The answer to a job that does not run: NoJob where it is not pending, else NotYet.
    #[inline(never)]
    fn out_of_turn(&self, job: JobId, running: Option<JobId>) -> StepReply
        requires tallies { job.tx.0 < length self.now.tallies }
        requires rows { job.tx.0 < length self.now.pending.rows }
        requires stand { (set : Set) × Stand set self.now }
        ensures { (set : Set) (s : State) → AreTables set self.now s → result ≡ waits_by s job running }
    {
        if !self.pending.is_pending(job) {
            return no_job(self.tally(job.tx));
        }
        not_yet(job, running)
    }

    /// What refuses an operation of the job that runs; None where it takes place.
    #[inline(always)]
    fn asked(
        &self,
        set: &CompiledSet,
        job: JobId,
        op: Op,
        kept: usize,
        room: usize,
    ) -> Option<StepReply>
        requires in_set { job.tx.0 < length set.now.txns }
        requires stand { Stand set.now self.now }
        ensures { (s : State) (row : RowSeen) → AreTables set.now self.now s → row_of s.rows job.tx.0 ≡ Some row → row.job ≡ job → result ≡ asked_by set.now s kept room op row }
    {
        let Some(head) = self.pending.head(job.tx) else {
            return None;
        };
        if let Some(reply) = denied(set, &self.pending, head, op) {
            return Some(reply);
        }
        if room <= kept {
            return Some(StepReply::Full { room });
        }
        blocked(self.pending.lock_refusal(job.tx, op))
    }
}
