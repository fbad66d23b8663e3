//! The calls that change a core.
ghost use Rattle.std.specs.Prelude.{◌≡◌, ◌+◌, ◌-◌, ◌<◌, ◌++◌, ℕ, List, [], length, min, take, drop, vec_len, vec_capacity, false, Some, None, IsTrue, OnErr};
ghost use Rattle.step_journal.specs.declared.entry.Entry.{Entry as Noted};
ghost use Rattle.step_journal.specs.declared.entry.Entry.TheVariants.{Step};
ghost use Rattle.step_journal.specs.Step.{plan as planned, ask as asking, idle as idled};
ghost use Rattle.step_journal.specs.History.{state_of};
ghost use Rattle.board.specs.Answers.{IsAsking, next_tick_for, told_by};
ghost use Rattle.board.specs.Histories.{plan_entry, plan_next_entry, step_entry, idle_entry, plan_answer, plan_next_answer, step_answer, idle_answer, now_of};
ghost use Rattle.lock_core.specs.Seen.{set_of, kept_by};
ghost use Rattle.lock_core.specs.Stands.{Stands};
ghost use Rattle.lock_core.specs.Calls.{IsCall, IsIdleRefusal};
ghost use Rattle.lock_core.specs.Promises.{IsLawfulStep};

use crate::core_board::Core;
use crate::table_calls;
use board::{IdleReply, StepReply};
use rt_base::{JobId, Op, Outcome, PlanRefused, Tick, TxId};
use step_journal::Entry;

impl Core {
    /// Plans the transaction's next job for a tick; a job planned for the present tick is pending at once. Errors: those of
    /// the calendar in their order, then Full exactly where as many entries are kept as there is room for. A refusal
    /// changes nothing. It costs a few look-ups, however many releases are planned.
    #[inline(always)]
    pub fn plan(&mut self, tx: TxId, tick: Tick) -> Result<JobId, PlanRefused>
        requires { tx.0 < length self.old.set.txns }
        ensures fixed { (self.new.set ≡ self.old.set) × (self.new.journal.room ≡ self.old.journal.room) × (self.new.journal.first ≡ self.old.journal.first) }
        ensures answer { (history : List Noted) → Stands self.old history → result ≡ plan_answer self.old.set history (length self.old.journal.kept) self.old.journal.room tx.0 tick }
        ensures call { (history : List Noted) → Stands self.old history → IsCall self.old self.new history (planned tx.0 tick) (plan_entry tx tick result) }
        ensures refused { OnErr result (self.new ≡ self.old) }
    {
        table_calls::plan(&self.set, &mut self.journal, &mut self.tables, tx, tick)
    }

    /// Plans the transaction's next job for the earliest tick at which it may be planned, and answers that tick too. Only
    /// TooFar, CalendarFull, NoSerial and Full can come.
    #[inline(always)]
    pub fn plan_next(&mut self, tx: TxId) -> Result<(JobId, Tick), PlanRefused>
        requires { tx.0 < length self.old.set.txns }
        ensures fixed { (self.new.set ≡ self.old.set) × (self.new.journal.room ≡ self.old.journal.room) × (self.new.journal.first ≡ self.old.journal.first) }
        ensures answer { (history : List Noted) → Stands self.old history → result ≡ plan_next_answer self.old.set history (length self.old.journal.kept) self.old.journal.room tx.0 }
        ensures call { (history : List Noted) → Stands self.old history → IsCall self.old self.new history (planned tx.0 (next_tick_for self.old.set (state_of self.old.set history) tx.0)) (plan_next_entry tx result) }
        ensures refused { OnErr result (self.new ≡ self.old) }
    {
        let tick = self.tables.next_for(tx);
        match self.plan(tx, tick) {
            Ok(job) => Ok((job, tick)),
            Err(e) => Err(e),
        }
    }

    /// A job asks for an operation. The refusals come in the order of `StepReply`; after one other than Blocked all is as
    /// before, after Blocked the job waits. Blocked comes only where the job holds no lock and was not blocked before. A granted operation takes one tick. Whatever comes, no two pending jobs hold
    /// locks in conflict, ended jobs hold nothing, no jobs wait in a cycle, and the replies are those of the ended jobs
    /// run alone. It costs a bounded number of look-ups, and no scan of the transactions: a new lock goes over the holders
    /// of locks, a read or write over what the job has read and written, an end over the items, and the arrival over the
    /// jobs that are late and the releases of that instant.
    pub fn step(&mut self, job: JobId, op: Op) -> StepReply
        requires { job.tx.0 < length self.old.set.txns }
        ensures fixed { (self.new.set ≡ self.old.set) × (self.new.journal.room ≡ self.old.journal.room) × (self.new.journal.first ≡ self.old.journal.first) }
        ensures answer { (history : List Noted) → Stands self.old history → result ≡ step_answer self.old.set history (length self.old.journal.kept) self.old.journal.room job op }
        ensures lawful { IsLawfulStep Stands set_of kept_by self.old self.new job op result }
    {
        table_calls::step(&self.set, &mut self.journal, &mut self.tables, job, op)
    }

    /// The same as `step`, inlined, for a caller that knows which operation it is: no more than what that one needs is left.
    #[inline(always)]
    pub fn asked(&mut self, job: JobId, op: Op) -> StepReply
        requires { job.tx.0 < length self.old.set.txns }
        ensures fixed { (self.new.set ≡ self.old.set) × (self.new.journal.room ≡ self.old.journal.room) × (self.new.journal.first ≡ self.old.journal.first) }
        ensures answer { (history : List Noted) → Stands self.old history → result ≡ step_answer self.old.set history (length self.old.journal.kept) self.old.journal.room job op }
        ensures lawful { IsLawfulStep Stands set_of kept_by self.old self.new job op result }
    {
        table_calls::asked(&self.set, &mut self.journal, &mut self.tables, job, op)
    }

    /// The same as `step`, for a caller that knows that this job runs, that it may ask for the operation, and that there is
    /// room for the entry: what the job is told, or None where it is blocked. It costs what a step does but for the tests of
    /// all this.
    #[inline(always)]
    pub fn ask(&mut self, job: JobId, op: Op) -> Option<Outcome>
        requires asks { (history : List Noted) × Stands self.old history × IsAsking self.old.set (state_of self.old.set history) job op }
        requires room { length self.old.journal.kept < self.old.journal.room }
        ensures fixed { (self.new.set ≡ self.old.set) × (self.new.journal.room ≡ self.old.journal.room) × (self.new.journal.first ≡ self.old.journal.first) }
        ensures answer { (history : List Noted) → Stands self.old history → result ≡ told_by (step_answer self.old.set history (length self.old.journal.kept) self.old.journal.room job op) }
        ensures call { (history : List Noted) → Stands self.old history → IsCall self.old self.new history (asking job op) (step_entry (now_of self.old.set history) job op (step_answer self.old.set history (length self.old.journal.kept) self.old.journal.room job op)) }
    {
        table_calls::ask(&self.set, &mut self.journal, &mut self.tables, job, op)
    }

    /// The job computes for a tick, if it runs, there is room for the entry, no job ends and none is released by that: whether it
    /// did, as `step` would. Else nothing changes. It costs a few comparisons, and touches the row of the job alone.
    #[inline(always)]
    pub fn compute(&mut self, job: JobId) -> bool
        requires { job.tx.0 < length self.old.set.txns }
        ensures fixed { (self.new.set ≡ self.old.set) × (self.new.journal.room ≡ self.old.journal.room) × (self.new.journal.first ≡ self.old.journal.first) }
        ensures answer { IsTrue result → (history : List Noted) → Stands self.old history → step_answer self.old.set history (length self.old.journal.kept) self.old.journal.room job Op.Compute ≡ StepReply.Done Outcome.Computed None }
        ensures call { IsTrue result → (history : List Noted) → Stands self.old history → IsCall self.old self.new history (asking job Op.Compute) (Some (Step job Op.Compute Outcome.Computed None (now_of self.old.set history))) }
        ensures unchanged { result ≡ false → self.new ≡ self.old }
    {
        table_calls::compute(&self.set, &mut self.journal, &mut self.tables, job)
    }

    /// With nothing pending, the time goes on to the least planned tick, and its releases take place. NotIdle, Nothing and
    /// Full come in this order and change nothing.
    pub fn idle(&mut self) -> IdleReply
        ensures fixed { (self.new.set ≡ self.old.set) × (self.new.journal.room ≡ self.old.journal.room) × (self.new.journal.first ≡ self.old.journal.first) }
        ensures answer { (history : List Noted) → Stands self.old history → result ≡ idle_answer self.old.set history (length self.old.journal.kept) self.old.journal.room }
        ensures call { (history : List Noted) → Stands self.old history → IsCall self.old self.new history idled (idle_entry (now_of self.old.set history) result) }
        ensures refused { IsIdleRefusal result → self.new ≡ self.old }
    {
        table_calls::idle(&self.set, &mut self.journal, &mut self.tables)
    }

    /// Moves the oldest kept entries to the end of `into`, as many as it has places for and no more than `most`, and
    /// answers how many. It costs one move for each entry that was kept.
    pub fn drain(&mut self, most: usize, into: &mut Vec<Entry>) -> usize
        ensures count { result ≡ min most (min (length self.old.journal.kept) (vec_capacity into.old - vec_len into.old)) }
        ensures moved { into.new.items ≡ into.old.items ++ take result self.old.journal.kept }
        ensures places { vec_capacity into.new ≡ vec_capacity into.old }
        ensures left { self.new ≡ record self.old { journal = record self.old.journal { first = self.old.journal.first + result; kept = drop result self.old.journal.kept } } }
        ensures after { (history : List Noted) → Stands self.old history → Stands self.new history }
    {
        self.journal.drain_into(most, into)
    }

    /// Lets go of all kept entries. It costs the same however many they are.
    pub fn discard(&mut self)
        ensures left { self.new ≡ record self.old { journal = record self.old.journal { first = self.old.journal.first + length self.old.journal.kept; kept = [] } } }
        ensures after { (history : List Noted) → Stands self.old history → Stands self.new history }
    {
        self.journal.discard();
    }
}
