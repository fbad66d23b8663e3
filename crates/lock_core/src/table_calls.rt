//! What a call does to the parts of a core.
ghost use Rattle.std.specs.Prelude.{◌≡◌, ◌<◌, ℕ, List, length, false, Some, None, IsTrue, OnErr};
ghost use Rattle.rt_base.specs.declared.ids.JobId.{JobId as Job};
ghost use Rattle.step_journal.specs.declared.entry.Entry.{Entry as Noted};
ghost use Rattle.step_journal.specs.declared.entry.Entry.TheVariants.{Step};
ghost use Rattle.step_journal.specs.Step.{plan as planned, ask as asking, idle as idled};
ghost use Rattle.step_journal.specs.History.{state_of};
ghost use Rattle.board.specs.Answers.{IsAsking, told_by};
ghost use Rattle.board.specs.Histories.{IsRefusal, plan_entry, step_entry, idle_entry, plan_answer, step_answer, idle_answer, now_of};
ghost use Rattle.core_tables.specs.Legal.{IsGranted, IsBlocked, IsIdle};
ghost use Rattle.lock_core.specs.Seen.{core_of};
ghost use Rattle.lock_core.specs.Stands.{Stands, IsCore};
ghost use Rattle.lock_core.specs.Calls.{IsCall, IsIdleRefusal};

use board::{IdleReply, StepReply};
use core_tables::{Blocker, CoreTables};
use rt_base::{End, JobId, Op, Outcome, PlanRefused, Tick, TxId};
use step_journal::{Entry, Journal};
use txn_set::CompiledSet;

/// Plans a job, or refuses it.
pub fn plan(
    set: &CompiledSet,
    journal: &mut Journal,
    tables: &mut CoreTables,
    tx: TxId,
    tick: Tick,
) -> Result<JobId, PlanRefused>
    requires in_set { tx.0 < length set.now.txns }
    requires core { IsCore (core_of set.now journal.old tables.old) }
    ensures fixed { (journal.new.room ≡ journal.old.room) × (journal.new.first ≡ journal.old.first) }
    ensures answer { (history : List Noted) → Stands (core_of set.now journal.old tables.old) history → result ≡ plan_answer set.now history (length journal.old.kept) journal.old.room tx.0 tick }
    ensures call { (history : List Noted) → Stands (core_of set.now journal.old tables.old) history → IsCall (core_of set.now journal.old tables.old) (core_of set.now journal.new tables.new) history (planned tx.0 tick) (plan_entry tx tick result) }
    ensures refused { OnErr result ((journal.new ≡ journal.old) × (tables.new ≡ tables.old)) }
{
    match tables.plan(tx, tick, journal.len(), journal.room()) {
        Ok(job) => {
            journal.push(Entry::Planned { tx, tick });
            Ok(job)
        }
        Err(e) => Err(e),
    }
}

// A granted operation: its effect, and the arrival at the next tick. It answers the outcome, and the job's end where it has
// ended.
#[inline(always)]
fn go(
    set: &CompiledSet,
    journal: &mut Journal,
    tables: &mut CoreTables,
    job: JobId,
    op: Op,
) -> (Outcome, Option<End>)
    requires core { IsCore (core_of set.now journal.old tables.old) }
    requires granted { (history : List Noted) → Stands (core_of set.now journal.old tables.old) history → IsGranted set.now (state_of set.now history) job op }
    requires roomy { length journal.old.kept < journal.old.room }
    ensures fixed { (journal.new.room ≡ journal.old.room) × (journal.new.first ≡ journal.old.first) }
    ensures answer { (history : List Noted) → Stands (core_of set.now journal.old tables.old) history → StepReply.Done result.0 result.1 ≡ step_answer set.now history (length journal.old.kept) journal.old.room job op }
    ensures call { (history : List Noted) → Stands (core_of set.now journal.old tables.old) history → IsCall (core_of set.now journal.old tables.old) (core_of set.now journal.new tables.new) history (asking job op) (step_entry (now_of set.now history) job op (StepReply.Done result.0 result.1)) }
{
    let tick = tables.now();
    let (outcome, over) = tables.go(set, job, op);
    journal.push(Entry::Step {
        job,
        op,
        outcome,
        over,
        tick,
    });
    (outcome, over)
}

// A granted Compute, if no job ends and none is released by it: whether it took place. Else nothing changes.
#[inline(always)]
fn counted(set: &CompiledSet, journal: &mut Journal, tables: &mut CoreTables, job: JobId) -> bool
    requires core { IsCore (core_of set.now journal.old tables.old) }
    requires granted { (history : List Noted) → Stands (core_of set.now journal.old tables.old) history → IsGranted set.now (state_of set.now history) job Op.Compute }
    requires roomy { length journal.old.kept < journal.old.room }
    ensures fixed { (journal.new.room ≡ journal.old.room) × (journal.new.first ≡ journal.old.first) }
    ensures answer { IsTrue result → (history : List Noted) → Stands (core_of set.now journal.old tables.old) history → step_answer set.now history (length journal.old.kept) journal.old.room job Op.Compute ≡ StepReply.Done Outcome.Computed None }
    ensures call { IsTrue result → (history : List Noted) → Stands (core_of set.now journal.old tables.old) history → IsCall (core_of set.now journal.old tables.old) (core_of set.now journal.new tables.new) history (asking job Op.Compute) (Some (Step job Op.Compute Outcome.Computed None (now_of set.now history))) }
    ensures unchanged { result ≡ false → (journal.new ≡ journal.old) × (tables.new ≡ tables.old) }
{
    let tick = tables.now();
    if !tables.compute(set, job) {
        return false;
    }
    journal.push(Entry::Step {
        job,
        op: Op::Compute,
        outcome: Outcome::Computed,
        over: None,
        tick,
    });
    true
}

// A refused operation: the job waits.
#[inline(always)]
fn block(
    set: &CompiledSet,
    journal: &mut Journal,
    tables: &mut CoreTables,
    job: JobId,
    op: Op,
    by: Blocker,
)
    requires core { IsCore (core_of set.now journal.old tables.old) }
    requires blocked { (history : List Noted) → Stands (core_of set.now journal.old tables.old) history → IsBlocked set.now (state_of set.now history) job op by.holder by.ceiling }
    requires roomy { length journal.old.kept < journal.old.room }
    ensures fixed { (journal.new.room ≡ journal.old.room) × (journal.new.first ≡ journal.old.first) }
    ensures call { (history : List Noted) → Stands (core_of set.now journal.old tables.old) history → IsCall (core_of set.now journal.old tables.old) (core_of set.now journal.new tables.new) history (asking job op) (step_entry (now_of set.now history) job op (StepReply.Blocked by.holder by.ceiling)) }
{
    let tick = tables.now();
    tables.wait(job, by.holder);
    journal.push(Entry::Blocked {
        job,
        op,
        by: by.holder,
        ceiling: by.ceiling,
        tick,
    });
}

/// The job computes for a tick, if it runs, there is room, and no job ends and none is released by that: whether it did. Else
/// nothing changes.
#[inline(always)]
pub fn compute(
    set: &CompiledSet,
    journal: &mut Journal,
    tables: &mut CoreTables,
    job: JobId,
) -> bool
    requires core { IsCore (core_of set.now journal.old tables.old) }
    ensures fixed { (journal.new.room ≡ journal.old.room) × (journal.new.first ≡ journal.old.first) }
    ensures answer { IsTrue result → (history : List Noted) → Stands (core_of set.now journal.old tables.old) history → step_answer set.now history (length journal.old.kept) journal.old.room job Op.Compute ≡ StepReply.Done Outcome.Computed None }
    ensures call { IsTrue result → (history : List Noted) → Stands (core_of set.now journal.old tables.old) history → IsCall (core_of set.now journal.old tables.old) (core_of set.now journal.new tables.new) history (asking job Op.Compute) (Some (Step job Op.Compute Outcome.Computed None (now_of set.now history))) }
    ensures unchanged { result ≡ false → (journal.new ≡ journal.old) × (tables.new ≡ tables.old) }
{
    if !tables.runs(job) {
        return false;
    }
    if journal.room() <= journal.len() {
        return false;
    }
    counted(set, journal, tables, job)
}

/// A job asks for an operation. Inlined where the operation is known, so that no more than what that one needs is left.
#[inline(always)]
pub fn asked(
    set: &CompiledSet,
    journal: &mut Journal,
    tables: &mut CoreTables,
    job: JobId,
    op: Op,
) -> StepReply
    requires in_set { job.tx.0 < length set.now.txns }
    requires core { IsCore (core_of set.now journal.old tables.old) }
    ensures fixed { (journal.new.room ≡ journal.old.room) × (journal.new.first ≡ journal.old.first) }
    ensures answer { (history : List Noted) → Stands (core_of set.now journal.old tables.old) history → result ≡ step_answer set.now history (length journal.old.kept) journal.old.room job op }
    ensures call { (history : List Noted) → Stands (core_of set.now journal.old tables.old) history → IsCall (core_of set.now journal.old tables.old) (core_of set.now journal.new tables.new) history (asking job op) (step_entry (now_of set.now history) job op result) }
    ensures refused { IsRefusal result → (journal.new ≡ journal.old) × (tables.new ≡ tables.old) }
{
    match tables.refusal(set, job, op, journal.len(), journal.room()) {
        None => {
            let (outcome, over) = go(set, journal, tables, job, op);
            StepReply::Done { outcome, over }
        }
        Some(StepReply::Blocked { by, ceiling }) => {
            let blocker = Blocker {
                holder: by,
                ceiling,
            };
            block(set, journal, tables, job, op, blocker);
            StepReply::Blocked { by, ceiling }
        }
        Some(StepReply::NoJob { ended, last }) => StepReply::NoJob { ended, last },
        Some(StepReply::NotYet { running }) => StepReply::NotYet { running },
        Some(StepReply::Undeclared { item }) => StepReply::Undeclared { item },
        Some(StepReply::TooEarly { left }) => StepReply::TooEarly { left },
        Some(StepReply::Unwritten { item }) => StepReply::Unwritten { item },
        Some(StepReply::Full { room }) => StepReply::Full { room },
        Some(StepReply::Done { .. }) => unreachable!(),
    }
}

// The step of a job that asks for an operation which the caller does not know beforehand.
fn any_step(
    set: &CompiledSet,
    journal: &mut Journal,
    tables: &mut CoreTables,
    job: JobId,
    op: Op,
) -> StepReply
    requires in_set { job.tx.0 < length set.now.txns }
    requires core { IsCore (core_of set.now journal.old tables.old) }
    ensures fixed { (journal.new.room ≡ journal.old.room) × (journal.new.first ≡ journal.old.first) }
    ensures answer { (history : List Noted) → Stands (core_of set.now journal.old tables.old) history → result ≡ step_answer set.now history (length journal.old.kept) journal.old.room job op }
    ensures call { (history : List Noted) → Stands (core_of set.now journal.old tables.old) history → IsCall (core_of set.now journal.old tables.old) (core_of set.now journal.new tables.new) history (asking job op) (step_entry (now_of set.now history) job op result) }
    ensures refused { IsRefusal result → (journal.new ≡ journal.old) × (tables.new ≡ tables.old) }
{
    match op {
        Op::Read(item) => asked(set, journal, tables, job, Op::Read(item)),
        Op::Write(item, value) => asked(set, journal, tables, job, Op::Write(item, value)),
        Op::Compute => asked(set, journal, tables, job, Op::Compute),
        Op::Commit => asked(set, journal, tables, job, Op::Commit),
        Op::Quit => asked(set, journal, tables, job, Op::Quit),
    }
}

/// A job asks for an operation. A Compute by which nothing else happens is only counted.
#[inline(always)]
pub fn step(
    set: &CompiledSet,
    journal: &mut Journal,
    tables: &mut CoreTables,
    job: JobId,
    op: Op,
) -> StepReply
    requires in_set { job.tx.0 < length set.now.txns }
    requires core { IsCore (core_of set.now journal.old tables.old) }
    ensures fixed { (journal.new.room ≡ journal.old.room) × (journal.new.first ≡ journal.old.first) }
    ensures answer { (history : List Noted) → Stands (core_of set.now journal.old tables.old) history → result ≡ step_answer set.now history (length journal.old.kept) journal.old.room job op }
    ensures call { (history : List Noted) → Stands (core_of set.now journal.old tables.old) history → IsCall (core_of set.now journal.old tables.old) (core_of set.now journal.new tables.new) history (asking job op) (step_entry (now_of set.now history) job op result) }
    ensures refused { IsRefusal result → (journal.new ≡ journal.old) × (tables.new ≡ tables.old) }
{
    if let Op::Compute = op {
        if compute(set, journal, tables, job) {
            return StepReply::Done {
                outcome: Outcome::Computed,
                over: None,
            };
        }
    }
    any_step(set, journal, tables, job, op)
}

/// What the running job is told that may ask for the operation, where there is room.
#[inline(always)]
pub fn ask(
    set: &CompiledSet,
    journal: &mut Journal,
    tables: &mut CoreTables,
    job: JobId,
    op: Op,
) -> Option<Outcome>
    requires core { IsCore (core_of set.now journal.old tables.old) }
    requires asks { (history : List Noted) × Stands (core_of set.now journal.old tables.old) history × IsAsking set.now (state_of set.now history) job op }
    requires roomy { length journal.old.kept < journal.old.room }
    ensures fixed { (journal.new.room ≡ journal.old.room) × (journal.new.first ≡ journal.old.first) }
    ensures answer { (history : List Noted) → Stands (core_of set.now journal.old tables.old) history → result ≡ told_by (step_answer set.now history (length journal.old.kept) journal.old.room job op) }
    ensures call { (history : List Noted) → Stands (core_of set.now journal.old tables.old) history → IsCall (core_of set.now journal.old tables.old) (core_of set.now journal.new tables.new) history (asking job op) (step_entry (now_of set.now history) job op (step_answer set.now history (length journal.old.kept) journal.old.room job op)) }
{
    match tables.blocker(job, op) {
        None => {
            let (outcome, _) = go(set, journal, tables, job, op);
            Some(outcome)
        }
        Some(b) => {
            block(set, journal, tables, job, op, b);
            None
        }
    }
}

/// With nothing pending, the time goes on to the least planned tick.
pub fn idle(set: &CompiledSet, journal: &mut Journal, tables: &mut CoreTables) -> IdleReply
    requires core { IsCore (core_of set.now journal.old tables.old) }
    ensures fixed { (journal.new.room ≡ journal.old.room) × (journal.new.first ≡ journal.old.first) }
    ensures answer { (history : List Noted) → Stands (core_of set.now journal.old tables.old) history → result ≡ idle_answer set.now history (length journal.old.kept) journal.old.room }
    ensures call { (history : List Noted) → Stands (core_of set.now journal.old tables.old) history → IsCall (core_of set.now journal.old tables.old) (core_of set.now journal.new tables.new) history idled (idle_entry (now_of set.now history) result) }
    ensures refused { IsIdleRefusal result → (journal.new ≡ journal.old) × (tables.new ≡ tables.old) }
{
    match tables.idle_check(journal.len(), journal.room()) {
        IdleReply::Advanced { to } => {
            let from = tables.now();
            tables.go_on(to);
            journal.push(Entry::Idle { from, to });
            IdleReply::Advanced { to }
        }
        IdleReply::NotIdle { running } => IdleReply::NotIdle { running },
        IdleReply::Nothing => IdleReply::Nothing,
        IdleReply::Full { room } => IdleReply::Full { room },
    }
}
