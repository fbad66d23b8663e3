//! The answer to an operation of the running job, and the effect of a granted one.
ghost use Rattle.std.specs.Prelude.{◌≡◌, ◌<◌, ◌≤◌, ◌^◌, ℕ, Some, length, is_some};
ghost use Rattle.txn_set.specs.Set.{txn_of};
ghost use Rattle.step_journal.specs.State.{Row as RowSeen, row_of, same_job};
ghost use Rattle.step_journal.specs.Running.{job_row};
ghost use Rattle.step_journal.specs.LockRule.{needs_lock};
ghost use Rattle.board.specs.Over.{over_of};
ghost use Rattle.plain_core.specs.Rules.{running_by};
ghost use Rattle.plain_core.specs.Grants.{own_end_by, granted_by, slot_end_by, effect_by};
ghost use Rattle.plain_core.specs.Steps.{ask_by, turn_by};
ghost use Rattle.plain_core.specs.TablesSeen.{tally_of};
ghost use Rattle.plain_core.specs.Effects.{IsLow, settled_by};

use crate::arrive::is_due;
use crate::checks::checked;
use crate::install::outcome;
use crate::locks::refused;
use crate::running::{head_at, running};
use crate::slot::{Head, Slot};
use crate::tables::Tables;
use crate::tally::Tally;
use crate::verdict::end_of_step;
use crate::work::Work;
use board::StepReply;
use item_model::ItemDecl;
use rt_base::{End, JobId, Op, Tick};
use txn_set::{CompiledSet, TxnDecl};

/// Whether an operation needs a new lock.
fn needs_lock(work: &Work, op: Op) -> bool
    ensures { result ≡ needs_lock work.now op }
{
    match op {
        Op::Read(item) => !(work.read_of(item).is_some() || work.write_of(item).is_some()),
        Op::Write(item, _) => !work.write_of(item).is_some(),
        Op::Compute => false,
        Op::Commit => false,
        Op::Quit => false,
    }
}

fn same_job(a: JobId, b: JobId) -> bool
    ensures { result ≡ same_job a b }
{
    a.tx.0 == b.tx.0 && a.serial == b.serial
}

/// How a granted step of a job ends it by its own effect, if it does.
pub fn own_end(
    set: &CompiledSet,
    txn: &TxnDecl,
    now: Tick,
    head: Head,
    work: &Work,
    op: Op,
) -> Option<End>
    requires now { now < 2 ^ 63 }
    requires used { head.used < 2 ^ 63 }
    ensures { result ≡ own_end_by set.now txn.now now head work.now op }
{
    end_of_step(set, txn, work, head.used + 1, now + 1, op)
}

fn over(own: Option<End>, due: bool) -> Option<End>
    ensures { result ≡ over_of own due }
{
    match own {
        Some(end) => Some(end),
        None if due => Some(End::Late),
        None => None,
    }
}

/// The answer to a granted step.
fn granted(
    set: &CompiledSet,
    txn: &TxnDecl,
    tables: &Tables,
    head: Head,
    work: &Work,
    op: Op,
) -> StepReply
    requires now { tables.now.state.now < 2 ^ 63 }
    requires used { head.used < 2 ^ 63 }
    ensures { result ≡ granted_by set.now txn.now tables.now.state.items tables.now.state.now head work.now op }
{
    let now = tables.now();
    let own = own_end(set, txn, now, head, work, op);
    StepReply::Done {
        outcome: outcome(tables.items(), work, op),
        over: over(own, is_due(head.release, txn.deadline, now + 1)),
    }
}

/// The refusal that the operation of the running job meets, and else the answer to the granted step.
fn ask(
    set: &CompiledSet,
    tables: &Tables,
    kept: usize,
    room: usize,
    job: JobId,
    op: Op,
) -> StepReply
    requires declared { job.tx.0 < length set.now.txns }
    requires slot { job.tx.0 < length tables.now.state.rows }
    requires now { tables.now.state.now < 2 ^ 63 }
    requires used { (row : RowSeen) → row_of tables.now.state.rows job.tx.0 ≡ Some row → row.used < 2 ^ 63 }
    ensures { result ≡ ask_by set.now (txn_of set.now job.tx.0) tables.now kept room job op (row_of tables.now.state.rows job.tx.0) }
{
    let txn = set.txn(job.tx);
    let slot = &tables.slots()[job.tx.0 as usize];
    match slot.head() {
        None => StepReply::NotYet { running: job },
        Some(head) => {
            let work = slot.work();
            let granted = granted(set, txn, tables, head, work, op);
            let locked = if needs_lock(work, op) {
                refused(set.txns(), tables.slots(), head.job, granted)
            } else {
                granted
            };
            let rest = if kept >= room {
                StepReply::Full { room }
            } else {
                locked
            };
            checked(set, txn, head.used, work, op, rest)
        }
    }
}

/// Whether this job is pending.
pub fn is_pending(slots: &[Slot], job: JobId) -> bool
    ensures { result ≡ is_some (job_row slots.now job) }
{
    head_at(slots, job).is_some()
}

/// The answer to a pending job.
pub fn turn(
    set: &CompiledSet,
    tables: &Tables,
    kept: usize,
    room: usize,
    job: JobId,
    op: Op,
) -> StepReply
    requires declared { job.tx.0 < length set.now.txns }
    requires slot { job.tx.0 < length tables.now.state.rows }
    requires now { tables.now.state.now < 2 ^ 63 }
    requires used { (n : ℕ) (row : RowSeen) → row_of tables.now.state.rows n ≡ Some row → row.used < 2 ^ 63 }
    ensures { result ≡ turn_by set.now tables.now kept room job op (running_by set.now.txns tables.now.state.rows) }
{
    match running(set.txns(), tables.slots()) {
        None => StepReply::NotYet { running: job },
        Some(r) => {
            if same_job(r, job) {
                ask(set, tables, kept, room, job, op)
            } else {
                StepReply::NotYet { running: r }
            }
        }
    }
}

/// The answer to a job that is not pending.
pub fn no_job(tally: Tally) -> StepReply
    requires { tally.number < 2 ^ 32 }
    ensures { result ≡ StepReply.NoJob tally.number tally.last }
{
    StepReply::NoJob {
        ended: tally.number as u32,
        last: tally.last,
    }
}

fn slot_end(set: &CompiledSet, now: Tick, slot: &Slot, job: JobId, op: Op) -> Option<End>
    requires declared { job.tx.0 < length set.now.txns }
    requires now { now < 2 ^ 63 }
    requires used { (row : RowSeen) → slot.now ≡ Some row → row.used < 2 ^ 63 }
    ensures { result ≡ slot_end_by set.now now job op slot.now }
{
    match slot.head() {
        None => None,
        Some(head) => own_end(set, set.txn(job.tx), now, head, slot.work(), op),
    }
}

fn settle(tables: &mut Tables, decls: &[ItemDecl], job: JobId, end: Option<End>)
    requires slot { job.tx.0 < length tables.old.state.rows }
    requires few { (n : ℕ) → (tally_of tables.old.tallies n).number < 2 ^ 32 }
    ensures { tables.new ≡ settled_by decls.now tables.old job end }
{
    match end {
        None => {}
        Some(end) => tables.settle(decls, job, end),
    }
}

/// The effect of a granted step of a pending job.
pub fn effect(set: &CompiledSet, tables: &mut Tables, job: JobId, op: Op)
    requires declared { job.tx.0 < length set.now.txns }
    requires slot { job.tx.0 < length tables.old.state.rows }
    requires now { tables.old.state.now < 2 ^ 63 }
    requires used { (n : ℕ) (row : RowSeen) → row_of tables.old.state.rows n ≡ Some row → row.used < 2 ^ 63 }
    requires low { IsLow op }
    requires few { (n : ℕ) → (tally_of tables.old.tallies n).number < 2 ^ 32 }
    ensures { tables.new ≡ effect_by set.now job op tables.old }
{
    let at = job.tx.0 as usize;
    let end = slot_end(set, tables.now(), &tables.slots()[at], job, op);
    tables.step(job, op);
    settle(tables, set.items(), job, end);
}
