//! Who gets a new lock, after Sha, Rajkumar, Son and Chang: ceilings are computed anew from the declarations and the work
//! of the pending jobs.
ghost use Rattle.std.specs.Prelude.{◌≡◌, ◌||◌, ◌==◌, max};
ghost use Rattle.std.specs.List.{filter};
ghost use Rattle.rt_base.specs.LockRule.{stands_above as stands_above_by, upper as upper_of};
ghost use Rattle.txn_set.specs.Set.{may_read, may_write};
ghost use Rattle.plain_core.specs.Locks.{write_by, absolute_by, writes_by, reads_by, ceiling_by, rival_by, upper_by, topmost_by, blocked_or, refused_by};

use crate::arrive::prio_of;
use crate::slot::Slot;
use crate::work::Work;
use board::StepReply;
use item_model::{OutsideRead, OwnWrite};
use rt_base::{ItemId, JobId, Prio, TxId};
use txn_set::{TxnDecl, names_item};

/// A pending job as a rival for a lock: its priority, and the greatest ceiling of its locks.
#[derive(Clone, Copy, PartialEq, Eq, Debug)]
pub struct Rival {
    pub job: JobId,
    pub prio: Prio,
    pub ceiling: Prio,
}

/// The priority of the highest transaction that may write the item, and 0 where there is none.
fn write_ceiling(txns: &[TxnDecl], item: ItemId) -> Prio
    ensures { result ≡ write_by txns.now item.0 }
{
    let mut best = 0;
    for t in txns {
        if names_item(t.writes.as_slice(), item) && best < t.prio {
            best = t.prio;
        }
    }
    best
}

/// The priority of the highest transaction that may read or write the item.
fn absolute_ceiling(txns: &[TxnDecl], item: ItemId) -> Prio
    ensures { result ≡ absolute_by txns.now item.0 }
{
    let mut best = 0;
    for t in txns {
        if may_touch(t, item) && best < t.prio {
            best = t.prio;
        }
    }
    best
}

fn may_touch(txn: &TxnDecl, item: ItemId) -> bool
    ensures { result ≡ (may_read txn.now item.0 || may_write txn.now item.0) }
{
    names_item(txn.reads.as_slice(), item) || names_item(txn.writes.as_slice(), item)
}

fn greater(a: Prio, b: Prio) -> Prio
    ensures { result ≡ max a b }
{
    a.max(b)
}

fn writes_ceiling(txns: &[TxnDecl], writes: &[OwnWrite]) -> Prio
    ensures { result ≡ writes_by txns.now writes.now }
{
    let mut best = 0;
    for i in (0..writes.len()).rev() {
        best = greater(absolute_ceiling(txns, writes[i].item), best);
    }
    best
}

fn reads_ceiling(txns: &[TxnDecl], work: &Work, reads: &[OutsideRead]) -> Prio
    ensures { result ≡ reads_by txns.now work.now reads.now }
{
    let mut best = 0;
    for i in (0..reads.len()).rev() {
        if work.write_of(reads[i].item).is_none() {
            best = greater(write_ceiling(txns, reads[i].item), best);
        }
    }
    best
}

/// The greatest ceiling of the locks that a job holds, and 0 where it holds none.
fn ceiling(txns: &[TxnDecl], work: &Work) -> Prio
    ensures { result ≡ ceiling_by txns.now work.now }
{
    greater(
        writes_ceiling(txns, work.writes()),
        reads_ceiling(txns, work, work.reads()),
    )
}

/// The slot's job as a rival of a transaction.
fn rival_in(txns: &[TxnDecl], tx: TxId, slot: &Slot) -> Option<Rival>
    ensures { result ≡ rival_by txns.now tx.0 slot.now }
{
    match slot.job() {
        None => None,
        Some(job) => {
            if job.tx.0 == tx.0 {
                None
            } else {
                Some(Rival {
                    job,
                    prio: prio_of(txns, job),
                    ceiling: ceiling(txns, slot.work()),
                })
            }
        }
    }
}

fn stands_above(a: Rival, b: Rival) -> bool
    ensures { result ≡ stands_above_by (λ (r : Rival). r.prio) (λ (r : Rival). r.ceiling) a b }
{
    b.ceiling < a.ceiling || (a.ceiling == b.ceiling && b.prio < a.prio)
}

fn upper(a: Rival, best: Option<Rival>) -> Rival
    ensures { result ≡ upper_of (λ (r : Rival). r.prio) (λ (r : Rival). r.ceiling) a best }
{
    match best {
        None => a,
        Some(b) => { if stands_above(b, a) { b } else { a } }
    }
}

fn upper_or(here: Option<Rival>, best: Option<Rival>) -> Option<Rival>
    ensures { result ≡ upper_by here best }
{
    match here {
        None => best,
        Some(a) => Some(upper(a, best)),
    }
}

/// The job of another transaction that holds the lock with the greatest ceiling, the highest such one.
fn topmost(txns: &[TxnDecl], tx: TxId, slots: &[Slot]) -> Option<Rival>
    ensures { result ≡ topmost_by txns.now tx.0 slots.now }
{
    let mut best: Option<Rival> = None;
    for i in (0..slots.len()).rev() {
        let here = rival_in(txns, tx, &slots[i]);
        best = upper_or(here, best);
    }
    best
}

fn unless_below(own: Prio, top: Option<Rival>, rest: StepReply) -> StepReply
    ensures { result ≡ blocked_or own top rest }
{
    match top {
        None => rest,
        Some(a) => {
            if a.ceiling < own {
                rest
            } else {
                StepReply::Blocked {
                    by: a.job,
                    ceiling: a.ceiling,
                }
            }
        }
    }
}

/// The refusal of a new lock, and else the rest. It scans the work of every pending job, and for each lock the
/// declarations.
pub fn refused(txns: &[TxnDecl], slots: &[Slot], job: JobId, rest: StepReply) -> StepReply
    ensures { result ≡ refused_by txns.now slots.now job rest }
{
    unless_below(prio_of(txns, job), topmost(txns, job.tx, slots), rest)
}
