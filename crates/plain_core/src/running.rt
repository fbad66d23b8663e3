//! The running job: from the highest pending job along "waits on".
ghost use Rattle.std.specs.Prelude.{◌≡◌, ◌<◌, ◌-◌, ℕ, length, slice_index_or, IfSome, None};
ghost use Rattle.std.specs.Option.{option_map};
ghost use Rattle.txn_set.specs.Set.{Set, no_txn};
ghost use Rattle.step_journal.specs.State.{row_of, pending};
ghost use Rattle.step_journal.specs.Running.{job_row};
ghost use Rattle.plain_core.specs.Slots.{head_of};
ghost use Rattle.plain_core.specs.Prios.{prio_by};
ghost use Rattle.plain_core.specs.Rules.{highest_by, followed_by, running_by, higher_by, idle_by};

use crate::arrive::prio_of;
use crate::slot::{Head, Slot};
use board::IdleReply;
use rt_base::{JobId, Tick};
use txn_set::TxnDecl;

/// The pending job with the highest priority.
pub fn highest(txns: &[TxnDecl], slots: &[Slot]) -> Option<Head>
    ensures { result ≡ highest_by txns.now slots.now }
{
    let mut best: Option<Head> = None;
    for i in (0..slots.len()).rev() {
        let here = slots[i].head();
        best = higher(txns, here, best);
    }
    best
}

/// The first of two, unless the second is as high.
pub fn higher(txns: &[TxnDecl], here: Option<Head>, best: Option<Head>) -> Option<Head>
    ensures { result ≡ higher_by txns.now here best }
{
    match (here, best) {
        (None, best) => best,
        (Some(h), None) => Some(h),
        (Some(h), Some(b)) => {
            if prio_of(txns, b.job) < prio_of(txns, h.job) {
                Some(h)
            } else {
                Some(b)
            }
        }
    }
}

/// The pending job with this name.
pub fn head_at(slots: &[Slot], job: JobId) -> Option<Head>
    ensures { result ≡ option_map head_of (job_row slots.now job) }
{
    let at = job.tx.0 as usize;
    if at < slots.len() {
        match slots[at].head() {
            Some(h) if h.job.tx.0 == job.tx.0 && h.job.serial == job.serial => Some(h),
            _ => None,
        }
    } else {
        None
    }
}

/// The job that is reached from this one in at most so many links.
fn follow(slots: &[Slot], links: usize, from: Head) -> Option<Head>
    ensures { result ≡ followed_by slots.now links from from.waits_on }
{
    match from.waits_on {
        None => Some(from),
        Some(on) => {
            if links == 0 {
                return None;
            }
            match head_at(slots, on) {
                None => None,
                Some(h) => follow(slots, links - 1, h),
            }
        }
    }
}

/// The running job: it is reached from the highest pending job along "waits on".
pub fn running(txns: &[TxnDecl], slots: &[Slot]) -> Option<JobId>
    ensures { result ≡ running_by txns.now slots.now }
{
    match highest(txns, slots) {
        None => None,
        Some(h) => match follow(slots, slots.len(), h) {
            None => None,
            Some(r) => Some(r.job),
        },
    }
}

/// The answer to idle, by the running job and the next planned tick.
pub fn idle_answer(
    kept: usize,
    room: usize,
    next: Option<Tick>,
    running: Option<JobId>,
) -> IdleReply
    ensures { result ≡ idle_by kept room next running }
{
    match (running, next) {
        (Some(job), _) => IdleReply::NotIdle { running: job },
        (None, None) => IdleReply::Nothing,
        (None, Some(to)) => {
            if kept >= room {
                IdleReply::Full { room }
            } else {
                IdleReply::Advanced { to }
            }
        }
    }
}
