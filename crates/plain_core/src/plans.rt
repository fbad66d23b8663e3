//! The refusals of a plan.
ghost use Rattle.std.specs.Prelude.{◌≡◌, ◌+◌, ◌<◌, ◌≤◌, ◌^◌, ◌==◌, length, slice_index_or, if◌then◌else◌};
ghost use Rattle.txn_set.specs.Set.{no_txn};
ghost use Rattle.board.specs.Answers.{plan_judged};

use crate::tables::Tables;
use rt_base::{JobId, PlanRefused, Plans, Tick, TxId};
use step_journal::Journal;
use txn_set::TxnDecl;

/// The earliest tick for the next job of a transaction.
pub fn earliest(txns: &[TxnDecl], tx: TxId, plans: Plans) -> Tick
    requires in_set { tx.0 < length txns.now }
    requires last { plans.last ≤ 2 ^ 40 }
    requires period { (slice_index_or txns.now tx.0 no_txn).period ≤ 2 ^ 30 }
    ensures { result ≡ (if plans.number == 0 then 0 else plans.last + (slice_index_or txns.now tx.0 no_txn).period) }
{
    if plans.number == 0 {
        0
    } else {
        plans.last + txns[tx.0 as usize].period
    }
}

/// The refusals of a job for this tick in their order, and else the job.
pub fn judged(
    tables: &Tables,
    journal: &Journal,
    tick: Tick,
    earliest: Tick,
    job: JobId,
) -> Result<JobId, PlanRefused>
    ensures { result ≡ plan_judged tick tables.now.state.now earliest (length tables.now.state.planned) (length journal.now.kept) journal.now.room job }
{
    let now = tables.now();
    let room = journal.room();
    if tick < now {
        Err(PlanRefused::Past { now })
    } else if tick < earliest {
        Err(PlanRefused::TooSoon { earliest })
    } else if 0x100_0000_0000 < tick {
        Err(PlanRefused::TooFar {
            limit: 0x100_0000_0000,
        })
    } else if tables.planned().len() >= 65536 {
        Err(PlanRefused::CalendarFull { room: 65536 })
    } else if job.serial >= 0xffff_ffff {
        Err(PlanRefused::NoSerial {
            planned: 0xffff_ffff,
        })
    } else if journal.len() >= room {
        Err(PlanRefused::Full { room })
    } else {
        Ok(job)
    }
}
