//! What is asked by going over the ranks of the pending jobs, in falling priority.
ghost use Rattle.std.specs.Prelude.{◌≡◌, ◌<◌, ◌^◌, ℕ, true, false, length, None, Some, slice_index_or, MatchOption, IfSome};
ghost use Rattle.rt_base.specs.Ranks.{has_rank};
ghost use Rattle.inherit_prio.specs.Waits.{IsOrder};
ghost use Rattle.ceiling_table.specs.Held.{refusal};
ghost use Rattle.dispatch_core.specs.Dispatch.{IsRunning};
ghost use Rattle.core_tables.specs.declared.head.Head.{Head as HeadSeen};
ghost use Rattle.core_tables.specs.PendingTables.{head_at, head_with, AreHeadRanks, IsFirstDue, NotDue, IsLeastOfHeads, IsRunningJob, earlier_of};

use crate::head::Head;
use ceiling_table::{Above, Held};
use dispatch_core::dispatched;
use inherit_prio::Waits;
use rt_base::{JobId, RankSet, Steps, Tick, TxId};
use std::marker::Brand;
use std::sync::ledger::{Blank, Ledger};

/// The earlier of two ticks, of which one may be missing.
pub fn earlier(tick: Tick, other: Option<Tick>) -> Tick
    ensures { result ≡ earlier_of tick other }
{
    match other {
        Some(other) => tick.min(other),
        None => tick,
    }
}

/// The transaction of the running job.
pub fn running_tx<L: Ledger>(ranks: RankSet, waits: &Waits, blank: Blank) -> Option<TxId>
    requires name { blank.name ≡ L.name }
    requires parts { blank.parts ≡ L.parts }
    requires one_part { blank.parts ≡ 1 }
    requires ranks { (rank : ℕ) → has_rank ranks rank ≡ true → rank < length waits.now.prios }
    ensures running { MatchOption result ((rank : ℕ) → has_rank ranks rank ≡ false) (IsRunning ranks waits.now) }
    ensures in_range { IfSome result (λ tx. tx.0 < length waits.now.prios) }
{
    let mut steps = Steps::<L>::start(blank);
    dispatched(ranks, waits, &mut steps)
}

/// The running job, looked for. At most three looks, and one look-up.
#[inline(always)]
pub fn running_job(heads: &[Option<Head>], ranks: RankSet, waits: &Waits) -> Option<JobId>
    requires prios { length waits.now.prios ≡ length heads.now }
    requires ranks { AreHeadRanks heads.now waits.now.order ranks }
    ensures { IsRunningJob heads.now waits.now ranks result }
{
    let tx = running_tx::<Brand>(ranks, waits, Blank::new(1))?;
    let head = heads[tx.0 as usize]?;
    Some(head.job)
}

/// Why a transaction gets no new lock.
#[inline(always)]
pub fn refused<L: Ledger>(held: &Held, tx: TxId, blank: Blank) -> Option<Above>
    requires name { blank.name ≡ L.name }
    requires parts { blank.parts ≡ L.parts }
    requires one_part { blank.parts ≡ 1 }
    requires tx { tx.0 < length held.now.prios }
    ensures { result ≡ refusal held.now tx.0 }
{
    let mut steps = Steps::<L>::start(blank);
    held.grantable(tx, &mut steps).err()
}

/// The highest pending job whose deadline is this tick.
pub fn first_due<L: Ledger>(
    heads: &[Option<Head>],
    deadlines: &[Tick],
    waits: &Waits,
    ranks: RankSet,
    tick: Tick,
    blank: Blank,
) -> Option<JobId>
    requires name { blank.name ≡ L.name }
    requires parts { blank.parts ≡ L.parts }
    requires one_part { blank.parts ≡ 1 }
    requires prios { length waits.now.prios ≡ length heads.now }
    requires order { IsOrder waits.now.prios waits.now.order }
    requires deadlines { length deadlines.now ≡ length heads.now }
    requires ranks { AreHeadRanks heads.now waits.now.order ranks }
    requires soon { (tx : ℕ) → slice_index_or deadlines.now tx 0 < 2 ^ 32 }
    requires early { (tx : ℕ) (head : HeadSeen) → head_at heads.now tx ≡ Some head → head.release < 2 ^ 63 }
    ensures { MatchOption result ((rank : ℕ) → NotDue heads.now deadlines.now waits.now.order tick rank) (IsFirstDue heads.now deadlines.now waits.now.order tick) }
{
    let mut steps = Steps::<L>::start(blank);
    let mut left = ranks;
    while let Some(rank) = left.first(&mut steps) {
        let tx = waits.tx_at(rank, &mut steps);
        if let Some(head) = heads[tx.0 as usize] {
            if head.release + deadlines[tx.0 as usize] == tick {
                return Some(head.job);
            }
        }
        left = left.without(rank);
    }
    None
}

/// The least deadline of the pending jobs.
pub fn least_deadline<L: Ledger>(
    heads: &[Option<Head>],
    deadlines: &[Tick],
    waits: &Waits,
    ranks: RankSet,
    blank: Blank,
) -> Option<Tick>
    requires name { blank.name ≡ L.name }
    requires parts { blank.parts ≡ L.parts }
    requires one_part { blank.parts ≡ 1 }
    requires prios { length waits.now.prios ≡ length heads.now }
    requires order { IsOrder waits.now.prios waits.now.order }
    requires deadlines { length deadlines.now ≡ length heads.now }
    requires ranks { AreHeadRanks heads.now waits.now.order ranks }
    requires soon { (tx : ℕ) → slice_index_or deadlines.now tx 0 < 2 ^ 32 }
    requires early { (tx : ℕ) (head : HeadSeen) → head_at heads.now tx ≡ Some head → head.release < 2 ^ 63 }
    ensures { MatchOption result ((rank : ℕ) → rank < length heads.now → head_with heads.now waits.now.order rank ≡ None) (IsLeastOfHeads heads.now deadlines.now waits.now.order) }
{
    let mut steps = Steps::<L>::start(blank);
    let mut left = ranks;
    let mut least = None;
    while let Some(rank) = left.first(&mut steps) {
        let tx = waits.tx_at(rank, &mut steps);
        if let Some(head) = heads[tx.0 as usize] {
            least = Some(earlier(head.release + deadlines[tx.0 as usize], least));
        }
        left = left.without(rank);
    }
    least
}
