//! Which transaction's job runs.
#![tactic(auto)]

ghost use Rattle.std.specs.Prelude.{◌≡◌, ℕ, ◌+◌, ◌<◌, ◌≤◌, true, false, length, MatchOption, IfSome};
ghost use Rattle.rt_base.specs.Ranks.{has_rank};
ghost use Rattle.dispatch_core.specs.Dispatch.{IsRunning};

use inherit_prio::Waits;
use rt_base::{RankSet, Steps, TxId};
use std::sync::ledger::Ledger;

/// The transaction of the running job, from the ranks of the pending transactions: the highest of them, or the one on
/// which it waits, which then has its priority (Sha, Rajkumar, Son, Chang 1991). None exactly
/// where nothing is pending. At most three looks: the least rank, its transaction, and on whom that one waits. One hop is
/// enough, since no chain of waits grows. It takes no memory.
pub fn dispatched<L: Ledger>(pending: RankSet, waits: &Waits, steps: &mut Steps<L>) -> Option<TxId>
    requires { (rank : ℕ) → has_rank pending rank ≡ true → rank < length waits.now.prios }
    ensures running { MatchOption result ((rank : ℕ) → has_rank pending rank ≡ false) (IsRunning pending waits.now) }
    ensures in_range { IfSome result (λ tx. tx.0 < length waits.now.prios) }
    ensures looks { steps.new ≤ steps.old + 3 }
{
    let rank = pending.first(steps)?;
    let highest = waits.tx_at(rank, steps);
    let Some(on) = waits.waits_on(highest, steps) else {
        return Some(highest);
    };
    Some(on)
}
