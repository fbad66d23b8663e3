//! A set of ranks below 64.
ghost use Rattle.std.specs.Prelude.{◌≡◌, ℕ, ◌+◌, ◌<◌, ◌==◌, ◌&&◌, ◌||◌, not, false, Bool, MatchOption};
ghost use Rattle.rt_base.specs.Ranks.{has_rank, IsLeastRank};

use crate::steps::Steps;
use std::sync::ledger::Ledger;

/// A set of ranks below 64, one bit for each.
#[derive(Clone, Copy, PartialEq, Eq, Debug)]
pub struct RankSet(u64);

impl RankSet {
    /// The set without ranks.
    pub fn empty() -> RankSet
        ensures { (rank : ℕ) → has_rank result rank ≡ false }
    {
        RankSet(0)
    }

    /// The least rank, by one look; None exactly where the set is empty.
    pub fn first<L: Ledger>(&self, steps: &mut Steps<L>) -> Option<u32>
        ensures least { MatchOption result ((rank : ℕ) → has_rank self.now rank ≡ false) (IsLeastRank self.now) }
        ensures one_look { steps.new ≡ steps.old + 1 }
    {
        steps.look();
        if self.0 == 0 {
            None
        } else {
            Some(self.0.trailing_zeros())
        }
    }

    /// The set with this rank.
    pub fn with(self, rank: u32) -> RankSet
        requires { rank < 64 }
        ensures { (other : ℕ) → has_rank result other ≡ (other == rank || has_rank self other) }
    {
        RankSet(self.0 | 1 << rank)
    }

    /// The set without this rank.
    pub fn without(self, rank: u32) -> RankSet
        requires { rank < 64 }
        ensures { (other : ℕ) → has_rank result other ≡ (not (other == rank) && has_rank self other) }
    {
        RankSet(self.0 & !(1 << rank))
    }
}
