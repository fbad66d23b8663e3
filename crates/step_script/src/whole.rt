//! Scenarios.
ghost use Rattle.std.specs.Prelude.{◌≡◌, ◌<◌, length, IsTrue};
ghost use Rattle.step_script.specs.Shown.{shown};
ghost use Rattle.step_script.specs.Releases.{jobs_of, release_at, is_eager, releases_of};
ghost use Rattle.step_script.specs.Scenarios.{IsScenario};
ghost use Rattle.txn_set.specs.Set.{txn_of};
ghost use Rattle.step_script.specs.Shown.{set_of};

use crate::releases::Releases;
use crate::script::Script;
use item_model::ItemDecl;
use rt_base::{List, Names, Tick, TogetherDecl, TxId};
use txn_set::TxnDecl;

/// What a run is made from. Names, scripts and releases stand by the places of their items and transactions. The room
/// is the number of jobs, plus the sum over the jobs of their steps and 2, plus 2: a job has at most one plan, its
/// steps and one refusal, and each idling ends at a release, so a run has fewer entries.
#[derive(Drop)]
pub struct Scenario {
    pub names: Names,
    pub items: List<ItemDecl>,
    pub txns: List<TxnDecl>,
    pub together: List<TogetherDecl>,
    pub scripts: List<Script>,
    pub releases: List<Releases>,
    pub room: usize,
}

impl Scenario {
    /// How many jobs a transaction has, eager ones too. One look-up.
    pub fn jobs(&self, tx: TxId) -> u32
        requires good { IsScenario (shown self.now) }
        requires in_range { tx.0 < length self.now.txns }
        ensures { result ≡ jobs_of (releases_of self.now.releases tx.0) }
    {
        self.releases.as_slice()[tx.0 as usize].jobs()
    }

    /// The tick at which a job of a transaction that is not eager is planned. Two look-ups.
    pub fn release(&self, tx: TxId, index: u32) -> Tick
        requires good { IsScenario (shown self.now) }
        requires in_range { tx.0 < length self.now.txns }
        requires fixed { IsTrue (is_eager (releases_of self.now.releases tx.0)) → ⊥ }
        requires index { index < jobs_of (releases_of self.now.releases tx.0) }
        ensures { result ≡
            release_at (txn_of (set_of (shown self.now)) tx.0) (releases_of self.now.releases tx.0) index }
    {
        let txn = &self.txns.as_slice()[tx.0 as usize];
        self.releases.as_slice()[tx.0 as usize].tick(txn, index)
    }
}
