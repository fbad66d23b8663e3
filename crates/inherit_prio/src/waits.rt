//! The table of waits.
ghost use Rattle.std.specs.Prelude.{◌≡◌, ◌≢◌, ℕ, ◌+◌, ◌<◌, ◌≤◌, ◌==◌, if◌then◌else◌, length, slice_index_or, Some, None, IfOk, IfSome};
ghost use Rattle.inherit_prio.specs.Waits.{IsOrder, AreRanksOn, Changes, prio_of, tx_of, on_of, effective_of, freed_at, unless_on};

use crate::ranking::Ranking;
use rt_base::{Looked, OutOfMemory, Prio, RankSet, Steps, TxId};
use std::alloc::Global;
use std::marker::{Brand, Model};
use std::sync::ledger::{Blank, Ledger};

/// Who waits on whom, and the ranks of the transactions. `waiters` has for each transaction the ranks of those that wait on
/// it. What a job waits on waits on nobody, so no chain of waits grows. No call after `new` takes memory.
#[derive(Drop)]
pub struct Waits {
    ranking: Ranking,
    on: Looked<Option<TxId>>,
    waiters: Looked<RankSet>,
}

impl Model for Waits {
    ghost use Rattle.inherit_prio.specs.Waits.{Waiting, IsTable};

    ghost Value = { Waiting };

    ghost view = { λ w. record { prios = w.ranking.prios; order = w.ranking.order; on = w.on.items } };

    ghost invariant = { λ w. IsTable (record { prios = w.ranking.prios; order = w.ranking.order; on = w.on.items }) w.ranking.ranks w.waiters.items };
}

impl Waits {
    /// Nobody waits, among transactions with these priorities: at most 64, all distinct.
    pub fn new(alloc: Global, prios: Vec<Prio>) -> Result<Waits, OutOfMemory>
        requires few { length prios.items ≤ 64 }
        requires distinct { (i j : ℕ) → i < length prios.items → j < length prios.items → prio_of prios.items i ≡ prio_of prios.items j → i ≡ j }
        ensures prios { IfOk result (λ w. w.prios ≡ prios.items) }
        ensures order { IfOk result (λ w. IsOrder prios.items w.order) }
        ensures nobody { IfOk result (λ w. (t : ℕ) → on_of w.on t ≡ None) }
    {
        let ranking = Ranking::new(alloc, prios)?;
        let on = Looked::filled(alloc, ranking.len(), None)?;
        let waiters = Looked::filled(alloc, ranking.len(), RankSet::empty())?;
        Ok(Waits {
            ranking,
            on,
            waiters,
        })
    }

    /// A transaction waits on another, which waits on nobody. Neither waited, and nobody waits on the first.
    pub fn block(&mut self, tx: TxId, on: TxId)
        requires tx { tx.0 < length self.old.prios }
        requires on { on.0 < length self.old.prios }
        requires differ { tx.0 ≢ on.0 }
        requires free { on_of self.old.on tx.0 ≡ None }
        requires on_free { on_of self.old.on on.0 ≡ None }
        requires no_waiters { (t : ℕ) → on_of self.old.on t ≢ Some tx }
        ensures { Changes self.old self.new (λ t. if t == tx.0 then Some on else on_of self.old.on t) }
    {
        self.set_on::<Brand>(tx, on, Blank::new(1));
    }

    /// Nobody waits on a transaction any more, and it waits on nobody: so it is when its job ends. It goes over those that
    /// waited on it alone.
    pub fn free(&mut self, on: TxId)
        requires { on.0 < length self.old.prios }
        ensures { Changes self.old self.new (freed_at self.old on.0) }
    {
        self.set_free::<Brand>(on, Blank::new(1));
    }

    /// On whom a transaction waits, by at most one look; None exactly where it waits on nobody. That one waits on nobody.
    pub fn waits_on<L: Ledger>(&self, tx: TxId, steps: &mut Steps<L>) -> Option<TxId>
        requires { tx.0 < length self.now.prios }
        ensures on { result ≡ on_of self.now.on tx.0 }
        ensures ends { IfSome result (λ on. on_of self.now.on on.0 ≡ None) }
        ensures in_range { IfSome result (λ on. on.0 < length self.now.prios) }
        ensures looks { steps.new ≤ steps.old + 1 }
    {
        self.on.at(tx.0 as usize, steps)
    }

    /// The greatest of a transaction's own priority and those of the transactions that wait on it, from which it inherits
    /// (Sha, Rajkumar, Son, Chang 1991), by at most five looks: its own priority, its waiters, the least of their ranks,
    /// the transaction of that rank, and its priority.
    pub fn effective<L: Ledger>(&self, tx: TxId, steps: &mut Steps<L>) -> Prio
        requires { tx.0 < length self.now.prios }
        ensures greatest { result ≡ effective_of self.now tx.0 }
        ensures looks { steps.new ≤ steps.old + 5 }
    {
        let own = self.ranking.prio(tx, steps);
        let waiters = self.waiters.at(tx.0 as usize, steps);
        let Some(rank) = waiters.first(steps) else {
            return own;
        };
        let waiter = self.ranking.tx(rank, steps);
        own.max(self.ranking.prio(waiter, steps))
    }

    /// The transaction with a rank, by at most one look.
    pub fn tx_at<L: Ledger>(&self, rank: u32, steps: &mut Steps<L>) -> TxId
        requires { rank < length self.now.prios }
        ensures tx { result.0 ≡ tx_of self.now.order rank }
        ensures in_range { result.0 < length self.now.prios }
        ensures looks { steps.new ≤ steps.old + 1 }
    {
        self.ranking.tx(rank, steps)
    }

    /// The rank of a transaction. It is not counted.
    pub fn rank(&self, tx: TxId) -> u32
        requires { tx.0 < length self.now.prios }
        ensures in_range { result < length self.now.prios }
        ensures rank { tx_of self.now.order result ≡ tx.0 }
    {
        self.counted_rank::<Brand>(tx, Blank::new(1))
    }

    fn counted_rank<L: Ledger>(&self, tx: TxId, blank: Blank) -> u32
        requires name { blank.name ≡ L.name }
        requires parts { blank.parts ≡ L.parts }
        requires one_part { blank.parts ≡ 1 }
        requires tx { tx.0 < length self.now.prios }
        ensures in_range { result < length self.now.prios }
        ensures rank { tx_of self.now.order result ≡ tx.0 }
    {
        let mut steps = Steps::<L>::start(blank);
        self.ranking.rank(tx, &mut steps)
    }

    fn set_on<L: Ledger>(&mut self, tx: TxId, on: TxId, blank: Blank)
        requires name { blank.name ≡ L.name }
        requires parts { blank.parts ≡ L.parts }
        requires one_part { blank.parts ≡ 1 }
        requires tx { tx.0 < length self.old.prios }
        requires on { on.0 < length self.old.prios }
        requires differ { tx.0 ≢ on.0 }
        requires free { on_of self.old.on tx.0 ≡ None }
        requires on_free { on_of self.old.on on.0 ≡ None }
        requires no_waiters { (t : ℕ) → on_of self.old.on t ≢ Some tx }
        ensures { Changes self.old self.new (λ t. if t == tx.0 then Some on else on_of self.old.on t) }
    {
        let mut steps = Steps::<L>::start(blank);
        let rank = self.ranking.rank(tx, &mut steps);
        let waiters = self.waiters.at(on.0 as usize, &mut steps);
        self.on.set(tx.0 as usize, Some(on));
        self.waiters.set(on.0 as usize, waiters.with(rank));
    }

    fn set_free<L: Ledger>(&mut self, on: TxId, blank: Blank)
        requires name { blank.name ≡ L.name }
        requires parts { blank.parts ≡ L.parts }
        requires one_part { blank.parts ≡ 1 }
        requires tx { on.0 < length self.old.prios }
        ensures { Changes self.old self.new (freed_at self.old on.0) }
    {
        let mut steps = Steps::<L>::start(blank);
        if let Some(other) = self.on.at(on.0 as usize, &mut steps) {
            let rank = self.ranking.rank(on, &mut steps);
            let waiters = self.waiters.at(other.0 as usize, &mut steps);
            self.waiters.set(other.0 as usize, waiters.without(rank));
            self.on.set(on.0 as usize, None);
        } else {
            let waiters = self.waiters.at(on.0 as usize, &mut steps);
            stop_waiting(&mut self.on, &self.ranking, on, waiters, &mut steps);
            self.waiters.set(on.0 as usize, RankSet::empty());
        }
    }
}

/// The transactions with these ranks, which are those that wait on a transaction, wait on nobody any more. It goes over
/// these alone.
fn stop_waiting<L: Ledger>(
    on: &mut Looked<Option<TxId>>,
    ranking: &Ranking,
    tx: TxId,
    waiters: RankSet,
    steps: &mut Steps<L>,
)
    requires size { length on.old.items ≡ length ranking.now.prios }
    requires waiters { AreRanksOn on.old.items ranking.now.order tx.0 waiters }
    ensures size { length on.new.items ≡ length on.old.items }
    ensures freed { (t : ℕ) → on_of on.new.items t ≡ unless_on tx.0 (on_of on.old.items t) }
{
    ranking.is_ranked();
    let mut left = waiters;
    while let Some(rank) = left.first(steps) {
        let waiter = ranking.tx(rank, steps);
        on.set(waiter.0 as usize, None);
        left = left.without(rank);
    }
}

#[cfg(test)]
mod tests;
