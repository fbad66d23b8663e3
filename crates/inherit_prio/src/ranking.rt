//! The ranks of transactions.
ghost use Rattle.std.specs.Prelude.{◌≡◌, ℕ, ◌+◌, ◌<◌, ◌≤◌, length, IfOk};
ghost use Rattle.inherit_prio.specs.Ranks.{IsRanked, rank_of};
ghost use Rattle.inherit_prio.specs.Waits.{prio_of, tx_of};

use crate::order::{in_order, ranks_of};
use rt_base::{Looked, OutOfMemory, Prio, Steps, TxId};
use std::alloc::Global;
use std::marker::{Brand, Model};
use std::sync::ledger::{Blank, Ledger};

/// The transactions in falling priority, and the rank of each: its place among them, from 0. Each question is one look. No
/// call after `new` takes memory.
#[derive(Drop)]
pub struct Ranking {
    prios: Looked<Prio>,
    order: Looked<TxId>,
    ranks: Looked<u32>,
}

impl Model for Ranking {
    ghost use Rattle.inherit_prio.specs.Ranks.{Ranked, IsRanked};

    ghost Value = { Ranked };

    ghost view = { λ r. record { prios = r.prios.items; order = r.order.items; ranks = r.ranks.items } };

    ghost invariant = { λ r. IsRanked (record { prios = r.prios.items; order = r.order.items; ranks = r.ranks.items }) };
}

impl Ranking {
    /// The ranks of transactions with these priorities: at most 64, all distinct.
    pub fn new(alloc: Global, prios: Vec<Prio>) -> Result<Ranking, OutOfMemory>
        requires few { length prios.items ≤ 64 }
        requires distinct { (i j : ℕ) → i < length prios.items → j < length prios.items → prio_of prios.items i ≡ prio_of prios.items j → i ≡ j }
        ensures prios { IfOk result (λ r. r.prios ≡ prios.items) }
        ensures ranked { IfOk result IsRanked }
    {
        Ranking::made::<Brand>(alloc, prios, Blank::new(1))
    }

    /// Each transaction has its rank, and each rank its transaction.
    pub fn is_ranked(&self)
        ensures { IsRanked self.now }
    {
        let _ = &self.prios;
    }

    /// How many transactions there are.
    pub fn len(&self) -> usize
        ensures { result ≡ length self.now.prios }
    {
        self.prios.len()
    }

    /// The priority of a transaction.
    pub fn prio<L: Ledger>(&self, tx: TxId, steps: &mut Steps<L>) -> Prio
        requires { tx.0 < length self.now.prios }
        ensures prio { result ≡ prio_of self.now.prios tx.0 }
        ensures one_look { steps.new ≡ steps.old + 1 }
    {
        self.prios.at(tx.0 as usize, steps)
    }

    /// The rank of a transaction.
    pub fn rank<L: Ledger>(&self, tx: TxId, steps: &mut Steps<L>) -> u32
        requires { tx.0 < length self.now.prios }
        ensures rank { result ≡ rank_of self.now.ranks tx.0 }
        ensures one_look { steps.new ≡ steps.old + 1 }
    {
        self.ranks.at(tx.0 as usize, steps)
    }

    /// The transaction with a rank.
    pub fn tx<L: Ledger>(&self, rank: u32, steps: &mut Steps<L>) -> TxId
        requires { rank < length self.now.prios }
        ensures tx { result.0 ≡ tx_of self.now.order rank }
        ensures one_look { steps.new ≡ steps.old + 1 }
    {
        self.order.at(rank as usize, steps)
    }

    fn made<L: Ledger>(
        alloc: Global,
        prios: Vec<Prio>,
        blank: Blank,
    ) -> Result<Ranking, OutOfMemory>
        requires name { blank.name ≡ L.name }
        requires parts { blank.parts ≡ L.parts }
        requires one_part { blank.parts ≡ 1 }
        requires few { length prios.items ≤ 64 }
        requires distinct { (i j : ℕ) → i < length prios.items → j < length prios.items → prio_of prios.items i ≡ prio_of prios.items j → i ≡ j }
        ensures prios { IfOk result (λ r. r.prios ≡ prios.items) }
        ensures ranked { IfOk result IsRanked }
    {
        let mut steps = Steps::<L>::start(blank);
        let prios = Looked::of(prios);
        let order = in_order(alloc, &prios, &mut steps)?;
        let ranks = ranks_of(alloc, &prios, &order, &mut steps)?;
        Ok(Ranking {
            prios,
            order,
            ranks,
        })
    }
}

#[cfg(test)]
impl Ranking {
    // The three fields, each named.
    pub fn only_fields(&self) -> (&Looked<Prio>, &Looked<TxId>, &Looked<u32>) {
        let Ranking {
            prios,
            order,
            ranks,
        } = self;
        (prios, order, ranks)
    }
}
