//! A set that meets the rules.
ghost use Rattle.std.specs.Prelude.{◌≡◌, ◌<◌, length, nat_le, IfOk};
ghost use Rattle.std.specs.List.{All, list_any};
ghost use Rattle.txn_set.specs.Set.{IsCompiled, txn_of};
ghost use Rattle.txn_set.specs.Ceilings.{write_ceiling as write_ceiling_of, absolute_ceiling as absolute_ceiling_of, may_block, IsCeilingsOf};

use crate::copies::{copies_of_sets, copies_of_txns};
use crate::decl::{Ceilings, TxnDecl};
use item_model::ItemDecl;
use rt_base::{ItemId, OutOfMemory, Prio, TogetherDecl, TxId};
use std::alloc::Global;
use std::marker::Model;

/// A set that meets the rules on items and transactions, with the ceilings of its items. Contracts see the three lists
/// of declarations. Its calls but `copy` take no memory.
#[derive(Drop)]
pub struct CompiledSet {
    items: Vec<ItemDecl>,
    txns: Vec<TxnDecl>,
    together: Vec<TogetherDecl>,
    ceilings: Vec<Ceilings>,
}

impl Model for CompiledSet {
    ghost use Rattle.txn_set.specs.Set.{Set};
    ghost use Rattle.txn_set.specs.Ceilings.{IsWithCeilings};

    ghost Value = { Set };

    ghost view = { λ s. record { items = s.items.items; txns = s.txns.items; together = s.together.items } };

    ghost invariant = { λ s. IsWithCeilings (record { items = s.items.items; txns = s.txns.items; together = s.together.items }) s.ceilings.items };
}

impl CompiledSet {
    /// The set of these declarations, with these ceilings of its items.
    pub fn of(
        items: Vec<ItemDecl>,
        txns: Vec<TxnDecl>,
        together: Vec<TogetherDecl>,
        ceilings: Vec<Ceilings>,
    ) -> CompiledSet
        requires compiled { IsCompiled (record { items = items.items; txns = txns.items; together = together.items }) }
        requires ceilings { IsCeilingsOf (record { items = items.items; txns = txns.items; together = together.items }) ceilings.items }
        ensures { result ≡ record { items = items.items; txns = txns.items; together = together.items } }
    {
        CompiledSet {
            items,
            txns,
            together,
            ceilings,
        }
    }

    /// A copy of the set. It takes memory for each declaration.
    pub fn copy(&self, alloc: Global) -> Result<CompiledSet, OutOfMemory>
        ensures { IfOk result (λ s. s ≡ self.now) }
    {
        Ok(CompiledSet {
            items: Vec::from_slice(alloc, &self.items)?,
            txns: copies_of_txns(alloc, &self.txns)?,
            together: copies_of_sets(alloc, &self.together)?,
            ceilings: Vec::from_slice(alloc, &self.ceilings)?,
        })
    }

    /// The declared items.
    pub fn items(&self) -> &[ItemDecl]
        ensures { result.now ≡ self.now.items }
    {
        self.items.as_slice()
    }

    /// The declared transactions.
    pub fn txns(&self) -> &[TxnDecl]
        ensures { result.now ≡ self.now.txns }
    {
        self.txns.as_slice()
    }

    /// A transaction's declaration, by one look-up.
    #[tactic(auto, using(crate::proofs::Declared::read_is))]
    pub fn txn(&self, tx: TxId) -> &TxnDecl
        requires { tx.0 < length self.now.txns }
        ensures { result.now ≡ txn_of self.now tx.0 }
    {
        &self.txns[tx.0 as usize]
    }

    /// The relative sets.
    pub fn together(&self) -> &[TogetherDecl]
        ensures { result.now ≡ self.now.together }
    {
        self.together.as_slice()
    }

    /// That the set meets the rules: a caller learns it by this call, which does nothing.
    pub fn is_compiled(&self)
        ensures { IsCompiled self.now }
    {
        let _items = &self.items;
    }

    /// The priority of the highest transaction that may write the item, 0 where there is none. One look-up.
    pub fn write_ceiling(&self, item: ItemId) -> Prio
        requires { item.0 < length self.now.items }
        ensures { result ≡ write_ceiling_of self.now item.0 }
    {
        self.ceilings[item.0 as usize].write
    }

    /// The priority of the highest transaction that may read or write the item, 0 where there is none. One look-up.
    pub fn absolute_ceiling(&self, item: ItemId) -> Prio
        requires { item.0 < length self.now.items }
        ensures { result ≡ absolute_ceiling_of self.now item.0 }
    {
        self.ceilings[item.0 as usize].absolute
    }

    /// Whether a transaction may hold a lock with a ceiling of at least this priority: the test of the blocking rule.
    /// It looks up the ceilings of the transaction's declared items.
    pub fn blocks(&self, lower: TxId, prio: Prio) -> bool
        requires { lower.0 < length self.now.txns }
        ensures { result ≡ may_block self.now prio (txn_of self.now lower.0) }
    {
        self.is_compiled();
        let txn = self.txn(lower);
        self.any_write_ceiling(txn.reads.as_slice(), prio)
            || self.any_absolute_ceiling(txn.writes.as_slice(), prio)
    }

    // Whether the write ceiling of one of these items is at least this priority.
    fn any_write_ceiling(&self, items: &[ItemId], prio: Prio) -> bool
        requires { All (λ i. i.0 < length self.now.items) items.now }
        ensures { result ≡ list_any (λ i. nat_le prio (write_ceiling_of self.now i.0)) items.now }
    {
        for item in items {
            if prio <= self.write_ceiling(*item) {
                return true;
            }
        }
        false
    }

    // Whether the absolute ceiling of one of these items is at least this priority.
    fn any_absolute_ceiling(&self, items: &[ItemId], prio: Prio) -> bool
        requires { All (λ i. i.0 < length self.now.items) items.now }
        ensures { result ≡ list_any (λ i. nat_le prio (absolute_ceiling_of self.now i.0)) items.now }
    {
        for item in items {
            if prio <= self.absolute_ceiling(*item) {
                return true;
            }
        }
        false
    }
}
