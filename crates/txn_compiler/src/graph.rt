//! The derivation graph: which item is derived from which, by the one writer of each.
ghost use Rattle.std.specs.Prelude.{◌≡◌, ◌<◌, ◌≤◌, length, IfOk, None};
ghost use Rattle.txn_compiler.specs.Refusal.{no_writer as no_writer_in, two_writers as two_writers_in};
ghost use Rattle.txn_compiler.specs.Refusal.{no_writer_at as no_writer_of_item, two_writers_at as two_writers_of_item};
ghost use Rattle.txn_compiler.specs.Tables.{AreTxnsOver, first_two, writer_reads};
ghost use Rattle.std.specs.List.{All};
ghost use Rattle.txn_compiler.specs.Graph.{writers_of};

use crate::error::CompileError;
use crate::writing::{Writers, writers_by_item};
use item_model::{ItemDecl, is_dated, is_derived};
use rt_base::ItemId;
use std::alloc::{AllocError, Global};
use std::marker::Model;
use txn_set::TxnDecl;

/// Declared items and transactions, within their limits, with the writers of each item. Contracts see the two lists.
#[derive(Drop)]
pub struct Graph {
    items: Vec<ItemDecl>,
    txns: Vec<TxnDecl>,
    writers: Vec<Writers>,
}

impl Model for Graph {
    ghost use Rattle.txn_compiler.specs.Tables.{Declared, IsNoted};

    ghost Value = { Declared };

    ghost view = { λ g. record { items = g.items.items; txns = g.txns.items } };

    ghost invariant = { λ g. IsNoted g.items.items g.txns.items g.writers.items };
}

impl Graph {
    /// The graph of these declarations.
    pub fn new(alloc: Global, items: Vec<ItemDecl>, txns: Vec<TxnDecl>) -> Result<Graph, AllocError>
        requires few_items { length items.items ≤ 256 }
        requires few_txns { length txns.items ≤ 64 }
        requires lists { AreTxnsOver (length items.items) txns.items }
        ensures { IfOk result (λ g. g ≡ record { items = items.items; txns = txns.items }) }
    {
        let writers = writers_by_item(alloc, items.len(), &txns)?;
        Ok(Graph {
            items,
            txns,
            writers,
        })
    }

    /// The declarations.
    pub fn into_parts(self) -> (Vec<ItemDecl>, Vec<TxnDecl>)
        ensures items { result.0.items ≡ self.items }
        ensures txns { result.1.items ≡ self.txns }
    {
        let Graph {
            items,
            txns,
            writers: _,
        } = self;
        (items, txns)
    }

    /// The declared items.
    pub fn items(&self) -> &[ItemDecl]
        ensures value { result.now ≡ self.now.items }
        ensures few { length result.now ≤ 256 }
    {
        self.items.as_slice()
    }

    /// The declared transactions.
    pub fn txns(&self) -> &[TxnDecl]
        ensures value { result.now ≡ self.now.txns }
        ensures few { length result.now ≤ 64 }
        ensures lists { AreTxnsOver (length self.now.items) self.now.txns }
    {
        self.txns.as_slice()
    }

    fn writers_at(&self, item: usize) -> Writers
        requires { item < length self.now.items }
        ensures { result ≡ first_two (writers_of self.now.txns item) }
    {
        self.writers[item]
    }

    /// What the writer of a derived item reads, and nothing of any other item.
    pub fn parents(&self, place: usize) -> &[ItemId]
        requires { place < length self.now.items }
        ensures reads { result.now ≡ writer_reads self.now.items self.now.txns place }
        ensures in_range { All (λ i. i.0 < length self.now.items) result.now }
    {
        if !is_derived(self.items(), ItemId(place as u32)) {
            return &[];
        }
        let txns = self.txns();
        match self.writers_at(place).first {
            None => &[],
            Some(writer) => txns[writer.0 as usize].reads.as_slice(),
        }
    }

    // The refusal of one item that nobody may write.
    #[tactic(auto, using(crate::proofs::Rows::no_writer_none, crate::proofs::Rows::no_writer_some))]
    fn no_writer_at(&self, place: usize) -> Option<CompileError>
        requires { place < length self.now.items }
        ensures { result ≡ no_writer_of_item self.now.items self.now.txns place }
    {
        let items = &self.items;
        let item = ItemId(place as u32);
        if !is_dated(items, item) {
            return None;
        }
        match self.writers_at(place).first {
            None => Some(CompileError::NoWriter { item }),
            Some(_) => None,
        }
    }

    /// The first sensor or derived item that nobody may write.
    pub fn no_writer(&self) -> Option<CompileError>
        ensures { result ≡ no_writer_in self.now.items self.now.txns }
    {
        for (place, _) in self.items.iter().enumerate() {
            if let Some(error) = self.no_writer_at(place) {
                return Some(error);
            }
        }
        None
    }

    // The refusal of one item that two transactions may write.
    #[tactic(auto, using(crate::proofs::Rows::two_writers_none, crate::proofs::Rows::two_writers_some))]
    fn two_writers_at(&self, place: usize) -> Option<CompileError>
        requires { place < length self.now.items }
        ensures { result ≡ two_writers_of_item self.now.items self.now.txns place }
    {
        let items = &self.items;
        let item = ItemId(place as u32);
        if !is_dated(items, item) {
            return None;
        }
        let writers = self.writers_at(place);
        let a = writers.first?;
        let b = writers.second?;
        Some(CompileError::TwoWriters { item, a, b })
    }

    /// The first sensor or derived item that two transactions may write.
    pub fn two_writers(&self) -> Option<CompileError>
        ensures { result ≡ two_writers_in self.now.items self.now.txns }
    {
        for (place, _) in self.items.iter().enumerate() {
            if let Some(error) = self.two_writers_at(place) {
                return Some(error);
            }
        }
        None
    }
}
