//! Copies of declarations. Each takes memory for its lists.
ghost use Rattle.std.specs.Prelude.{◌≡◌, IfOk};

use crate::decl::TxnDecl;
use rt_base::{ItemId, List, OutOfMemory, TogetherDecl};
use std::alloc::Global;

fn copy_of_items(alloc: Global, items: &List<ItemId>) -> Result<List<ItemId>, OutOfMemory>
    ensures { IfOk result (λ copy. copy ≡ items.now) }
{
    Ok(List::of(Vec::from_slice(alloc, items.as_slice())?))
}

impl TxnDecl {
    /// The transaction once more.
    pub fn copy(&self, alloc: Global) -> Result<TxnDecl, OutOfMemory>
        ensures { IfOk result (λ copy. copy ≡ self.now) }
    {
        let reads = copy_of_items(alloc, &self.reads)?;
        let writes = copy_of_items(alloc, &self.writes)?;
        Ok(self.with_items(reads, writes))
    }
}

/// The transactions once more.
pub fn copies_of_txns(alloc: Global, txns: &[TxnDecl]) -> Result<Vec<TxnDecl>, OutOfMemory>
    ensures { IfOk result (λ copies. copies.items ≡ txns.now) }
{
    let mut copies = Vec::with_capacity(alloc, txns.len())?;
    for txn in txns {
        copies.push(txn.copy(alloc)?)?;
    }
    Ok(copies)
}

/// The relative sets once more.
pub fn copies_of_sets(
    alloc: Global,
    sets: &[TogetherDecl],
) -> Result<Vec<TogetherDecl>, OutOfMemory>
    ensures { IfOk result (λ copies. copies.items ≡ sets.now) }
{
    let mut copies = Vec::with_capacity(alloc, sets.len())?;
    for set in sets {
        copies.push(TogetherDecl {
            items: copy_of_items(alloc, &set.items)?,
            within: set.within,
        })?;
    }
    Ok(copies)
}
