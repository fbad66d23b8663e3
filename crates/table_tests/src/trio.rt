//! Two readers and a writer of one state item.
ghost use Rattle.std.specs.Prelude.{◌≡◌, ◌++◌, [], ◌∷◌, IfOk};
ghost use Rattle.table_tests.specs.Trio.{trio as trio_of, trio_items, trio_txns, trio_ceilings};
ghost use Rattle.txn_set.specs.Set.{declared};

use item_model::{ItemDecl, ItemKind};
use rt_base::{ItemId, OutOfMemory, Prio, Tick};
use std::alloc::Global;
use test_sets::{list, plain_txn};
use txn_set::{Ceilings, CompiledSet, TxnDecl};

fn items(alloc: Global) -> Result<Vec<ItemDecl>, OutOfMemory>
    ensures { IfOk result (λ v. v.items ≡ trio_items) }
{
    let mut items = Vec::new(alloc);
    items.push(ItemDecl {
        kind: ItemKind::State,
        initial: 7,
    })?;
    Ok(items)
}

// These transactions and one more.
fn with_txn(
    alloc: Global,
    txns: Vec<TxnDecl>,
    prio: Prio,
    period: Tick,
    reads: &[ItemId],
    writes: &[ItemId],
) -> Result<Vec<TxnDecl>, OutOfMemory>
    ensures { IfOk result (λ v. v.items ≡ txns.items ++ declared prio period 4 reads.now writes.now ∷ []) }
{
    let reads = list(alloc, reads)?;
    let writes = list(alloc, writes)?;
    let mut txns = txns;
    txns.push(plain_txn(prio, period, 4, reads, writes))?;
    Ok(txns)
}

fn txns(alloc: Global) -> Result<Vec<TxnDecl>, OutOfMemory>
    ensures { IfOk result (λ v. v.items ≡ trio_txns) }
{
    let high = with_txn(alloc, Vec::new(alloc), 3, 20, &[ItemId(0)], &[])?;
    let middle = with_txn(alloc, high, 2, 20, &[ItemId(0)], &[])?;
    with_txn(alloc, middle, 1, 40, &[], &[ItemId(0)])
}

fn ceilings(alloc: Global) -> Result<Vec<Ceilings>, OutOfMemory>
    ensures { IfOk result (λ v. v.items ≡ trio_ceilings) }
{
    let mut ceilings = Vec::new(alloc);
    ceilings.push(Ceilings {
        write: 1,
        absolute: 3,
    })?;
    Ok(ceilings)
}

/// The compiled set.
pub fn trio(alloc: Global) -> Result<CompiledSet, OutOfMemory>
    ensures { IfOk result (λ s. s ≡ trio_of) }
{
    let items = items(alloc)?;
    let txns = txns(alloc)?;
    let ceilings = ceilings(alloc)?;
    let together = Vec::new(alloc);
    Ok(CompiledSet::of(items, txns, together, ceilings))
}
