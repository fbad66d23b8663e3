//! Transactions of which a test gives a few numbers: what they declare besides stands here alone.
ghost use Rattle.std.specs.Prelude.{◌≡◌, IfOk};
ghost use Rattle.txn_set.specs.Set.{declared, released_from};

use rt_base::{ItemId, List, OutOfMemory, Prio, Tick};
use std::alloc::Global;
use txn_set::TxnDecl;

/// A list of these items.
pub fn list(alloc: Global, items: &[ItemId]) -> Result<List<ItemId>, OutOfMemory>
    ensures { IfOk result (λ l. l ≡ items.now) }
{
    let mut list = Vec::new(alloc);
    list.extend_from_slice(items)?;
    Ok(List::of(list))
}

/// A transaction with its deadline at its period, no offset and no quiet step.
pub fn plain_txn(
    prio: Prio,
    period: Tick,
    steps: u64,
    reads: List<ItemId>,
    writes: List<ItemId>,
) -> TxnDecl
    ensures { result ≡ declared prio period steps reads writes }
{
    TxnDecl {
        prio,
        period,
        offset: 0,
        deadline: period,
        steps,
        quiet: 0,
        reads,
        writes,
    }
}

/// The transaction, first released at this tick.
pub fn from_tick(txn: TxnDecl, tick: Tick) -> TxnDecl
    ensures { result ≡ released_from tick txn }
{
    let mut later = txn;
    later.offset = tick;
    later
}
