//! Declarations of transactions, and the ceilings of an item.
ghost use Rattle.std.specs.Prelude.{◌≡◌, ◌<◌, ◌^◌};
ghost use Rattle.txn_set.specs.Set.{names_item, periodic_release};

use rt_base::{ItemId, List, Prio, Tick};

/// A transaction as declared: its priority (a greater number is a higher one), its period, offset and deadline in
/// ticks, its number of steps, the quiet ones among them that come before its first lock, and the items that it may
/// read and write.
#[derive(Drop)]
pub struct TxnDecl {
    pub prio: Prio,
    pub period: Tick,
    pub offset: Tick,
    pub deadline: Tick,
    pub steps: u64,
    pub quiet: u64,
    pub reads: List<ItemId>,
    pub writes: List<ItemId>,
}

impl TxnDecl {
    /// The transaction with the same numbers and these items.
    pub fn with_items(&self, reads: List<ItemId>, writes: List<ItemId>) -> TxnDecl
        ensures { result ≡ record self.now { reads = reads; writes = writes } }
    {
        TxnDecl {
            prio: self.prio,
            period: self.period,
            offset: self.offset,
            deadline: self.deadline,
            steps: self.steps,
            quiet: self.quiet,
            reads,
            writes,
        }
    }

    /// The tick of the k-th periodic release, counted from 0: the first is at the offset, each next one a period later.
    pub fn periodic_release(&self, k: u64) -> Tick
        requires { periodic_release self.now k < 2 ^ 64 }
        ensures { result ≡ periodic_release self.now k }
    {
        self.offset + k * self.period
    }
}

/// The ceilings of an item, after Sha, Rajkumar, Son and Chang: the priority of the highest transaction that may write
/// it, and that of the highest that may read or write it; 0 where there is none.
#[derive(Clone, Copy, PartialEq, Eq, Debug)]
pub struct Ceilings {
    pub write: Prio,
    pub absolute: Prio,
}

/// Whether an item is among these, by a scan.
pub fn names_item(items: &[ItemId], item: ItemId) -> bool
    ensures { result ≡ names_item items.now item.0 }
{
    for i in items {
        if *i == item {
            return true;
        }
    }
    false
}
