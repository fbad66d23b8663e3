//! Warnings.
use rt_base::{ItemId, TxId};

/// What is amiss in a scenario that may run nevertheless. Operations count from 0.
#[derive(Clone, Copy, Debug, PartialEq, Eq)]
pub enum Warning {
    /// The transaction has no script: each job computes until its steps are used up.
    NoScript { tx: TxId },
    /// A script has no commit or quit: each job computes after it until its steps are used up.
    NoEnd { tx: TxId },
    /// A script has more steps than a job may use.
    LongScript { tx: TxId },
    /// An operation takes the last value of an item that the job has not read before it, so the value is 0.
    UnreadLast { tx: TxId, op: usize, item: ItemId },
    /// The releases of a transaction that may write a sensor or derived item are not at its offset and each period after it,
    /// so that no promise of freshness speaks of them.
    NotPeriodic { tx: TxId },
    /// The transaction has no jobs.
    NeverReleased { tx: TxId },
    /// No transaction may read the sensor item.
    Unread { item: ItemId },
    /// No transaction may read or write the item.
    Unused { item: ItemId },
}
