//! Where members stand in their list.
use rt_base::TxId;

// The most transactions that a set has.
const MOST_TXNS: usize = 64;

// The place of the member of each transaction.
#[derive(Clone, Copy)]
pub(crate) struct Places {
    by_tx: [Option<usize>; MOST_TXNS],
}

impl Places {
    // Of no member.
    pub(crate) fn none() -> Places {
        Places {
            by_tx: [None; MOST_TXNS],
        }
    }

    pub(crate) fn put(&mut self, tx: TxId, place: usize) {
        let at = tx.0 as usize;
        if at < MOST_TXNS {
            self.by_tx[at] = Some(place);
        }
    }

    // The place of the member of a transaction, if there is one. One look.
    pub(crate) fn of(&self, tx: TxId) -> Option<usize> {
        let at = tx.0 as usize;
        if at < MOST_TXNS { self.by_tx[at] } else { None }
    }
}

// The worker that has the member of each transaction, and the place of the member among its own.
#[derive(Clone, Copy)]
pub(crate) struct Homes {
    by_tx: [Option<(usize, usize)>; MOST_TXNS],
}

impl Homes {
    // Of no member.
    pub(crate) fn none() -> Homes {
        Homes {
            by_tx: [None; MOST_TXNS],
        }
    }

    pub(crate) fn put(&mut self, tx: TxId, worker: usize, place: usize) {
        let at = tx.0 as usize;
        if at < MOST_TXNS {
            self.by_tx[at] = Some((worker, place));
        }
    }

    // The worker and the place of the member of a transaction, if there is one. One look.
    pub(crate) fn of(&self, tx: TxId) -> Option<(usize, usize)> {
        let at = tx.0 as usize;
        if at < MOST_TXNS { self.by_tx[at] } else { None }
    }
}
