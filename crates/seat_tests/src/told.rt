//! Whether a history is legal, and whether it has what callers were told.
use board::Board;
use plain_core::PlainCore;
use rt_base::TxId;
use std::alloc::Global;
use step_journal::Entry;
use test_sets::{call_of, make};
use txn_set::CompiledSet;

// The entry with 0 for the tick at which it came.
fn untimed(entry: Entry) -> Entry {
    let mut same = entry;
    match &mut same {
        Entry::Step { tick, .. } => *tick = 0,
        Entry::Blocked { tick, .. } => *tick = 0,
        Entry::Idle { from, .. } => *from = 0,
        Entry::Planned { .. } => {}
    }
    same
}

fn tx_of(entry: Entry) -> Option<TxId> {
    match entry {
        Entry::Step { job, .. } => Some(job.tx),
        Entry::Blocked { job, .. } => Some(job.tx),
        _ => None,
    }
}

// The entries of a transaction's jobs, with 0 for the tick.
fn entries_of(alloc: Global, all: &[Entry], tx: TxId) -> Option<Vec<Entry>> {
    let mut own = Vec::new(alloc);
    for entry in all {
        if tx_of(*entry) == Some(tx) {
            own.push(untimed(*entry)).ok()?;
        }
    }
    Some(own)
}

fn times(all: &[Entry], entry: Entry) -> usize {
    all.iter().filter(|other| untimed(**other) == entry).count()
}

/// A plain core of the set, with an empty history.
pub fn plain_core(alloc: Global, set: &CompiledSet) -> Option<PlainCore> {
    let Ok(set) = set.copy(alloc) else {
        return None;
    };
    match PlainCore::new(alloc, set, 4096) {
        Ok(core) => Some(core),
        Err(_) => None,
    }
}

/// Whether the calls of the entries on a new plain core give these very entries.
pub fn is_legal(alloc: Global, set: &CompiledSet, history: &[Entry]) -> Option<bool> {
    let mut board = plain_core(alloc, set)?;
    for entry in history {
        make(&mut board, call_of(*entry));
    }
    let legal = board.entries() == history;
    drop(board);
    Some(legal)
}

/// Whether a caller kept the entries of its jobs, in order, and each time that it let go on.
pub fn has_told(alloc: Global, history: &[Entry], tx: u32, kept: &[Entry]) -> Option<bool> {
    let own = entries_of(alloc, history, TxId(tx))?;
    let told = entries_of(alloc, kept, TxId(tx))?;
    let mut once = own.as_slice() == told.as_slice();
    for entry in kept {
        if let Entry::Idle { .. } = *entry {
            once = once && times(history, *entry) == 1;
        }
    }
    Some(once)
}
