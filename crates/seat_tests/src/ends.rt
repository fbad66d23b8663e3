//! How jobs ended, and what became of those that were refused a lock.
ghost use Rattle.std.specs.Prelude.{◌≤◌, length, IfSome};

use crate::told::plain_core;
use board::Board;
use rt_base::{JobId, TxId};
use std::alloc::Global;
use step_journal::Entry;
use test_sets::{call_of, make};
use txn_set::CompiledSet;

// The ways in which a job ends, in the order in which they are told, the last one at a step of another job too.
const WAYS: [&str; 6] = ["committed", "overrun", "quit", "stale", "apart", "late"];

/// How many jobs of a transaction were planned, and how many ended in each way.
#[derive(Clone, Copy)]
pub struct Ends {
    planned: usize,
    counts: [usize; 6],
}

impl Ends {
    // Notes an end whose name, as a value is written, begins a text.
    fn note(&mut self, text: &str) {
        for place in 0..WAYS.len() {
            let way = WAYS[place];
            if let Some(name) = text.get(..way.len())
                && name.eq_ignore_ascii_case(way)
            {
                self.counts[place] = self.counts[place].saturating_add(1);
            }
        }
    }

    // Notes an entry; the text is a place for what is written of its end.
    fn note_entry(&mut self, entry: Entry, of: TxId, text: &mut String) -> Option<()> {
        match entry {
            Entry::Planned { tx, .. } if tx == of => {
                self.planned = self.planned.saturating_add(1);
            }
            Entry::Step {
                job,
                over: Some(end),
                ..
            } if job.tx == of => {
                text.clear();
                write!(text, "{end:?}").ok()?;
                self.note(text.as_str());
            }
            _ => (),
        }
        Some(())
    }

    // A job that ends late at a step of another has no entry of its own, so those that are late are all that ended and have no
    // other end.
    fn note_late(&mut self, ended: usize) {
        let [committed, overrun, quit, stale, apart, _] = self.counts;
        let closed = committed.saturating_add(overrun).saturating_add(quit);
        let others = closed.saturating_add(stale).saturating_add(apart);
        self.counts[5] = ended.saturating_sub(others);
    }

    /// Writes how many there were of each.
    pub fn write(&self, said: &mut String) -> Option<()> {
        write!(said, "Ends {{ planned: {}", self.planned).ok()?;
        for place in 0..WAYS.len() {
            write!(said, ", {}: {}", WAYS[place], self.counts[place]).ok()?;
        }
        said.push_str(" }").ok()
    }
}

// How many jobs of a transaction ended in a history.
fn ended(alloc: Global, set: &CompiledSet, history: &[Entry], tx: TxId) -> Option<u32> {
    let mut board = plain_core(alloc, set)?;
    for entry in history {
        make(&mut board, call_of(*entry));
    }
    let ended = if (tx.0 as usize) < board.set().txns().len() {
        Some(board.ended(tx))
    } else {
        None
    };
    drop(board);
    ended
}

// How the jobs of a transaction ended, by the entries of a history alone.
fn told_ends(history: &[Entry], tx: TxId, text: &mut String) -> Option<Ends> {
    let mut ends = Ends {
        planned: 0,
        counts: [0; 6],
    };
    for entry in history {
        ends.note_entry(*entry, tx, text)?;
    }
    Some(ends)
}

/// How the jobs of a transaction ended in a history of this set.
pub fn ends_of(alloc: Global, set: &CompiledSet, history: &[Entry], tx: TxId) -> Option<Ends> {
    let mut text = String::new(alloc);
    let told = told_ends(history, tx, &mut text);
    drop(text);
    let mut ends = told?;
    ends.note_late(ended(alloc, set, history, tx)? as usize);
    Some(ends)
}

// The place after the step at which a job ended.
fn after_end(history: &[Entry], of: JobId) -> Option<usize>
    ensures { IfSome result (λ end. end ≤ length history.now) }
{
    for place in 0..history.len() {
        if let Entry::Step {
            job,
            over: Some(_),
            ..
        } = history[place]
            && job == of
        {
            return Some(place + 1);
        }
    }
    None
}

/// How many operations were refused a lock in a history, and how many of them were granted to their jobs after the job that
/// held the lock had ended. A refusal by a job that had ended before does not count as such.
pub fn waits(history: &[Entry]) -> (usize, usize) {
    let (mut refused, mut granted) = (0usize, 0usize);
    for place in 0..history.len() {
        if let Entry::Blocked { job, op, by, .. } = history[place] {
            refused = refused.saturating_add(1);
            let Some(end) = after_end(history, by) else {
                continue;
            };
            let is_granted = history[end..].iter().any(|later| match *later {
                Entry::Step {
                    job: other,
                    op: asked,
                    ..
                } => other == job && asked == op,
                _ => false,
            });
            if place < end && is_granted {
                granted = granted.saturating_add(1);
            }
        }
    }
    (refused, granted)
}
