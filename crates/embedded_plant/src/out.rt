//! Where the entries of the history go.
use rt_base::{End, Tick, Value};
use step_journal::Entry;

/// What a run came to. The entries are counted here; a logger would write them to a file.
#[derive(Clone, Copy)]
pub struct Counts {
    pub plans: u32,
    pub steps: u32,
    pub refusals: u32,
    pub idles: u32,
    pub ended: u32,
    pub committed: u32,
    pub now: Tick,
    pub valve: Value,
    pub stamp: Tick,
}

impl Counts {
    pub fn new() -> Counts {
        Counts {
            plans: 0,
            steps: 0,
            refusals: 0,
            idles: 0,
            ended: 0,
            committed: 0,
            now: 0,
            valve: 0,
            stamp: 0,
        }
    }

    /// Takes entries that were drained, the oldest first.
    pub fn take(&mut self, entries: &[Entry]) {
        for entry in entries {
            self.note(*entry);
        }
    }

    fn note(&mut self, entry: Entry) {
        match entry {
            Entry::Planned { .. } => self.plans = self.plans.saturating_add(1),
            Entry::Blocked { .. } => self.refusals = self.refusals.saturating_add(1),
            Entry::Idle { from: _, to } => {
                self.idles = self.idles.saturating_add(1);
                self.now = to;
            }
            Entry::Step { over, tick, .. } => {
                self.steps = self.steps.saturating_add(1);
                self.now = tick.saturating_add(1);
                self.end(over);
            }
        }
    }

    fn end(&mut self, over: Option<End>) {
        if let Some(end) = over {
            self.ended = self.ended.saturating_add(1);
            if end == End::Committed {
                self.committed = self.committed.saturating_add(1);
            }
        }
    }
}
