//! An out that stops.
use rt_base::OutOfMemory;
use sim_run::{EntryOut, Stopped};
use std::alloc::Global;
use step_journal::Entry;

/// An out that keeps what it takes, and stops where that would be more than it may take, or than it has places for.
#[derive(Drop)]
pub struct FewEntries {
    pub entries: Vec<Entry>,
    most: usize,
    stops: u64,
}

impl FewEntries {
    /// With places for so many entries, of which it takes the second number at most.
    pub fn new(alloc: Global, places: usize, most: usize) -> Result<FewEntries, OutOfMemory> {
        let entries = Vec::with_capacity(alloc, places)?;
        Ok(FewEntries {
            entries,
            most,
            stops: 0,
        })
    }
}

impl EntryOut for FewEntries {
    ghost got = { λ out history. Unit {0} };

    ghost lost = { λ out history. Unit {0} };

    ghost good = { λ out history. Unit {0} };

    ghost stops = { λ out. out.stops };

    fn put(&mut self, entries: &[Entry]) -> Result<(), Stopped> {
        let is_over = entries.len() > self.most.saturating_sub(self.entries.len());
        if is_over || self.entries.extend_from_slice(entries).is_err() {
            self.stops = self.stops.saturating_add(1);
            return Err(Stopped);
        }
        Ok(())
    }
}
