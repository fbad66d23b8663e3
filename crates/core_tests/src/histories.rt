//! A history that lines tell entry by entry.
use std::alloc::Global;
use step_journal::Entry;

/// The entries of a history, and those that were kept.
#[derive(Drop)]
pub struct History {
    entries: Vec<Entry>,
    kept: Vec<Entry>,
    at: usize,
}

impl History {
    /// No entries, none kept.
    pub fn new(alloc: Global) -> History {
        History {
            entries: Vec::new(alloc),
            kept: Vec::new(alloc),
            at: 0,
        }
    }

    /// The entries.
    pub fn entries(&self) -> &[Entry] {
        self.entries.as_slice()
    }

    /// The next entry, in the place of the one that stands there, if any.
    pub fn take(&mut self, entry: Entry) -> Option<()> {
        match self.entries.get_mut(self.at) {
            Some(place) => *place = entry,
            None => self.entries.push(entry).ok()?,
        }
        self.at = self.at.saturating_add(1);
        Some(())
    }

    /// Begins a history of no entries.
    pub fn begin(&mut self) {
        self.entries.clear();
        self.at = 0;
    }

    /// Keeps the entries that there are.
    pub fn keep(&mut self, alloc: Global) -> Option<()> {
        self.kept = Vec::from_slice(alloc, self.entries.as_slice()).ok()?;
        Some(())
    }

    /// Begins a history of what was kept, whose next entries come in the place of those from this one on.
    pub fn go_on(&mut self, alloc: Global, place: usize) -> Option<()> {
        self.entries = Vec::from_slice(alloc, self.kept.as_slice()).ok()?;
        self.at = place;
        Some(())
    }

    /// Begins a history of the first so many of what was kept.
    pub fn front(&mut self, alloc: Global, count: usize) -> Option<()> {
        self.go_on(alloc, count)?;
        self.entries.truncate(count);
        Some(())
    }
}
