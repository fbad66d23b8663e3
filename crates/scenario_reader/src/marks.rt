//! Marks of items.
ghost use Rattle.std.specs.Prelude.{◌≡◌, ◌≤◌, ◌<◌, false, true, IfOk, length, replicate, slice_set, slice_index_or};
ghost use Rattle.std.specs.List.{All};
ghost use Rattle.scenario_reader.specs.Walks.{marked};

use rt_base::{ItemId, OutOfMemory};
use std::alloc::Global;
use std::marker::Model;

/// Marks of items that are all taken away in one step. Contracts see for each item whether it is marked. A mark is the
/// stamp of the present round.
#[derive(Drop)]
pub(crate) struct Marks {
    stamps: Vec<u64>,
    round: u64,
}

impl Model for Marks {
    ghost use Rattle.std.specs.Prelude.{List as ListOf, Bool, map, ◌==◌, ◌≤◌};
    ghost use Rattle.std.specs.List.{All};

    ghost Value = { ListOf Bool };

    ghost view = { λ m. map (λ s. s == m.round) m.stamps.items };

    ghost invariant = { λ m. All (λ s. s ≤ m.round) m.stamps.items };
}

// Sets each stamp to 0.
fn zero(stamps: &mut [u64])
    ensures { stamps.new ≡ replicate (length stamps.old) 0 }
{
    for stamp in stamps.iter_mut() {
        *stamp = 0;
    }
}

// The next round, which no stamp has.
fn next_round(stamps: &mut [u64], round: u64) -> u64
    requires { All (λ s. s ≤ round) stamps.old }
    ensures later { All (λ s. s < result) stamps.new }
    ensures all { length stamps.new ≡ length stamps.old }
{
    if round < u64::MAX {
        return round + 1;
    }
    zero(stamps);
    1
}

impl Marks {
    /// Marks of so many items, with none marked.
    pub(crate) fn new(alloc: Global, items: usize) -> Result<Marks, OutOfMemory>
        ensures { IfOk result (λ m. m ≡ replicate items false) }
    {
        let stamps = vec![in alloc; 0u64; items]?;
        Ok(Marks { stamps, round: 1 })
    }

    /// Takes all marks away, in one step but for one in 2^64 - 1 times.
    pub(crate) fn clear(&mut self)
        ensures { self.new ≡ replicate (length self.old) false }
    {
        self.round = next_round(&mut self.stamps, self.round);
    }

    /// Marks an item.
    pub(crate) fn mark(&mut self, item: ItemId)
        ensures { self.new ≡ slice_set self.old item.0 true }
    {
        let at = item.0 as usize;
        if at < self.stamps.len() {
            self.stamps[at] = self.round;
        }
    }

    /// Whether an item is marked.
    pub(crate) fn has(&self, item: ItemId) -> bool
        ensures { result ≡ slice_index_or self.now item.0 false }
    {
        match self.stamps.get(item.0 as usize) {
            Some(stamp) => *stamp == self.round,
            None => false,
        }
    }
}

/// Marks each of these items.
pub(crate) fn mark_all(marks: &mut Marks, items: &[ItemId])
    ensures { marks.new ≡ marked marks.old items.now }
{
    for item in items {
        marks.mark(*item);
    }
}
