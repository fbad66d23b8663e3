//! What a seat knows. A view exists in proofs alone: no value of these types is made but a key of no bytes.
use std::collections::LinkedList;
use std::snapshot::Snapshot;

/// What a seat knows of the one history, and of its own calls.
pub struct View<N> {
    /// False in the first view alone, until the history is chosen.
    pub begun: bool,
    /// The seat holds the turn.
    pub holds: bool,
    /// The notes that the seat has seen: the history begins with them.
    pub seen: LinkedList<N>,
    /// What the views that were joined into this one had seen.
    pub heard: LinkedList<LinkedList<N>>,
    /// The notes of this seat, each with its place in the history.
    pub mine: LinkedList<(u64, N)>,
    /// How many tries of this seat found the turn free.
    pub turns: u64,
    /// How many tries of this seat found the turn taken.
    pub missed: u64,
    /// How many seats are in this view: 0 where it was joined into another.
    pub weight: u64,
    /// The seat carries the mark: it alone drains.
    pub marked: bool,
    /// How many marked views are in this one: 1 or none.
    pub marks: u64,
    /// How many notes the value no longer keeps, in the marked seat; 0 in every other.
    pub drained: u64,
    /// How many notes the value no longer kept when this seat last took the turn.
    pub base: u64,
}

/// What a cell is made with: the value, the number of its notes, and the number of seats.
pub struct Origin<T> {
    pub value: Snapshot<T>,
    pub start: u64,
    pub seats: u64,
}

impl<T> Drop for Origin<T> {
    fn drop(self) {
        let Self {
            value: _,
            start: _,
            seats: _,
        } = self;
    }
}
