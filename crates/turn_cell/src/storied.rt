//! What a turn is taken for.
ghost use Rattle.std.specs.Prelude.{◌≡◌, ℕ, List, [], length, Option, None};

use std::marker::Brand;

/// A value that stands for a list of notes, its history, and that has a fixed part. It need not keep the whole history: its
/// oldest notes may be gone, and then it may stand for several lists.
pub trait Storied {
    type Note: Copy;

    /// The type of the fixed part. Contracts alone speak of it.
    type Fixed;

    // The value stands for this list. It may stand for several, all of one length.
    ghost stands: { Self → List Self.Note → Type 0 };

    // What stays the same while the value is shared.
    ghost fixed: { Self → Self.Fixed };

    // How many notes of its history, the oldest, the value no longer keeps.
    ghost first: { Self → ℕ };

    /// How many notes the value stands for, those that it no longer keeps too.
    fn count(&self) -> u64
        ensures { (history : List Self.Note) → stands self.now history → length history ≡ result };

    /// How many notes of its history the value no longer keeps.
    fn first(&self) -> u64
        ensures { result ≡ first self.now };
}

/// A list that belongs to a type. A caller names by it the one history that is meant, where a value stands for several.
pub trait Past<N> {
    ghost past: { List N };
}

impl<N> Past<N> for Brand {
    // The proof of a call picks the list.
    ghost past = { [] };
}

// What the proof of a call picks for a step: the note that it adds, or the value that the cell was made with.
pub trait Told<X> {
    ghost told: { Option X };
}

impl<X> Told<X> for Brand {
    ghost told = { None };
}
