//! Laws of age: over an admitted set no job of a steady history reads a value that is too old, and the bounds of age are
//! those that are found by levels. They are about the definitions alone.
ghost use Rattle.law_times.specs.Ages.{AgeBounds};
ghost use Rattle.law_times.specs.Freshness.{Freshness};

/// In each steady legal history of an admitted set no job ends Stale or Apart; at the end of a committed job the age, in ticks,
/// of each sensor or derived item that it read from outside is at most the item's age bound, and the stamps of any two of these
/// differ by at most the greater of the two bounds (for absolute and relative consistency see Ramamritham 1993).
pub fn freshness()
    ensures { Freshness }
{}

/// The age bounds that are found by levels of the derivation are the age bounds of a compiled set, and there are no others.
pub fn age_bounds()
    ensures { AgeBounds }
{}
