//! Admission: whether each transaction of a set meets its deadline, and the age bounds of what it reads keep the validities
//! and the intervals.
#![tactic(auto)]

ghost use Rattle.set_admission.specs.Laws.{FallingPriority, RowsOfSet, AdmittedUnlessRefused, AdmittedKeepsBounds};

mod admission;
mod age;
mod error;
mod order;
mod refuse;
mod schedule;

pub use admission::{AdmittedSet, admit};
pub use error::AdmitError;

/// The transactions in falling priority, in which order refusals are looked for: each stands once, above the lower
/// ones.
pub fn falling_priority()
    ensures { FallingPriority }
{}

/// The rows of a set for the response test and for the age bounds have the responses of its transactions and the age
/// bounds of its items.
pub fn rows_of_set()
    ensures { RowsOfSet }
{}

/// A set is refused exactly where it does not meet the admission rule: each transaction has a response within its
/// deadline (Joseph and Pandya 1986), no declared read is of an item whose age bound exceeds its validity, and no two
/// or more declared reads of a relative set have an age bound above its interval (Ramamritham 1993).
pub fn admitted_unless_refused()
    ensures { AdmittedUnlessRefused }
{}

/// In each legal history of an admitted set each job ends within its transaction's response and none is late, and where
/// the history is steady no job ends stale or apart, and what is read is within the age bounds.
pub fn admitted_keeps_bounds()
    ensures { AdmittedKeepsBounds }
{}
