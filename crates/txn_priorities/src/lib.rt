//! Priorities by which each transaction of a set keeps its deadline, and each sensor item that is read stays valid, if there are
//! any: by one pass from the lowest level up (N. C. Audsley, On priority assignment in fixed priority scheduling, Information
//! Processing Letters 79, 2001).
#![tactic(auto)]

ghost use Rattle.txn_priorities.specs.Limits.{LimitsAreExact};
ghost use Rattle.txn_priorities.specs.Laws.{CompiledWithPrios, AdmittedKeepsLimits, NoneIsAdmitted};

mod assigning;
mod blocking;
mod declared;
mod limits;
mod refusal;
mod testing;

pub use assigning::{assign, with_priorities};
pub use refusal::{NoAssignment, Unplaced};

/// A response is within the limit of a transaction exactly if it is within its deadline D, and `T + R <= V` for each
/// sensor item of validity V that the transaction writes and that some transaction reads.
pub fn limits_are_exact()
    ensures { LimitsAreExact }
{}

/// A compiled set is compiled with any distinct priorities from 1 to 1000.
pub fn compiled_with_priorities()
    ensures { CompiledWithPrios }
{}

/// A set that is admitted with whatever priorities keeps the limits with them.
pub fn admitted_keeps_limits()
    ensures { AdmittedKeepsLimits }
{}

/// So if no assignment keeps the limits, the set is admitted with no priorities.
pub fn none_is_admitted()
    ensures { NoneIsAdmitted }
{}
