//! Compiling declarations: the rules on items and transactions are judged, and the ceilings of the items are computed.
#![tactic(auto)]

ghost use Rattle.txn_compiler.specs.Laws.{ReachesByWalks, CompiledUnlessRefused, KeptAsDeclared};

mod ceilings;
mod compiling;
mod cycle;
mod error;
mod graph;
mod judge;
mod keep;
mod writing;

pub use compiling::compile;
pub use error::{CompileError, Which};
pub use txn_set::{CompiledSet, TxnDecl};

/// An item reaches another, in the transitive closure of the dependencies, exactly where a walk of one or more
/// dependencies leads there.
pub fn reaches_by_walks()
    ensures { ReachesByWalks }
{}

/// A set whose lists of items stand in order is compiled exactly where nothing refuses it.
pub fn compiled_unless_refused()
    ensures { CompiledUnlessRefused }
{}

/// Lists of items that stand in rising order without repeats are kept as they are declared.
pub fn kept_as_declared()
    ensures { KeptAsDeclared }
{}
