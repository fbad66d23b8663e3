//! Sets of items, transactions and relative sets that meet the rules, with the ceilings of their items.
#![tactic(auto)]

mod compiled_set;
mod copies;
mod decl;

pub use compiled_set::CompiledSet;
pub use copies::{copies_of_sets, copies_of_txns};
pub use decl::{Ceilings, TxnDecl, names_item};
