//! The faults of form and the unknown names of a scenario, all of them, its repeated members, and where its places stand in its
//! text; where the values of a JSON text stand, and where and why a text is no JSON. No clause says so: it is tested.
#![tactic(auto)]

mod item_names;
mod locate;
mod members;
mod no_json;
mod operation;
mod reasons;
mod repeats;
mod sheet;
mod tables;
mod tree;
mod walk;
mod walk_items;
mod walk_root;
mod walk_txns;

pub use json::Scratch;
pub use locate::Places;
pub use no_json::{JsonFault, json_fault};
pub use repeats::repeated;
pub use sheet::Sheet;
pub use tree::{Tree, tree_of};
pub use walk::{Fault, Part, Walk};
