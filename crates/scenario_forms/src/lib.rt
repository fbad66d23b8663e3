//! The forms of a scenario in JSON: from the bytes of a text to declarations as they were read, with their names
//! resolved to items. The first member in reading order that is missing or not of its form is answered with its place.
#![tactic(auto)]

mod arrays;
mod error;
mod expr;
mod fields;
mod item;
mod names;
mod object;
mod ops;
mod root;
mod sets;
mod shape;
mod txn;

pub use error::{FormError, ItemMember, Place, TextError, TxnMember};
pub use item::ItemTable;
pub use ops::ReadOp;
pub use root::{Forms, read_forms, read_value};
pub use sets::ReadSet;
pub use step_script::Releases;
pub use txn::{ReadTxn, Times, TxnTable};
