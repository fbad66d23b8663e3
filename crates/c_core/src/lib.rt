//! A core for a program in C that tests each number that it is given; how far the steps of its set may grow; and the handle by
//! which such a program holds it.
#![tactic(auto)]

mod checked;
mod handle;
mod margins;

pub use checked::{
    CheckedCore, NO_ITEM, NO_OPERATION, NO_TRANSACTION, NOTHING, StoredForm, places,
};
pub use handle::{CLOSED, Handle};
pub use margins::told_margin;
