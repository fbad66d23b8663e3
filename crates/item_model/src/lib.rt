//! Items with value and stamp, and the rules on one job: what it has read and written, the verdict of its commit, and
//! the items after it. The data model (value, timestamp, absolute and relative validity interval) is Ramamritham's.
#![tactic(auto)]

mod decl;
mod install;
mod items;
mod kinds;
mod notes;
mod stored;
mod verdict;

pub use decl::{ItemDecl, ItemKind};
pub use install::install_writes;
pub use items::Items;
pub use kinds::{is_dated, is_derived, validity};
pub use notes::{find_read, find_write, has_read, has_write, replace_write};
pub use stored::{OutsideRead, OwnWrite, Stored};
pub use verdict::{first_apart, first_expired, is_above};
