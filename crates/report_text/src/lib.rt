//! The lines of a report: its declarations, written and read, its other lines written, and a whole report read.
#![tactic(auto)]

mod closing;
mod declared;
mod document;
mod forms;
mod found;
mod laws;
mod limits;
mod line_lists;
mod lists;
mod parts;
mod read;
mod words;

pub use closing::{add_finals, add_jobs};
pub use declared::add_declarations;
pub use document::{
    Document, DocumentError, Front, Placed, read_document, read_front, read_placed,
};
pub use forms::{Kind, Section, final_item};
pub use found::{Found, Numbers, Part};
pub use laws::head_is_read_back;
pub use limits::{add_age, add_bound, add_ceilings};
pub use read::{Head, HeadError, read_head};
