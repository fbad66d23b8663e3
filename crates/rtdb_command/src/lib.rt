//! What a command answers: from words, a source of bytes and a sink to a status.
#![tactic(auto)]

mod journal;
mod top;

pub use io_edge::{Status, Word};
pub use journal::{is_journal, rtdb_journal};
pub use top::{rtdb, rtdb_plain};
