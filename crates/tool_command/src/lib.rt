//! What rtdb-tool answers: from words, a source of bytes and a sink to a status.
#![tactic(auto)]

mod asked;
mod command;
mod line;
mod priorities;
mod priority_lines;
mod reports;
mod slack_lines;
mod slacks;
mod top;

pub use asked::read_command;
pub use command::ToolCommand;
pub use io_edge::{Status, Word};
pub use top::rtdb_tool;
