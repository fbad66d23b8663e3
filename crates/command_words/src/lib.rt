//! The words of the command line, and which command they are.
#![tactic(auto)]

mod asked;
mod command;
mod line;

pub use asked::read_command;
pub use command::{Command, PlainCommand};
