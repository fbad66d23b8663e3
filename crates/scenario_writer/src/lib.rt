//! The canonical text of a scenario, and the generated scenarios.
#![tactic(auto)]

mod generate;
mod items;
mod object;
mod script;
mod text;
mod txns;

pub use generate::generated;
pub use text::write_scenario;
