//! Scenarios in JSON: from the bytes of a text to declarations, scripts and releases, or to the first refusal.
#![tactic(auto)]

mod error;
mod item_order;
mod judge;
mod made;
mod marks;
mod plans;
mod read;
mod scripts;
mod unknown;
mod walk;

pub use error::ScenarioError;
pub use plans::{bad_release, eager_end, room, total_jobs};
pub use read::read_scenario;
pub use scenario_forms::{ItemMember, Place, TxnMember};
pub use scripts::{bad_script, long_script};
pub use step_script::{Releases, Scenario};
