//! What a command answers to a scenario's declarations and to a report: a status, and the text that it writes.
#![tactic(auto)]

mod accepted;
mod analysis;
mod reply;
mod report;
mod scenarios;
mod sets;
mod unanswered;
mod verdict;

pub use accepted::{Accepted, Tasks, admitted_scenario, compiled_scenario};
pub use analysis::{margins, rates};
pub use reply::{
    Reply, no_names, refused, refused_admission, refused_rates, refused_scenario, refused_set,
    written,
};
pub use report::report_from;
pub use scenarios::{SCENARIO_LIMIT, declared_names, scenario_from};
pub use sets::{admitted, bounds, ceilings, compiled};
pub use unanswered::Unanswered;
pub use verdict::{REPORT_LIMIT, replayed, verdict_reply};
