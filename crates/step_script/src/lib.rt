//! What gives a job its operations: bodies, and scripts as bodies. A script is kept as it was written: `Compute(n)` is
//! never expanded. And scenarios: declarations, scripts and releases from which a run is made, what is judged of them, and what
//! a scenario that is read or generated meets.
#![tactic(auto)]

mod body;
mod expr;
mod lasts;
mod releases;
mod script;
mod whole;

pub use body::Body;
pub use expr::{BinOp, Expr};
pub use releases::Releases;
pub use script::{Script, ScriptOp};
pub use whole::Scenario;
