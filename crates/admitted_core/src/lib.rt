//! A core over an admitted set: its calls are those of the core, and no job of it is late.
#![tactic(auto)]

mod admitted;

pub use admitted::AdmittedCore;
