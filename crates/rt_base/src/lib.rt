//! What every crate of the database speaks of: ids, operations, ends, lists, names, the counter of looks, and the
//! rules over plain rows that more than one crate cites.
#![tactic(auto)]

mod ids;
mod list;
mod looked;
mod memory;
mod name;
mod operation;
mod rank_set;
mod release;
mod steps;

pub use ids::{ItemId, JobId, Prio, Tick, TogetherDecl, TxId, Value};
pub use list::List;
pub use looked::Looked;
pub use memory::OutOfMemory;
pub use name::{Name, Names};
pub use operation::{End, Op, Outcome};
pub use rank_set::RankSet;
pub use release::{PlanRefused, Plans, Release};
pub use steps::Steps;
