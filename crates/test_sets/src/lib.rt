//! What tests have in common: sets of the head of a report, and generated ones; transactions of a few numbers; calls of a board as
//! values; and an out that stops.
#![tactic(auto)]

mod calls;
mod few;
mod generating;
mod looks;
mod plain;
mod range;
mod told;

pub use calls::{Call, Said, call_of, make};
pub use few::FewEntries;
pub use generating::generated;
pub use looks::write_look;
pub use plain::{from_tick, list, plain_txn};
pub use range::{are_in_range, compile_in_range};
pub use told::{Told, declared, entry_of};
