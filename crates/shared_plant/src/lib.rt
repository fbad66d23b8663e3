//! The plant: a board that many callers share without a lock, each by a seat of its own. One legal history holds each
//! call that changed anything once, and each answer is the board's at the history that the seat has then seen.
#![tactic(auto)]

mod asker;
mod plant;
mod seat;
mod sends;
mod shared_board;
mod tried;
mod turn;

pub use asker::Asker;
pub use plant::{CloseRefused, MOST_STEPS, Plant};
pub use seat::Seat;
pub use tried::Tried;
