//! What a program in C holds beside a core: a seat of a plant over tables, which tests each number that it is given and makes one
//! try for each call; and a log, which makes no call on a file, but hands out the calls that `Log` makes on its disk in order.
#![tactic(auto)]

mod append;
mod body;
mod call;
mod device;
mod entry;
mod lines;
mod log_handle;
mod log_opening;
mod log_station;
mod piece;
mod plant_opening;
mod queue;
mod refused;
mod seat_handle;
mod seat_sends;
mod seat_station;

pub use call::{Call, Piece};
pub use log_handle::LogHandle;
pub use log_station::LogStation;
pub use plant_opening::plant_over;
pub use refused::{AppendRefused, LogRefused};
pub use seat_handle::SeatHandle;
pub use seat_station::{BUSY, SeatStation, WRONG_SEAT};
