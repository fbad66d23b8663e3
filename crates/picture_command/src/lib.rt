//! What the program that draws reports does: the picture of a report, or an HTML page with it.
#![tactic(auto)]

mod drawn;
mod figure;
mod items;
mod jobs;
mod limits;
mod text;
mod top;
mod wanted;
mod whole;

pub use io_edge::{Status, Word};
pub use top::draw_report;
pub use wanted::{Ticks, Wanted};
pub use whole::{Contents, page};
