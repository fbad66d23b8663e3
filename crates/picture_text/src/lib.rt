//! A picture of a part of a schedule, as SVG: a text that is a function of the names, of the set, of the part that is looked
//! at and of what is shown in it.
#![tactic(auto)]

mod ages;
mod frame;
mod legend;
mod marks;
mod titles;
mod whole;

pub use frame::{add_about, full_height, right};
pub use legend::{add_arrows, add_legend, add_style};
pub use titles::add_titles;
pub use whole::{add_body, picture};
