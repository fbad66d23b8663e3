//! Laws of time: each job of a legal history ends within its transaction's response, what committed jobs read is within the age
//! bounds, and which assignments of priorities keep limits. They are about the definitions alone.
#![tactic(auto)]

mod ages;
mod priorities;
mod responses;

pub use ages::{age_bounds, freshness};
pub use priorities::{exchange, pass_decides, sets_alone, up_is_never_worse};
pub use responses::{deadlines, response};
