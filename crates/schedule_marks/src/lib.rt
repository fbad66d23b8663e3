//! What a picture of a part of a schedule shows: a list of marks that is a function of the set, of the entries of a history
//! and the rows of its jobs, and of the part that is looked at; where they stand, in pixels, and the elements of its text, SVG.
#![tactic(auto)]

mod ages;
mod held;
mod lanes;
mod lists;
mod mark;
mod part;
mod place;
mod showing;
mod svg;
mod view;
mod whole;

pub use ages::{age_y, item_y, top_tick, validity_or_none};
pub use lanes::{AgeRead, AgeSpan, Bound, age_reads, age_spans, bound_marks, commits};
pub use mark::Mark;
pub use part::Part;
pub use place::{
    ceiling_y, deadline, is_read, item_of_lane, letters_in, lock_y, middle, name, named_lanes,
    own_ceiling_y, priority, shown, step, top, view_for, width, x, y, y_below,
};
pub use showing::{Limits, Shown, show};
pub use svg::{
    Room, add, add_circle, add_count, add_fitting, add_line, add_number, add_rect, add_word,
    add_words,
};
pub use view::View;
pub use whole::{last_instant, marks};
