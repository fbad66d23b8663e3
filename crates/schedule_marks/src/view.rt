//! What a picture is drawn for.
use crate::part::Part;

/// The part of a schedule that is drawn, and where its first tick stands: what is to the left of that are names.
#[derive(Clone, Copy)]
pub struct View {
    pub part: Part,
    pub left: u16,
}
