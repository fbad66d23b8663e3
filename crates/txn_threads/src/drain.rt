//! What drains go through.
use board::Board;
use shared_plant::Seat;
use step_journal::Entry;

/// What the drains of a run go through: the operator's seat, and a list for the entries on their way to the out, empty
/// before and after each drain. A list with places for all that the board has room for lets a drain move all that is kept.
#[derive(Drop)]
pub struct Drain<B: Board> {
    pub operator: Seat<B>,
    pub spare: Vec<Entry>,
}
