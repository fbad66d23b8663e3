//! What a try says.

/// The answer of a call that does not wait.
#[derive(Drop)]
pub enum Tried<X> {
    /// This call's one exchange found the turn taken. Nothing is learnt or changed.
    Busy,
    /// The turn was free, and this is the board's answer.
    Said(X),
}
