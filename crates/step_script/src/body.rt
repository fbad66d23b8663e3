//! What gives a job its operations.
ghost use Rattle.std.specs.Prelude.{◌≡◌, ℕ, List, [], ◌∷◌, ◌++◌};
ghost use Rattle.rt_base.specs.declared.operation.Op.{Op as Asked};
ghost use Rattle.rt_base.specs.declared.operation.Outcome.{Outcome as Said};

use rt_base::{Op, Outcome};

/// A function from a job's serial number and the outcomes that it was told since `begin` to its next operation. The
/// calls take no memory.
pub trait Body {
    // the body's function
    ghost gives: { Self → ℕ → List Said → Asked };

    // it has begun with this serial, and was told these outcomes since
    ghost stands: { Self → ℕ → List Said → Type 0 };

    /// Begins the job with this serial number, to which nothing was told yet.
    fn begin(&mut self, serial: u32)
        ensures begun { stands self.new serial [] }
        ensures same { gives self.new ≡ gives self.old };

    /// The job's next operation. It changes nothing.
    fn next(&self) -> Op
        ensures { (serial : ℕ) (outcomes : List Said) → stands self.now serial outcomes →
            result ≡ gives self.now serial outcomes };

    /// Notes the outcome of the operation that was asked for, and goes on to the next.
    fn told(&mut self, outcome: Outcome)
        ensures more { (serial : ℕ) (outcomes : List Said) → stands self.old serial outcomes →
            stands self.new serial (outcomes ++ outcome ∷ []) }
        ensures same { gives self.new ≡ gives self.old };
}
