//! What a board answers, and the trait that says it. A board is an object that keeps one legal history of a set: it
//! answers the calls of the lock core, each exactly as the step of the history's state says.
#![tactic(auto)]

ghost use Rattle.std.specs.Prelude.{◌≡◌};
ghost use Rattle.board.specs.Laws.{PlansAreSteps, StepsAreSteps, IdlesAreSteps, AppendsAreSteps};

mod replies;
mod trait_board;

pub use replies::{IdleReply, StepReply};
pub use trait_board::Board;

/// The laws of the answers: where there is room the answers are exactly the steps of the definition, and an entry that
/// is appended is always that of a step, so what a board keeps stays legal.
pub fn answers_are_steps()
    ensures plans { PlansAreSteps }
    ensures steps { StepsAreSteps }
    ensures idles { IdlesAreSteps }
    ensures appends { AppendsAreSteps }
{}
