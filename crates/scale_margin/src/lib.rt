//! How far all step counts of a set may grow, and those of one transaction, and how far one item's validity may fall: at each
//! percentage, count or validity the set is accepted or refused, and the last accepted one is found by halving or looked up.
#![tactic(auto)]

ghost use Rattle.scale_margin.specs.Laws.{FewerStepsAdmitted, JudgedBySteps, SameAtHundred, AcceptedUnlessBarred, AcceptedFallsOnce};

mod barrier;
mod halving;
mod limits;
mod reading;
mod scaling;
mod slack_declared;
mod slack_halving;
mod slack_laws;

pub use barrier::{Barrier, Margin};
pub use halving::{accepts, margin};
pub use limits::{Slack, Spare};
pub use reading::spare;
pub use slack_halving::slack;
pub use slack_laws::{
    compiled_at_counts, same_at_own, slack_falls_once, slack_unless_barred, spare_is_least,
};

/// A set that is admitted stays admitted where each transaction has no more steps, and no more of them after its quiet
/// steps: the blocking and the demand do not grow, so no response, and no age bound.
pub fn fewer_steps_admitted()
    ensures { FewerStepsAdmitted }
{}

/// Of the rules of compiling a compiled set can break only the range of the steps at a percentage: it is refused with the
/// first transaction that has more than 10,000.
pub fn judged_by_steps()
    ensures { JudgedBySteps }
{}

/// At a hundred percent a compiled set is as it was.
pub fn same_at_hundred()
    ensures { SameAtHundred }
{}

/// Nothing bars a percentage exactly where the set is compiled and admitted at it.
pub fn accepted_unless_barred()
    ensures { AcceptedUnlessBarred }
{}

/// Where a percentage is accepted, so is each smaller one from 1 on.
pub fn accepted_falls_once()
    ensures { AcceptedFallsOnce }
{}
