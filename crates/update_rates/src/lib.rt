//! Priorities, deadlines and periods of updating transactions from the validities of the sensor items that they write
//! alone, by the More-Less approach of Xiong and Ramamritham.
#![tactic(auto)]

ghost use Rattle.update_rates.specs.Laws.{PlacesInOrder, DeadlinesAreLeast, PeriodsAreGreatest, TightUnlessKept};

mod deadline;
mod error;
mod order;
mod planning;
mod rates;
mod updaters;

pub use error::RateError;
pub use planning::plan_rates;

/// Updaters in the order of rising validity, equal ones in list order, have a place each, and the earlier one has the
/// lesser place.
pub fn places_in_order()
    ensures { PlacesInOrder }
{}

/// Each deadline is the least window, up to its cap, that holds the updater's load with the periods that the deadlines
/// of the earlier updaters leave.
pub fn deadlines_are_least()
    ensures { DeadlinesAreLeast }
{}

/// Where each updater has a deadline, the periods that these leave keep the validities, and no assignment of periods
/// that keeps them has a greater period for any updater.
pub fn periods_are_greatest()
    ensures { PeriodsAreGreatest }
{}

/// Where an updater has no deadline, no assignment of periods keeps the validities.
pub fn tight_unless_kept()
    ensures { TightUnlessKept }
{}
