//! Laws of eager transactions, which plan their jobs themselves: the next job can always be planned. They are about the
//! definitions alone.
ghost use Rattle.law_runs.specs.EagerLaws.{
  NextIsPlanned,
  NextIsGiven,
  RunFits,
  ScenarioIsPlannable,
  EagerHaveNoReleases,
  AllJobsAre,
  NoneEager,
  ScenarioHasRoom,
  ScenarioPlansNext,
  FrontSoFar,
  PlansAreOwn,
  SeatHasJobsLeft,
  ClosedNoPlan,
  NeverUnplanned,
};

use board::Board;
use step_script::Body;

/// In a run so far of a workload whose eager jobs are few and near enough, the next job of a transaction that has jobs left
/// is refused for want of room alone: it does not come too far in time, the calendar has a place for it, and it has a
/// serial. With room for an entry it is planned.
pub fn next_is_planned()
    ensures planned { NextIsPlanned }
    ensures given { NextIsGiven }
{}

/// A run so far has at most the entries for which its jobs have room.
pub fn run_fits()
    ensures { RunFits }
{}

/// The workload of a scenario is such a workload. In it a transaction has releases or plans jobs itself, and these are its
/// jobs; where no releases are eager no transaction plans any.
pub fn scenario_is_plannable()
    ensures plannable { ScenarioIsPlannable }
    ensures eager { EagerHaveNoReleases }
    ensures jobs { AllJobsAre }
    ensures none_eager { NoneEager }
{}

/// The room of a scenario is greater than that of its jobs, eager ones too. So where a board of that room keeps no more
/// than the run's entries it plans the next job of each transaction that has jobs left.
pub fn scenario_plans_next()
    ensures room { ScenarioHasRoom }
    ensures next { ScenarioPlansNext }
{}

/// A beginning of a run so far is a run so far, from the plans of all releases on.
pub fn front_so_far()
    ensures { FrontSoFar }
{}

/// In the history of a closed plant whose seats ran a workload, the jobs of its transaction that a seat has seen planned are
/// those of the releases and those that it planned itself. So while it planned fewer than the transaction's own jobs it has
/// jobs left.
pub fn plans_are_own<B: Board>()
    ensures plans { PlansAreOwn B.stands B.set B.room B.first B.kept }
    ensures left { SeatHasJobsLeft B.stands B.set B.room B.first B.kept }
{}

/// Where the eager jobs are few and near enough, such a seat's next job is refused, at all that the seat has seen, for want
/// of room alone.
pub fn closed_no_plan<B: Board>()
    ensures { ClosedNoPlan B.stands B.set B.room B.first B.kept }
{}

/// So no member of a seat of such a plant stops for want of a plan, where it planned all its seat's plans and is to plan
/// its transaction's own jobs.
pub fn never_unplanned<B: Board, Y: Body>()
    ensures { NeverUnplanned Y B.stands B.set B.room B.first B.kept }
{}
