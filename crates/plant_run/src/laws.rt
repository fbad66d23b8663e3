//! Laws of boards, and of runs where no transaction is eager.
ghost use Rattle.plant_run.specs.Works.{HistoriesAre};
ghost use Rattle.plant_run.specs.Runs.{FixedArePlannable, WholeIsSim, StoppedIsSim, ShortIsSim};

use board::Board;
use sim_run::EntryOut;

// What a board stands for is legal, and what it keeps is the last part.
pub(crate) fn histories_are<B: Board>()
    ensures { HistoriesAre B.stands B.set B.room B.first B.kept }
{}

/// Where no transaction plans jobs itself, accepted releases of a compiled set are all that is to be planned, and a whole
/// run on a plant is the one run of the workload. Where the bodies are obedient too, what the out got and lost is how that
/// run begins, be it that the out stopped or that memory was wanted.
pub fn fixed_runs<B: Board, O: EntryOut>()
    ensures plannable { FixedArePlannable }
    ensures whole { WholeIsSim B.stands O.got }
    ensures stopped { StoppedIsSim O.got O.lost }
    ensures short { ShortIsSim O.got O.lost }
{}
