//! Laws of the history that a shared plant leaves whose seats ran the bodies of a workload, each in threads of its own and
//! in whatever order they came. They are about the definitions alone.
ghost use Rattle.law_runs.specs.Laws.{ClosedSoFar, ClosedWhole, NoRefusal, FixedIsSim, FixedIsUnderWay, SimIsRun};

use board::Board;

/// The history of a closed plant whose seats ran a workload is a run of it so far: legal, a script run, begun with the
/// plans of all releases, and with no plan after them but those of eager transactions whose jobs had ended. What a job was
/// told by its seat's own entries is what it was told in the history.
pub fn closed_so_far<B: Board>()
    ensures { ClosedSoFar B.stands B.set B.room B.first B.kept }
{}

/// Where of each transaction all jobs have ended in what its seat has seen, that history is a whole run.
pub fn closed_whole<B: Board>()
    ensures { ClosedWhole B.stands B.set B.room B.first B.kept }
{}

/// What an obedient body asks for by its seat's own entries is not refused, at all that the seat has seen, but for a lock.
pub fn no_refusal<B: Board>()
    ensures { NoRefusal B.stands B.set B.room B.first B.kept }
{}

/// Where no transaction is eager, a whole run of a workload on a plant is its one run, whatever the order of the seats,
/// and a run so far is on the way to it. The one run is a whole run too: the two are the same.
pub fn fixed_is_sim()
    ensures sim { FixedIsSim }
    ensures under_way { FixedIsUnderWay }
    ensures run { SimIsRun }
{}
