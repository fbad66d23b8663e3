//! A run beside more entries than it has.
ghost use Rattle.std.specs.Prelude.{◌≡◌, ◌≤◌, ◌<◌, [], length};
ghost use Rattle.std.specs.Prelude.{List as Many};
ghost use Rattle.step_journal.specs.declared.entry.Entry.{Entry as Noted};
ghost use Rattle.law_histories.specs.Sim.{IsSim};
ghost use Rattle.scenario_run.specs.JournalReady.{CanRun, workload_in};
ghost use Rattle.scenario_run.specs.Ran.{HasOther};

use crate::compared::first_other;
use crate::runner::Runner;
use board::Board;
use sim_run::KeptEntries;
use step_journal::Entry;
use step_script::Body;

/// The number of the first of these entries, counted from 1, that is not the run's, which has fewer. The workload is run
/// once, and `kept` is a place for its entries.
pub(crate) fn number_beside<B: Board, Y: Body>(
    runner: &mut Runner<B, Y>,
    kept: KeptEntries,
    there: &[Entry],
) -> u64
    requires ready { CanRun B.stands B.set B.room Y.gives runner.old }
    requires empty { kept.kept ≡ [] }
    requires places { (history : Many Noted) → IsSim (workload_in B.set Y.gives runner.old) history → length history ≤ kept.room }
    requires more { (history : Many Noted) → IsSim (workload_in B.set Y.gives runner.old) history → length history < length there.now }
    ensures { HasOther (workload_in B.set Y.gives runner.old) there.now result }
{
    let mut kept = kept;
    let Ok(()) = runner.run(&mut kept) else {
        unreachable!()
    };
    let Some(place) = first_other(there, kept.as_slice()) else {
        unreachable!()
    };
    let _count = there.len();
    (place as u64).saturating_add(1)
}
