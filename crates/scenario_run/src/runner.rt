//! A board and bodies that run a workload.
ghost use Rattle.std.specs.Prelude.{◌≡◌, [], IfOk, OnErr};
ghost use Rattle.std.specs.Prelude.{List as Many};
ghost use Rattle.io_edge.specs.Causes.{HasCause};
ghost use Rattle.step_journal.specs.declared.entry.Entry.{Entry as Noted};
ghost use Rattle.step_journal.specs.History.{state_of};
ghost use Rattle.law_histories.specs.Sim.{IsSim};
ghost use Rattle.sim_run.specs.Outs.{LosesNone};
ghost use Rattle.sim_run.specs.Handed.{CanTake};
ghost use Rattle.sim_run.specs.Runs.{IsWhole, IsStopped};
ghost use Rattle.scenario_run.specs.JournalReady.{CanRun, workload_in};

use board::Board;
use item_model::Items;
use rt_base::{List, Tick};
use sim_run::{EntryOut, Stopped, run};
use step_script::Body;

/// A board, and the bodies and the ticks of its transactions, with a serial number for each.
#[derive(Drop)]
pub(crate) struct Runner<B, Y> {
    pub(crate) board: B,
    pub(crate) bodies: Vec<Y>,
    pub(crate) ticks: Vec<List<Tick>>,
    pub(crate) serials: Vec<u32>,
}

impl<B: Board, Y: Body> Runner<B, Y> {
    /// Runs the workload on a new board, once. Its entries go to the out.
    pub(crate) fn run<O: EntryOut>(&mut self, out: &mut O) -> Result<(), Stopped>
        requires ready { CanRun B.stands B.set B.room Y.gives self.old }
        requires nothing_lost { O.lost out.old [] }
        requires good { (history : Many Noted) → IsSim (workload_in B.set Y.gives self.old) history
            → CanTake (O.got out.old) (O.good out.old) history }
        ensures whole { IfOk result (λ _. IsWhole (workload_in B.set Y.gives self.old) (B.stands self.new.board) (O.got out.old) (O.got out.new)) }
        ensures none_lost { LosesNone O.lost out.new result }
        ensures stopped { OnErr result (IsStopped (workload_in B.set Y.gives self.old) (O.got out.old) (O.got out.new) (O.lost out.new)) }
        ensures cause { HasCause (O.stops out.old) (O.stops out.new) result }
        ensures set { B.set self.new.board ≡ B.set self.old.board }
    {
        run(
            &mut self.board,
            &mut self.bodies,
            &mut self.serials,
            &self.ticks,
            out,
        )
    }
}

impl<B: Board + Drop, Y: Drop> Runner<B, Y> {
    /// The items of the board as they are installed.
    pub(crate) fn into_items(self) -> Items
        ensures { (history : Many Noted) → B.stands self.board history → result ≡ (state_of (B.set self.board) history).items }
    {
        let Runner {
            board,
            bodies,
            ticks,
            serials,
        } = self;
        drop(bodies);
        drop(ticks);
        drop(serials);
        let (items, kept) = board.into_parts();
        drop(kept);
        items
    }
}
