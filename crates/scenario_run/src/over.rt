//! A run whose entries go to a log.
ghost use Rattle.std.specs.Prelude.{◌≡◌, ◌≤◌, ◌+◌, ◌↔◌, [], length, vec_capacity, false, Some, IfOk, IfErr, IsSome, OnErr};
ghost use Rattle.std.specs.Prelude.{List as Many};
ghost use Rattle.io_edge.specs.Causes.{HasCause};
ghost use Rattle.step_journal.specs.declared.entry.Entry.{Entry as Noted};
ghost use Rattle.law_histories.specs.Sim.{IsSim};
ghost use Rattle.rt_base.specs.Names.{AreNames};
ghost use Rattle.report_text.specs.Texts.{NamesSet};
ghost use Rattle.durable_journal.specs.Log.{StandsFor};
ghost use Rattle.scenario_run.specs.declared.standing.JournalStanding.TheVariants.{Going};
ghost use Rattle.scenario_run.specs.Outs.{IsGoing, other_stops};
ghost use Rattle.scenario_run.specs.JournalReady.{CanRun, workload_in};
ghost use Rattle.scenario_run.specs.Ran.{HaltedBy, IsGot, IsHalted, IsKept};
ghost use Rattle.scenario_run.specs.JournalLeft.{LeavesRun};

use crate::journal_out::{JournalOut, Journaled};
use crate::runner::Runner;
use board::Board;
use durable_disk::Disk;
use durable_journal::Log;
use rt_base::Names;
use sim_run::Stopped;
use std::marker::Brand;
use step_journal::Entry;
use step_script::Body;
use txn_set::CompiledSet;

/// Why a run over a log was not kept.
#[derive(Clone, Copy, Debug, PartialEq, Eq)]
pub(crate) enum Halt {
    /// The record of this number, entries counted from 1, is not the run's.
    Other { number: u64 },
    /// A call of the disk failed, and was counted.
    Fault,
}

// Runs a workload over an out that has taken nothing yet.
fn run_out<B: Board, Y: Body, D: Disk, T: Journaled<D>>(
    runner: &mut Runner<B, Y>,
    out: &mut JournalOut<D, T>,
) -> Result<(), Stopped>
    requires ready { CanRun B.stands B.set B.room Y.gives runner.old }
    requires begun { T.begun ≡ record { names = out.old.names.now; set = B.set runner.old.board; there = out.old.there.items; room = out.old.room; disk = Some out.old.log.disk } }
    requires same { out.old.set.now ≡ B.set runner.old.board }
    requires fresh { (out.old.standing ≡ Going) × (out.old.kept.items ≡ []) }
    requires going { IsGoing D.seen D.may_leave D.moment D.left_since out.old.names.now out.old.set.now (Some out.old.log.disk) out.old.log out.old.there.items [] }
    requires places { (history : Many Noted) → IsSim (workload_in B.set Y.gives runner.old) history → length history ≤ out.old.room }
    ensures got { IfOk result (λ _. IsGot (workload_in B.set Y.gives runner.old) (B.stands runner.new.board) D.seen D.may_leave D.moment D.left_since out.old.names.now out.old.log.disk out.new.log out.new.there.items out.new.kept.items) }
    ensures halted { OnErr result (IsHalted (workload_in B.set Y.gives runner.old) D.seen D.may_leave D.moment D.left_since out.old.names.now out.old.log.disk out.new.log out.new.standing out.new.there.items out.new.kept.items) }
    ensures there { out.new.there.items ≡ out.old.there.items }
    ensures told { IsSome (D.seen out.old.log.disk) ↔ IsSome (D.seen out.new.log.disk) }
    ensures cause { HasCause (D.faults out.old.log.disk) (D.faults out.new.log.disk + other_stops out.new.standing) result }
    ensures set { B.set runner.new.board ≡ B.set runner.old.board }
{
    runner.run(out)
}

/// Runs a workload, once, over a log that stands for the entries that its disk has. The history, which the disk holds then,
/// or why it was not kept. `kept` is a place for `room` entries. The disk is handed back.
pub(crate) fn run_log<B: Board, Y: Body, D: Disk>(
    runner: &mut Runner<B, Y>,
    names: &Names,
    set: &CompiledSet,
    found: (Log<D>, Vec<Entry>),
    kept: Vec<Entry>,
    room: usize,
) -> (Result<Vec<Entry>, Halt>, D)
    requires ready { CanRun B.stands B.set B.room Y.gives runner.old }
    requires same { set.now ≡ B.set runner.old.board }
    requires names { AreNames names.now.items × AreNames names.now.txns }
    requires one_each { NamesSet names.now set.now }
    requires stands { StandsFor D.seen D.may_leave names.now set.now found.0 found.1.items }
    requires goes { found.0.stopped ≡ false }
    requires kept { (kept.items ≡ []) × (room ≤ vec_capacity kept) }
    requires places { (history : Many Noted) → IsSim (workload_in B.set Y.gives runner.old) history → length history ≤ room }
    ensures kept { IfOk result.0 (λ es. IsKept (workload_in B.set Y.gives runner.old) (B.stands runner.new.board) names.now (D.seen result.1) (D.may_leave result.1) found.1.items es.items) }
    ensures halted { IfErr result.0 (HaltedBy (workload_in B.set Y.gives runner.old) found.1.items (D.faults found.0.disk) (D.faults result.1)) }
    // What a crash leaves at each moment of the run.
    ensures left { LeavesRun D.seen D.moment D.left_since (workload_in B.set Y.gives runner.old) names.now found.1.items found.0.disk result.1 result.0 }
    ensures told { IsSome (D.seen found.0.disk) ↔ IsSome (D.seen result.1) }
    ensures set { B.set runner.new.board ≡ B.set runner.old.board }
{
    let (log, there) = found;
    log.after_crash();
    let mut out: JournalOut<D, Brand> = JournalOut::new(names, set, log, there, kept, room);
    let ran = run_out::<B, Y, D, Brand>(runner, &mut out);
    let behind = out.left_over();
    let at = out.stopped_at();
    let JournalOut {
        names: _,
        set: _,
        log,
        there: _,
        kept,
        room: _,
        standing: _,
        of: _,
    } = out;
    log.after_crash();
    let disk = log.into_disk();
    match ran {
        Ok(()) => match behind {
            None => (Ok(kept), disk),
            Some(number) => (Err(Halt::Other { number }), disk),
        },
        Err(_) => match at {
            None => (Err(Halt::Fault), disk),
            Some(number) => (Err(Halt::Other { number }), disk),
        },
    }
}
