//! The entry lines of a run by workers, handed to a sink as they come.
ghost use Rattle.std.specs.Prelude.{◌≡◌, ℕ, ◌≤◌, [], length, map, IfOk, OnErr, IsErrOf};
ghost use Rattle.std.specs.List.{sum};
ghost use Rattle.io_edge.specs.Causes.{Rose};
ghost use Rattle.job_rows.specs.Upkeep.{Follows};
ghost use Rattle.report_text.specs.Texts.{NamesSet};
ghost use Rattle.scenario_run.specs.declared.standing.ReportStanding.TheVariants.{Going};
ghost use Rattle.scenario_run.specs.ReportOuts.{IsBegun};
ghost use Rattle.sim_run.specs.declared.fault.RunFault.TheVariants.{Writing};
ghost use Rattle.plant_run.specs.Ready.{CanRun, workload_in, eager_jobs_in};
ghost use Rattle.scenario_run.specs.Lines.{HasLines, HasFirstLines};

use crate::out::{ReportOut, Reported};
use board::Board;
use io_edge::Sink;
use plant_run::{Run, run_workers};
use sim_run::RunFault;
use std::alloc::Global;
use std::sync::Wait;
use std::thread::Threads;
use step_script::Body;
use txn_threads::Gate;

/// Runs a workload by workers on a new board. The lines of its entries go to the sink of the out as they come. Writing comes
/// only where the sink counts a fault. It may wait.
pub(crate) fn run_lines<
    R: Threads + Wait + Sync,
    B: Board + Send + Drop,
    Y: Body + Send + Drop,
    G: Gate + Sync,
    K: Sink,
    T: Reported,
>(rt: &R, alloc: Global, run: Run<B, Y>, gate: &G, out: &mut ReportOut<K, T>) -> Result<B, RunFault>
    requires ready { CanRun B.stands B.set B.room Y.gives run }
    requires none_eager { (tx : ℕ) → eager_jobs_in run tx ≡ 0 }
    requires begun { IsBegun T.begun out.old.sink.ghost_name (K.taken out.old.sink.now) out.old.names.now (B.set run.board) out.old.writer.room }
    requires one_each { NamesSet out.old.names.now (B.set run.board) }
    requires rows { Follows (B.set run.board) out.old.writer [] }
    requires places { sum (map length run.ticks.now) ≤ out.old.writer.room }
    requires fresh { (out.old.standing ≡ Going) × (out.old.bytes ≡ 0) × (out.old.lines.items ≡ []) }
    ensures same_sink { out.new.sink.ghost_name ≡ out.old.sink.ghost_name }
    ensures lines { IfOk result (λ b. HasLines (workload_in B.set Y.gives run.entry) (B.stands b) out.old.names.now out.new.writer out.new.lines.items (K.taken out.old.sink.now) (K.taken out.new.sink.now)) }
    ensures front { OnErr result (HasFirstLines (workload_in B.set Y.gives run.entry) out.old.names.now (K.taken out.old.sink.now) (K.taken out.new.sink.now)) }
    ensures cause { IsErrOf result Writing → Rose (K.faults out.old.sink.now) (K.faults out.new.sink.now) }
    ensures later { K.faults out.old.sink.now ≤ K.faults out.new.sink.now }
    ensures set { IfOk result (λ b. B.set b ≡ B.set run.entry.board) }
{
    run_workers(rt, alloc, run, gate, out)
}
