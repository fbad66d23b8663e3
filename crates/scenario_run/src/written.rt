//! The whole report of a run by workers.
ghost use Rattle.std.specs.Prelude.{◌≡◌, ◌⊎◌, ℕ, ◌+◌, ◌≤◌, length, map, OnOk, OnErr, IsErrOf};
ghost use Rattle.std.specs.List.{sum};
ghost use Rattle.std.specs.Io.KnownBytes.{Keeps};
ghost use Rattle.io_edge.specs.Causes.{Rose};
ghost use Rattle.law_histories.specs.Counting.{room_of_jobs};
ghost use Rattle.sim_run.specs.Workloads.{ticks_of};
ghost use Rattle.law_runs.specs.Plannable.{total_eager_jobs};
ghost use Rattle.plant_run.specs.Ready.{CanRun, workload_in, eager_jobs_in};
ghost use Rattle.scenario_run.specs.Opened.{IsOpened};
ghost use Rattle.scenario_run.specs.Written.{Wrote, WroteFront};
ghost use Rattle.sim_run.specs.declared.fault.RunFault.TheVariants.{Writing, Memory};
ghost use Rattle.scenario_run.specs.Lines.{IsTextBy};
ghost use Rattle.scenario_run.specs.Eager.{IsRunTextBy};

use crate::closing::write_closing;
use crate::history::write_history;
use crate::out::ReportOut;
use crate::report::Report;
use crate::worked::keep_run;
use crate::worked_lines::run_lines;
use board::Board;
use io_edge::{Sink, write_all};
use plant_run::Run;
use sim_run::RunFault;
use std::alloc::Global;
use std::marker::Brand;
use std::sync::Wait;
use std::thread::Threads;
use step_script::Body;
use txn_threads::Gate;

// Writes the report of a run in which no transaction is eager: the lines of the entries as they come.
fn write_fixed<
    R: Threads + Wait + Sync,
    B: Board + Send + Drop,
    Y: Body + Send + Drop,
    G: Gate + Sync,
    K: Sink,
>(
    rt: &R,
    alloc: Global,
    run: Run<B, Y>,
    report: Report,
    gate: &G,
    sink: &mut K,
) -> Result<(), RunFault>
    requires ready { CanRun B.stands B.set B.room Y.gives run }
    requires none_eager { (tx : ℕ) → eager_jobs_in run tx ≡ 0 }
    requires opened { IsOpened (B.set run.board) report }
    requires places { sum (map length run.ticks.now) ≤ report.writer.room }
    ensures whole { OnOk result (Wrote (IsTextBy report.entry.names.now report.entry.admitted (workload_in B.set Y.gives run.entry)) (K.taken sink.old) (K.taken sink.new)) }
    ensures front { OnErr result (WroteFront (IsTextBy report.entry.names.now report.entry.admitted (workload_in B.set Y.gives run.entry)) (K.taken sink.old) (K.taken sink.new)) }
    ensures fault { IsErrOf result Writing → Rose (K.faults sink.old) (K.faults sink.new) }
    ensures later { K.faults sink.old ≤ K.faults sink.new }
{
    let Report {
        names,
        admitted: _,
        writer,
        head,
        lines,
        entries: _,
    } = report;
    if let Err(fault) = write_all(sink, head.as_slice()) {
        drop(run);
        drop(writer);
        drop(head);
        drop(lines);
        return Err(RunFault::from(fault));
    }
    drop(head);
    let mut out: ReportOut<K, Brand> = ReportOut::new(names, writer, lines, sink);
    let ran = run_lines::<R, B, Y, G, K, Brand>(rt, alloc, run, gate, &mut out);
    let ReportOut {
        names: _,
        writer,
        lines,
        bytes: _,
        standing: _,
        sink: _sink,
        of: _,
    } = out;
    match ran {
        Ok(board) => write_closing(board, names, writer, lines, sink),
        Err(fault) => Err(fault),
    }
}

/// Runs a workload on a new board by workers, each in a thread of its own where one can be made, and writes its report: the
/// head, as one piece, then the lines of the entries as they come, or, where a transaction is eager, when the run is over,
/// then the closing lines. The report has places for all jobs, and its room for entries suffices for them. Ok has written the
/// whole report of a run of the workload, which is the one run where no transaction is eager, whatever the number of workers.
/// Writing, which comes only where the sink counts a fault, has written a prefix of one, and Memory nothing or a prefix of
/// one. It may wait.
pub fn write_run<
    R: Threads + Wait + Sync,
    B: Board + Send + Drop,
    Y: Body + Send + Drop,
    G: Gate + Sync,
    K: Sink,
>(
    rt: &R,
    alloc: Global,
    run: Run<B, Y>,
    report: Report,
    gate: &G,
    sink: &mut K,
) -> Result<(), RunFault>
    requires ready { CanRun B.stands B.set B.room Y.gives run }
    requires opened { IsOpened (B.set run.board) report }
    requires places { sum (map length run.ticks.now) + total_eager_jobs (B.set run.board) (eager_jobs_in run) ≤ report.writer.room }
    requires entries { room_of_jobs (B.set run.board).txns (λ tx. length (ticks_of run.ticks.now tx) + eager_jobs_in run tx) ≤ report.entries }
    ensures whole { OnOk result (Wrote (IsRunTextBy report.entry.names.now report.entry.admitted (workload_in B.set Y.gives run.entry) (eager_jobs_in run.entry)) (K.taken sink.old) (K.taken sink.new)) }
    ensures cut { IsErrOf result Writing → WroteFront (IsRunTextBy report.entry.names.now report.entry.admitted (workload_in B.set Y.gives run.entry) (eager_jobs_in run.entry)) (K.taken sink.old) (K.taken sink.new) }
    ensures short { IsErrOf result Memory → Keeps (K.taken sink.old) (K.taken sink.new) ⊎ WroteFront (IsRunTextBy report.entry.names.now report.entry.admitted (workload_in B.set Y.gives run.entry) (eager_jobs_in run.entry)) (K.taken sink.old) (K.taken sink.new) }
    ensures fault { IsErrOf result Writing → Rose (K.faults sink.old) (K.faults sink.new) }
    ensures later { K.faults sink.old ≤ K.faults sink.new }
{
    if run.is_fixed() {
        write_fixed(rt, alloc, run, report, gate, sink)
    } else {
        let (board, history) = keep_run(rt, alloc, run, report.entries, gate)?;
        write_history(board, report, history.as_slice(), sink)
    }
}
