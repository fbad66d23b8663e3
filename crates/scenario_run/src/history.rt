//! The report of a history that is at hand.
ghost use Rattle.std.specs.Prelude.{◌≡◌, ◌≤◌, OnOk, OnErr, IsErrOf};
ghost use Rattle.std.specs.Io.KnownBytes.{Appends};
ghost use Rattle.io_edge.specs.Causes.{Rose};
ghost use Rattle.step_journal.specs.History.{IsLegal};
ghost use Rattle.job_rows.specs.Upkeep.{planned_jobs};
ghost use Rattle.scenario_run.specs.Opened.{IsOpened};
ghost use Rattle.scenario_run.specs.Written.{WroteFront};
ghost use Rattle.sim_run.specs.declared.fault.RunFault.TheVariants.{Writing};
ghost use Rattle.scenario_run.specs.Eager.{after_head};

use crate::closing::write_closing;
use crate::lines::add_lines;
use crate::report::Report;
use board::Board;
use io_edge::{Sink, write_all};
use sim_run::RunFault;
use step_journal::Entry;

/// Writes the report of the history for which a board stands: the head, as one piece, then the lines of the entries, then
/// the closing lines. Writing comes only where the sink counts a fault.
pub(crate) fn write_history<B: Board + Drop, K: Sink>(
    board: B,
    report: Report,
    entries: &[Entry],
    sink: &mut K,
) -> Result<(), RunFault>
    requires stood { B.stands board entries.now }
    requires legal { IsLegal (B.set board) entries.now }
    requires opened { IsOpened (B.set board) report }
    requires places { planned_jobs entries.now ≤ report.writer.room }
    ensures whole { OnOk result (Appends (K.taken sink.old) (K.taken sink.new) (after_head report.entry.head.items report.entry.names.now (B.set board) entries.now)) }
    ensures front { OnErr result (WroteFront (λ text. text ≡ after_head report.entry.head.items report.entry.names.now (B.set board) entries.now) (K.taken sink.old) (K.taken sink.new)) }
    ensures fault { IsErrOf result Writing → Rose (K.faults sink.old) (K.faults sink.new) }
    ensures later { K.faults sink.old ≤ K.faults sink.new }
{
    let Report {
        names,
        admitted: _,
        mut writer,
        head,
        mut lines,
        entries: _,
    } = report;
    if let Err(fault) = write_all(sink, head.as_slice()) {
        drop(board);
        drop(writer);
        drop(head);
        drop(lines);
        return Err(RunFault::from(fault));
    }
    drop(head);
    match add_lines(&mut writer, names, entries, &mut lines, sink) {
        Ok(_) => write_closing(board, names, writer, lines, sink),
        Err(fault) => {
            drop(board);
            drop(writer);
            drop(lines);
            Err(RunFault::from(fault))
        }
    }
}
