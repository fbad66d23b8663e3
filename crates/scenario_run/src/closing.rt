//! The closing lines of a run's report.
ghost use Rattle.std.specs.Prelude.{◌≡◌, ◌≤◌, ℕ, [], List as Many, take, OnOk, OnErr, IsErrOf};
ghost use Rattle.std.specs.Io.KnownBytes.{Appends};
ghost use Rattle.io_edge.specs.Causes.{Rose};
ghost use Rattle.step_journal.specs.declared.entry.Entry.{Entry as Noted};
ghost use Rattle.job_rows.specs.Upkeep.{Follows};
ghost use Rattle.report_text.specs.Texts.{NamesSet};
ghost use Rattle.scenario_run.specs.Written.{closing_of};

use board::Board;
use io_edge::{Sink, write_all};
use rt_base::Names;
use run_report::ReportWriter;
use sim_run::RunFault;

/// Writes what stands after the entries in the report of a history: the history is one for which the board stands, and
/// whose jobs' rows the writer has. `lines` is a place for it, and empty. Writing comes only where the sink counts a
/// fault.
pub fn write_closing<B: Board + Drop, K: Sink>(
    board: B,
    names: &Names,
    writer: ReportWriter,
    lines: Vec<u8>,
    sink: &mut K,
) -> Result<(), RunFault>
    requires one_each { NamesSet names.now (B.set board) }
    requires stood { (history : Many Noted) × B.stands board history × Follows (B.set board) writer history }
    requires empty { lines.items ≡ [] }
    ensures all { (history : Many Noted) → B.stands board history → Follows (B.set board) writer history →
        OnOk result (Appends (K.taken sink.old) (K.taken sink.new) (closing_of names.now (B.set board) history)) }
    ensures front { (history : Many Noted) → B.stands board history → Follows (B.set board) writer history →
        OnErr result ((n : ℕ) × Appends (K.taken sink.old) (K.taken sink.new) (take n (closing_of names.now (B.set board) history))) }
    ensures fault { IsErrOf result RunFault.Writing → Rose (K.faults sink.old) (K.faults sink.new) }
    ensures later { K.faults sink.old ≤ K.faults sink.new }
{
    let mut lines = lines;
    let (items, _) = board.into_parts();
    writer.finish(names, &items, &mut lines)?;
    write_all(sink, &lines)?;
    Ok(())
}
