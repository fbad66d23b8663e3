//! An out for entries whose lines go to a sink.
ghost use Rattle.std.specs.Prelude.{◌≤◌, vec_capacity};
ghost use Rattle.scenario_run.specs.ReportOuts.{Begun, nothing};

use crate::lines::add_lines;
use crate::standing::ReportStanding;
use io_edge::Sink;
use job_rows::planned;
use rt_base::Names;
use run_report::ReportWriter;
use sim_run::{EntryOut, Stopped};
use std::marker::{Brand, PhantomData};
use step_journal::Entry;

/// The report that an out writes: with what it began.
pub trait Reported {
    ghost begun: { Begun };
}

impl Reported for Brand {
    ghost begun = { nothing };
}

/// The lines of a report's entries, handed to a sink as the entries come.
pub struct ReportOut<'a, K, T> {
    pub names: &'a Names,
    /// The report as far as it was written.
    pub writer: ReportWriter,
    /// A place for lines, of at least 256 bytes; it holds none between two calls.
    pub lines: Vec<u8>,
    /// How many bytes the lines of all that it got have.
    pub bytes: u64,
    /// Whether it takes pieces.
    pub standing: ReportStanding,
    pub sink: &'a mut K,
    pub of: PhantomData<T>,
    ghost room: { 256 ≤ vec_capacity lines },
}

impl<'a, K: Sink, T: Reported> ReportOut<'a, K, T> {
    ghost use Rattle.std.specs.Prelude.{◌≡◌, ◌≤◌, [], vec_capacity};
    ghost use Rattle.scenario_run.specs.declared.standing.ReportStanding.TheVariants.{Going};

    /// An out that has taken nothing yet, for a report as `ReportWriter::begin` left it. It takes no memory.
    pub fn new(
        names: &'a Names,
        writer: ReportWriter,
        lines: Vec<u8>,
        sink: &'a mut K,
    ) -> ReportOut<'a, K, T>
        requires room { 256 ≤ vec_capacity lines }
        requires empty { lines.items ≡ [] }
        ensures names { result.names.now ≡ names.now }
        ensures writer { result.writer ≡ writer }
        ensures lines { result.lines.items ≡ [] }
        ensures bytes { result.bytes ≡ 0 }
        ensures standing { result.standing ≡ Going }
        ensures sink { result.sink.now ≡ sink.entry.now }
        ensures same_sink { result.sink.ghost_name ≡ sink.entry.ghost_name }
    {
        ReportOut {
            names,
            writer,
            lines,
            bytes: 0,
            standing: ReportStanding::Going,
            sink,
            of: PhantomData,
        }
    }
}

/// What it got is what the sink has taken the lines of. It loses a piece at which the sink failed, of which the sink may
/// have taken the first lines, and one with more plans than places are left, of which it writes nothing. It can take
/// every legal history. It stops where the sink counts a fault, and once for want of places.
impl<'a, K: Sink, T: Reported> EntryOut for ReportOut<'a, K, T> {
    ghost use Rattle.std.specs.Prelude.{◌≡◌, ◌+◌};
    ghost use Rattle.step_journal.specs.History.{IsLegal};
    ghost use Rattle.scenario_run.specs.ReportOuts.{HasTaken, IsLost, seen, full_stops};

    ghost got = { λ out history. (T.begun.sink ≡ out.sink.ghost_name) ×
        HasTaken T.begun (seen out.standing out.names.now out.writer out.lines.items out.bytes (K.taken out.sink.now)) history };

    ghost lost = { λ out history.
        IsLost T.begun (seen out.standing out.names.now out.writer out.lines.items out.bytes (K.taken out.sink.now)) history };

    ghost good = { λ out history. IsLegal T.begun.set history };

    ghost stops = { λ out. K.faults out.sink.now + full_stops out.standing };

    /// A line costs what its bytes do, and the rows of the jobs what `JobRows::push` does. The sink is called once for
    /// each filling of the place for lines, and once at the end.
    fn put(&mut self, entries: &[Entry]) -> Result<(), Stopped> {
        if entries.is_empty() {
            return Ok(());
        }
        if planned(entries) > self.writer.places_left() {
            self.standing = ReportStanding::Full;
            return Err(Stopped);
        }
        match add_lines(
            &mut self.writer,
            self.names,
            entries,
            &mut self.lines,
            self.sink,
        ) {
            Ok(bytes) => {
                self.bytes += bytes;
                Ok(())
            }
            Err(_) => {
                self.standing = ReportStanding::Cut;
                Err(Stopped)
            }
        }
    }
}
