//! A report that is begun.
ghost use Rattle.std.specs.Prelude.{◌≡◌, is_some, IfOk, IfSome};
ghost use Rattle.report_text.specs.Texts.{NamesSet};

use rt_base::{Names, OutOfMemory};
use run_report::ReportWriter;
use set_admission::AdmittedSet;
use std::alloc::Global;
use txn_set::CompiledSet;

// How many bytes of lines are kept until they are handed to the sink.
const LINES: usize = 65_536;

/// A report of which nothing is written yet.
#[derive(Drop)]
pub struct Report<'a> {
    pub names: &'a Names,
    /// Whether its set is admitted, and not run on trial.
    pub admitted: bool,
    /// The rows of its jobs, of which there are none yet.
    pub writer: ReportWriter,
    /// Its declarations.
    pub head: Vec<u8>,
    /// A place for lines, of at least 256 bytes.
    pub lines: Vec<u8>,
    /// For how many entries it has to have room where they are kept until their run is over.
    pub entries: usize,
}

impl<'a> Report<'a> {
    ghost use Rattle.scenario_run.specs.Opened.{IsOpened};

    /// The report of a set, with its bounds where it is admitted, and with places for so many planned jobs. All memory that
    /// writing it takes is taken here.
    pub fn begin(
        alloc: Global,
        names: &'a Names,
        set: &CompiledSet,
        bounds: Option<&AdmittedSet>,
        jobs: usize,
        entries: usize,
    ) -> Result<Report<'a>, OutOfMemory>
        requires names { NamesSet names.now set.now }
        requires same { IfSome bounds (λ b. b.now ≡ set.now) }
        ensures opened { IfOk result (λ r. IsOpened set.now r) }
        ensures parts { IfOk result (λ r. (r.names.now ≡ names.now) × (r.admitted ≡ is_some bounds.entry) × (r.writer.room ≡ jobs) × (r.entries ≡ entries)) }
    {
        let admitted = bounds.is_some();
        let mut head = Vec::new(alloc);
        let writer = ReportWriter::begin(alloc, names, set, bounds, jobs, &mut head)?;
        let lines = Vec::with_capacity(alloc, LINES)?;
        Ok(Report {
            names,
            admitted,
            writer,
            head,
            lines,
            entries,
        })
    }
}
