//! The laws of how long a report is, line by line, and of the whole report of a scenario's run. They are about the
//! definitions alone.
ghost use Rattle.law_texts.specs.Lines.{EntryLinesAreShort, OnlyCommitsNameItems, JobLinesAreShort, FewJobsHaveShortLines};
ghost use Rattle.law_texts.specs.RunLaws.{RunLinesAreShort, RunIsReadWhole};

use law_times::response;

/// In a legal history of a compiled set each entry's line has fewer than 200 bytes, its line end among them. A step whose end
/// names items is a commit, and names none itself.
pub fn entry_lines_are_short()
    ensures short { EntryLinesAreShort }
    ensures ends { OnlyCommitsNameItems }
{}

/// In a legal history of a compiled set each job's line has fewer than 210 bytes, its line end among them, and fewer than 200
/// where at most 65,536 jobs of each transaction were planned, so that no serial has more than five digits.
pub fn job_lines_are_short()
    ensures any { JobLinesAreShort }
    ensures few { FewJobsHaveShortLines }
{}

/// The report of a scenario's run has fewer than 2^20 entries and at most 65,536 jobs, and their lines have fewer than 200
/// bytes each.
pub fn run_lines_are_short()
    ensures { RunLinesAreShort }
{}

/// The report of a scenario's run has at most 2^28 bytes, which is what `replay` reads.
pub fn run_is_read_whole()
    ensures { RunIsReadWhole }
{
    response();
}
