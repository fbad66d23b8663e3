//! Reports on sets and runs.
ghost use Rattle.run_report.specs.Legal.{LegalHasLines, LegalHasRows};

/// Every entry of a legal history of a compiled set has a line: its ids have names, and its outcome answers its operation.
pub fn legal_has_lines()
    ensures { LegalHasLines }
{}

/// The row of each job of a legal history of a compiled set has a line: its ids have names, and it did not end before its
/// release.
pub fn legal_has_rows()
    ensures { LegalHasRows }
{}
