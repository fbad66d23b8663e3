//! The fields of a line: numbers, names and jobs, each after one blank, written and read.
ghost use Rattle.journal_text.specs.Laws.{NumbersBothWays, NamedBothWays};

/// Each number within its range is written as one word that is read as this number, and no other word is read as one:
/// none with a leading zero, with a sign that is not needed, or beyond the range.
pub fn numbers_both_ways()
    ensures { NumbersBothWays }
{}

/// Over names that are names and differ: each transaction, item and job is written as one word that is read as this
/// one, and no other word is.
pub fn named_both_ways()
    ensures { NamedBothWays }
{}
