//! The lines of a journal: the line of an entry, and the entry of a line.
ghost use Rattle.journal_text.specs.EntryLaws.{LinesBothWays, OneEntryALine};

/// Each entry that has a line is read from its line, and a line from which an entry is read is that entry's.
pub fn lines_both_ways()
    ensures { LinesBothWays }
{}

/// A line is the line of at most one entry.
pub fn one_entry_a_line()
    ensures { OneEntryALine }
{}
