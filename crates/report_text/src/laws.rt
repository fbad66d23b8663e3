//! The lines of a report: declarations, ceilings, bounds, jobs and last items; and that the declarations are read
//! back.
ghost use Rattle.report_text.specs.Laws.{HeadIsReadBack};

/// The declarations of a set, written as a report begins, are read back as they are, whatever follows them.
pub fn head_is_read_back()
    ensures { HeadIsReadBack }
{}
