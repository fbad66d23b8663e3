//! The verdict on a document that is to be a report.
ghost use Rattle.run_report.specs.Laws.{OneVerdict, LegalIsReport, ReportIsLegal, DocumentHasTypes};

use crate::laws::{legal_has_lines, legal_has_rows};
use law_histories::counting;
use law_times::response;
use report_text::head_is_read_back;
use set_admission::admitted_unless_refused;
use txn_compiler::compiled_unless_refused;

/// No document has two verdicts, so each verdict comes exactly where it is said, but for want of memory.
pub fn one_verdict_at_most()
    ensures { OneVerdict }
{}

/// What is said to be legal is the report of a compiled set and of a legal history of it; the set meets the admission rule
/// where the mode says so.
pub fn legal_is_report()
    ensures { LegalIsReport }
{
    compiled_unless_refused();
    admitted_unless_refused();
}

/// The report of a compiled set, which meets the admission rule where the mode says so, and of a legal history of it is
/// said to be legal. Its validities, intervals and values are to be those of their types; no rule bounds them.
pub fn report_is_legal()
    ensures { ReportIsLegal }
{
    counting();
    response();
    head_is_read_back();
    legal_has_lines();
    legal_has_rows();
    compiled_unless_refused();
    admitted_unless_refused();
}

/// The numbers of a document that is read, and so of each legal text, are those of their types.
pub fn document_has_types()
    ensures { DocumentHasTypes }
{}
