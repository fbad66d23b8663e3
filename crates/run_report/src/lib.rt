//! Bounds, reports and summaries as text, and the verdict on a document that is to be a report.
#![tactic(auto)]

mod compared;
mod counts;
mod declared;
mod judged;
mod laws;
mod limits;
mod summing;
mod told;
mod verdict;
mod verdict_laws;
mod whole;
mod writer;

pub use declared::compile_head;
pub use judged::{Judged, LegalReport, ReportedSet};
pub use laws::{legal_has_lines, legal_has_rows};
pub use limits::{admit_text, ceilings_text};
pub use summing::summary;
pub use verdict::{SetError, Verdict, check_document, judge_document};
pub use verdict_laws::{document_has_types, legal_is_report, one_verdict_at_most, report_is_legal};
pub use whole::{report, report_ends, report_with_items};
pub use writer::ReportWriter;
