//! The laws that the report of each run of a scenario is legal. They are about the definitions alone.
ghost use Rattle.law_texts.specs.ReportLaws.{RunReportIsLegal, ReadReportIsLegal};

use crate::read_back::{integers_are_of_64_bits, read_is_scenario};
use law_histories::counting;
use law_times::response;
use report_text::head_is_read_back;
use run_report::{legal_has_lines, legal_has_rows};
use set_admission::admitted_unless_refused;
use txn_compiler::compiled_unless_refused;

/// The report of each run of a scenario, as a trial or admitted, is said to be legal, where the scenario's initial values,
/// samples and constants are of 64 bits.
pub fn run_report_is_legal()
    ensures { RunReportIsLegal }
{
    counting();
    response();
    head_is_read_back();
    legal_has_lines();
    legal_has_rows();
    compiled_unless_refused();
    admitted_unless_refused();
}

/// The report of each run of a scenario that is read of a text by the reader's definition, as a trial or admitted, is said
/// to be legal.
pub fn read_report_is_legal()
    ensures { ReadReportIsLegal }
{
    read_is_scenario();
    integers_are_of_64_bits();
    run_report_is_legal();
}
