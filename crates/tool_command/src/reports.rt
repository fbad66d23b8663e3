//! The replies of the commands that read a report.
ghost use Rattle.std.specs.Prelude.{◌≡◌, IfOk};
ghost use Rattle.step_journal.specs.History.{IsLegal, state_of};
ghost use Rattle.report_text.specs.Texts.{NamesSet};
ghost use Rattle.run_report.specs.Judged.{set_in};
ghost use Rattle.tool_command.specs.Reports.{summary_in, json_in, table_in};

use rt_base::OutOfMemory;
use run_report::{LegalReport, ReportedSet};
use std::alloc::Global;

/// The text of `summary`.
pub(crate) fn summary(alloc: Global, report: &LegalReport) -> Result<Vec<u8>, OutOfMemory>
    requires names { NamesSet report.now.names (set_in report.now.set) }
    requires legal { IsLegal (set_in report.now.set) report.now.entries }
    ensures { IfOk result (λ text. text.items ≡ summary_in report.now) }
{
    let names = report.names.names();
    let entries = report.entries.as_slice();
    match &report.set {
        ReportedSet::Trial(set) => report_export::summary(alloc, names, set, None, entries),
        ReportedSet::Admitted(set) => {
            report_export::summary(alloc, names, set.set(), Some(set), entries)
        }
    }
}

/// The text of `json`.
pub(crate) fn json(alloc: Global, report: &LegalReport) -> Result<Vec<u8>, OutOfMemory>
    requires names { NamesSet report.now.names (set_in report.now.set) }
    requires legal { IsLegal (set_in report.now.set) report.now.entries }
    requires last { report.now.items ≡ (state_of (set_in report.now.set) report.now.entries).items }
    ensures { IfOk result (λ text. text.items ≡ json_in report.now) }
{
    let names = report.names.names();
    let entries = report.entries.as_slice();
    match &report.set {
        ReportedSet::Trial(set) => {
            report_export::json(alloc, names, set, None, entries, &report.items)
        }
        ReportedSet::Admitted(set) => {
            report_export::json(alloc, names, set.set(), Some(set), entries, &report.items)
        }
    }
}

/// The text of `table`.
pub(crate) fn table(alloc: Global, report: &LegalReport) -> Result<Vec<u8>, OutOfMemory>
    requires names { NamesSet report.now.names (set_in report.now.set) }
    requires legal { IsLegal (set_in report.now.set) report.now.entries }
    ensures { IfOk result (λ text. text.items ≡ table_in report.now) }
{
    let names = report.names.names();
    report_export::table(alloc, names, report.set.set(), report.entries.as_slice())
}
