//! The report of a whole history.
ghost use Rattle.std.specs.Prelude.{◌≡◌, ◌≤◌, ◌++◌, ◌∷◌, [], List as Many, is_some, IfSome, IfOk, OnOk};
ghost use Rattle.txn_set.specs.Set.{Set};
ghost use Rattle.step_journal.specs.declared.entry.Entry.{Entry as Noted};
ghost use Rattle.step_journal.specs.History.{IsLegal, state_of};
ghost use Rattle.job_rows.specs.Rows.{job_rows};
ghost use Rattle.job_rows.specs.Upkeep.{Follows};
ghost use Rattle.report_text.specs.Texts.{NamesSet, whole_entry_line};
ghost use Rattle.run_report.specs.Report.{Writes, opening_text, closing_text, report_of};

use crate::writer::{ReportWriter, add_closing, add_opening};
use item_model::Items;
use job_rows::{planned, rows_of};
use rt_base::{Names, OutOfMemory};
use serial_replay::{ReplayError, last_items};
use set_admission::AdmittedSet;
use std::alloc::Global;
use step_journal::Entry;
use txn_set::CompiledSet;

fn add_next(
    writer: &mut ReportWriter,
    names: &Names,
    entry: Entry,
    into: &mut Vec<u8>,
) -> Result<(), OutOfMemory>
    requires { Writes names.now writer.old entry }
    ensures text { OnOk result (into.new.items ≡ into.old.items ++ whole_entry_line names.now 0 entry) }
    ensures places { writer.new.room ≡ writer.old.room }
    ensures follows { OnOk result ((set : Set) (history : Many Noted) → Follows set writer.old history → IsLegal set (history ++ entry ∷ []) → Follows set writer.new (history ++ entry ∷ [])) }
{
    into.reserve(256)?;
    writer.push(names, &entry, into);
    Ok(())
}

/// The report of a legal history of a set: as admitted where there are bounds, and else as a trial. The history is replayed
/// for its last items, so it costs what the run did.
pub fn report(
    alloc: Global,
    names: &Names,
    set: &CompiledSet,
    bounds: Option<&AdmittedSet>,
    entries: &[Entry],
) -> Result<Vec<u8>, OutOfMemory>
    requires names { NamesSet names.now set.now }
    requires same { IfSome bounds (λ b. b.now ≡ set.now) }
    requires legal { IsLegal set.now entries.now }
    ensures { IfOk result (λ text. text.items ≡ report_of names.now set.now (is_some bounds.entry) entries.now) }
{
    match last_items(alloc, set, entries) {
        Ok(items) => report_with_items(alloc, names, set, bounds, entries, &items),
        Err(ReplayError::OutOfMemory) => Err(OutOfMemory),
        Err(ReplayError::NotLegal { .. }) => unreachable!(),
    }
}

/// The report of a legal history whose last items are known. Each entry is gone through once.
pub fn report_with_items(
    alloc: Global,
    names: &Names,
    set: &CompiledSet,
    bounds: Option<&AdmittedSet>,
    entries: &[Entry],
    items: &Items,
) -> Result<Vec<u8>, OutOfMemory>
    requires names { NamesSet names.now set.now }
    requires same { IfSome bounds (λ b. b.now ≡ set.now) }
    requires legal { IsLegal set.now entries.now }
    requires last { items.now ≡ (state_of set.now entries.now).items }
    ensures { IfOk result (λ text. text.items ≡ report_of names.now set.now (is_some bounds.entry) entries.now) }
{
    let mut text = Vec::new(alloc);
    let mut writer = ReportWriter::begin(alloc, names, set, bounds, planned(entries), &mut text)?;
    for i in 0..entries.len() {
        add_next(&mut writer, names, entries[i], &mut text)?;
    }
    writer.finish(names, items, &mut text)?;
    Ok(text)
}

/// What stands in that report before its entries, and what stands after them. Each entry is gone through twice, and none is
/// written.
pub fn report_ends(
    alloc: Global,
    names: &Names,
    set: &CompiledSet,
    bounds: Option<&AdmittedSet>,
    entries: &[Entry],
    items: &Items,
) -> Result<(Vec<u8>, Vec<u8>), OutOfMemory>
    requires names { NamesSet names.now set.now }
    requires same { IfSome bounds (λ b. b.now ≡ set.now) }
    requires legal { IsLegal set.now entries.now }
    requires last { items.now ≡ (state_of set.now entries.now).items }
    ensures opening { IfOk result (λ ends. ends.0.items ≡ opening_text names.now set.now (is_some bounds.entry)) }
    ensures closing { IfOk result (λ ends. ends.1.items ≡ closing_text names.now (job_rows set.now entries.now) (state_of set.now entries.now).items) }
{
    set.is_compiled();
    let mut opening = Vec::new(alloc);
    add_opening(&mut opening, names, set, bounds)?;
    let rows = rows_of(alloc, set, entries)?;
    let mut closing = Vec::new(alloc);
    add_closing(&mut closing, names, rows.as_slice(), items.as_slice())?;
    Ok((opening, closing))
}
