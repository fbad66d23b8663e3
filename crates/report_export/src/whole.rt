//! A report as JSON lines, and its jobs as a table.
ghost use Rattle.std.specs.Prelude.{◌≡◌, ◌≤◌, ◌<◌, ◌^◌, ◌++◌, length, is_some, IfSome, OnOk, IfOk};
ghost use Rattle.std.specs.List.{All};
ghost use Rattle.step_journal.specs.History.{IsLegal, state_of};
ghost use Rattle.report_text.specs.Texts.{NamesSet, KnownRow};
ghost use Rattle.report_export.specs.Whole.{opening_json, closing_json, json_of, table_of};

use crate::declared::add_declarations;
use crate::entries::add_entries;
use crate::jobs::{add_finals, add_jobs, add_table};
use crate::limits::{add_ceilings, add_limits};
use crate::parts::add_text;
use item_model::{Items, Stored};
use job_rows::{JobRow, rows_of};
use rt_base::{Names, OutOfMemory};
use run_report::{legal_has_lines, legal_has_rows};
use set_admission::AdmittedSet;
use std::alloc::Global;
use step_journal::Entry;
use txn_set::CompiledSet;

fn add_opening(
    into: &mut Vec<u8>,
    names: &Names,
    set: &CompiledSet,
    bounds: Option<&AdmittedSet>,
) -> Result<(), OutOfMemory>
    requires names { NamesSet names.now set.now }
    requires same { IfSome bounds (λ b. b.now ≡ set.now) }
    ensures { OnOk result (into.new.items ≡ into.old.items ++ opening_json names.now set.now (is_some bounds.entry)) }
{
    add_declarations(into, names, set, bounds.is_some())?;
    add_ceilings(into, names, set)?;
    add_limits(into, names, set, bounds)
}

fn add_closing(
    into: &mut Vec<u8>,
    names: &Names,
    rows: &[JobRow],
    items: &[Stored],
) -> Result<(), OutOfMemory>
    requires rows { All (KnownRow names.now) rows.now }
    requires items { length items.now ≤ length names.now.items }
    requires few { length items.now < 2 ^ 32 }
    ensures { OnOk result (into.new.items ≡ into.old.items ++ closing_json names.now rows.now items.now) }
{
    add_jobs(into, names, rows)?;
    add_finals(into, names, items)?;
    add_text(into, b"{\"end\":{}}\n")
}

/// The report of a legal history as JSON: an object a line, for each line of the report and in its order, where the last items are
/// known. Its entries are gone through twice, for the lines and for the rows of the jobs.
///
/// OutOfMemory: a growth was refused.
pub fn json(
    alloc: Global,
    names: &Names,
    set: &CompiledSet,
    bounds: Option<&AdmittedSet>,
    entries: &[Entry],
    items: &Items,
) -> Result<Vec<u8>, OutOfMemory>
    requires names { NamesSet names.now set.now }
    requires same { IfSome bounds (λ b. b.now ≡ set.now) }
    requires legal { IsLegal set.now entries.now }
    requires last { items.now ≡ (state_of set.now entries.now).items }
    ensures { IfOk result (λ text. text.items ≡ json_of names.now set.now (is_some bounds.entry) entries.now) }
{
    legal_has_lines();
    legal_has_rows();
    set.is_compiled();
    let mut text = Vec::new(alloc);
    add_opening(&mut text, names, set, bounds)?;
    add_entries(&mut text, names, entries)?;
    let rows = rows_of(alloc, set, entries)?;
    add_closing(&mut text, names, rows.as_slice(), items.as_slice())?;
    Ok(text)
}

/// The jobs of a legal history as a table: a header, and a row for each `job` line of the report, in its order. The entries are
/// gone through once.
///
/// OutOfMemory: a growth was refused.
pub fn table(
    alloc: Global,
    names: &Names,
    set: &CompiledSet,
    entries: &[Entry],
) -> Result<Vec<u8>, OutOfMemory>
    requires names { NamesSet names.now set.now }
    requires legal { IsLegal set.now entries.now }
    ensures { IfOk result (λ text. text.items ≡ table_of names.now set.now entries.now) }
{
    legal_has_rows();
    set.is_compiled();
    let rows = rows_of(alloc, set, entries)?;
    let mut text = Vec::new(alloc);
    add_table(&mut text, names, rows.as_slice())?;
    Ok(text)
}
