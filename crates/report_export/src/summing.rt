//! The summary of a report.
ghost use Rattle.std.specs.Prelude.{◌≡◌, ◌++◌, is_some, IfSome, OnOk, IfOk};
ghost use Rattle.std.specs.List.{All};
ghost use Rattle.step_journal.specs.History.{IsLegal};
ghost use Rattle.report_text.specs.Rows.{numbered};
ghost use Rattle.report_text.specs.Texts.{NamesSet, KnownRow};
ghost use Rattle.report_export.specs.Texts.{txn_lines, item_lines, summary_of};

use crate::ages::{ages, commits};
use crate::tally::tallies;
use crate::text::{Summed, add_age, add_txn};
use job_rows::{JobRow, rows_of};
use rt_base::{Names, OutOfMemory};
use run_report::legal_has_rows;
use set_admission::AdmittedSet;
use std::alloc::Global;
use step_journal::Entry;
use txn_set::CompiledSet;

#[tactic(auto, using(crate::proofs::SumTelling::rows_in))]
fn add_txns(
    alloc: Global,
    into: &mut Vec<u8>,
    summed: Summed,
    rows: &[JobRow],
) -> Result<(), OutOfMemory>
    requires names { NamesSet summed.names.now summed.set.now }
    requires same { IfSome summed.bounds (λ b. b.now ≡ summed.set.now) }
    requires rows { All (KnownRow summed.names.now) rows.now }
    ensures { OnOk result (into.new.items ≡ into.old.items ++ numbered (txn_lines summed.entry.names.now summed.entry.set.now (is_some summed.entry.bounds) rows.now) 0 summed.entry.set.now.txns) }
{
    let set = summed.set;
    set.is_compiled();
    let txns = set.txns().len();
    let tallies = tallies(alloc, txns, rows)?;
    for i in 0..txns {
        add_txn(into, summed, i as u32, &tallies[i])?;
    }
    Ok(())
}

#[tactic(auto, using(crate::proofs::SumTelling::rows_in))]
fn add_items(
    alloc: Global,
    into: &mut Vec<u8>,
    summed: Summed,
    rows: &[JobRow],
    entries: &[Entry],
) -> Result<(), OutOfMemory>
    requires names { NamesSet summed.names.now summed.set.now }
    requires same { IfSome summed.bounds (λ b. b.now ≡ summed.set.now) }
    requires rows { All (KnownRow summed.names.now) rows.now }
    ensures { OnOk result (into.new.items ≡ into.old.items ++ numbered (item_lines summed.entry.names.now summed.entry.set.now (is_some summed.entry.bounds) rows.now entries.now) 0 summed.entry.set.now.items) }
{
    let set = summed.set;
    set.is_compiled();
    let items = set.items();
    let commits = commits(alloc, set.txns().len(), rows)?;
    let worsts = ages(alloc, items.len(), commits.as_slice(), entries)?;
    for i in 0..items.len() {
        add_age(into, summed, i as u32, worsts[i])?;
    }
    Ok(())
}

/// The summary of a legal history: for each transaction in list order how its jobs ended, its worst response and its worst delay,
/// and for each item that has a validity the greatest age, in ticks, at the end of a committed job that had read it from outside;
/// each beside its bound, if there are bounds. Each entry is gone through twice, for the rows of the jobs and for the ages, and
/// each row twice.
///
/// OutOfMemory: a growth was refused.
pub fn summary(
    alloc: Global,
    names: &Names,
    set: &CompiledSet,
    bounds: Option<&AdmittedSet>,
    entries: &[Entry],
) -> Result<Vec<u8>, OutOfMemory>
    requires names { NamesSet names.now set.now }
    requires same { IfSome bounds (λ b. b.now ≡ set.now) }
    requires legal { IsLegal set.now entries.now }
    ensures { IfOk result (λ text. text.items ≡ summary_of names.now set.now (is_some bounds.entry) entries.now) }
{
    legal_has_rows();
    set.is_compiled();
    let rows = rows_of(alloc, set, entries)?;
    let mut text = Vec::new(alloc);
    let summed = Summed { names, set, bounds };
    add_txns(alloc, &mut text, summed, rows.as_slice())?;
    add_items(alloc, &mut text, summed, rows.as_slice(), entries)?;
    Ok(text)
}
