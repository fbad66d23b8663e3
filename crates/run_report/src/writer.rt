//! A report, written as its entries come.
ghost use Rattle.std.specs.Prelude.{◌≡◌, ◌+◌, ◌*◌, ◌≤◌, ◌++◌, ◌∷◌, [], List as Many, codes, length, is_some, IfSome, IfOk, OnErr, OnOk, ◌^◌, ◌<◌, vec_len, vec_capacity};
ghost use Rattle.std.specs.List.{All};
ghost use Rattle.txn_set.specs.Set.{Set};
ghost use Rattle.step_journal.specs.declared.entry.Entry.{Entry as Noted};
ghost use Rattle.step_journal.specs.History.{IsLegal};
ghost use Rattle.job_rows.specs.Rows.{job_rows};
ghost use Rattle.job_rows.specs.Upkeep.{Follows};
ghost use Rattle.journal_text.specs.Lines.{entry_line};
ghost use Rattle.report_text.specs.Texts.{NamesSet, KnownRow, entries_text};
ghost use Rattle.run_report.specs.Report.{opening_text, closing_text, limits_text, Writes, Continues, Closes};

use crate::limits::add_limits;
use item_model::{Items, Stored};
use job_rows::{JobRow, JobRows};
use journal_text::{Numerals, write_entries, write_entry};
use report_text::{add_ceilings, add_declarations, add_finals, add_jobs};
use rt_base::{Names, OutOfMemory};
use set_admission::AdmittedSet;
use std::alloc::Global;
use std::marker::Model;
use step_journal::Entry;
use txn_set::CompiledSet;

/// The report of a history, written entry by entry: the rows of its jobs so far, and the digits of its latest lines.
#[derive(Drop)]
pub struct ReportWriter {
    rows: JobRows,
    numerals: Numerals,
}

impl Model for ReportWriter {
    ghost use Rattle.job_rows.specs.Upkeep.{RowsSeen};

    ghost Value = { RowsSeen };

    ghost view = { λ w. w.rows };
}

fn add_mode_limits(
    into: &mut Vec<u8>,
    names: &Names,
    set: &CompiledSet,
    bounds: Option<&AdmittedSet>,
) -> Result<(), OutOfMemory>
    requires names { NamesSet names.now set.now }
    requires same { IfSome bounds (λ b. b.now ≡ set.now) }
    ensures { OnOk result (into.new.items ≡ into.old.items ++ limits_text (is_some bounds.entry) names.now set.now) }
{
    match bounds {
        Some(admitted) => add_limits(into, names, admitted),
        None => Ok(()),
    }
}

pub(crate) fn add_opening(
    into: &mut Vec<u8>,
    names: &Names,
    set: &CompiledSet,
    bounds: Option<&AdmittedSet>,
) -> Result<(), OutOfMemory>
    requires names { NamesSet names.now set.now }
    requires same { IfSome bounds (λ b. b.now ≡ set.now) }
    ensures { OnOk result (into.new.items ≡ into.old.items ++ opening_text names.now set.now (is_some bounds.entry)) }
{
    add_declarations(into, names, set, bounds.is_some())?;
    add_ceilings(into, names, set)?;
    add_mode_limits(into, names, set, bounds)
}

pub(crate) fn add_closing(
    into: &mut Vec<u8>,
    names: &Names,
    rows: &[JobRow],
    items: &[Stored],
) -> Result<(), OutOfMemory>
    requires rows { All (KnownRow names.now) rows.now }
    requires items { length items.now ≤ length names.now.items }
    requires few { length items.now < 2 ^ 32 }
    ensures { OnOk result (into.new.items ≡ into.old.items ++ closing_text names.now rows.now items.now) }
{
    add_jobs(into, names, rows)?;
    add_finals(into, names, items)?;
    into.extend_from_slice(b"end\n")?;
    Ok(())
}

impl ReportWriter {
    /// Begins the report of a set: adds its declarations, ceilings and, where it is admitted, bounds, and takes memory for
    /// the rows of so many planned jobs. After Err the text is as it was.
    pub fn begin(
        alloc: Global,
        names: &Names,
        set: &CompiledSet,
        bounds: Option<&AdmittedSet>,
        jobs: usize,
        into: &mut Vec<u8>,
    ) -> Result<ReportWriter, OutOfMemory>
        requires names { NamesSet names.now set.now }
        requires same { IfSome bounds (λ b. b.now ≡ set.now) }
        ensures text { OnOk result (into.new.items ≡ into.old.items ++ opening_text names.now set.now (is_some bounds.entry)) }
        ensures unchanged { OnErr result (into.new.items ≡ into.old.items) }
        ensures rows { IfOk result (λ w. (w.room ≡ jobs) × Follows set.now w []) }
    {
        let mut opening = Vec::new(alloc);
        add_opening(&mut opening, names, set, bounds)?;
        let rows = JobRows::with_room(alloc, set, jobs)?;
        into.append(&mut opening)?;
        let numerals = Numerals::new();
        Ok(ReportWriter { rows, numerals })
    }

    /// Adds the line of the next entry, at most 256 bytes, and keeps the rows up. It takes no memory, and looks at no earlier
    /// entry.
    #[inline(always)]
    pub fn push(&mut self, names: &Names, entry: &Entry, into: &mut Vec<u8>)
        requires next { Writes names.now self.old entry.now }
        requires room { vec_len into.old + 256 ≤ vec_capacity into.old }
        ensures text { into.new.items ≡ into.old.items ++ entry_line names.now entry.now ++ codes "\n" }
        ensures len { vec_len into.new ≤ vec_len into.old + 256 }
        ensures room { vec_capacity into.old ≤ vec_capacity into.new }
        ensures places { self.new.room ≡ self.old.room }
        ensures follows { (set : Set) (history : Many Noted) → Follows set self.old history → IsLegal set (history ++ entry.now ∷ []) → Follows set self.new (history ++ entry.now ∷ []) }
    {
        self.rows.push(entry);
        write_entry(names, entry, &mut self.numerals, into);
    }

    /// Adds the lines of the next entries, each of at most 256 bytes, and keeps the rows up. It takes no memory, and looks at no
    /// earlier entry.
    #[inline(always)]
    pub fn push_all(&mut self, names: &Names, entries: &[Entry], into: &mut Vec<u8>)
        requires next { Continues names.now self.old entries.now }
        requires room { vec_len into.old + 256 * length entries.now ≤ vec_capacity into.old }
        ensures text { into.new.items ≡ into.old.items ++ entries_text names.now entries.now }
        ensures len { vec_len into.new ≤ vec_len into.old + 256 * length entries.now }
        ensures room { vec_capacity into.old ≤ vec_capacity into.new }
        ensures places { self.new.room ≡ self.old.room }
        ensures follows { (set : Set) (history : Many Noted) → Follows set self.old history → IsLegal set (history ++ entries.now) → Follows set self.new (history ++ entries.now) }
    {
        self.rows.push_all(entries);
        write_entries(names, entries, &mut self.numerals, into);
    }

    /// How many planned jobs more have a place.
    pub fn places_left(&self) -> usize
        ensures { self.now.planned + result ≡ self.now.room }
    {
        self.rows.places_left()
    }

    /// Ends the report: adds the jobs, the last items and the last line. After Err the text is as it was.
    pub fn finish(self, names: &Names, items: &Items, into: &mut Vec<u8>) -> Result<(), OutOfMemory>
        requires { Closes names.now self items.now }
        ensures text { (set : Set) (history : Many Noted) → Follows set self history → OnOk result (into.new.items ≡ into.old.items ++ closing_text names.now (job_rows set history) items.now) }
        ensures unchanged { OnErr result (into.new.items ≡ into.old.items) }
    {
        let ReportWriter { rows, numerals: _ } = self;
        let rows = rows.into_rows();
        let mut closing = Vec::new(*into.allocator());
        add_closing(&mut closing, names, rows.as_slice(), items.as_slice())?;
        into.append(&mut closing)?;
        Ok(())
    }
}
