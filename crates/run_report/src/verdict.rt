//! What is said of a document.
ghost use Rattle.std.specs.Prelude.{◌≡◌, ◌≢◌, ◌<◌, ◌^◌, length, is_some, None, Ok, IfOk, IfSome};
ghost use Rattle.txn_compiler.specs.Refusal.{compile_refusal};
ghost use Rattle.txn_compiler.specs.declared.error.CompileError.TheVariants.{OutOfMemory as NoMemoryToCompile};
ghost use Rattle.set_admission.specs.declared.error.AdmitError.TheVariants.{OutOfMemory as NoMemoryToAdmit};
ghost use Rattle.report_text.specs.Texts.{NamesSet};
ghost use Rattle.report_text.specs.IsHead.{IsHead};
ghost use Rattle.step_journal.specs.History.{IsLegal, state_of};
ghost use Rattle.report_text.specs.Document.{document_of};
ghost use Rattle.report_text.specs.Placed.{Stand};
ghost use Rattle.run_report.specs.declared.verdict.SetError.TheVariants.{Compile, Admit};
ghost use Rattle.run_report.specs.declared.verdict.Verdict.TheVariants.{BadSet};
ghost use Rattle.run_report.specs.declared.judged.Judged.TheVariants.{Other as OtherVerdict};
ghost use Rattle.run_report.specs.Verdict.{refusal_in, IsVerdict, HasParts};
ghost use Rattle.run_report.specs.Judged.{set_in, is_admitted, IsFound, IsJudged};

use crate::compared::{compared, is_between};
use crate::declared::compile_head;
use crate::judged::{Found, Judged, LegalReport, ReportedSet, found_of};
use crate::told::is_report;
use crate::whole::{report_ends, report_with_items};
use item_model::Items;
use name_table::NameTables;
use report_text::{Document, DocumentError, Placed, read_placed};
use rt_base::{List, Name, OutOfMemory};
use serial_replay::{ReplayError, last_items};
use set_admission::{AdmitError, AdmittedSet, admit, admitted_unless_refused};
use std::alloc::Global;
use step_journal::Entry;
use txn_compiler::CompileError;
use txn_set::CompiledSet;

/// What is said of a document: the first of these that holds of it.
#[derive(Clone, Copy, Drop)]
pub enum Verdict {
    /// The document is the report of the declared set, its mode and its entries.
    Legal,
    /// The first line, counted from 1, that is no line of a report, has no line end, or stands out of order.
    BadLine { n: usize },
    /// All lines are good, and the last is not the last line of a report; or there is no line.
    Unfinished,
    /// What is declared is no set, or none that is admitted where the mode says so.
    BadSet { error: SetError },
    /// The line of the first entry that is no legal step after those before it.
    NotALegalStep { n: usize },
    /// The first line that differs from the report, or that one of the two does not have.
    WrongLine { n: usize },
    /// The first line that differs is that of this item's last value, in both.
    WrongItem { item: Name },
}

/// Why a declared set is refused, want of memory aside. Ids are those of the declarations.
#[derive(Clone, Copy, PartialEq, Eq, Debug)]
pub enum SetError {
    Compile(CompileError),
    Admit(AdmitError),
}

fn not_compiled(error: CompileError) -> Result<Judged, OutOfMemory>
    ensures { IfOk result (λ j. (j ≡ OtherVerdict (BadSet (Compile error))) × (error ≢ NoMemoryToCompile)) }
{
    match error {
        CompileError::OutOfMemory => Err(OutOfMemory),
        error => Ok(Judged::Other(Verdict::BadSet {
            error: SetError::Compile(error),
        })),
    }
}

fn not_admitted(error: AdmitError) -> Result<Judged, OutOfMemory>
    ensures { IfOk result (λ j. (j ≡ OtherVerdict (BadSet (Admit error))) × (error ≢ NoMemoryToAdmit)) }
{
    match error {
        AdmitError::OutOfMemory => Err(OutOfMemory),
        error => Ok(Judged::Other(Verdict::BadSet {
            error: SetError::Admit(error),
        })),
    }
}

// The bytes of a document, its entries, the number of the line of the first, and how many bytes are left where their lines
// begin and where they have ended.
#[derive(Clone, Copy)]
struct Told<'a> {
    bytes: &'a [u8],
    entries: &'a [Entry],
    first: usize,
    left: usize,
    after: usize,
}

// The verdict on the lines around the entries, which are a legal history. The lines of the entries are those of the report.
fn judge_lines(
    alloc: Global,
    names: &NameTables,
    set: &CompiledSet,
    bounds: Option<&AdmittedSet>,
    told: Told,
    items: &Items,
) -> Result<Verdict, OutOfMemory>
    requires bytes { length told.bytes.now < 2 ^ 32 }
    requires parts { HasParts told.bytes.now names.now set.now (is_some bounds) told.entries.now told.first }
    requires stand { Stand names.now told.entries.now told.bytes.now told.left told.after }
    requires admitted { refusal_in (is_some bounds) set.now ≡ None }
    requires names { NamesSet names.now set.now }
    requires same { IfSome bounds (λ b. b.now ≡ set.now) }
    requires legal { IsLegal set.now told.entries.now }
    requires last { items.now ≡ (state_of set.now told.entries.now).items }
    ensures { IfOk result (IsVerdict told.entry.bytes.now) }
{
    let (opening, closing) = report_ends(alloc, names.names(), set, bounds, told.entries, items)?;
    if is_between(told.bytes, told.left, told.after, &opening, &closing) {
        return Ok(Verdict::Legal);
    }
    let text = report_with_items(alloc, names.names(), set, bounds, told.entries, items)?;
    Ok(compared(names, told.bytes, &text))
}

// The verdict on the entries and the lines around them, with the items after the entries of a legal report.
#[tactic(auto, using(crate::proofs::Parts::found_told, crate::proofs::Parts::illegal_other))]
fn judge_entries(
    alloc: Global,
    names: &NameTables,
    set: &CompiledSet,
    bounds: Option<&AdmittedSet>,
    told: Told,
) -> Result<Found, OutOfMemory>
    requires bytes { length told.bytes.now < 2 ^ 32 }
    requires first { told.first < 2 ^ 33 }
    requires parts { HasParts told.bytes.now names.now set.now (is_some bounds) told.entries.now told.first }
    requires stand { Stand names.now told.entries.now told.bytes.now told.left told.after }
    requires admitted { refusal_in (is_some bounds) set.now ≡ None }
    requires names { NamesSet names.now set.now }
    requires same { IfSome bounds (λ b. b.now ≡ set.now) }
    ensures { IfOk result (IsFound told.entry.bytes.now set.now told.entry.entries.now) }
{
    set.is_compiled();
    let first = told.first;
    match last_items(alloc, set, told.entries) {
        Err(ReplayError::OutOfMemory) => Err(OutOfMemory),
        Err(ReplayError::NotLegal { index }) => {
            Ok(Found::Other(Verdict::NotALegalStep { n: first + index }))
        }
        Ok(items) => {
            let verdict = judge_lines(alloc, names, set, bounds, told, &items)?;
            Ok(found_of(verdict, items))
        }
    }
}

// The verdict on the report of a set, which ran on trial or is admitted.
fn judge_reported(
    alloc: Global,
    names: &NameTables,
    set: &ReportedSet,
    told: Told,
) -> Result<Found, OutOfMemory>
    requires bytes { length told.bytes.now < 2 ^ 32 }
    requires first { told.first < 2 ^ 33 }
    requires parts { HasParts told.bytes.now names.now (set_in set.now) (is_admitted set.now) told.entries.now told.first }
    requires stand { Stand names.now told.entries.now told.bytes.now told.left told.after }
    requires admitted { refusal_in (is_admitted set.now) (set_in set.now) ≡ None }
    requires names { NamesSet names.now (set_in set.now) }
    ensures { IfOk result (IsFound told.entry.bytes.now (set_in set.now) told.entry.entries.now) }
{
    match set {
        ReportedSet::Trial(set) => judge_entries(alloc, names, set, None, told),
        ReportedSet::Admitted(set) => judge_entries(alloc, names, set.set(), Some(set), told),
    }
}

// The bytes of a document, and the numbers of what was told of its entries.
#[derive(Clone, Copy)]
struct Around<'a> {
    bytes: &'a [u8],
    first: usize,
    left: usize,
    after: usize,
}

// The verdict on a document whose declarations are a set that is not refused.
#[tactic(auto, using(crate::proofs::Parts::says))]
fn judge_parts(
    alloc: Global,
    names: NameTables,
    set: ReportedSet,
    entries: List<Entry>,
    around: Around,
) -> Result<Judged, OutOfMemory>
    requires bytes { length around.bytes.now < 2 ^ 32 }
    requires first { around.first < 2 ^ 33 }
    requires parts { HasParts around.bytes.now names (set_in set) (is_admitted set) entries around.first }
    requires stand { Stand names entries around.bytes.now around.left around.after }
    requires admitted { refusal_in (is_admitted set) (set_in set) ≡ None }
    requires names { NamesSet names (set_in set) }
    ensures { IfOk result (IsJudged around.entry.bytes.now) }
{
    let told = Told {
        bytes: around.bytes,
        entries: entries.as_slice(),
        first: around.first,
        left: around.left,
        after: around.after,
    };
    match judge_reported(alloc, &names, &set, told) {
        Ok(Found::Legal(items)) => Ok(Judged::Legal(LegalReport {
            names,
            set,
            entries,
            items,
        })),
        Ok(Found::Other(verdict)) => {
            drop((names, set, entries));
            Ok(Judged::Other(verdict))
        }
        Err(error) => {
            drop((names, set, entries));
            Err(error)
        }
    }
}

// The verdict on a document whose declarations are a set.
#[tactic(auto, using(crate::proofs::Judging::bad_admit))]
fn judge_mode(
    alloc: Global,
    names: NameTables,
    set: CompiledSet,
    admitted: bool,
    entries: List<Entry>,
    around: Around,
) -> Result<Judged, OutOfMemory>
    requires bytes { length around.bytes.now < 2 ^ 32 }
    requires first { around.first < 2 ^ 33 }
    requires parts { HasParts around.bytes.now names set admitted entries around.first }
    requires stand { Stand names entries around.bytes.now around.left around.after }
    requires names { NamesSet names set }
    ensures { IfOk result (IsJudged around.entry.bytes.now) }
{
    if !admitted {
        return judge_parts(alloc, names, ReportedSet::Trial(set), entries, around);
    }
    set.is_compiled();
    admitted_unless_refused();
    match admit(alloc, set) {
        Err((set, error)) => {
            drop((names, set, entries));
            not_admitted(error)
        }
        Ok(set) => judge_parts(alloc, names, ReportedSet::Admitted(set), entries, around),
    }
}

// The verdict on a document that was read.
#[tactic(auto, using(crate::proofs::Judging::bad_compile))]
fn judge(alloc: Global, bytes: &[u8], placed: Placed) -> Result<Judged, OutOfMemory>
    requires bytes { length bytes.now < 2 ^ 32 }
    requires read { document_of bytes.now ≡ Ok placed.document }
    requires good { IsHead placed.document.head }
    requires stand { Stand placed.document.head.names placed.document.entries bytes.now placed.left placed.after }
    ensures { IfOk result (IsJudged bytes.now) }
{
    let Placed {
        document,
        left,
        after,
    } = placed;
    let Document {
        head,
        second: _,
        entries,
        first,
    } = document;
    let admitted = head.admitted;
    match compile_head(alloc, head) {
        Err(error) => not_compiled(error),
        Ok((names, set)) => {
            let around = Around {
                bytes,
                first,
                left,
                after,
            };
            judge_mode(alloc, names, set, admitted, entries, around)
        }
    }
}

/// Judges a document that is to be a report, by its bytes alone, and hands out what a legal one says: it reads the document,
/// compiles the declared set and admits it where the mode says so, replays the entries, and compares the lines around the
/// entries with those of the report of the set and the entries. The line of an entry was read as this entry, and so is its
/// line there. It takes memory for the entries and for the lines around them, and for the whole report where the document
/// differs from it.
pub fn judge_document(alloc: Global, bytes: &[u8]) -> Result<Judged, OutOfMemory>
    requires { length bytes.now < 2 ^ 32 }
    ensures { IfOk result (IsJudged bytes.now) }
{
    match read_placed(alloc, bytes) {
        Err(DocumentError::BadLine { n }) => Ok(Judged::Other(Verdict::BadLine { n })),
        Err(DocumentError::Unfinished) => Ok(Judged::Other(Verdict::Unfinished)),
        Err(DocumentError::OutOfMemory) => Err(OutOfMemory),
        Ok(placed) => judge(alloc, bytes, placed),
    }
}

/// The verdict on a document that is to be a report. A legal one is told by its declarations and entries, which are read, and by
/// the bytes around the entries, which are compared with those that the report has there. Any other document is then judged as
/// by `judge_document`, from its first line on.
#[tactic(auto, using(crate::proofs::Parts::legal_verdict))]
pub fn check_document(alloc: Global, bytes: &[u8]) -> Result<Verdict, OutOfMemory>
    requires { length bytes.now < 2 ^ 32 }
    ensures { IfOk result (IsVerdict bytes.now) }
{
    if is_report(alloc, bytes)? {
        return Ok(Verdict::Legal);
    }
    match judge_document(alloc, bytes)? {
        Judged::Legal(report) => {
            drop(report);
            Ok(Verdict::Legal)
        }
        Judged::Other(verdict) => Ok(verdict),
    }
}
