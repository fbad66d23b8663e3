//! Whether a document is a report, told by its declarations, its entries and the bytes around these.
ghost use Rattle.std.specs.Prelude.{◌≡◌, ◌<◌, ◌^◌, length, is_some, IfOk, IfSome, IsTrue};
ghost use Rattle.report_text.specs.Texts.{NamesSet};
ghost use Rattle.step_journal.specs.History.{IsLegal, state_of};
ghost use Rattle.run_report.specs.Report.{report_of};
ghost use Rattle.report_text.specs.Placed.{Stand};
ghost use Rattle.run_report.specs.declared.verdict.Verdict.TheVariants.{Legal};
ghost use Rattle.run_report.specs.Verdict.{IsVerdict};
ghost use Rattle.run_report.specs.Told.{IsTold, IsToldIn};

use crate::compared::is_between;
use crate::declared::compile_head;
use crate::verdict_laws::report_is_legal;
use crate::whole::report_ends;
use item_model::Items;
use report_text::{DocumentError, Front, read_front};
use rt_base::{Names, OutOfMemory};
use serial_replay::{ReplayError, last_items};
use set_admission::{AdmitError, AdmittedSet, admit};
use std::alloc::Global;
use step_journal::Entry;
use txn_compiler::{CompileError, compiled_unless_refused};
use txn_set::CompiledSet;

// The bytes of a document, its entries, and how many bytes are left where their lines begin and where they have ended.
#[derive(Clone, Copy)]
struct Told<'a> {
    bytes: &'a [u8],
    entries: &'a [Entry],
    left: usize,
    after: usize,
}

// Whether the lines around the entries, which are a legal history, are those of their report.
fn has_ends(
    alloc: Global,
    names: &Names,
    set: &CompiledSet,
    bounds: Option<&AdmittedSet>,
    told: Told,
    items: &Items,
) -> Result<bool, OutOfMemory>
    requires stand { Stand names.now told.entries.now told.bytes.now told.left told.after }
    requires names { NamesSet names.now set.now }
    requires same { IfSome bounds (λ b. b.now ≡ set.now) }
    requires legal { IsLegal set.now told.entries.now }
    requires last { items.now ≡ (state_of set.now told.entries.now).items }
    ensures { IfOk result (λ is. IsTrue is → told.entry.bytes.now ≡ report_of names.now set.now (is_some bounds.entry) told.entry.entries.now) }
{
    let (opening, closing) = report_ends(alloc, names, set, bounds, told.entries, items)?;
    Ok(is_between(told.bytes, told.left, told.after, &opening, &closing))
}

// Whether the entries are a legal history, and the lines around them those of their report.
fn is_told(
    alloc: Global,
    names: &Names,
    set: &CompiledSet,
    bounds: Option<&AdmittedSet>,
    told: Told,
) -> Result<bool, OutOfMemory>
    requires stand { Stand names.now told.entries.now told.bytes.now told.left told.after }
    requires names { NamesSet names.now set.now }
    requires same { IfSome bounds (λ b. b.now ≡ set.now) }
    ensures { IfOk result (λ is. IsTrue is → IsTold told.entry.bytes.now names.now set.now (is_some bounds.entry) told.entry.entries.now) }
{
    match last_items(alloc, set, told.entries) {
        Err(ReplayError::OutOfMemory) => Err(OutOfMemory),
        Err(ReplayError::NotLegal { index: _ }) => Ok(false),
        Ok(items) => has_ends(alloc, names, set, bounds, told, &items),
    }
}

// Whether the bytes are the report of a compiled set in this mode; if it is that of an admitted run, the set must be admitted.
fn is_told_in(
    alloc: Global,
    names: &Names,
    set: CompiledSet,
    admitted: bool,
    told: Told,
) -> Result<bool, OutOfMemory>
    requires stand { Stand names.now told.entries.now told.bytes.now told.left told.after }
    requires names { NamesSet names.now set }
    ensures { IfOk result (λ is. IsTrue is → IsToldIn told.entry.bytes.now names.now set admitted told.entry.entries.now) }
{
    if !admitted {
        return is_told(alloc, names, &set, None, told);
    }
    match admit(alloc, set) {
        Err((_, AdmitError::OutOfMemory)) => Err(OutOfMemory),
        Err((_, _)) => Ok(false),
        Ok(admitted) => is_told(alloc, names, admitted.set(), Some(&admitted), told),
    }
}

/// Whether a document is the report of the set and of the entries with which it begins. The lines after the entries are
/// compared, and not read.
pub(crate) fn is_report(alloc: Global, bytes: &[u8]) -> Result<bool, OutOfMemory>
    requires { length bytes.now < 2 ^ 32 }
    ensures { IfOk result (λ is. IsTrue is → IsVerdict bytes.now Legal) }
{
    report_is_legal();
    compiled_unless_refused();
    let front = match read_front(alloc, bytes) {
        Err(DocumentError::OutOfMemory) => return Err(OutOfMemory),
        Err(_) => return Ok(false),
        Ok(front) => front,
    };
    let Front {
        head,
        entries,
        left,
        after,
    } = front;
    let admitted = head.admitted;
    match compile_head(alloc, head) {
        Err(CompileError::OutOfMemory) => Err(OutOfMemory),
        Err(_) => Ok(false),
        Ok((names, set)) => {
            let told = Told {
                bytes,
                entries: entries.as_slice(),
                left,
                after,
            };
            is_told_in(alloc, names.names(), set, admitted, told)
        }
    }
}
