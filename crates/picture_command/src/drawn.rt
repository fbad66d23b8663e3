//! The picture of a report.
ghost use Rattle.std.specs.Prelude.{◌≡◌, ◌<◌, ◌≤◌, ◌^◌, length, None, IfOk};
ghost use Rattle.step_journal.specs.History.{IsLegal, state_of};
ghost use Rattle.job_rows.specs.Rows.{job_rows};
ghost use Rattle.report_text.specs.IsHead.{IsHead, set_of};
ghost use Rattle.run_report.specs.declared.verdict.Verdict.TheVariants.{Legal as LegalReport};
ghost use Rattle.run_report.specs.Verdict.{IsVerdict, Tells, set_refusal, report_for};
ghost use Rattle.picture_command.specs.Limits.{limits_of};
ghost use Rattle.picture_command.specs.Parts.{IsEarly};
ghost use Rattle.picture_command.specs.Answers.{picture_of as picture_of_history, picture_in, is_ok as is_ok_status, PictureReply};

use crate::limits::with_limits;
use crate::wanted::{Wanted, part_in};
use crate::whole::{Contents, page};
use command_replies::{REPORT_LIMIT, Reply, replayed, written};
use io_edge::Status;
use item_model::Items;
use job_rows::JobRow;
use name_table::NameTables;
use picture_text::picture;
use report_text::{Document, DocumentError, Head, read_document};
use rt_base::{List, Names, OutOfMemory};
use run_report::compile_head;
use schedule_marks::{Limits, show};
use serial_replay::{ReplayError, last_items, replay};
use std::alloc::Global;
use step_journal::Entry;
use txn_compiler::CompileError;
use txn_set::CompiledSet;

// Why a legal history is not replayed.
fn not_replayed(error: ReplayError) -> OutOfMemory
    requires { error ≡ ReplayError.OutOfMemory }
{
    match error {
        ReplayError::OutOfMemory => OutOfMemory,
        ReplayError::NotLegal { .. } => unreachable!(),
    }
}

// The rows of the jobs of a legal history.
#[tactic(auto, using(crate::proofs::Legal::replaying_wants))]
fn rows_of(alloc: Global, set: &CompiledSet, entries: &[Entry]) -> Result<List<JobRow>, OutOfMemory>
    requires { IsLegal set.now entries.now }
    ensures { IfOk result (λ rows. rows ≡ job_rows set.now entries.now) }
{
    match replay(alloc, set, entries) {
        Ok(replayed) => Ok(replayed.jobs),
        Err(error) => Err(not_replayed(error)),
    }
}

// The last items of a legal history.
#[tactic(auto, using(crate::proofs::Legal::replaying_wants))]
fn items_of(alloc: Global, set: &CompiledSet, entries: &[Entry]) -> Result<Items, OutOfMemory>
    requires { IsLegal set.now entries.now }
    ensures { IfOk result (λ items. items ≡ (state_of set.now entries.now).items) }
{
    match last_items(alloc, set, entries) {
        Ok(items) => Ok(items),
        Err(error) => Err(not_replayed(error)),
    }
}

// A page, or a picture alone.
fn picture_of(
    alloc: Global,
    names: &Names,
    set: &CompiledSet,
    limits: &Limits,
    entries: &[Entry],
    wanted: Wanted,
) -> Result<Vec<u8>, OutOfMemory>
    requires legal { IsLegal set.now entries.now }
    requires early { IsEarly wanted }
    ensures { IfOk result (λ text. text.items ≡ picture_of_history names.now set.now limits.now entries.now wanted) }
{
    let rows = rows_of(alloc, set, entries)?;
    let part = part_in(wanted.ticks, entries);
    let shown = show(alloc, set, part, limits, rows.as_slice(), entries)?;
    if wanted.page {
        let items = items_of(alloc, set, entries)?;
        let contents = Contents { rows, items, shown };
        page(alloc, names, set, part, limits, &contents)
    } else {
        picture(alloc, names, set, part, limits, &shown)
    }
}

// Why declarations that are not refused are not compiled.
fn not_compiled(error: CompileError) -> OutOfMemory
    requires { error ≡ CompileError.OutOfMemory }
{
    match error {
        CompileError::OutOfMemory => OutOfMemory,
        _ => unreachable!(),
    }
}

// The declarations of a report that are not refused, with their names.
#[tactic(auto, using(crate::proofs::Legal::compiling_wants))]
fn compiled(alloc: Global, head: Head) -> Result<(NameTables, CompiledSet), OutOfMemory>
    requires good { IsHead head }
    requires not_refused { set_refusal head ≡ None }
    ensures names { IfOk result (λ r. r.0 ≡ head.names) }
    ensures set { IfOk result (λ r. r.1 ≡ set_of head) }
{
    match compile_head(alloc, head) {
        Ok(compiled) => Ok(compiled),
        Err(error) => Err(not_compiled(error)),
    }
}

// The picture of a document that is a legal report.
#[tactic(auto, using(crate::proofs::Admitting::not_refused_in))]
fn picture_of_document(
    alloc: Global,
    document: Document,
    wanted: Wanted,
) -> Result<Vec<u8>, OutOfMemory>
    requires good { IsHead document.head }
    requires not_refused { set_refusal document.head ≡ None }
    requires legal { IsLegal (set_of document.head) document.entries }
    requires early { IsEarly wanted }
    ensures { IfOk result (λ text. text.items ≡ picture_in document wanted) }
{
    let Document {
        head,
        second: _,
        entries,
        first: _,
    } = document;
    let admitted = head.admitted;
    let (tables, set) = compiled(alloc, head)?;
    let (set, limits) = with_limits(alloc, set, admitted)?;
    picture_of(
        alloc,
        tables.names(),
        &set,
        &limits,
        entries.as_slice(),
        wanted,
    )
}

// Why a legal report is not read.
fn not_read(error: DocumentError) -> OutOfMemory
    requires { error ≡ DocumentError.OutOfMemory }
{
    match error {
        DocumentError::OutOfMemory => OutOfMemory,
        DocumentError::BadLine { .. } => unreachable!(),
        DocumentError::Unfinished => unreachable!(),
    }
}

// The document that a legal report is.
#[tactic(auto, using(crate::proofs::Legal::reading_wants, crate::proofs::Legal::tells_same, crate::proofs::Legal::whole_same))]
fn legal_document(alloc: Global, input: &[u8]) -> Result<Document, OutOfMemory>
    requires short { length input.now ≤ REPORT_LIMIT }
    requires legal { IsVerdict input.now LegalReport }
    ensures tells { IfOk result (λ d. Tells input.now d) }
    ensures whole { IfOk result (λ d. input.now ≡ report_for d) }
    ensures good { IfOk result (λ d. IsHead d.head) }
{
    match read_document(alloc, input) {
        Ok(document) => Ok(document),
        Err(error) => Err(not_read(error)),
    }
}

fn is_ok(status: Status) -> bool
    ensures { result ≡ is_ok_status status }
{
    match status {
        Status::Ok => true,
        _ => false,
    }
}

/// The picture of a legal report, or else the verdict's line.
#[tactic(auto, using(crate::proofs::Legal::is_legal, crate::proofs::Legal::verdict_line, crate::proofs::Legal::is_drawn))]
pub fn drawn(alloc: Global, input: &[u8], wanted: Wanted) -> Result<Reply, OutOfMemory>
    requires short { length input.now ≤ REPORT_LIMIT }
    requires early { IsEarly wanted }
    ensures { IfOk result (λ r. PictureReply wanted input.now r.status r.text.items) }
{
    let reply = replayed(alloc, input)?;
    if !is_ok(reply.status) {
        return Ok(reply);
    }
    let document = legal_document(alloc, input)?;
    Ok(written(picture_of_document(alloc, document, wanted)?))
}
