//! A report, read as a document.
ghost use Rattle.std.specs.Prelude.{◌≡◌, ◌≤◌, ◌<◌, ◌+◌, ◌^◌, drop, length, codes, Ok, Err, IfOk, IfErr};
ghost use Rattle.std.specs.List.{All};
ghost use Rattle.std.specs.Str.{bytes_eq};
ghost use Rattle.journal_text.specs.Lines.{HasLine};
ghost use Rattle.report_text.specs.Head.{head_of};
ghost use Rattle.report_text.specs.IsHead.{IsHead};
ghost use Rattle.report_text.specs.declared.document.DocumentError.TheVariants.{OutOfMemory};
ghost use Rattle.report_text.specs.Document.{lines_of, fault_of, is_second as is_second_line, kind_of, body_of, after_head as after_head_of, document_of, Reads};
ghost use Rattle.report_text.specs.Placed.{document_in, EndsWith, Stand};

use crate::forms::Kind;
use crate::parts::{add_entries, end_fault, to_end, to_entries};
use crate::read::{Head, HeadError, read_head};
use line_fields::cut;
use rt_base::List;
use std::alloc::Global;
use step_journal::Entry;

/// A document in which each line is a line of a report and stands in order: its declarations and its entries.
#[derive(Drop)]
pub struct Document {
    pub head: Head,
    /// Whether the first line is that of the second version.
    pub second: bool,
    pub entries: List<Entry>,
    /// The number of the line of the first entry, counted from 1; each other entry has the line after the one before it.
    /// Without entries it is the line where they would stand.
    pub first: usize,
}

/// A document, and where its entries stand in its bytes.
#[derive(Drop)]
pub struct Placed {
    pub document: Document,
    /// How many bytes are left where the line of the first entry begins.
    pub left: usize,
    /// How many bytes are left where the line of the last entry has ended.
    pub after: usize,
}

/// The declarations and the entries with which a text begins, and where the entries stand in its bytes. What follows them may be
/// anything.
#[derive(Drop)]
pub struct Front {
    pub head: Head,
    pub entries: List<Entry>,
    /// How many bytes are left where the line of the first entry begins.
    pub left: usize,
    /// How many bytes are left where the line of the last entry has ended.
    pub after: usize,
}

/// Why a document is not read.
#[derive(Clone, Copy, Debug, PartialEq, Eq)]
pub enum DocumentError {
    /// The first line, counted from 1, that is no line of a report, has no line end, or stands out of order.
    BadLine { n: usize },
    /// All lines are good, and the last is not the last line of a report.
    Unfinished,
    OutOfMemory,
}

fn fault(error: HeadError) -> DocumentError
    ensures { result ≡ fault_of error }
{
    match error {
        HeadError::BadLine { n } => DocumentError::BadLine { n },
        HeadError::Unfinished => DocumentError::Unfinished,
        HeadError::OutOfMemory => DocumentError::OutOfMemory,
    }
}

// What stands after the first line; all of it where no line ends.
fn after_line(bytes: &[u8]) -> &[u8]
    ensures left { (lines_of result.now).0 ≡ drop 1 (lines_of bytes.now).0 }
    ensures last { (lines_of result.now).1 ≡ (lines_of bytes.now).1 }
    ensures len { length result.now ≤ length bytes.now }
    ensures ends { EndsWith bytes.now result.now }
{
    match cut(b'\n', bytes) {
        Some((_, rest)) => rest,
        None => bytes,
    }
}

// What stands after so many lines.
fn after_lines(bytes: &[u8], count: usize) -> &[u8]
    ensures left { (lines_of result.now).0 ≡ drop count (lines_of bytes.now).0 }
    ensures last { (lines_of result.now).1 ≡ (lines_of bytes.now).1 }
    ensures len { length result.now ≤ length bytes.now }
    ensures ends { EndsWith bytes.now result.now }
{
    let mut rest = bytes;
    for i in 0..count {
        let _line = i;
        rest = after_line(rest);
    }
    rest
}

fn is_second_version(line: &[u8]) -> bool
    ensures { result ≡ bytes_eq line.now (codes "rtdb report 2") }
{
    line == b"rtdb report 2".as_slice()
}

fn is_second(bytes: &[u8]) -> bool
    ensures { result ≡ is_second_line (lines_of bytes.now).0 }
{
    match cut(b'\n', bytes) {
        Some((line, _)) => is_second_version(line),
        None => false,
    }
}

// The document with this head, from the line after the mode line on.
#[tactic(auto, unfolding(crate::specs::Document::body_of))]
fn body(
    alloc: Global,
    head: Head,
    kind: Kind,
    text: &[u8],
    n: usize,
) -> Result<Placed, DocumentError>
    requires { n + length text.now < 2 ^ 33 }
    ensures document { Reads (document_in result) (body_of head kind n (lines_of text.now).0 (lines_of text.now).1) }
    ensures head { IfOk result (λ p. p.document.head ≡ head) }
    ensures places { IfOk result (λ p. Stand head.names p.document.entries text.now p.left p.after) }
{
    let (rest, first) = to_entries(kind, &head.names, text, n);
    let left = rest.len();
    let mut entries = Vec::new(alloc);
    let Ok((rest, jobs)) = add_entries(&mut entries, kind.second, &head.names, rest, first) else {
        drop(head);
        return Err(DocumentError::OutOfMemory);
    };
    let after = rest.len();
    let (rest, end) = to_end(kind, &head.names, rest, jobs);
    match end_fault(end, rest) {
        Some(error) => {
            drop(head);
            Err(error)
        }
        None => Ok(Placed {
            document: Document {
                head,
                second: kind.second,
                entries: List::of(entries),
                first,
            },
            left,
            after,
        }),
    }
}

fn after_head(alloc: Global, head: Head, bytes: &[u8]) -> Result<Placed, DocumentError>
    requires few { length bytes.now < 2 ^ 32 }
    requires read { Ok head ≡ head_of bytes.now }
    requires good { IsHead head }
    ensures document { Reads (document_in result) (after_head_of (lines_of bytes.now).0 (lines_of bytes.now).1 (Ok head)) }
    ensures head { IfOk result (λ p. p.document.head ≡ head) }
    ensures places { IfOk result (λ p. Stand head.names p.document.entries bytes.now p.left p.after) }
{
    let kind = Kind {
        second: is_second(bytes),
        admitted: head.admitted,
    };
    let rest = after_lines(bytes, head.lines);
    let n = head.lines + 1;
    body(alloc, head, kind, rest, n)
}

/// Reads a document as `read_document` does, and says where the lines of its entries stand: they are the very bytes there.
pub fn read_placed(alloc: Global, bytes: &[u8]) -> Result<Placed, DocumentError>
    requires { length bytes.now < 2 ^ 32 }
    ensures document { Reads (document_in result) (document_of bytes.now) }
    ensures good { IfOk result (λ p. IsHead p.document.head) }
    ensures places { IfOk result (λ p. Stand p.document.head.names p.document.entries bytes.now p.left p.after) }
{
    match read_head(alloc, bytes) {
        Err(error) => Err(fault(error)),
        Ok(head) => after_head(alloc, head, bytes),
    }
}

/// Reads a document in one pass: Ok gives the declarations and the entries, where each line is a line of a report and they
/// stand in the order of its parts, up to the last line. What the lines say is not judged. It looks each name up in a
/// hash map, and keeps no text.
pub fn read_document(alloc: Global, bytes: &[u8]) -> Result<Document, DocumentError>
    requires { length bytes.now < 2 ^ 32 }
    ensures document { Reads result (document_of bytes.now) }
    ensures good { IfOk result (λ d. IsHead d.head) }
{
    match read_placed(alloc, bytes) {
        Err(error) => Err(error),
        Ok(placed) => {
            let Placed {
                document,
                left: _,
                after: _,
            } = placed;
            Ok(document)
        }
    }
}

// The front with this head, from the line after the mode line on.
fn front_from(
    alloc: Global,
    head: Head,
    kind: Kind,
    text: &[u8],
    n: usize,
) -> Result<Front, DocumentError>
    requires { n + length text.now < 2 ^ 33 }
    ensures head { IfOk result (λ f. f.head ≡ head) }
    ensures lines { IfOk result (λ f. All (HasLine head.names) f.entries) }
    ensures places { IfOk result (λ f. Stand head.names f.entries text.now f.left f.after) }
    ensures memory { IfErr result (λ e. e ≡ OutOfMemory) }
{
    let (rest, first) = to_entries(kind, &head.names, text, n);
    let left = rest.len();
    let mut entries = Vec::new(alloc);
    let Ok((rest, _)) = add_entries(&mut entries, kind.second, &head.names, rest, first) else {
        drop(head);
        return Err(DocumentError::OutOfMemory);
    };
    Ok(Front {
        head,
        entries: List::of(entries),
        left,
        after: rest.len(),
    })
}

fn front_after(alloc: Global, head: Head, bytes: &[u8]) -> Result<Front, DocumentError>
    requires few { length bytes.now < 2 ^ 32 }
    requires read { Ok head ≡ head_of bytes.now }
    ensures head { IfOk result (λ f. f.head ≡ head) }
    ensures lines { IfOk result (λ f. All (HasLine head.names) f.entries) }
    ensures places { IfOk result (λ f. Stand head.names f.entries bytes.now f.left f.after) }
    ensures memory { IfErr result (λ e. e ≡ OutOfMemory) }
{
    let kind = Kind {
        second: is_second(bytes),
        admitted: head.admitted,
    };
    let rest = after_lines(bytes, head.lines);
    let n = head.lines + 1;
    front_from(alloc, head, kind, rest, n)
}

/// Reads the declarations and the entries with which a document begins, up to the first line after the declarations' own lines
/// that is no entry's, and looks at nothing that follows. An error is that of `read_document`.
pub fn read_front(alloc: Global, bytes: &[u8]) -> Result<Front, DocumentError>
    requires { length bytes.now < 2 ^ 32 }
    ensures head { IfOk result (λ f. Ok f.head ≡ head_of bytes.now) }
    ensures good { IfOk result (λ f. IsHead f.head) }
    ensures lines { IfOk result (λ f. All (HasLine f.head.names) f.entries) }
    ensures places { IfOk result (λ f. Stand f.head.names f.entries bytes.now f.left f.after) }
    ensures error { IfErr result (λ e. Reads (Err e) (document_of bytes.now)) }
{
    match read_head(alloc, bytes) {
        Err(error) => Err(fault(error)),
        Ok(head) => front_after(alloc, head, bytes),
    }
}
