//! The verdict on a report.
ghost use Rattle.std.specs.Prelude.{◌≡◌, ◌≤◌, [], ◌++◌, codes, length, IfOk, OnOk};
ghost use Rattle.std.specs.Fmt.{decimal};
ghost use Rattle.run_report.specs.Verdict.{names_of};
ghost use Rattle.command_replies.specs.Replies.{VerdictReply};
ghost use Rattle.command_replies.specs.Verdicts.{set_cause, verdict_words, verdict_text, status_of};

use crate::reply::{Reply, no_names};
use io_edge::Status;
use itoa::Buffer;
use refusal_lines::{put_admit_cause, put_compile_cause};
use report_text::{HeadError, read_head};
use rt_base::{Names, OutOfMemory};
use run_report::{SetError, Verdict, check_document};
use std::alloc::Global;

/// The most bytes of a report.
pub const REPORT_LIMIT: usize = 268_435_456;

// The names that a report declares, for the line of a refusal.
fn names(alloc: Global, input: &[u8]) -> Result<Names, OutOfMemory>
    requires { length input.now ≤ REPORT_LIMIT }
    ensures { IfOk result (λ names. names ≡ names_of input.now) }
{
    match read_head(alloc, input) {
        Ok(head) => Ok(head.names.into_names()),
        Err(HeadError::OutOfMemory) => Err(OutOfMemory),
        Err(HeadError::BadLine { .. }) => Ok(no_names(alloc)),
        Err(HeadError::Unfinished) => Ok(no_names(alloc)),
    }
}

fn put_line(out: &mut Vec<u8>, words: &[u8], n: usize) -> Result<(), OutOfMemory>
    ensures { OnOk result (out.new.items ≡ out.old.items ++ words.now ++ decimal n) }
{
    out.extend_from_slice(words)?;
    out.extend_from_slice(Buffer::new().format(n).as_bytes())?;
    Ok(())
}

fn put_set(out: &mut Vec<u8>, names: &Names, error: SetError) -> Result<(), OutOfMemory>
    ensures { OnOk result (out.new.items ≡ out.old.items ++ set_cause names.now error) }
{
    match error {
        SetError::Compile(error) => put_compile_cause(out, names, error),
        SetError::Admit(error) => put_admit_cause(out, names, error),
    }
}

// What is said of a report.
fn put_words(
    alloc: Global,
    out: &mut Vec<u8>,
    input: &[u8],
    verdict: &Verdict,
) -> Result<(), OutOfMemory>
    requires { length input.now ≤ REPORT_LIMIT }
    ensures { OnOk result (out.new.items ≡ out.old.items ++ verdict_words (names_of input.now) verdict.now) }
{
    match verdict {
        Verdict::Legal => {
            out.extend_from_slice(b"legal")?;
            Ok(())
        }
        Verdict::BadLine { n } => put_line(out, b"bad line ", *n),
        Verdict::Unfinished => {
            out.extend_from_slice(b"unfinished")?;
            Ok(())
        }
        Verdict::BadSet { error } => {
            out.extend_from_slice(b"bad set ")?;
            put_set(out, &names(alloc, input)?, *error)
        }
        Verdict::NotALegalStep { n } => put_line(out, b"illegal step at line ", *n),
        Verdict::WrongLine { n } => put_line(out, b"wrong line ", *n),
        Verdict::WrongItem { item } => {
            out.extend_from_slice(b"wrong item ")?;
            out.extend_from_slice(item.as_slice())?;
            Ok(())
        }
    }
}

fn status(verdict: &Verdict) -> Status
    ensures { result ≡ status_of verdict.now }
{
    match verdict {
        Verdict::Legal => Status::Ok,
        _ => Status::NotLegal,
    }
}

/// The reply of `replay` to a report with this verdict: its line, and Ok or NotLegal.
pub fn verdict_reply(alloc: Global, input: &[u8], verdict: &Verdict) -> Result<Reply, OutOfMemory>
    requires { length input.now ≤ REPORT_LIMIT }
    ensures { IfOk result (λ r. (r.status ≡ status_of verdict.now) × (r.text.items ≡ verdict_text (names_of input.now) verdict.now)) }
{
    let mut text = Vec::new(alloc);
    put_words(alloc, &mut text, input, verdict)?;
    text.extend_from_slice(b"\n")?;
    let status = status(verdict);
    Ok(Reply { status, text })
}

/// The reply of `replay` to a report.
pub fn replayed(alloc: Global, input: &[u8]) -> Result<Reply, OutOfMemory>
    requires { length input.now ≤ REPORT_LIMIT }
    ensures { IfOk result (λ r. VerdictReply input.now r.status r.text.items) }
{
    let verdict = check_document(alloc, input)?;
    verdict_reply(alloc, input, &verdict)
}
