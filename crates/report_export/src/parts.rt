//! Parts of lines are added to text for which there is room.
ghost use Rattle.std.specs.Prelude.{◌≡◌, ◌+◌, ◌≤◌, ◌<◌, ◌++◌, ◌∷◌, length, decimal, OnOk, vec_len, vec_capacity};
ghost use Rattle.journal_text.specs.Ids.{name_at, job_text};
ghost use Rattle.journal_text.specs.Lines.{KnownEnd};
ghost use Rattle.report_export.specs.Adding.{Grows};
ghost use Rattle.report_export.specs.Json.{counted, valued, named, end_words, end_json};

use itoa::Buffer;
use journal_text::put;
use rt_base::{End, JobId, List, Name, Names, OutOfMemory, Value};

/// Adds a number.
#[inline(always)]
#[tactic(auto, using(journal_text::proofs::IdLaws::unsigned_length))]
pub(crate) fn put_number(into: &mut Vec<u8>, n: u64)
    requires { vec_len into.old + 20 ≤ vec_capacity into.old }
    ensures items { into.new.items ≡ into.old.items ++ decimal n }
    ensures most { Grows into.old into.new 20 }
{
    put(into, Buffer::new().format(n).as_bytes());
}

/// Adds a number of 32 bits.
#[inline(always)]
#[tactic(auto, using(journal_text::proofs::IdLaws::short_length))]
pub(crate) fn put_short(into: &mut Vec<u8>, n: u32)
    requires { vec_len into.old + 10 ≤ vec_capacity into.old }
    ensures items { into.new.items ≡ into.old.items ++ decimal n }
    ensures most { Grows into.old into.new 10 }
{
    put(into, Buffer::new().format(n).as_bytes());
}

/// Adds bytes and a signed number.
#[inline(always)]
#[tactic(auto, using(journal_text::proofs::IdLaws::signed_length, journal_text::proofs::IdLaws::in_i64), unfolding(crate::specs::Json::valued))]
pub(crate) fn put_valued(into: &mut Vec<u8>, bytes: &[u8], value: Value)
    requires { vec_len into.old + length bytes.now + 20 ≤ vec_capacity into.old }
    ensures items { into.new.items ≡ into.old.items ++ valued bytes.now value }
    ensures most { Grows into.old into.new (length bytes.now + 20) }
{
    put(into, bytes);
    put(into, Buffer::new().format(value).as_bytes());
}

/// Adds bytes and a number.
#[inline(always)]
#[tactic(auto, unfolding(crate::specs::Json::counted))]
pub(crate) fn put_counted(into: &mut Vec<u8>, bytes: &[u8], n: u64)
    requires { vec_len into.old + length bytes.now + 20 ≤ vec_capacity into.old }
    ensures items { into.new.items ≡ into.old.items ++ counted bytes.now n }
    ensures most { Grows into.old into.new (length bytes.now + 20) }
{
    put(into, bytes);
    put_number(into, n);
}

/// Adds the name at a place.
#[inline(always)]
pub(crate) fn put_name(into: &mut Vec<u8>, names: &List<Name>, at: u32)
    requires known { at < length names.now }
    requires room { vec_len into.old + 32 ≤ vec_capacity into.old }
    ensures items { into.new.items ≡ into.old.items ++ name_at names.now at }
    ensures most { Grows into.old into.new 32 }
{
    put(into, names.as_slice()[at as usize].as_slice());
}

/// Adds bytes and the name at a place.
#[inline(always)]
#[tactic(auto, unfolding(crate::specs::Json::named))]
pub(crate) fn put_named(into: &mut Vec<u8>, bytes: &[u8], names: &List<Name>, at: u32)
    requires known { at < length names.now }
    requires room { vec_len into.old + length bytes.now + 32 ≤ vec_capacity into.old }
    ensures items { into.new.items ≡ into.old.items ++ named bytes.now names.now at }
    ensures most { Grows into.old into.new (length bytes.now + 32) }
{
    put(into, bytes);
    put_name(into, names, at);
}

/// Adds a job.
#[inline(always)]
pub(crate) fn put_job(into: &mut Vec<u8>, txns: &List<Name>, job: JobId)
    requires known { job.tx.0 < length txns.now }
    requires room { vec_len into.old + 43 ≤ vec_capacity into.old }
    ensures items { into.new.items ≡ into.old.items ++ job_text txns.now job }
    ensures most { Grows into.old into.new 43 }
{
    put_name(into, txns, job.tx.0);
    into.push_reserved(b'/');
    put_short(into, job.serial);
}

/// Adds an end as a report has it, with a byte in place of the blank before it.
#[inline(always)]
pub(crate) fn put_end_words(into: &mut Vec<u8>, before: u8, names: &Names, end: End)
    requires known { KnownEnd names.now end }
    requires room { vec_len into.old + 72 ≤ vec_capacity into.old }
    ensures items { into.new.items ≡ into.old.items ++ before ∷ end_words names.now end }
    ensures most { Grows into.old into.new 72 }
{
    let start = into.len();
    journal_text::put_end(into, names, end);
    into[start] = before;
}

/// Adds an end as JSON.
#[inline(always)]
pub(crate) fn put_end(into: &mut Vec<u8>, names: &Names, end: End)
    requires known { KnownEnd names.now end }
    requires room { vec_len into.old + 90 ≤ vec_capacity into.old }
    ensures items { into.new.items ≡ into.old.items ++ end_json names.now end }
    ensures most { Grows into.old into.new 90 }
{
    match end {
        End::Stale { item, stamp } => {
            put_named(into, b"{\"stale\":\"", &names.items, item.0);
            put_counted(into, b"\",\"stamp\":", stamp);
            put(into, b"}");
        }
        End::Apart { a, b } => {
            put_named(into, b"{\"apart\":[\"", &names.items, a.0);
            put_named(into, b"\",\"", &names.items, b.0);
            put(into, b"\"]}");
        }
        _ => {
            put_end_words(into, b'"', names, end);
            put(into, b"\"");
        }
    }
}

/// Adds a text.
pub(crate) fn add_text(into: &mut Vec<u8>, text: &[u8]) -> Result<(), OutOfMemory>
    ensures { OnOk result (into.new.items ≡ into.old.items ++ text.now) }
{
    into.extend_from_slice(text)?;
    Ok(())
}
