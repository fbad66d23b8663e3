//! Fields are added to text for which there is room.
ghost use Rattle.std.specs.Prelude.{◌≡◌, ◌+◌, ◌≤◌, ◌<◌, ◌^◌, ◌++◌, ◌∷◌, length, decimal, vec_len, vec_capacity};
ghost use Rattle.std.specs.Fmt.{signed_decimal};
ghost use Rattle.line_fields.specs.Cuts.{field};
ghost use Rattle.journal_text.specs.Ids.{name_at, job_text};

use itoa::Buffer;
use rt_base::{JobId, Name};

/// Adds bytes for which there is room, one by one, which costs less than a copy where they are few.
#[inline(always)]
pub fn put(into: &mut Vec<u8>, bytes: &[u8])
    requires { vec_len into.old + length bytes.now ≤ vec_capacity into.old }
    ensures items { into.new.items ≡ into.old.items ++ bytes.now }
    ensures len { vec_len into.new ≡ vec_len into.old + length bytes.now }
    ensures room { vec_capacity into.old ≤ vec_capacity into.new }
{
    for i in 0..bytes.len() {
        into.push_reserved(bytes[i]);
    }
}

// Adds a few bytes for which there is room: eight at once, and of what is left four, two and one.
#[inline(always)]
fn put_few(into: &mut Vec<u8>, bytes: &[u8])
    requires { vec_len into.old + length bytes.now ≤ vec_capacity into.old }
    ensures items { into.new.items ≡ into.old.items ++ bytes.now }
    ensures len { vec_len into.new ≡ vec_len into.old + length bytes.now }
    ensures room { vec_capacity into.old ≤ vec_capacity into.new }
{
    let mut left = bytes;
    while let [a, b, c, d, e, f, g, h, rest @ ..] = left {
        put(into, &[*a, *b, *c, *d, *e, *f, *g, *h]);
        left = rest;
    }
    if let [a, b, c, d, rest @ ..] = left {
        put(into, &[*a, *b, *c, *d]);
        left = rest;
    }
    if let [a, b, rest @ ..] = left {
        put(into, &[*a, *b]);
        left = rest;
    }
    if let [a] = left {
        into.push_reserved(*a);
    }
}

/// Adds a blank and a word.
#[inline(always)]
pub fn put_field(into: &mut Vec<u8>, word: &[u8])
    requires { vec_len into.old + length word.now + 1 ≤ vec_capacity into.old }
    ensures items { into.new.items ≡ into.old.items ++ field word.now }
    ensures len { vec_len into.new ≡ vec_len into.old + length word.now + 1 }
    ensures room { vec_capacity into.old ≤ vec_capacity into.new }
{
    into.push_reserved(b' ');
    put_few(into, word);
}

/// Adds a blank and a number.
#[inline(always)]
#[tactic(auto, using(crate::proofs::IdLaws::unsigned_length))]
pub fn put_unsigned(into: &mut Vec<u8>, n: u64)
    requires { vec_len into.old + 21 ≤ vec_capacity into.old }
    ensures items { into.new.items ≡ into.old.items ++ field (decimal n) }
    ensures len { vec_len into.new ≤ vec_len into.old + 21 }
    ensures room { vec_capacity into.old ≤ vec_capacity into.new }
{
    put_field(into, Buffer::new().format(n).as_bytes());
}

/// Adds a blank and a number of 32 bits.
#[inline(always)]
#[tactic(auto, using(crate::proofs::IdLaws::short_length))]
pub fn put_short(into: &mut Vec<u8>, n: u32)
    requires { vec_len into.old + 11 ≤ vec_capacity into.old }
    ensures items { into.new.items ≡ into.old.items ++ field (decimal n) }
    ensures len { vec_len into.new ≤ vec_len into.old + 11 }
    ensures room { vec_capacity into.old ≤ vec_capacity into.new }
{
    put_field(into, Buffer::new().format(n).as_bytes());
}

/// Adds a blank and a signed number.
#[inline(always)]
#[tactic(auto, using(crate::proofs::IdLaws::signed_length, crate::proofs::IdLaws::in_i64))]
pub fn put_signed(into: &mut Vec<u8>, n: i64)
    requires { vec_len into.old + 21 ≤ vec_capacity into.old }
    ensures items { into.new.items ≡ into.old.items ++ field (signed_decimal n) }
    ensures len { vec_len into.new ≤ vec_len into.old + 21 }
    ensures room { vec_capacity into.old ≤ vec_capacity into.new }
{
    put_field(into, Buffer::new().format(n).as_bytes());
}

/// Adds a blank and the name at a place.
#[inline(always)]
pub fn put_name(into: &mut Vec<u8>, names: &[Name], at: u32)
    requires known { at < length names.now }
    requires room { vec_len into.old + 33 ≤ vec_capacity into.old }
    ensures items { into.new.items ≡ into.old.items ++ field (name_at names.now at) }
    ensures len { vec_len into.new ≤ vec_len into.old + 33 }
    ensures room { vec_capacity into.old ≤ vec_capacity into.new }
{
    put_field(into, names[at as usize].as_slice());
}

/// Adds a blank and a job.
#[inline(always)]
#[tactic(auto, using(crate::proofs::IdLaws::short_length))]
pub fn put_job(into: &mut Vec<u8>, txns: &[Name], job: JobId)
    requires known { job.tx.0 < length txns.now }
    requires room { vec_len into.old + 44 ≤ vec_capacity into.old }
    ensures items { into.new.items ≡ into.old.items ++ field (job_text txns.now job) }
    ensures len { vec_len into.new ≤ vec_len into.old + 44 }
    ensures room { vec_capacity into.old ≤ vec_capacity into.new }
{
    put_name(into, txns, job.tx.0);
    into.push_reserved(b'/');
    put_few(into, Buffer::new().format(job.serial).as_bytes());
}
