//! A line is a word, and then fields, each after one blank.
ghost use Rattle.std.specs.Prelude.{◌≡◌, ◌≤◌, ◌<◌, ◌==◌, None, false, length, option_map, position, IfSome};
ghost use Rattle.std.specs.List.{position_or_len};
ghost use Rattle.std.specs.Str.{bytes_eq};
ghost use Rattle.line_fields.specs.Cuts.{word_of, field_of, next, word_is, done_of, cut_at};

use memchr::memchr;

#[inline(always)]
fn find(byte: u8, bytes: &[u8]) -> Option<usize>
    ensures at { result ≡ position (λ b. b == byte) bytes.now }
    ensures below { IfSome result (λ i. i < length bytes.now) }
{
    bytes.iter().position(|b| *b == byte)
}

// The first place of a byte, found many bytes at a time: dearer than a loop over a few bytes, cheaper than one over a line.
#[inline(always)]
fn find_far(byte: u8, bytes: &[u8]) -> Option<usize>
    ensures at { result ≡ position (λ b. b == byte) bytes.now }
    ensures below { IfSome result (λ i. i < length bytes.now) }
{
    memchr(byte, bytes)
}

/// What stands before the first such byte, and what stands after it; None where there is none. It is for long texts.
#[inline(always)]
#[tactic(auto, using(crate::proofs::CutLaws::rest_of))]
pub fn cut(byte: u8, bytes: &[u8]) -> Option<(&[u8], &[u8])>
    ensures { option_map (λ p. (p.0.now, p.1.now)) result ≡ cut_at byte bytes.now }
{
    match find_far(byte, bytes) {
        Some(at) => Some((&bytes[..at], &bytes[at + 1..])),
        None => None,
    }
}

/// What stands before the first such byte, and what stands after it; None where there is none. It is for short words.
#[inline(always)]
#[tactic(auto, using(crate::proofs::CutLaws::rest_of))]
pub fn cut_word(byte: u8, bytes: &[u8]) -> Option<(&[u8], &[u8])>
    ensures { option_map (λ p. (p.0.now, p.1.now)) result ≡ cut_at byte bytes.now }
{
    match find(byte, bytes) {
        Some(at) => Some((&bytes[..at], &bytes[at + 1..])),
        None => None,
    }
}

#[inline(always)]
fn word_len(bytes: &[u8]) -> usize
    ensures at { result ≡ position_or_len (λ b. b == 32) bytes.now }
    ensures below { result ≤ length bytes.now }
{
    match find(b' ', bytes) {
        Some(at) => at,
        None => bytes.len(),
    }
}

/// The bytes before the first blank, and the rest from that blank on.
#[inline(always)]
#[tactic(auto, using(crate::proofs::CutLaws::rest_of), unfolding(crate::specs::Cuts::word_of))]
pub fn word(bytes: &[u8]) -> (&[u8], &[u8])
    ensures { (result.0.now, result.1.now) ≡ word_of bytes.now }
{
    let len = word_len(bytes);
    (&bytes[..len], &bytes[len..])
}

/// The field after a blank, and the rest; None where the bytes do not begin with a blank. A field may be empty.
#[inline(always)]
#[tactic(auto, unfolding(crate::specs::Cuts::field_of))]
pub fn field(bytes: &[u8]) -> Option<(&[u8], &[u8])>
    ensures { option_map (λ p. (p.0.now, p.1.now)) result ≡ field_of bytes.now }
{
    match bytes {
        [b' ', rest @ ..] => Some(word(rest)),
        _ => None,
    }
}

/// Whether a word is the one that is wanted. It compares byte after byte, which costs least where the words are short.
#[inline(always)]
pub fn is_word(want: &[u8], word: &[u8]) -> bool
    ensures { result ≡ bytes_eq word.now want.now }
{
    if word.len() != want.len() {
        return false;
    }
    for i in 0..want.len() {
        if word[i] != want[i] {
            return false;
        }
    }
    true
}

#[inline(always)]
#[tactic(auto, unfolding(crate::specs::Cuts::word_is))]
fn same(want: &[u8], word: &[u8]) -> Option<()>
    ensures { result ≡ word_is want.now word.now }
{
    if is_word(want, word) { Some(()) } else { None }
}

// Whether the next field begins with these bytes. Most fields that are no such word do not.
#[inline(always)]
fn begins(want: &[u8], bytes: &[u8]) -> bool
    ensures { result ≡ false → next (word_is want.now) bytes.now ≡ None }
{
    let end = want.len() + 1;
    if bytes.len() < end || bytes[0] != b' ' {
        return false;
    }
    is_word(want, &bytes[1..end])
}

/// The rest after a field that is this word; None where the next field is another or there is none.
#[inline(always)]
#[tactic(auto, unfolding(crate::specs::Cuts::next))]
pub fn next_word<'a>(want: &[u8], bytes: &'a [u8]) -> Option<((), &'a [u8])>
    ensures { option_map (λ p. (p.0, p.1.now)) result ≡ next (word_is want.now) bytes.now }
{
    if !begins(want, bytes) {
        return None;
    }
    let (word, rest) = field(bytes)?;
    let found = same(want, word)?;
    Some((found, rest))
}

/// Some exactly where nothing is left.
#[inline(always)]
pub fn done(bytes: &[u8]) -> Option<()>
    ensures { result ≡ done_of bytes.now }
{
    match bytes {
        [] => Some(()),
        _ => None,
    }
}
