//! Numbers in decimal digits, without leading zeros.
ghost use Rattle.std.specs.Prelude.{◌≡◌, ℕ, ◌^◌, ◌<◌, ◌≤◌, ◌++◌, Some, decimal, pos, nat_lt, option_map, if◌then◌else◌, IfSome, IsTrue, length, take, drop, slice_index_or};
ghost use Rattle.std.specs.Str.Parse.{AllDigits, digits_value};
ghost use Rattle.line_fields.specs.Cuts.{next, field as after_a_blank, Ends};
ghost use Rattle.line_fields.specs.Numbers.{IsRead, is_led, unsigned_of, short_of, below_zero, signed_of};

use crate::cuts::field;
use std::str;

fn number_in(text: &str) -> Option<u64>
    ensures found { (n : ℕ) → n < 2 ^ 64 → decimal n ≡ text.now → result ≡ Some n }
    ensures read { IfSome result (IsRead text.now) }
{
    match text.parse::<u64>() {
        Ok(n) => Some(n),
        Err(_) => None,
    }
}

fn parsed(word: &[u8]) -> Option<u64>
    ensures found { (n : ℕ) → n < 2 ^ 64 → decimal n ≡ word.now → result ≡ Some n }
    ensures read { IfSome result (IsRead word.now) }
{
    match str::from_utf8(word) {
        Ok(text) => number_in(text),
        Err(_) => None,
    }
}

fn is_led(word: &[u8]) -> bool
    ensures { result ≡ is_led word.now }
{
    match word {
        [] => false,
        [first] => *first == b'+',
        [first, ..] => *first == b'+' || *first == b'0',
    }
}

// A number of so many digits is below 2^64.
const DIGITS: usize = 19;

// The number that the digits at the front write, and how many they are, up to nineteen.
#[inline(always)]
fn front(bytes: &[u8]) -> (u64, usize)
    ensures value { result.0 ≡ digits_value 10 (take result.1 bytes.now) }
    ensures digits { AllDigits 10 (take result.1 bytes.now) }
    ensures within { result.1 ≤ length bytes.now }
{
    let mut n: u64 = 0;
    let most = bytes.len().min(DIGITS);
    for i in 0..most {
        let digit = bytes[i].wrapping_sub(b'0');
        if digit > 9 {
            return (n, i);
        }
        n = n * 10 + digit as u64;
    }
    (n, most)
}

// Whether so many digits at the front are a word without a leading zero.
#[inline(always)]
fn is_number(bytes: &[u8], len: usize) -> bool
    requires { len ≤ length bytes.now }
    ensures some { IsTrue result → 0 < len }
    ensures lead { IsTrue result → slice_index_or bytes.now 0 0 ≡ 48 → len ≡ 1 }
    ensures ends { IsTrue result → Ends (drop len bytes.now) }
{
    if len == 0 || (bytes[0] == b'0' && len > 1) {
        return false;
    }
    len == bytes.len() || bytes[len] == b' '
}

/// The number at the front in one pass, and the rest. None where the word there is no number or could be too large.
#[inline(always)]
pub fn at_front(bytes: &[u8]) -> Option<(u64, &[u8])>
    ensures fits { IfSome result (λ p. p.0 < 2 ^ 64) }
    ensures written { IfSome result (λ p. bytes.now ≡ decimal p.0 ++ p.1.now) }
    ensures ends { IfSome result (λ p. Ends p.1.now) }
{
    let (n, len) = front(bytes);
    if is_number(bytes, len) {
        Some((n, &bytes[len..]))
    } else {
        None
    }
}

// The number behind a blank at the front, and the rest.
#[inline(always)]
fn after_blank(bytes: &[u8]) -> Option<(u64, &[u8])>
    ensures fits { IfSome result (λ p. p.0 < 2 ^ 64) }
    ensures written { IfSome result (λ p. bytes.now ≡ after_a_blank (decimal p.0) ++ p.1.now) }
    ensures ends { IfSome result (λ p. Ends p.1.now) }
{
    match bytes {
        [b' ', rest @ ..] => at_front(rest),
        _ => None,
    }
}

/// The number below 2^64 that the word is in decimal digits, without a sign or a leading zero.
#[inline(always)]
#[tactic(auto, unfolding(crate::specs::Numbers::unsigned_of))]
pub fn unsigned(word: &[u8]) -> Option<u64>
    ensures { result ≡ unsigned_of word.now }
{
    if let Some((n, [])) = at_front(word) {
        return Some(n);
    }
    if is_led(word) {
        return None;
    }
    parsed(word)
}

/// The number below 2^32 that the word is in decimal digits, without a sign or a leading zero.
#[inline(always)]
#[tactic(auto, unfolding(crate::specs::Numbers::short_of))]
pub fn short(word: &[u8]) -> Option<u32>
    ensures { result ≡ short_of word.now }
{
    let n = unsigned(word)?;
    if n < 1 << 32 { Some(n as u32) } else { None }
}

fn negative(n: u64) -> Option<i64>
    ensures { result ≡ below_zero n }
{
    if n == 0 || n > 1 << 63 {
        None
    } else {
        Some(-1 - (n - 1) as i64)
    }
}

fn positive(n: u64) -> Option<i64>
    ensures { result ≡ (if nat_lt n (2 ^ 63) then Some (pos n) else None) }
{
    if n < 1 << 63 { Some(n as i64) } else { None }
}

/// The number from -2^63 to 2^63 - 1 that the word is in decimal digits, with a `-` exactly where it is below 0.
#[tactic(auto, unfolding(crate::specs::Numbers::signed_of))]
pub fn signed(word: &[u8]) -> Option<i64>
    ensures { result ≡ signed_of word.now }
{
    match word {
        [] => None,
        [b'-', digits @ ..] => negative(unsigned(digits)?),
        _ => positive(unsigned(word)?),
    }
}

/// The unsigned number in the next field.
#[inline(always)]
#[tactic(auto, unfolding(crate::specs::Cuts::next))]
pub fn next_unsigned(bytes: &[u8]) -> Option<(u64, &[u8])>
    ensures { option_map (λ p. (p.0, p.1.now)) result ≡ next unsigned_of bytes.now }
{
    if let Some((n, rest)) = after_blank(bytes) {
        return Some((n, rest));
    }
    let (word, rest) = field(bytes)?;
    let n = unsigned(word)?;
    Some((n, rest))
}

/// The number below 2^32 in the next field.
#[inline(always)]
#[tactic(auto, unfolding(crate::specs::Cuts::next))]
pub fn next_short(bytes: &[u8]) -> Option<(u32, &[u8])>
    ensures { option_map (λ p. (p.0, p.1.now)) result ≡ next short_of bytes.now }
{
    if let Some((n, rest)) = after_blank(bytes) {
        if n < 1 << 32 {
            return Some((n as u32, rest));
        }
    }
    let (word, rest) = field(bytes)?;
    let n = short(word)?;
    Some((n, rest))
}

/// The signed number in the next field.
#[inline(always)]
#[tactic(auto, unfolding(crate::specs::Cuts::next))]
pub fn next_signed(bytes: &[u8]) -> Option<(i64, &[u8])>
    ensures { option_map (λ p. (p.0, p.1.now)) result ≡ next signed_of bytes.now }
{
    if let Some((n, rest)) = after_blank(bytes) {
        if n < 1 << 63 {
            return Some((n as i64, rest));
        }
    }
    let (word, rest) = field(bytes)?;
    let n = signed(word)?;
    Some((n, rest))
}
