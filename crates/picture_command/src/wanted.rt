//! Which part of a schedule the words ask for.
ghost use Rattle.std.specs.Prelude.{◌≡◌, ◌<◌, ◌≤◌, ◌^◌, IfSome, codes};
ghost use Rattle.std.specs.Str.{bytes_eq};
ghost use Rattle.picture_command.specs.Parts.{between, between_words, ticks_of, wanted_as, wanted_of, part_of, AreEarly, IsEarly};

use io_edge::Word;
use line_fields::unsigned;
use rt_base::Tick;
use schedule_marks::{Part, last_instant};
use step_journal::Entry;

/// What is to be drawn: a picture, or a page with it.
#[derive(Clone, Copy, PartialEq, Eq)]
pub struct Wanted {
    pub page: bool,
    pub ticks: Ticks,
}

/// The ticks that are to be drawn.
#[derive(Clone, Copy, PartialEq, Eq)]
pub enum Ticks {
    /// The first 200 ticks, or all where there are fewer.
    Beginning,
    /// The ticks from one up to another.
    Between { from: Tick, to: Tick },
}

fn between_ticks(from: Option<Tick>, to: Option<Tick>) -> Option<Ticks>
    ensures value { result ≡ between from to }
    ensures early { IfSome result AreEarly }
{
    match (from, to) {
        (Some(from), Some(to)) => {
            if from < to && to <= 1 << 41 && to - from <= 10_000 {
                Some(Ticks::Between { from, to })
            } else {
                None
            }
        }
        _ => None,
    }
}

fn is_word(word: &[u8], wanted: &[u8]) -> bool
    ensures { result ≡ bytes_eq word.now wanted.now }
{
    word == wanted
}

fn between_named(first: &[u8], from: &[u8], second: &[u8], to: &[u8]) -> Option<Ticks>
    ensures value { result ≡ between_words first.now from.now second.now to.now }
    ensures early { IfSome result AreEarly }
{
    if is_word(first, b"--from") && is_word(second, b"--to") {
        between_ticks(unsigned(from), unsigned(to))
    } else {
        None
    }
}

fn read_ticks(words: &[Word]) -> Option<Ticks>
    ensures value { result ≡ ticks_of words.now }
    ensures early { IfSome result AreEarly }
{
    match words {
        [] => Some(Ticks::Beginning),
        [first, from, second, to] => between_named(
            first.as_slice(),
            from.as_slice(),
            second.as_slice(),
            to.as_slice(),
        ),
        _ => None,
    }
}

fn wanted_with(page: bool, ticks: Option<Ticks>) -> Option<Wanted>
    requires { IfSome ticks AreEarly }
    ensures value { result ≡ wanted_as page ticks }
    ensures early { IfSome result IsEarly }
{
    match ticks {
        Some(ticks) => Some(Wanted { page, ticks }),
        None => None,
    }
}

/// What the words ask for: `--from TICK --to TICK`, where the second tick is the later one, by at most 10,000, and at most
/// 2^41; the beginning without these words; a page, if `--page` is the first word. None for every other words.
pub fn read_wanted(words: &[Word]) -> Option<Wanted>
    ensures value { result ≡ wanted_of words.now }
    ensures early { IfSome result IsEarly }
{
    match words {
        [first, rest @ ..] => {
            if is_word(first.as_slice(), b"--page") {
                wanted_with(true, read_ticks(rest))
            } else {
                wanted_with(false, read_ticks(words))
            }
        }
        [] => wanted_with(false, read_ticks(words)),
    }
}

/// The part of a history that is wanted.
pub fn part_in(ticks: Ticks, entries: &[Entry]) -> Part
    requires { AreEarly ticks }
    ensures value { result ≡ part_of ticks entries.now }
    ensures early { result.from < 2 ^ 63 }
{
    match ticks {
        Ticks::Beginning => Part {
            from: 0,
            to: last_instant(200, entries).max(1),
        },
        Ticks::Between { from, to } => Part { from, to },
    }
}
