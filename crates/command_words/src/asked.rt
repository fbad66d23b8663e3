//! From words to a command.
ghost use Rattle.std.specs.Prelude.{◌≡◌, ◌≤◌, IfOk, IfSome, is_some, codes, option_map, true, false};
ghost use Rattle.std.specs.List.{list_all};
ghost use Rattle.clap.specs.Words.{first_of, rows_of, found_of, subcommand_rows_of};
ghost use Rattle.command_words.specs.Commands.{IsInRange, command_of, number_of, number_part, option_part, part_of, workers_part};
ghost use Rattle.command_words.specs.Asking.{begins_with_number as begins_with_number_of, is_askable as is_askable_of, is_name as is_name_of, is_part as is_part_of, said, said_of, is_true, number_in as number_in_of, workers_in as workers_in_of, wants_number as wants_number_of};

use crate::command::{Command, PlainCommand};
use crate::line::parsed;
use clap::ArgMatches;
use clap::error::ErrorKind;
use io_edge::Word;
use line_fields::unsigned;
use rt_base::OutOfMemory;
use std::alloc::Global;

// A number from 1 to 64.
fn number(word: &[u8]) -> Option<u32>
    ensures number { result ≡ number_of word.now }
    ensures in_range { IfSome result (λ n. (1 ≤ n) × (n ≤ 64)) }
{
    let n = unsigned(word)?;
    if 1 <= n && n <= 64 {
        Some(n as u32)
    } else {
        None
    }
}

// Whether a word is such a number.
fn is_number(word: &[u8]) -> bool
    ensures { result ≡ is_some (number_part word.now) }
{
    number(word).is_some()
}

fn is_workers(word: &[u8]) -> bool
    ensures { result ≡ is_some (workers_part word.now) }
{
    match word.strip_prefix(b"--workers=".as_slice()) {
        Some(rest) => number(rest).is_some(),
        None => is_number(word),
    }
}

fn is_option(word: &[u8]) -> bool
    ensures { result ≡ is_some (option_part word.now) }
{
    word == b"--workers".as_slice() || is_workers(word)
}

// A word that may follow a command's name.
fn is_part(word: &[u8]) -> bool
    ensures { result ≡ is_part_of word.now }
{
    word == b"--trial".as_slice() || is_option(word)
}

fn are_parts(words: &[Word]) -> bool
    ensures { result ≡ list_all is_part_of words.now }
{
    words.iter().all(|word| is_part(word.as_slice()))
}

fn begins_with_number(words: &[Word]) -> bool
    ensures { result ≡ begins_with_number_of words.now }
{
    match words {
        [word, ..] => number(word.as_slice()).is_some(),
        [] => false,
    }
}

// Whether a word may name a command.
fn is_name(word: &[u8]) -> bool
    ensures { result ≡ is_name_of word.now }
{
    match word {
        [first, ..] => *first != b'-',
        [] => false,
    }
}

// Whether a number has to follow the command's name.
fn wants_number(name: &[u8]) -> bool
    ensures { result ≡ wants_number_of name.now }
{
    name == b"gen".as_slice() || name == b"load".as_slice()
}

// Whether clap is asked about the words; else they are none of the commands'.
fn is_askable(words: &[Word]) -> bool
    ensures { result ≡ is_askable_of words.now }
{
    match words {
        [name, rest @ ..] => {
            let name = name.as_slice();
            is_name(name) && are_parts(rest) && (!wants_number(name) || begins_with_number(rest))
        }
        [] => false,
    }
}

// The text that clap found for an argument.
fn text_in<'a>(matches: &ArgMatches<'a>, id: &str) -> Option<&'a str>
    ensures { option_map (λ s. s.now) result ≡ first_of id.now (rows_of (found_of matches.now)) }
{
    matches.get_str(id)
}

fn number_in(matches: &ArgMatches<'_>) -> Option<u32>
    ensures number { result ≡ number_in_of (rows_of (found_of matches.now)) }
    ensures in_range { IfSome result (λ n. (1 ≤ n) × (n ≤ 64)) }
{
    number(text_in(matches, "number")?.as_bytes())
}

// One worker where the option is not given.
fn workers_in(matches: &ArgMatches<'_>) -> Option<u32>
    ensures number { result ≡ workers_in_of (rows_of (found_of matches.now)) }
    ensures in_range { IfSome result (λ n. (1 ≤ n) × (n ≤ 64)) }
{
    match text_in(matches, "workers") {
        Some(text) => number(text.as_bytes()),
        None => Some(1),
    }
}

fn is_trial(matches: &ArgMatches<'_>) -> bool
    ensures { result ≡ is_true (first_of (codes "trial") (rows_of (found_of matches.now))) }
{
    match text_in(matches, "trial") {
        Some(text) => text == "true",
        None => false,
    }
}

// The command of the subcommand of this name.
fn named(name: &str, matches: &ArgMatches<'_>) -> Option<Command>
    ensures command { result ≡ said_of name.now (rows_of (found_of matches.now)) }
    ensures in_range { IfSome result IsInRange }
{
    match name {
        "ceilings" => Some(Command::Plain(PlainCommand::Ceilings)),
        "admit" => Some(Command::Plain(PlainCommand::Admit)),
        "run" => Some(Command::Run {
            trial: is_trial(matches),
            workers: workers_in(matches)?,
        }),
        "replay" => Some(Command::Plain(PlainCommand::Replay)),
        "gen" => Some(Command::Plain(PlainCommand::Gen {
            n: number_in(matches)?,
        })),
        "load" => Some(Command::Load {
            n: number_in(matches)?,
            workers: workers_in(matches)?,
        }),
        "rates" => Some(Command::Plain(PlainCommand::Rates)),
        "margin" => Some(Command::Plain(PlainCommand::Margin)),
        _ => None,
    }
}

// What clap's answer asks for.
fn told(matches: &ArgMatches<'_>) -> Option<Command>
    ensures command { result ≡ said (subcommand_rows_of matches.now) }
    ensures in_range { IfSome result IsInRange }
{
    let (name, matches) = matches.subcommand()?;
    named(name, matches)
}

/// The command of the words; None where they are none's. Words that may be a command's are read by clap.
pub fn read_command(alloc: Global, words: &[Word]) -> Result<Option<Command>, OutOfMemory>
    ensures command { IfOk result (λ c. c ≡ command_of words.now) }
    ensures in_range { IfOk result (λ c. IfSome c IsInRange) }
{
    if !is_askable(words) {
        return Ok(None);
    }
    match parsed(alloc, words) {
        Ok(matches) => Ok(told(&matches)),
        Err(error) => match error.kind() {
            ErrorKind::OutOfMemory => Err(OutOfMemory),
            _ => Ok(None),
        },
    }
}
