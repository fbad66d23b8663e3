//! From words to a command.
ghost use Rattle.std.specs.Prelude.{◌≡◌, IfOk, codes, option_map};
ghost use Rattle.clap.specs.Words.{first_of, found_of, rows_of, subcommand_rows_of};
ghost use Rattle.command_words.specs.Asking.{is_name as is_name_of, is_true};
ghost use Rattle.tool_command.specs.Commands.{command_of, named as named_of};
ghost use Rattle.tool_command.specs.Asking.{is_askable as is_askable_of, said};

use crate::command::ToolCommand;
use crate::line::parsed;
use clap::ArgMatches;
use clap::error::ErrorKind;
use io_edge::Word;
use rt_base::OutOfMemory;
use std::alloc::Global;

// Whether a word may name a command.
fn is_name(word: &[u8]) -> bool
    ensures { result ≡ is_name_of word.now }
{
    match word {
        [first, ..] => *first != b'-',
        [] => false,
    }
}

// Whether clap is asked about the words; else they are no command's.
fn is_askable(words: &[Word]) -> bool
    ensures { result ≡ is_askable_of words.now }
{
    match words {
        [name] => is_name(name.as_slice()),
        [name, option] => {
            name.as_slice() == b"check".as_slice() && option.as_slice() == b"--trial".as_slice()
        }
        _ => false,
    }
}

// The text that clap found for an argument.
fn text_in<'a>(matches: &ArgMatches<'a>, id: &str) -> Option<&'a str>
    ensures { option_map (λ s. s.now) result ≡ first_of id.now (rows_of (found_of matches.now)) }
{
    matches.get_str(id)
}

fn is_trial(matches: &ArgMatches<'_>) -> bool
    ensures { result ≡ is_true (first_of (codes "trial") (rows_of (found_of matches.now))) }
{
    match text_in(matches, "trial") {
        Some(text) => text == "true",
        None => false,
    }
}

fn named(name: &str, trial: bool) -> Option<ToolCommand>
    ensures { result ≡ named_of name.now trial }
{
    match name {
        "slack" => Some(ToolCommand::Slack),
        "priorities" => Some(ToolCommand::Priorities),
        "summary" => Some(ToolCommand::Summary),
        "json" => Some(ToolCommand::Json),
        "table" => Some(ToolCommand::Table),
        "check" => Some(ToolCommand::Check { trial }),
        _ => None,
    }
}

// What clap's answer asks for.
fn told(matches: &ArgMatches<'_>) -> Option<ToolCommand>
    ensures { result ≡ said (subcommand_rows_of matches.now) }
{
    let (name, matches) = matches.subcommand()?;
    named(name, is_trial(matches))
}

/// The command of the words; None if they are none's. Words that may be a command's are read by clap.
pub fn read_command(alloc: Global, words: &[Word]) -> Result<Option<ToolCommand>, OutOfMemory>
    ensures { IfOk result (λ c. c ≡ command_of words.now) }
{
    if !is_askable(words) {
        return Ok(None);
    }
    match parsed(alloc, words) {
        Ok(matches) => Ok(told(&matches)),
        Err(error) => match error.kind() {
            ErrorKind::OutOfMemory => Err(OutOfMemory),
            _ => Ok(None),
        },
    }
}
