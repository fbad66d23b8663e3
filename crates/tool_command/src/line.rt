//! The command line as clap reads it.
ghost use Rattle.std.specs.Prelude.{◌≡◌, IfOk};
ghost use Rattle.clap.specs.Words.{subcommand_of, subcommand_rows_of};
ghost use Rattle.clap.specs.Kinds.{FailsBy};
ghost use Rattle.clap.specs.Faults.{fault_of};
ghost use Rattle.command_words.specs.Shape.{IsLine};
ghost use Rattle.tool_command.specs.Shape.{checking, tool};

use clap::{Arg, ArgAction, ArgMatches, Command, Error};
use io_edge::Word;
use std::alloc::{AllocError, Global};

fn check_line<'a>(alloc: Global) -> Result<Command<'a>, AllocError>
    ensures { IfOk result (IsLine checking) }
{
    let trial = Arg::new(alloc, "trial")
        .long("trial")
        .action(ArgAction::SetTrue);
    Command::new(alloc, "check").arg(trial)
}

// The program's command line, with one level of subcommands.
fn tool_line<'a>(alloc: Global) -> Result<Command<'a>, AllocError>
    ensures { IfOk result (IsLine tool) }
{
    Command::new(alloc, "rtdb-tool")
        .no_binary_name(true)
        .disable_help_flag(true)
        .disable_help_subcommand(true)
        .subcommand(Command::new(alloc, "slack"))?
        .subcommand(Command::new(alloc, "priorities"))?
        .subcommand(Command::new(alloc, "summary"))?
        .subcommand(Command::new(alloc, "json"))?
        .subcommand(Command::new(alloc, "table"))?
        .subcommand(check_line(alloc)?)
}

/// What clap makes of the words.
pub(crate) fn parsed<'a>(alloc: Global, words: &'a [Word]) -> Result<ArgMatches<'a>, Error>
    ensures kinds { FailsBy (fault_of tool words.entry.now) result }
    ensures found { IfOk result (λ m. subcommand_rows_of m ≡ subcommand_of tool words.entry.now) }
{
    tool_line(alloc)?.try_get_matches_from(words)
}
