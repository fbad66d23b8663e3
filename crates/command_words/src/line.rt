//! The command line as clap reads it.
ghost use Rattle.std.specs.Prelude.{◌≡◌, IfOk};
ghost use Rattle.clap.specs.Words.{subcommand_of, subcommand_rows_of};
ghost use Rattle.clap.specs.Kinds.{FailsBy};
ghost use Rattle.clap.specs.Faults.{fault_of};
ghost use Rattle.command_words.specs.Shape.{IsLine, generating, loading, rtdb, running};

use clap::{Arg, ArgAction, ArgMatches, Command, Error};
use io_edge::Word;
use std::alloc::{AllocError, Global};

fn run_line<'a>(alloc: Global) -> Result<Command<'a>, AllocError>
    ensures { IfOk result (IsLine running) }
{
    let trial = Arg::new(alloc, "trial")
        .long("trial")
        .action(ArgAction::SetTrue);
    let workers = Arg::new(alloc, "workers").long("workers");
    Command::new(alloc, "run").arg(trial)?.arg(workers)
}

fn gen_line<'a>(alloc: Global) -> Result<Command<'a>, AllocError>
    ensures { IfOk result (IsLine generating) }
{
    let number = Arg::new(alloc, "number").required(true);
    Command::new(alloc, "gen").arg(number)
}

fn load_line<'a>(alloc: Global) -> Result<Command<'a>, AllocError>
    ensures { IfOk result (IsLine loading) }
{
    let number = Arg::new(alloc, "number").required(true);
    let workers = Arg::new(alloc, "workers").long("workers");
    Command::new(alloc, "load").arg(number)?.arg(workers)
}

// The program's command line, with one level of subcommands.
fn rtdb_line<'a>(alloc: Global) -> Result<Command<'a>, AllocError>
    ensures { IfOk result (IsLine rtdb) }
{
    Command::new(alloc, "rtdb")
        .no_binary_name(true)
        .disable_help_flag(true)
        .disable_help_subcommand(true)
        .subcommand(Command::new(alloc, "ceilings"))?
        .subcommand(Command::new(alloc, "admit"))?
        .subcommand(run_line(alloc)?)?
        .subcommand(Command::new(alloc, "replay"))?
        .subcommand(gen_line(alloc)?)?
        .subcommand(load_line(alloc)?)?
        .subcommand(Command::new(alloc, "rates"))?
        .subcommand(Command::new(alloc, "margin"))
}

/// What clap makes of the words.
pub(crate) fn parsed<'a>(alloc: Global, words: &'a [Word]) -> Result<ArgMatches<'a>, Error>
    ensures kinds { FailsBy (fault_of rtdb words.entry.now) result }
    ensures found { IfOk result (λ m. subcommand_rows_of m ≡ subcommand_of rtdb words.entry.now) }
{
    rtdb_line(alloc)?.try_get_matches_from(words)
}
