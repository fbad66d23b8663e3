//! Calls below the program: the command of words, and the canonical text of a scenario.
use command_words::{Command, PlainCommand, read_command};
use io_edge::Word;
use scenario_reader::read_scenario;
use scenario_writer::write_scenario;
use std::alloc::Global;

/// The command of the words: its name, `trial` for a run on trial, its number where it has one, and its workers.
pub fn command_text(alloc: Global, words: &[Word]) -> Option<String> {
    let Some(command) = read_command(alloc, words).ok()? else {
        return String::from_str(alloc, "none").ok();
    };
    let name = match command {
        Command::Plain(PlainCommand::Ceilings) => "ceilings",
        Command::Plain(PlainCommand::Admit) => "admit",
        Command::Plain(PlainCommand::Replay) => "replay",
        Command::Plain(PlainCommand::Rates) => "rates",
        Command::Plain(PlainCommand::Margin) => "margin",
        Command::Plain(PlainCommand::Gen { n }) => return format!(in alloc; "gen {n}").ok(),
        Command::Load { n, workers } => return format!(in alloc; "load {n} {workers}").ok(),
        Command::Run { trial, workers } => {
            let name = if trial { "trial" } else { "run" };
            return format!(in alloc; "{name} {workers}").ok();
        }
    };
    String::from_str(alloc, name).ok()
}

/// The canonical text of a scenario that is read, with a line end.
pub fn rewritten(alloc: Global, text: &[u8]) -> Option<Vec<u8>> {
    if text.len() >= 1 << 32 {
        return None;
    }
    let scenario = read_scenario(alloc, text).ok()?;
    let written = write_scenario(alloc, &scenario);
    drop(scenario);
    let mut written = written.ok()?;
    written.extend_from_slice(b"\n").ok()?;
    Some(written)
}
