//! The top call.
ghost use Rattle.std.specs.Prelude.{◌≡◌, ◌⊎◌, ℕ, List as Many, Option as Maybe, IfOk, Some, None};
ghost use Rattle.io_edge.specs.Causes.{Rose};
ghost use Rattle.command_replies.specs.Causes.{HasReadCause, HasWriteCause, HasSourceCause};
ghost use Rattle.tool_command.specs.Commands.{command_of};
ghost use Rattle.tool_command.specs.Answers.{IsAnswer, Answers, IsDue};

use crate::asked::read_command;
use crate::command::ToolCommand;
use crate::priorities::priorities;
use crate::reports::{json, summary, table};
use crate::slacks::slacks;
use command_replies::{
    Reply, SCENARIO_LIMIT, Unanswered, refused, report_from, scenario_from, written,
};
use io_edge::{ReadError, Sink, Source, Status, Word, read_all, write_all};
use rt_base::OutOfMemory;
use scenario_check::check;
use std::alloc::Global;

const USAGE: &[u8] =
    b"usage: rtdb-tool slack | priorities | summary | json | table | check [--trial]\n";

fn ask_slacks<S: Source>(alloc: Global, source: &mut S) -> Result<Reply, Unanswered>
    ensures said { IfOk result (λ r. IsAnswer (Some ToolCommand.Slack) (S.left source.old) (S.left source.new) r.status r.text.items) }
    ensures read { HasSourceCause (S.faults source.old) (S.faults source.new) result }
{
    match scenario_from(alloc, source)? {
        Ok(scenario) => Ok(slacks(alloc, scenario)?),
        Err(reply) => Ok(reply),
    }
}

fn ask_priorities<S: Source>(alloc: Global, source: &mut S) -> Result<Reply, Unanswered>
    ensures said { IfOk result (λ r. IsAnswer (Some ToolCommand.Priorities) (S.left source.old) (S.left source.new) r.status r.text.items) }
    ensures read { HasSourceCause (S.faults source.old) (S.faults source.new) result }
{
    match scenario_from(alloc, source)? {
        Ok(scenario) => Ok(priorities(alloc, scenario)?),
        Err(reply) => Ok(reply),
    }
}

fn ask_summary<S: Source>(alloc: Global, source: &mut S) -> Result<Reply, Unanswered>
    ensures said { IfOk result (λ r. IsAnswer (Some ToolCommand.Summary) (S.left source.old) (S.left source.new) r.status r.text.items) }
    ensures read { HasSourceCause (S.faults source.old) (S.faults source.new) result }
{
    match report_from(alloc, source)? {
        Ok(report) => {
            let text = summary(alloc, &report);
            drop(report);
            Ok(written(text?))
        }
        Err(reply) => Ok(reply),
    }
}

fn ask_json<S: Source>(alloc: Global, source: &mut S) -> Result<Reply, Unanswered>
    ensures said { IfOk result (λ r. IsAnswer (Some ToolCommand.Json) (S.left source.old) (S.left source.new) r.status r.text.items) }
    ensures read { HasSourceCause (S.faults source.old) (S.faults source.new) result }
{
    match report_from(alloc, source)? {
        Ok(report) => {
            let text = json(alloc, &report);
            drop(report);
            Ok(written(text?))
        }
        Err(reply) => Ok(reply),
    }
}

fn ask_table<S: Source>(alloc: Global, source: &mut S) -> Result<Reply, Unanswered>
    ensures said { IfOk result (λ r. IsAnswer (Some ToolCommand.Table) (S.left source.old) (S.left source.new) r.status r.text.items) }
    ensures read { HasSourceCause (S.faults source.old) (S.faults source.new) result }
{
    match report_from(alloc, source)? {
        Ok(report) => {
            let text = table(alloc, &report);
            drop(report);
            Ok(written(text?))
        }
        Err(reply) => Ok(reply),
    }
}

fn ask_check<S: Source>(alloc: Global, trial: bool, source: &mut S) -> Result<Reply, Unanswered>
    ensures said { IfOk result (λ r. IsAnswer (Some (ToolCommand.Check trial)) (S.left source.old) (S.left source.new) r.status r.text.items) }
    ensures read { HasSourceCause (S.faults source.old) (S.faults source.new) result }
{
    match read_all(alloc, source, SCENARIO_LIMIT) {
        Ok(input) => Ok(check(alloc, trial, &input)?),
        Err(ReadError::TooLong) => Ok(refused(alloc, Status::TooLong, b"TooLong")?),
        Err(ReadError::ReadFault) => Err(Unanswered::Reading),
        Err(ReadError::OutOfMemory) => Err(Unanswered::Memory),
    }
}

// The reply of a command to what it reads.
fn reply_to<S: Source>(
    alloc: Global,
    command: ToolCommand,
    source: &mut S,
) -> Result<Reply, Unanswered>
    ensures said { IfOk result (λ r. IsAnswer (Some command) (S.left source.old) (S.left source.new) r.status r.text.items) }
    ensures read { HasSourceCause (S.faults source.old) (S.faults source.new) result }
{
    match command {
        ToolCommand::Slack => ask_slacks(alloc, source),
        ToolCommand::Priorities => ask_priorities(alloc, source),
        ToolCommand::Summary => ask_summary(alloc, source),
        ToolCommand::Json => ask_json(alloc, source),
        ToolCommand::Table => ask_table(alloc, source),
        ToolCommand::Check { trial } => ask_check(alloc, trial, source),
    }
}

fn answer<S: Source, K: Sink>(
    alloc: Global,
    command: ToolCommand,
    source: &mut S,
    sink: &mut K,
) -> Status
    ensures answer { Answers (Some command) (S.left source.old) (S.left source.new) (K.taken sink.old) (K.taken sink.new) result }
    ensures read { HasReadCause (S.faults source.old) (S.faults source.new) result }
    ensures write { HasWriteCause (K.faults sink.old) (K.faults sink.new) result }
{
    match reply_to(alloc, command, source) {
        Ok(reply) => match write_all(sink, &reply.text) {
            Ok(()) => reply.status,
            Err(_) => Status::WriteFault,
        },
        Err(Unanswered::Reading) => Status::ReadFault,
        Err(Unanswered::Memory) => Status::OutOfMemory,
    }
}

fn answer_usage<K: Sink>(sink: &mut K) -> Status
    ensures answer { (left : Maybe (Many ℕ)) → Answers None left left (K.taken sink.old) (K.taken sink.new) result }
    ensures read { result ≡ Status.ReadFault → ⊥ }
    ensures write { HasWriteCause (K.faults sink.old) (K.faults sink.new) result }
{
    match write_all(sink, USAGE) {
        Ok(()) => Status::Usage,
        Err(_) => Status::WriteFault,
    }
}

/// Does what the words say, from the source to the sink. The words are looked at first, then the source is read, then its
/// bytes are judged, then the text is written, as one piece. It always returns.
pub fn rtdb_tool<S: Source, K: Sink>(
    alloc: Global,
    words: &[Word],
    source: &mut S,
    sink: &mut K,
) -> Status
    // Which status, and what is written.
    ensures answer { Answers (command_of words.now) (S.left source.old) (S.left source.new) (K.taken sink.old) (K.taken sink.new) result }
    // No fault is told unless there was one.
    ensures read { HasReadCause (S.faults source.old) (S.faults source.new) result }
    ensures write { HasWriteCause (K.faults sink.old) (K.faults sink.new) result }
    // Without a command nothing is read, whatever the status is.
    ensures unread { command_of words.now ≡ None → source.new ≡ source.old }
    // The status that is due is answered, unless memory runs out.
    ensures complete { (due : Status) → IsDue (command_of words.now) (S.left source.old) due
        → ¬ Rose (S.faults source.old) (S.faults source.new) → ¬ Rose (K.faults sink.old) (K.faults sink.new)
        → (result ≡ due) ⊎ (result ≡ Status.OutOfMemory) }
{
    match read_command(alloc, words) {
        Ok(Some(command)) => answer(alloc, command, source, sink),
        Ok(None) => answer_usage(sink),
        Err(OutOfMemory) => Status::OutOfMemory,
    }
}
