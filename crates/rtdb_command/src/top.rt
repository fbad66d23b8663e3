//! The top call.
ghost use Rattle.std.specs.Prelude.{◌≡◌, ◌⊎◌, ◌≤◌, length, [], Some, None, Ok, Option as Maybe, List as Many, ℕ, IfOk, IfErr, IfSome};
ghost use Rattle.std.specs.Io.KnownBytes.{Keeps};
ghost use Rattle.io_edge.specs.Causes.{Rose};
ghost use Rattle.command_replies.specs.Causes.{HasReadCause, HasWriteCause, HasSourceCause};
ghost use Rattle.step_script.specs.Shown.{shown};
ghost use Rattle.step_script.specs.Scenarios.{IsScenario};
ghost use Rattle.scenario_run.specs.Written.{Wrote, WroteFront};
ghost use Rattle.command_words.specs.Commands.{command_of, IsInRange};
ghost use Rattle.command_replies.specs.Answers.{Told, CutShort};
ghost use Rattle.rtdb_command.specs.Replies.{generated_text};
ghost use Rattle.rtdb_command.specs.Answers.{plain_command_of, IsAnswer, TakesNoInput, RanOut, Answers, IsGood};

use command_replies::{
    REPORT_LIMIT, Reply, Unanswered, bounds, ceilings, margins, rates, refused, replayed,
    scenario_from, written,
};
use command_words::{Command, PlainCommand, read_command};
use io_edge::{ReadError, Sink, Source, Status, Word, read_all, write_all};
use rt_base::OutOfMemory;
use scenario_run::{RunMode, load, run_scenario};
use scenario_writer::{generated, write_scenario};
use sim_run::{RunFault, Workers};
use std::alloc::Global;
use std::sync::Wait;
use std::thread::Threads;
use txn_threads::Gate;

const USAGE: &[u8] =
    b"usage: rtdb ceilings | admit | run [--trial] [--workers N] | replay | gen N | load N [--workers K] | rates | margin | journal PATH\n";

// The verdict on the report that is read.
fn replay<S: Source>(alloc: Global, source: &mut S) -> Result<Reply, Unanswered>
    ensures said { IfOk result (λ r. IsAnswer (Some (Command.Plain PlainCommand.Replay)) (S.left source.old) (S.left source.new) r.status r.text.items) }
    ensures read { HasSourceCause (S.faults source.old) (S.faults source.new) result }
{
    match read_all(alloc, source, REPORT_LIMIT) {
        Ok(input) => Ok(replayed(alloc, &input)?),
        Err(ReadError::TooLong) => Ok(refused(alloc, Status::TooLong, b"TooLong")?),
        Err(ReadError::ReadFault) => Err(Unanswered::Reading),
        Err(ReadError::OutOfMemory) => Err(Unanswered::Memory),
    }
}

// The text of a generated scenario.
fn generate(alloc: Global, n: u32) -> Result<Reply, OutOfMemory>
    requires { (1 ≤ n) × (n ≤ 64) }
    ensures { IfOk result (λ r. (r.status ≡ Status.Ok) × (r.text.items ≡ generated_text n)) }
{
    let scenario = generated(alloc, n)?;
    let mut text = write_scenario(alloc, &scenario)?;
    text.extend_from_slice(b"\n")?;
    Ok(written(text))
}

fn ask_ceilings<S: Source>(alloc: Global, source: &mut S) -> Result<Reply, Unanswered>
    ensures said { IfOk result (λ r. IsAnswer (Some (Command.Plain PlainCommand.Ceilings)) (S.left source.old) (S.left source.new) r.status r.text.items) }
    ensures read { HasSourceCause (S.faults source.old) (S.faults source.new) result }
{
    match scenario_from(alloc, source)? {
        Ok(scenario) => Ok(ceilings(alloc, scenario)?),
        Err(reply) => Ok(reply),
    }
}

fn ask_bounds<S: Source>(alloc: Global, source: &mut S) -> Result<Reply, Unanswered>
    ensures said { IfOk result (λ r. IsAnswer (Some (Command.Plain PlainCommand.Admit)) (S.left source.old) (S.left source.new) r.status r.text.items) }
    ensures read { HasSourceCause (S.faults source.old) (S.faults source.new) result }
{
    match scenario_from(alloc, source)? {
        Ok(scenario) => Ok(bounds(alloc, scenario)?),
        Err(reply) => Ok(reply),
    }
}

fn ask_rates<S: Source>(alloc: Global, source: &mut S) -> Result<Reply, Unanswered>
    ensures said { IfOk result (λ r. IsAnswer (Some (Command.Plain PlainCommand.Rates)) (S.left source.old) (S.left source.new) r.status r.text.items) }
    ensures read { HasSourceCause (S.faults source.old) (S.faults source.new) result }
{
    match scenario_from(alloc, source)? {
        Ok(scenario) => Ok(rates(alloc, scenario)?),
        Err(reply) => Ok(reply),
    }
}

fn ask_margin<S: Source>(alloc: Global, source: &mut S) -> Result<Reply, Unanswered>
    ensures said { IfOk result (λ r. IsAnswer (Some (Command.Plain PlainCommand.Margin)) (S.left source.old) (S.left source.new) r.status r.text.items) }
    ensures read { HasSourceCause (S.faults source.old) (S.faults source.new) result }
{
    match scenario_from(alloc, source)? {
        Ok(scenario) => Ok(margins(alloc, scenario)?),
        Err(reply) => Ok(reply),
    }
}

// The reply of a command that runs no workers.
fn reply_to<S: Source>(
    alloc: Global,
    command: PlainCommand,
    source: &mut S,
) -> Result<Reply, Unanswered>
    requires { IsInRange (Command.Plain command) }
    ensures said { IfOk result (λ r. IsAnswer (Some (Command.Plain command)) (S.left source.old) (S.left source.new) r.status r.text.items) }
    ensures read { HasSourceCause (S.faults source.old) (S.faults source.new) result }
    ensures unread { TakesNoInput (Some (Command.Plain command)) → source.new ≡ source.old }
{
    match command {
        PlainCommand::Ceilings => ask_ceilings(alloc, source),
        PlainCommand::Admit => ask_bounds(alloc, source),
        PlainCommand::Replay => replay(alloc, source),
        PlainCommand::Gen { n } => Ok(generate(alloc, n)?),
        PlainCommand::Rates => ask_rates(alloc, source),
        PlainCommand::Margin => ask_margin(alloc, source),
    }
}

fn answer_plain<S: Source, K: Sink>(
    alloc: Global,
    command: PlainCommand,
    source: &mut S,
    sink: &mut K,
) -> Status
    requires { IsInRange (Command.Plain command) }
    ensures answer { Answers (Some (Command.Plain command)) (S.left source.old) (S.left source.new) (K.taken sink.old) (K.taken sink.new) result }
    ensures unread { TakesNoInput (Some (Command.Plain command)) → source.new ≡ source.old }
    ensures read { HasReadCause (S.faults source.old) (S.faults source.new) result }
    ensures write { HasWriteCause (K.faults sink.old) (K.faults sink.new) result }
{
    match reply_to(alloc, command, source) {
        Ok(reply) => match write_all(sink, &reply.text) {
            Ok(()) => reply.status,
            Err(_) => Status::WriteFault,
        },
        Err(Unanswered::Reading) => Status::ReadFault,
        Err(Unanswered::Memory) => Status::OutOfMemory,
    }
}

pub(crate) fn answer_no_command<K: Sink>(sink: &mut K) -> Status
    ensures answer { (left : Maybe (Many ℕ)) → Answers None left left (K.taken sink.old) (K.taken sink.new) result }
    ensures which { (result ≡ Status.Usage) ⊎ (result ≡ Status.WriteFault) }
    ensures read { result ≡ Status.ReadFault → ⊥ }
    ensures write { HasWriteCause (K.faults sink.old) (K.faults sink.new) result }
{
    match write_all(sink, USAGE) {
        Ok(()) => Status::Usage,
        Err(_) => Status::WriteFault,
    }
}

fn answer_run<R: Threads + Wait + Sync, S: Source, K: Sink, G: Gate + Sync>(
    rt: &R,
    alloc: Global,
    mode: RunMode,
    source: &mut S,
    sink: &mut K,
    gate: &G,
) -> Status
    ensures answer { Answers (Some (Command.Run mode.trial mode.workers)) (S.left source.old) (S.left source.new) (K.taken sink.old) (K.taken sink.new) result }
    ensures read { HasReadCause (S.faults source.old) (S.faults source.new) result }
    ensures write { HasWriteCause (K.faults sink.old) (K.faults sink.new) result }
{
    let scenario = match scenario_from(alloc, source) {
        Ok(Ok(scenario)) => scenario,
        Ok(Err(reply)) => {
            return match write_all(sink, &reply.text) {
                Ok(()) => reply.status,
                Err(_) => Status::WriteFault,
            };
        }
        Err(Unanswered::Reading) => return Status::ReadFault,
        Err(Unanswered::Memory) => return Status::OutOfMemory,
    };
    match run_scenario(rt, alloc, mode, scenario, sink, gate) {
        Ok(None) => Status::Ok,
        Ok(Some(reply)) => match write_all(sink, &reply.text) {
            Ok(()) => reply.status,
            Err(_) => Status::WriteFault,
        },
        Err(RunFault::Writing) => Status::WriteFault,
        Err(RunFault::Memory) => Status::OutOfMemory,
    }
}

fn answer_load<R: Threads + Wait + Sync, K: Sink, G: Gate + Sync>(
    rt: &R,
    alloc: Global,
    n: u32,
    workers: Workers,
    sink: &mut K,
    gate: &G,
) -> Status
    requires n { (1 ≤ n) × (n ≤ 64) }
    ensures answer { (left : Maybe (Many ℕ)) → Answers (Some (Command.Load n workers)) left left (K.taken sink.old) (K.taken sink.new) result }
    ensures read { result ≡ Status.ReadFault → ⊥ }
    ensures write { HasWriteCause (K.faults sink.old) (K.faults sink.new) result }
{
    match load(rt, alloc, n, workers, gate) {
        Ok(reply) => match write_all(sink, &reply.text) {
            Ok(()) => reply.status,
            Err(_) => Status::WriteFault,
        },
        Err(OutOfMemory) => Status::OutOfMemory,
    }
}

/// Does what the words say, from the source to the sink, but for `run` and `load`, which are Usage here. It always returns. The
/// words are looked at first, then the source is read, then its bytes are judged, then the text is written, as one
/// piece.
pub fn rtdb_plain<S: Source, K: Sink>(
    alloc: Global,
    words: &[Word],
    source: &mut S,
    sink: &mut K,
) -> Status
    // Which status, and what is written.
    ensures answer { Answers (plain_command_of words.now) (S.left source.old) (S.left source.new) (K.taken sink.old) (K.taken sink.new) result }
    // Without a command and to generate, nothing is read, whatever the status is.
    ensures unread { TakesNoInput (plain_command_of words.now) → source.new ≡ source.old }
    // No fault is told unless there was one.
    ensures read { HasReadCause (S.faults source.old) (S.faults source.new) result }
    ensures write { HasWriteCause (K.faults sink.old) (K.faults sink.new) result }
    // What can be answered is, unless memory runs out.
    ensures complete { IsGood (plain_command_of words.now) (S.left source.old)
        → ¬ Rose (S.faults source.old) (S.faults source.new) → ¬ Rose (K.faults sink.old) (K.faults sink.new)
        → (result ≡ Status.Ok) ⊎ (result ≡ Status.OutOfMemory) }
{
    match read_command(alloc, words) {
        Ok(Some(Command::Plain(command))) => answer_plain(alloc, command, source, sink),
        Ok(Some(Command::Run { .. })) => answer_no_command(sink),
        Ok(Some(Command::Load { .. })) => answer_no_command(sink),
        Ok(None) => answer_no_command(sink),
        Err(OutOfMemory) => Status::OutOfMemory,
    }
}

// So many workers.
fn workers_of(number: u32) -> Workers
    requires { (1 ≤ number) × (number ≤ 64) }
    ensures { result ≡ number }
{
    match Workers::new(number) {
        Some(workers) => workers,
        None => unreachable!(),
    }
}

// A run as a trial or admitted, by so many workers.
fn mode_of(trial: bool, workers: u32) -> RunMode
    requires { (1 ≤ workers) × (workers ≤ 64) }
    ensures { result ≡ record { trial = trial; workers = workers } }
{
    RunMode {
        trial,
        workers: workers_of(workers),
    }
}

/// Does what the words say, from the source to the sink. The words are looked at first, then the source is read, then its
/// bytes are judged, then the scenario is run by workers, each in a thread of its own where one can be made; `gate` is told
/// of each question to a script. The text is written as one piece, but for the report of a run: its declarations are
/// written as one piece, and later lines as they come, or, where a transaction is eager, when the run is over. `run` and
/// `load` may wait; every other command always returns.
pub fn rtdb<R: Threads + Wait + Sync, S: Source, K: Sink, G: Gate + Sync>(
    rt: &R,
    alloc: Global,
    words: &[Word],
    source: &mut S,
    sink: &mut K,
    gate: &G,
) -> Status
    // Which status, and what is written.
    ensures answer { Answers (command_of words.now) (S.left source.old) (S.left source.new) (K.taken sink.old) (K.taken sink.new) result }
    // Without a command, to generate and to load, nothing is read, whatever the status is.
    ensures unread { TakesNoInput (command_of words.now) → source.new ≡ source.old }
    // No fault is told unless there was one.
    ensures read { HasReadCause (S.faults source.old) (S.faults source.new) result }
    ensures write { HasWriteCause (K.faults sink.old) (K.faults sink.new) result }
    // What can be answered is, unless memory runs out.
    ensures complete { IsGood (command_of words.now) (S.left source.old)
        → ¬ Rose (S.faults source.old) (S.faults source.new) → ¬ Rose (K.faults sink.old) (K.faults sink.new)
        → (result ≡ Status.Ok) ⊎ (result ≡ Status.OutOfMemory) }
{
    match read_command(alloc, words) {
        Ok(Some(Command::Run { trial, workers })) => {
            answer_run(rt, alloc, mode_of(trial, workers), source, sink, gate)
        }
        Ok(Some(Command::Load { n, workers })) => {
            answer_load(rt, alloc, n, workers_of(workers), sink, gate)
        }
        Ok(_) => rtdb_plain(alloc, words, source, sink),
        Err(OutOfMemory) => Status::OutOfMemory,
    }
}
