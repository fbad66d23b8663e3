//! The text that a status writes, and refusals.
ghost use Rattle.std.specs.Prelude.{◌≡◌, [], IfOk};
ghost use Rattle.command_replies.specs.Replies.{Refused};
ghost use Rattle.refusal_lines.specs.Causes.{scenario_cause, compile_cause, admit_cause};
ghost use Rattle.refusal_lines.specs.Lines.{rate_cause};
ghost use Rattle.command_replies.specs.Texts.{refused_line};

use io_edge::Status;
use refusal_lines::{put_admit_cause, put_compile_cause, put_rate_cause, put_scenario_cause};
use rt_base::{List, Names, OutOfMemory};
use scenario_reader::ScenarioError;
use set_admission::AdmitError;
use std::alloc::Global;
use txn_compiler::CompileError;
use update_rates::RateError;

/// The text that a status writes.
#[derive(Drop)]
pub struct Reply {
    /// How the call ends where the whole text is written.
    pub status: Status,
    /// What is written.
    pub text: Vec<u8>,
}

/// A reply of a command's text.
pub fn written(text: Vec<u8>) -> Reply
    ensures { (result.status ≡ Status.Ok) × (result.text.items ≡ text.items) }
{
    Reply {
        status: Status::Ok,
        text,
    }
}

/// No names, where none are declared.
pub fn no_names(alloc: Global) -> Names
    ensures { (result.items ≡ []) × (result.txns ≡ []) }
{
    Names {
        items: List::of(Vec::new(alloc)),
        txns: List::of(Vec::new(alloc)),
    }
}

/// The refusal with a plain cause.
pub fn refused(alloc: Global, status: Status, cause: &[u8]) -> Result<Reply, OutOfMemory>
    ensures { IfOk result (λ r. (r.status ≡ status) × (r.text.items ≡ refused_line cause.now)) }
{
    let mut text = Vec::from_slice(alloc, b"refused ")?;
    text.extend_from_slice(cause)?;
    text.extend_from_slice(b"\n")?;
    Ok(Reply { status, text })
}

/// Why a scenario is not read.
pub fn refused_scenario(
    alloc: Global,
    names: &Names,
    error: ScenarioError,
) -> Result<Reply, OutOfMemory>
    ensures { IfOk result (λ r. Refused (scenario_cause names.now error) r.status r.text.items) }
{
    let mut cause = Vec::new(alloc);
    put_scenario_cause(&mut cause, names, error)?;
    refused(alloc, Status::Refused, &cause)
}

/// Why declarations are no set.
pub fn refused_set(alloc: Global, names: &Names, error: CompileError) -> Result<Reply, OutOfMemory>
    ensures { IfOk result (λ r. Refused (compile_cause names.now error) r.status r.text.items) }
{
    let mut cause = Vec::new(alloc);
    put_compile_cause(&mut cause, names, error)?;
    refused(alloc, Status::Refused, &cause)
}

/// Why a set is not admitted.
pub fn refused_admission(
    alloc: Global,
    names: &Names,
    error: AdmitError,
) -> Result<Reply, OutOfMemory>
    ensures { IfOk result (λ r. Refused (admit_cause names.now error) r.status r.text.items) }
{
    let mut cause = Vec::new(alloc);
    put_admit_cause(&mut cause, names, error)?;
    refused(alloc, Status::Refused, &cause)
}

/// Why declarations get no rates.
pub fn refused_rates(alloc: Global, names: &Names, error: RateError) -> Result<Reply, OutOfMemory>
    ensures { IfOk result (λ r. Refused (rate_cause names.now error) r.status r.text.items) }
{
    let mut cause = Vec::new(alloc);
    put_rate_cause(&mut cause, names, error)?;
    refused(alloc, Status::Refused, &cause)
}
