//! The set of a scenario: its ceilings, and its admission.
ghost use Rattle.std.specs.Prelude.{◌≡◌, IfOk, IfErr, None, Some};
ghost use Rattle.txn_compiler.specs.Kept.{AreLists};
ghost use Rattle.txn_compiler.specs.Refusal.{compile_refusal};
ghost use Rattle.set_admission.specs.Admission.{refusal};
ghost use Rattle.step_script.specs.Shown.{shown};
ghost use Rattle.step_script.specs.Scenarios.{IsScenario};
ghost use Rattle.command_replies.specs.Replies.{CeilingsReply, AdmitReply};

use crate::accepted::{admitted_scenario, compiled_scenario};
use crate::reply::{Reply, written};
use item_model::ItemDecl;
use rt_base::{List, OutOfMemory, TogetherDecl};
use run_report::{admit_text, ceilings_text};
use set_admission::{AdmitError, AdmittedSet, admit};
use std::alloc::Global;
use step_script::Scenario;
use txn_compiler::{CompileError, CompiledSet, TxnDecl, compile, kept_as_declared};

/// The set of declarations, or the first rule that they break.
pub fn compiled(
    alloc: Global,
    items: List<ItemDecl>,
    txns: List<TxnDecl>,
    together: List<TogetherDecl>,
) -> Result<Result<CompiledSet, CompileError>, OutOfMemory>
    requires { AreLists (record { items = items; txns = txns; together = together }) }
    ensures set { IfOk result (λ r. IfOk r (λ set. set ≡ record { items = items; txns = txns; together = together })) }
    ensures passed { IfOk result (λ r. IfOk r (λ set. compile_refusal (record { items = items; txns = txns; together = together }) ≡ None)) }
    ensures refused { IfOk result (λ r. IfErr r (λ e. compile_refusal (record { items = items; txns = txns; together = together }) ≡ Some e)) }
{
    kept_as_declared();
    match compile(
        alloc,
        items.into_vec(),
        txns.into_vec(),
        together.into_vec(),
    ) {
        Ok(set) => Ok(Ok(set)),
        Err(error) => match error {
            CompileError::OutOfMemory => Err(OutOfMemory),
            _ => Ok(Err(error)),
        },
    }
}

/// The admitted set, or the first cause why it is not admitted.
pub fn admitted(
    alloc: Global,
    set: CompiledSet,
) -> Result<Result<AdmittedSet, AdmitError>, OutOfMemory>
    ensures set { IfOk result (λ r. IfOk r (λ a. a ≡ set)) }
    ensures passed { IfOk result (λ r. IfOk r (λ a. refusal set ≡ None)) }
    ensures refused { IfOk result (λ r. IfErr r (λ e. refusal set ≡ Some e)) }
{
    set.is_compiled();
    match admit(alloc, set) {
        Ok(set) => Ok(Ok(set)),
        Err((_, AdmitError::OutOfMemory)) => Err(OutOfMemory),
        Err((_, error)) => Ok(Err(error)),
    }
}

/// The reply of `ceilings` to a scenario.
pub fn ceilings(alloc: Global, scenario: Scenario) -> Result<Reply, OutOfMemory>
    requires { IsScenario (shown scenario) }
    ensures { IfOk result (λ r. CeilingsReply (shown scenario) r.status r.text.items) }
{
    match compiled_scenario(alloc, scenario)? {
        Ok(accepted) => {
            let text = ceilings_text(alloc, &accepted.names, &accepted.set);
            drop(accepted);
            Ok(written(text?))
        }
        Err(reply) => Ok(reply),
    }
}

/// The reply of `admit` to a scenario.
pub fn bounds(alloc: Global, scenario: Scenario) -> Result<Reply, OutOfMemory>
    requires { IsScenario (shown scenario) }
    ensures { IfOk result (λ r. AdmitReply (shown scenario) r.status r.text.items) }
{
    match admitted_scenario(alloc, scenario)? {
        Ok(accepted) => {
            let text = admit_text(alloc, &accepted.names, &accepted.set);
            drop(accepted);
            Ok(written(text?))
        }
        Err(reply) => Ok(reply),
    }
}
