//! Whether a text is refused, and why, and the warnings of a scenario that is read.
ghost use Rattle.std.specs.Prelude.{◌≡◌, ◌≤◌, ◌&&◌, nat_le, length, Ok, Err, Some, None, IfOk, IfErr, IsTrue, if◌then◌else◌, []};
ghost use Rattle.txn_compiler.specs.Kept.{AreLists};
ghost use Rattle.step_script.specs.Shown.{shown, set_of};
ghost use Rattle.step_script.specs.Scenarios.{IsScenario};
ghost use Rattle.scenario_reader.specs.Reading.{data_of, scenario_in};
ghost use Rattle.scenario_check.specs.Warnings.{warnings_of};
ghost use Rattle.scenario_check.specs.Verdicts.{names_by, is_small as is_small_scenario, admit_refusal, set_refusal, told_warnings, IsVerdictOn, IsVerdictIn, IsVerdict};

use crate::found::{Refusal, Verdict};
use crate::kinds::Warning;
use crate::listing::warnings;
use command_replies::{SCENARIO_LIMIT, admitted, compiled, declared_names, no_names};
use item_model::ItemDecl;
use rt_base::{List, Names, OutOfMemory, TogetherDecl};
use scenario_reader::{ScenarioError, read_scenario};
use std::alloc::Global;
use step_script::Scenario;
use txn_compiler::{CompiledSet, TxnDecl};

const MOST_ITEMS: usize = 256;

const MOST_TXNS: usize = 64;

// The names that the words of a refusal need.
fn names_for(alloc: Global, error: ScenarioError, input: &[u8]) -> Result<Names, OutOfMemory>
    requires { length input.now ≤ SCENARIO_LIMIT }
    ensures { IfOk result (λ names. names ≡ names_by (Err error) (data_of input.now)) }
{
    match error {
        ScenarioError::BadRelease { .. } => declared_names(alloc, input),
        _ => Ok(no_names(alloc)),
    }
}

fn is_small(scenario: &Scenario) -> bool
    ensures value { result ≡ is_small_scenario (shown scenario.now) }
    ensures items { IsTrue result → length scenario.now.items ≤ 256 }
    ensures txns { IsTrue result → length scenario.now.txns ≤ 64 }
{
    scenario.items.as_slice().len() <= MOST_ITEMS && scenario.txns.as_slice().len() <= MOST_TXNS
}

// The warnings of a scenario that is no larger than a set may be.
#[tactic(auto, using(crate::proofs::Refusing::small_told, crate::proofs::Refusing::large_told))]
fn small_warnings(alloc: Global, scenario: &Scenario) -> Result<Vec<Warning>, OutOfMemory>
    requires { IsScenario (shown scenario.now) }
    ensures { IfOk result (λ told. told.items ≡ told_warnings (Ok (shown scenario.now))) }
{
    if is_small(scenario) {
        warnings(alloc, scenario)
    } else {
        Ok(Vec::new(alloc))
    }
}

// Why a set is not admitted; a trial is not refused for that. None if it is admitted.
#[tactic(auto, using(crate::proofs::Refusing::trial_passes, crate::proofs::Refusing::is_admitted, crate::proofs::Refusing::is_not_admitted))]
fn not_admitted(
    alloc: Global,
    trial: bool,
    set: CompiledSet,
) -> Result<Option<Refusal>, OutOfMemory>
    ensures { IfOk result (λ refusal. refusal ≡ admit_refusal trial set) }
{
    if trial {
        return Ok(None);
    }
    match admitted(alloc, set)? {
        Ok(_) => Ok(None),
        Err(error) => Ok(Some(Refusal::Admit(error))),
    }
}

// Why declarations are refused; None if they are not.
#[tactic(auto, using(crate::proofs::Refusing::compiles, crate::proofs::Refusing::is_not_compiled))]
fn refused(
    alloc: Global,
    trial: bool,
    items: List<ItemDecl>,
    txns: List<TxnDecl>,
    together: List<TogetherDecl>,
) -> Result<Option<Refusal>, OutOfMemory>
    requires { AreLists (record { items = items; txns = txns; together = together }) }
    ensures { IfOk result (λ refusal. refusal ≡ set_refusal trial (record { items = items; txns = txns; together = together })) }
{
    match compiled(alloc, items, txns, together)? {
        Ok(set) => not_admitted(alloc, trial, set),
        Err(error) => Ok(Some(Refusal::Compile(error))),
    }
}

// The verdict on a scenario.
fn verdict_on(alloc: Global, trial: bool, scenario: Scenario) -> Result<Verdict, OutOfMemory>
    requires { IsScenario (shown scenario) }
    ensures { IfOk result (λ v. IsVerdictOn trial (shown scenario) v) }
{
    let warnings = small_warnings(alloc, &scenario)?;
    let Scenario {
        names,
        items,
        txns,
        together,
        scripts: _,
        releases: _,
        room: _,
    } = scenario;
    let refusal = refused(alloc, trial, items, txns, together)?;
    Ok(Verdict::Judged {
        names,
        refusal,
        warnings,
    })
}

// The verdict on a text that is not read for this.
fn unread(alloc: Global, error: ScenarioError, input: &[u8]) -> Result<Verdict, OutOfMemory>
    requires { length input.now ≤ SCENARIO_LIMIT }
    ensures { IfOk result (λ v. IsVerdictIn error (data_of input.now) v) }
{
    match error {
        ScenarioError::BadField { .. } | ScenarioError::UnknownName { .. } => {
            Ok(Verdict::Faulty { error })
        }
        _ => Ok(Verdict::Judged {
            names: names_for(alloc, error, input)?,
            refusal: Some(Refusal::Scenario(error)),
            warnings: Vec::new(alloc),
        }),
    }
}

/// Whether and why `run`, or `run --trial`, refuses a text, by the reader, the compiler and the admission that it has; and
/// the warnings of a scenario that is read and has no more items and transactions than a set may have.
#[tactic(auto, using(crate::proofs::Answering::verdict_read, crate::proofs::Answering::verdict_unread))]
pub(crate) fn judged(alloc: Global, trial: bool, input: &[u8]) -> Result<Verdict, OutOfMemory>
    requires { length input.now ≤ SCENARIO_LIMIT }
    ensures { IfOk result (λ v. IsVerdict trial (data_of input.now) v) }
{
    match read_scenario(alloc, input) {
        Ok(scenario) => verdict_on(alloc, trial, scenario),
        Err(ScenarioError::OutOfMemory) => Err(OutOfMemory),
        Err(error) => unread(alloc, error, input),
    }
}
