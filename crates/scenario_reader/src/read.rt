//! Reading a scenario.
ghost use Rattle.std.specs.Prelude.{◌≡◌, ◌<◌, ◌≤◌, ◌^◌, [], length, None, IfOk, IsErrOf};
ghost use Rattle.std.specs.List.{All};
ghost use Rattle.serde_json.specs.View.{view};
ghost use Rattle.step_script.specs.Scripts.{IsTold};
ghost use Rattle.step_script.specs.Shown.{shown};
ghost use Rattle.step_script.specs.Scenarios.{IsScenario};
ghost use Rattle.scenario_forms.specs.Root.{forms_view};
ghost use Rattle.scenario_reader.specs.Refusals.{GivesBy};
ghost use Rattle.scenario_forms.specs.Sizes.{size};
ghost use Rattle.scenario_reader.specs.Made.{IsBegun, IsGoodTxn, AreCounted};
ghost use Rattle.scenario_reader.specs.Reading.{scenario_from, scenario_of, scenario_in, data_of};

use crate::error::ScenarioError;
use crate::judge::judge;
use crate::made::made;
use crate::unknown::unknown_name;
use scenario_forms::{Forms, read_forms, read_value};
use serde_json::Value;
use std::alloc::Global;
use step_script::Scenario;

// The scenario of forms.
#[tactic(auto, unfolding(crate::specs::Reading::scenario_from))]
fn of_forms(alloc: Global, forms: Forms) -> Result<Scenario, ScenarioError>
    requires good { All (IsGoodTxn (length (forms_view forms).items.decls)) (forms_view forms).txns.txns }
    requires counted { AreCounted (forms_view forms).txns }
    ensures read { GivesBy shown result (scenario_from (forms_view forms)) }
    ensures begun { IfOk result IsBegun }
    ensures json { IsErrOf result ScenarioError.NotJson → ⊥ }
{
    if let Some(place) = unknown_name(&forms) {
        return Err(ScenarioError::UnknownName { place });
    }
    let mut scenario = made(alloc, forms)?;
    let room = judge(alloc, &scenario)?;
    scenario.room = room;
    Ok(scenario)
}

// The scenario of a value.
#[tactic(auto, unfolding(crate::specs::Reading::scenario_of))]
fn of_value(alloc: Global, value: &Value) -> Result<Scenario, ScenarioError>
    requires { size (view value.now) ≤ 2 ^ 32 }
    ensures read { GivesBy shown result (scenario_of (view value.now)) }
    ensures begun { IfOk result IsBegun }
    ensures json { IsErrOf result ScenarioError.NotJson → ⊥ }
{
    let forms = read_forms(alloc, value)?;
    of_forms(alloc, forms)
}

/// The scenario of a JSON text in UTF-8, or the first refusal in the order of ScenarioError. It is linear in the text, with
/// one look-up in a hash map for each name, but for the sorts of reads, writes and relative sets; a compute is never
/// expanded.
pub fn read_scenario(alloc: Global, bytes: &[u8]) -> Result<Scenario, ScenarioError>
    requires { length bytes.now < 2 ^ 32 }
    ensures read { GivesBy shown result (scenario_in (data_of bytes.now)) }
    ensures not_json { IsErrOf result ScenarioError.NotJson → data_of bytes.now ≡ None }
    ensures good { IfOk result (λ s. IsScenario (shown s)) }
    ensures begun { IfOk result (λ s. All (λ script. IsTold script 0 []) s.scripts) }
{
    let value = read_value(alloc, bytes)?;
    of_value(alloc, &value)
}
