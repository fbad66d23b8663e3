//! Reading the scenario.
ghost use Rattle.std.specs.Prelude.{IfOk};
ghost use Rattle.step_script.specs.Shown.{shown};
ghost use Rattle.step_script.specs.Scenarios.{IsScenario};

use crate::growths::fault::Fault;
use crate::growths::said::{Before, failed, judged, refused};
use scenario_reader::{ScenarioError, read_scenario};
use scenario_writer::write_scenario;
use std::alloc::Global;
use step_script::Scenario;

const NAME: &str = "read_scenario";

// The scenario of a text, where no growth is refused.
fn read<R: Print>(rt: &R, alloc: Global, text: &[u8]) -> Result<Scenario, Fault>
    ensures { IfOk result (λ s. IsScenario (shown s)) }
{
    if text.len() >= 1 << 32 {
        return Err(Fault::NotKnown);
    }
    match read_scenario(alloc, text) {
        Ok(scenario) => Ok(scenario),
        Err(_) => Err(failed(rt, NAME)),
    }
}

// The scenario of a text, and whether a growth was refused at first.
fn read_twice<R: Print>(rt: &R, alloc: Global, text: &[u8]) -> Result<(Scenario, Before), Fault>
    ensures { IfOk result (λ r. IsScenario (shown r.0)) }
{
    if text.len() >= 1 << 32 {
        return Err(Fault::NotKnown);
    }
    match read_scenario(alloc, text) {
        Ok(scenario) => Ok((scenario, Before::First)),
        Err(ScenarioError::OutOfMemory) => {
            // The text is lent, so no call can change it.
            let before = refused(rt, NAME, true)?;
            Ok((read(rt, alloc, text)?, before))
        }
        Err(_) => Err(failed(rt, NAME)),
    }
}

// Good only where the scenario is written as the same text again.
fn judged_again<R: Print>(
    rt: &R,
    alloc: Global,
    text: &[u8],
    scenario: &Scenario,
    before: Before,
) -> Result<(), Fault>
    requires { IsScenario (shown scenario.now) }
{
    let again = write_scenario(alloc, scenario)?;
    judged(rt, NAME, before, again.as_slice() == text)
}

/// The scenario of a canonical text. It is the known one where it is written as the same text again.
pub fn scenario<R: Print>(rt: &R, alloc: Global, text: &[u8]) -> Result<Scenario, Fault>
    ensures { IfOk result (λ s. IsScenario (shown s)) }
{
    let (scenario, before) = read_twice(rt, alloc, text)?;
    match judged_again(rt, alloc, text, &scenario, before) {
        Ok(()) => Ok(scenario),
        Err(fault) => {
            drop(scenario);
            Err(fault)
        }
    }
}

/// The scenario once more, for a call that took the first.
pub fn read_anew<R: Print>(rt: &R, alloc: Global, text: &[u8]) -> Result<Scenario, Fault> {
    read(rt, alloc, text)
}
