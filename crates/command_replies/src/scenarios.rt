//! A scenario that is read of a source.
ghost use Rattle.std.specs.Prelude.{◌≡◌, ◌≤◌, length, Ok, IfOk, IfErr};
ghost use Rattle.step_script.specs.Shown.{shown};
ghost use Rattle.step_script.specs.Scenarios.{IsScenario};
ghost use Rattle.scenario_forms.specs.Root.{forms_view};
ghost use Rattle.scenario_reader.specs.Reading.{data_of, scenario_in};
ghost use Rattle.command_replies.specs.Causes.{HasSourceCause};
ghost use Rattle.command_replies.specs.Scenarios.{names_in, names_of_forms, IsReadFrom, IsRefused, IsRefusedFrom};

use crate::reply::{Reply, no_names, refused, refused_scenario};
use crate::unanswered::Unanswered;
use io_edge::{ReadError, Source, Status, read_all};
use rt_base::{List, Names, OutOfMemory};
use scenario_forms::{FormError, Forms, ItemTable, TextError, TxnTable, read_forms, read_value};
use scenario_reader::{ScenarioError, read_scenario};
use std::alloc::Global;
use step_script::Scenario;

/// The most bytes of a scenario.
pub const SCENARIO_LIMIT: usize = 4_194_304;

/// The names that a text's forms declare, for the line of a refusal.
pub fn declared_names(alloc: Global, input: &[u8]) -> Result<Names, OutOfMemory>
    requires { length input.now ≤ SCENARIO_LIMIT }
    ensures { IfOk result (λ names. names ≡ names_in (data_of input.now)) }
{
    let value = match read_value(alloc, input) {
        Ok(value) => value,
        Err(TextError::OutOfMemory) => return Err(OutOfMemory),
        Err(TextError::NotJson) => return Ok(no_names(alloc)),
    };
    match read_forms(alloc, &value) {
        Ok(forms) => Ok(names_of(forms)),
        Err(FormError::OutOfMemory) => Err(OutOfMemory),
        Err(FormError::BadField { .. }) => Ok(no_names(alloc)),
    }
}

fn names_of(forms: Forms) -> Names
    ensures { result ≡ names_of_forms (Ok (forms_view forms)) }
{
    let Forms {
        version: _,
        items,
        txns,
        sets: _,
    } = forms;
    let ItemTable {
        names: items,
        decls: _,
    } = items;
    let TxnTable {
        names: txns,
        txns: _,
    } = txns;
    Names {
        items: List::of(items.into_names()),
        txns: List::of(txns.into_names()),
    }
}

// The scenario of the bytes, or the reply that says the first refusal.
fn judged(alloc: Global, input: &[u8]) -> Result<Result<Scenario, Reply>, OutOfMemory>
    requires { length input.now ≤ SCENARIO_LIMIT }
    ensures scenario { IfOk result (λ r. IfOk r (λ s. IsScenario (shown s) × (scenario_in (data_of input.now) ≡ Ok (shown s)))) }
    ensures refused { IfOk result (λ r. IfErr r (λ p. IsRefused (data_of input.now) p.status p.text.items)) }
{
    match read_scenario(alloc, input) {
        Ok(scenario) => Ok(Ok(scenario)),
        Err(ScenarioError::OutOfMemory) => Err(OutOfMemory),
        Err(error) => {
            let names = declared_names(alloc, input)?;
            Ok(Err(refused_scenario(alloc, &names, error)?))
        }
    }
}

/// The scenario that is read of a source, all that it gives up to SCENARIO_LIMIT bytes, or the reply that says why there is
/// none: TooLong, or the first refusal.
pub fn scenario_from<S: Source>(
    alloc: Global,
    source: &mut S,
) -> Result<Result<Scenario, Reply>, Unanswered>
    ensures scenario { IfOk result (λ r. IfOk r (λ s. IsReadFrom (S.left source.old) (S.left source.new) (shown s))) }
    ensures refused { IfOk result (λ r. IfErr r (λ p. IsRefusedFrom (S.left source.old) (S.left source.new) p.status p.text.items)) }
    ensures read { HasSourceCause (S.faults source.old) (S.faults source.new) result }
{
    match read_all(alloc, source, SCENARIO_LIMIT) {
        Ok(input) => Ok(judged(alloc, &input)?),
        Err(ReadError::TooLong) => Ok(Err(refused(alloc, Status::TooLong, b"TooLong")?)),
        Err(ReadError::ReadFault) => Err(Unanswered::Reading),
        Err(ReadError::OutOfMemory) => Err(Unanswered::Memory),
    }
}
