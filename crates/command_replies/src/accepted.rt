//! A scenario that is not refused, or the reply that refuses it.
ghost use Rattle.std.specs.Prelude.{IfOk, IfErr};
ghost use Rattle.step_script.specs.Shown.{shown};
ghost use Rattle.step_script.specs.Scenarios.{IsScenario};
ghost use Rattle.command_replies.specs.Accepted.{IsCompiledOf, IsAdmittedOf};
ghost use Rattle.command_replies.specs.Replies.{IsUncompiled, IsRefusal};

use crate::reply::{Reply, refused_admission, refused_set};
use crate::sets::{admitted, compiled};
use rt_base::{List, Names, OutOfMemory};
use set_admission::AdmittedSet;
use std::alloc::Global;
use step_script::{Releases, Scenario, Script};
use txn_compiler::CompiledSet;

/// What the transactions of a scenario are to do.
#[derive(Drop)]
pub struct Tasks {
    pub scripts: List<Script>,
    pub releases: List<Releases>,
    /// For how many entries there is to be room.
    pub room: usize,
}

/// A scenario that is not refused.
#[derive(Drop)]
pub struct Accepted<S> {
    pub names: Names,
    pub set: S,
    pub tasks: Tasks,
}

/// A scenario whose set compiles, or the reply that says the first rule that it breaks.
pub fn compiled_scenario(
    alloc: Global,
    scenario: Scenario,
) -> Result<Result<Accepted<CompiledSet>, Reply>, OutOfMemory>
    requires { IsScenario (shown scenario) }
    ensures accepted { IfOk result (λ r. IfOk r (IsCompiledOf (shown scenario))) }
    ensures refused { IfOk result (λ r. IfErr r (λ p. IsUncompiled (shown scenario) p.status p.text.items)) }
{
    let Scenario {
        names,
        items,
        txns,
        together,
        scripts,
        releases,
        room,
    } = scenario;
    let tasks = Tasks {
        scripts,
        releases,
        room,
    };
    match compiled(alloc, items, txns, together) {
        Ok(Ok(set)) => Ok(Ok(Accepted { names, set, tasks })),
        Ok(Err(error)) => {
            drop(tasks);
            let reply = refused_set(alloc, &names, error);
            drop(names);
            Ok(Err(reply?))
        }
        Err(OutOfMemory) => {
            drop(tasks);
            drop(names);
            Err(OutOfMemory)
        }
    }
}

/// A scenario whose set is admitted, or the reply that says the first cause why it is not.
pub fn admitted_scenario(
    alloc: Global,
    scenario: Scenario,
) -> Result<Result<Accepted<AdmittedSet>, Reply>, OutOfMemory>
    requires { IsScenario (shown scenario) }
    ensures accepted { IfOk result (λ r. IfOk r (IsAdmittedOf (shown scenario))) }
    ensures refused { IfOk result (λ r. IfErr r (λ p. IsRefusal (shown scenario) p.status p.text.items)) }
{
    let accepted = match compiled_scenario(alloc, scenario)? {
        Ok(accepted) => accepted,
        Err(reply) => return Ok(Err(reply)),
    };
    let Accepted { names, set, tasks } = accepted;
    match admitted(alloc, set) {
        Ok(Ok(set)) => Ok(Ok(Accepted { names, set, tasks })),
        Ok(Err(error)) => {
            drop(tasks);
            let reply = refused_admission(alloc, &names, error);
            drop(names);
            Ok(Err(reply?))
        }
        Err(OutOfMemory) => {
            drop(tasks);
            drop(names);
            Err(OutOfMemory)
        }
    }
}
