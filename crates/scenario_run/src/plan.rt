//! From a scenario to what its run over a journal needs.
ghost use Rattle.std.specs.Prelude.{◌≡◌, ℕ, Option as Maybe, List as Many, IfOk, IfErr};
ghost use Rattle.step_script.specs.Shown.{shown};
ghost use Rattle.step_script.specs.Scenarios.{IsScenario};
ghost use Rattle.io_edge.specs.declared.status.Status.TheVariants as statuses;
ghost use Rattle.scenario_run.specs.JournalReplies.{JournalReply};
ghost use Rattle.scenario_run.specs.Plans.{IsPlan};

use crate::making::{Bodies, prepared};
use crate::refusals::{first_eager, refused_eager};
use command_replies::{Accepted, Reply, admitted_scenario};
use rt_base::{Names, OutOfMemory};
use set_admission::AdmittedSet;
use std::alloc::Global;
use step_script::Scenario;

/// An admitted scenario without an eager transaction.
#[derive(Drop)]
pub(crate) struct Plan {
    pub(crate) names: Names,
    pub(crate) set: AdmittedSet,
    pub(crate) bodies: Bodies,
    pub(crate) room: usize,
}

/// Compiles and admits a scenario, and refuses one with an eager transaction.
pub(crate) fn planned(alloc: Global, scenario: Scenario) -> Result<Result<Plan, Reply>, OutOfMemory>
    requires { IsScenario (shown scenario) }
    ensures plan { IfOk result (λ r. IfOk r (IsPlan (shown scenario))) }
    ensures refused { IfOk result (λ r. IfErr r (λ p. (p.status ≡ statuses.Refused) × ((told : Maybe (Many ℕ)) → JournalReply (shown scenario) told p.status p.text.items))) }
{
    let accepted = match admitted_scenario(alloc, scenario)? {
        Ok(accepted) => accepted,
        Err(reply) => return Ok(Err(reply)),
    };
    let Accepted { names, set, tasks } = accepted;
    if let Some(tx) = first_eager(tasks.releases.as_slice()) {
        drop(set);
        drop(tasks);
        let reply = refused_eager(alloc, &names, tx);
        drop(names);
        return Ok(Err(reply?));
    }
    let room = tasks.room;
    match prepared(alloc, set.set(), tasks) {
        Ok(bodies) => Ok(Ok(Plan {
            names,
            set,
            bodies,
            room,
        })),
        Err(OutOfMemory) => {
            drop(names);
            drop(set);
            Err(OutOfMemory)
        }
    }
}
