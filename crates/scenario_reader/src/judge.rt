//! The judgement of a scenario, in order.
ghost use Rattle.std.specs.Prelude.{◌≡◌, ◌≤◌, ◌<◌, ◌^◌, IsErrOf, None, length};
ghost use Rattle.std.specs.List.{All};
ghost use Rattle.step_script.specs.Shown.{shown};
ghost use Rattle.step_script.specs.Releases.{total_jobs as total_jobs_of};
ghost use Rattle.step_script.specs.Scenarios.{HasTextTimes, IsProgramOver};
ghost use Rattle.scenario_reader.specs.Refusals.{Gives};
ghost use Rattle.scenario_reader.specs.Judged.{judged, judged_scripts, judged_jobs, tx_id as id_of};

use crate::error::ScenarioError;
use crate::plans::{bad_release, eager_end, room, total_jobs};
use crate::scripts::{bad_script, long_script};
use rt_base::TxId;
use std::alloc::Global;
use step_script::Scenario;

const MOST_JOBS: u64 = 65_536;

const MOST_ROOM: u64 = 1 << 20;

const LAST_TICK: u64 = 1 << 40;

// The transaction at a place.
fn tx_id(place: usize) -> TxId
    requires { place < 2 ^ 32 }
    ensures { result ≡ id_of place }
{
    TxId(place as u32)
}

// The scripts.
#[tactic(auto, unfolding(crate::specs::Judged::judged_scripts))]
fn judge_scripts(alloc: Global, scenario: &Scenario) -> Result<(), ScenarioError>
    requires each { length scenario.now.scripts ≡ length scenario.now.txns }
    requires few { length scenario.now.txns ≤ 2 ^ 32 }
    requires good { All (IsProgramOver (length scenario.now.items)) (shown scenario.now).programs }
    ensures judged { Gives result (judged_scripts (shown scenario.now)) }
    ensures json { IsErrOf result ScenarioError.NotJson → ⊥ }
{
    if let Some((tx, op)) = bad_script(alloc, scenario)? {
        return Err(ScenarioError::BadScript { tx: tx_id(tx), op });
    }
    if let Some(tx) = long_script(scenario) {
        return Err(ScenarioError::TooManySteps { tx: tx_id(tx) });
    }
    Ok(())
}

// The jobs and releases.
#[tactic(auto, unfolding(crate::specs::Judged::judged_jobs))]
fn judge_jobs(scenario: &Scenario) -> Result<usize, ScenarioError>
    requires each { length scenario.now.releases ≡ length scenario.now.txns }
    requires few { length scenario.now.txns ≤ 2 ^ 32 }
    requires counted { total_jobs_of scenario.now.releases < 2 ^ 64 }
    requires times { All HasTextTimes scenario.now.txns }
    ensures judged { Gives result (judged_jobs (shown scenario.now)) }
    ensures json { IsErrOf result ScenarioError.NotJson → ⊥ }
{
    let count = total_jobs(scenario.releases.as_slice());
    if MOST_JOBS < count {
        return Err(ScenarioError::TooManyJobs { count });
    }
    if let Some((tx, index, cause)) = bad_release(scenario) {
        let tx = tx_id(tx);
        return Err(ScenarioError::BadRelease { tx, index, cause });
    }
    let needed = room(scenario);
    if MOST_ROOM < needed {
        return Err(ScenarioError::RoomTooLarge { needed });
    }
    let end = eager_end(scenario);
    if LAST_TICK < end {
        return Err(ScenarioError::EagerTooFar { needed: end });
    }
    Ok(needed as usize)
}

/// The room of a scenario, or why it is refused. A step for each item, each declared item of a transaction, each
/// operation and each job.
#[tactic(auto, unfolding(crate::specs::Judged::judged))]
pub(crate) fn judge(alloc: Global, scenario: &Scenario) -> Result<usize, ScenarioError>
    requires scripted { length scenario.now.scripts ≡ length scenario.now.txns }
    requires released { length scenario.now.releases ≡ length scenario.now.txns }
    requires few { length scenario.now.txns ≤ 2 ^ 32 }
    requires counted { total_jobs_of scenario.now.releases < 2 ^ 64 }
    requires good { All (IsProgramOver (length scenario.now.items)) (shown scenario.now).programs }
    requires times { All HasTextTimes scenario.now.txns }
    ensures judged { Gives result (judged (shown scenario.now)) }
    ensures json { IsErrOf result ScenarioError.NotJson → ⊥ }
{
    judge_scripts(alloc, scenario)?;
    judge_jobs(scenario)
}
