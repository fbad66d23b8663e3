//! What a run has before it begins.
ghost use Rattle.std.specs.Prelude.{◌≡◌, ◌+◌, ◌<◌, ◌≤◌, [], map, length, IfOk, IfErr};
ghost use Rattle.std.specs.List.{sum};
ghost use Rattle.step_script.specs.Releases.{fixed_ticks, eager_of};
ghost use Rattle.step_script.specs.Shown.{shown};
ghost use Rattle.step_script.specs.Scenarios.{IsScenario};
ghost use Rattle.plant_run.specs.Ready.{CanRun};
ghost use Rattle.scenario_run.specs.Runs.{Declares, IsReady, asked_by};
ghost use Rattle.scenario_run.specs.Replies.{IsJudged, RunReply};

use crate::ticks::{all_fixed, count, count_eager_jobs, eager_jobs_of_all};
use board::Board;
use command_replies::{Accepted, Reply, Tasks, admitted_scenario, compiled_scenario};
use plant_run::Run;
use rt_base::{List, OutOfMemory, Tick};
use run_report::ReportedSet;
use sim_run::Workers;
use std::alloc::Global;
use step_script::{Scenario, Script};
use txn_set::CompiledSet;

/// How many entries the board of a run keeps at most.
pub const BOARD_ROOM: usize = 4_096;

/// Of each transaction its script, its fixed ticks, and how many jobs it plans itself.
#[derive(Drop)]
pub struct Bodies {
    pub scripts: Vec<Script>,
    pub ticks: Vec<List<Tick>>,
    pub eager_jobs: Vec<u32>,
}

impl Bodies {
    /// How many jobs there are, eager ones too.
    pub fn jobs(&self) -> usize
        requires fixed { sum (map length self.now.ticks.items) ≤ 65536 }
        requires eager { sum self.now.eager_jobs.items ≤ 65536 }
        ensures { result ≡ sum (map length self.now.ticks.items) + sum self.now.eager_jobs.items }
    {
        count(&self.ticks) + count_eager_jobs(&self.eager_jobs)
    }
}

/// A scenario whose set is admitted, or compiles where it is run on trial, or the reply that refuses it.
pub(crate) fn judged(
    alloc: Global,
    trial: bool,
    scenario: Scenario,
) -> Result<Result<Accepted<ReportedSet>, Reply>, OutOfMemory>
    requires { IsScenario (shown scenario) }
    ensures accepted { IfOk result (λ r. IfOk r (IsJudged trial (shown scenario))) }
    ensures refused { IfOk result (λ r. IfErr r (λ p. RunReply trial (shown scenario) p.status p.text.items)) }
{
    if trial {
        match compiled_scenario(alloc, scenario)? {
            Ok(Accepted { names, set, tasks }) => Ok(Ok(Accepted {
                names,
                set: ReportedSet::Trial(set),
                tasks,
            })),
            Err(reply) => Ok(Err(reply)),
        }
    } else {
        match admitted_scenario(alloc, scenario)? {
            Ok(Accepted { names, set, tasks }) => Ok(Ok(Accepted {
                names,
                set: ReportedSet::Admitted(set),
                tasks,
            })),
            Err(reply) => Ok(Err(reply)),
        }
    }
}

// The fixed ticks of tasks, and their eager jobs.
fn jobs_of(
    alloc: Global,
    set: &CompiledSet,
    tasks: &Tasks,
) -> Result<(Vec<List<Tick>>, Vec<u32>), OutOfMemory>
    requires { Declares set.now tasks.now.scripts tasks.now.releases }
    ensures { IfOk result (λ r. (r.0.items ≡ fixed_ticks set.now.txns tasks.now.releases) × (r.1.items ≡ map eager_of tasks.now.releases)) }
{
    set.is_compiled();
    let ticks = all_fixed(alloc, set.txns(), tasks.releases.as_slice())?;
    let eager_jobs = eager_jobs_of_all(alloc, tasks.releases.as_slice())?;
    Ok((ticks, eager_jobs))
}

/// The scripts, the fixed ticks of the releases, and the eager jobs.
pub fn prepared(alloc: Global, set: &CompiledSet, tasks: Tasks) -> Result<Bodies, OutOfMemory>
    requires { Declares set.now tasks.scripts tasks.releases }
    ensures scripts { IfOk result (λ b. b.scripts.items ≡ tasks.scripts) }
    ensures ticks { IfOk result (λ b. b.ticks.items ≡ fixed_ticks set.now.txns tasks.releases) }
    ensures eager_jobs { IfOk result (λ b. b.eager_jobs.items ≡ map eager_of tasks.releases) }
    ensures ready { IfOk result (λ b. IsReady set.now b.scripts.items b.ticks.items b.eager_jobs.items) }
{
    set.is_compiled();
    let jobs = jobs_of(alloc, set, &tasks);
    let Tasks {
        scripts,
        releases,
        room: _,
    } = tasks;
    drop(releases);
    match jobs {
        Ok((ticks, eager_jobs)) => Ok(Bodies {
            scripts: scripts.into_vec(),
            ticks,
            eager_jobs,
        }),
        Err(OutOfMemory) => {
            drop(scripts);
            Err(OutOfMemory)
        }
    }
}

/// The run of scripts on a new board, by so many workers, with a place for all that the board keeps.
pub(crate) fn run_on<'a, B: Board + Drop>(
    alloc: Global,
    board: B,
    scripts: Vec<Script>,
    ticks: &'a [List<Tick>],
    eager_jobs: &'a [u32],
    workers: Workers,
) -> Result<Run<'a, B, Script>, OutOfMemory>
    requires opened { B.stands board [] }
    requires room { 1024 < B.room board }
    requires ready { IsReady (B.set board) scripts.items ticks.now eager_jobs.now }
    ensures ready { IfOk result (λ r. CanRun B.stands B.set B.room asked_by r) }
    ensures board { IfOk result (λ r. r.board ≡ board) }
    ensures parts { IfOk result (λ r. (r.bodies ≡ scripts) × (r.ticks.now ≡ ticks.now) × (r.eager_jobs.now ≡ eager_jobs.now)) }
{
    let spare = Vec::with_capacity(alloc, board.room())?;
    Ok(Run {
        board,
        bodies: scripts,
        ticks,
        eager_jobs,
        workers,
        spare,
    })
}
