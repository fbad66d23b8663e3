//! The run of a scenario, whose report is written.
ghost use Rattle.std.specs.Prelude.{◌≡◌, ◌⊎◌, IfOk, IsErrOf, IfSome, None};
ghost use Rattle.std.specs.Io.KnownBytes.{Keeps};
ghost use Rattle.io_edge.specs.Causes.{Rose};
ghost use Rattle.step_script.specs.Shown.{shown};
ghost use Rattle.step_script.specs.Scenarios.{IsScenario};
ghost use Rattle.scenario_run.specs.Written.{Wrote, WroteFront};
ghost use Rattle.scenario_run.specs.Replies.{RunReply, RunText};

use crate::begun::{begun_on_core, run_begun};
use crate::making::judged;
use command_replies::{Accepted, Reply};
use io_edge::Sink;
use rt_base::OutOfMemory;
use sim_run::{RunFault, Workers};
use std::alloc::Global;
use std::sync::Wait;
use std::thread::Threads;
use step_script::Scenario;
use txn_threads::Gate;

/// How a scenario is run: on trial, or admitted, and by so many workers.
#[derive(Clone, Copy)]
pub struct RunMode {
    pub trial: bool,
    pub workers: Workers,
}

/// Runs a scenario by workers, and writes its report: its declarations as one piece, and later lines as they come, or, where
/// a transaction is eager, when the run is over. Some is a refusal that is still to be written; None comes after the whole
/// report was written. Writing comes only where the sink counts a fault. `gate` is told of each question to a script. It may
/// wait.
pub fn run_scenario<R: Threads + Wait + Sync, K: Sink, G: Gate + Sync>(
    rt: &R,
    alloc: Global,
    mode: RunMode,
    scenario: Scenario,
    sink: &mut K,
    gate: &G,
) -> Result<Option<Reply>, RunFault>
    requires scenario { IsScenario (shown scenario) }
    ensures refused { IfOk result (λ o. IfSome o (λ r. RunReply mode.trial (shown scenario) r.status r.text.items × (sink.new ≡ sink.old))) }
    ensures whole { IfOk result (λ o. o ≡ None → Wrote (RunText mode.trial (shown scenario)) (K.taken sink.old) (K.taken sink.new)) }
    ensures cut { IsErrOf result RunFault.Writing → WroteFront (RunText mode.trial (shown scenario)) (K.taken sink.old) (K.taken sink.new) }
    ensures short { IsErrOf result RunFault.Memory → Keeps (K.taken sink.old) (K.taken sink.new) ⊎ WroteFront (RunText mode.trial (shown scenario)) (K.taken sink.old) (K.taken sink.new) }
    ensures fault { IsErrOf result RunFault.Writing → Rose (K.faults sink.old) (K.faults sink.new) }
{
    let accepted = match judged(alloc, mode.trial, scenario)? {
        Ok(accepted) => accepted,
        Err(reply) => return Ok(Some(reply)),
    };
    let Accepted { names, set, tasks } = accepted;
    let begun = match begun_on_core(alloc, &names, set, tasks) {
        Ok(begun) => begun,
        Err(OutOfMemory) => {
            drop(names);
            return Err(RunFault::Memory);
        }
    };
    let written = run_begun(rt, alloc, mode.workers, begun, sink, gate);
    drop(names);
    match written {
        Ok(()) => Ok(None),
        Err(fault) => Err(fault),
    }
}
