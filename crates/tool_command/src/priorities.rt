//! The reply of `priorities` to a scenario.
ghost use Rattle.std.specs.Prelude.{◌≡◌, IfOk, IfErr};
ghost use Rattle.step_script.specs.Shown.{shown};
ghost use Rattle.step_script.specs.Scenarios.{IsScenario};
ghost use Rattle.law_times.specs.Pass.{pass};
ghost use Rattle.law_times.specs.Laws.{IsSolved, NoneKeeps};
ghost use Rattle.txn_priorities.specs.Limits.{limit};
ghost use Rattle.txn_priorities.specs.Answers.{IsRefusal};
ghost use Rattle.report_text.specs.Texts.{NamesSet};
ghost use Rattle.tool_command.specs.Priorities.{Admission, Assigning, GivenReply, Sticks, PriorityReply};

use crate::priority_lines::{level_cause, prio_text, put_unplaced};
use command_replies::{Reply, admitted, compiled_scenario, refused, refused_admission, written};
use io_edge::Status;
use rt_base::{Names, OutOfMemory, Prio, Steps};
use run_report::admit_text;
use std::alloc::Global;
use std::marker::Brand;
use std::sync::ledger::{Blank, Ledger};
use step_script::Scenario;
use txn_compiler::CompiledSet;
use txn_priorities::{NoAssignment, assign, with_priorities};

// The priorities of a set. The looks of the pass are counted by a counter of its own.
fn assigned<L: Ledger>(
    alloc: Global,
    set: &CompiledSet,
    blank: Blank,
) -> Result<Result<Vec<Prio>, NoAssignment>, OutOfMemory>
    requires name { blank.name ≡ L.name }
    requires parts { blank.parts ≡ L.parts }
    requires one_part { blank.parts ≡ 1 }
    ensures pass { IfOk result (λ answer. IfOk answer (λ prios. prios.items ≡ pass set.now (limit set.now))) }
    ensures solved { IfOk result (λ answer. IfOk answer (λ prios. IsSolved set.now (limit set.now) prios.items)) }
    ensures refusal { IfOk result (λ answer. IfErr answer (IsRefusal set.now)) }
    ensures none { IfOk result (λ answer. IfErr answer (λ _. NoneKeeps set.now (limit set.now))) }
{
    let mut steps = Steps::<L>::start(blank);
    assign(alloc, set, &mut steps)
}

// What `admit` answers to a set.
fn admission(alloc: Global, names: &Names, set: CompiledSet) -> Result<Reply, OutOfMemory>
    requires { NamesSet names.now set }
    ensures { IfOk result (λ r. Admission names.now set r.status r.text.items) }
{
    match admitted(alloc, set)? {
        Ok(set) => Ok(written(admit_text(alloc, names, &set)?)),
        Err(error) => refused_admission(alloc, names, error),
    }
}

// The priorities, and what `admit` answers to the set with these.
fn given(
    alloc: Global,
    names: &Names,
    set: &CompiledSet,
    prios: &[Prio],
) -> Result<Reply, OutOfMemory>
    requires names { NamesSet names.now set.now }
    requires solved { IsSolved set.now (limit set.now) prios.now }
    ensures { IfOk result (λ r. GivenReply names.now set.now prios.now r.status r.text.items) }
{
    set.is_compiled();
    let mut text = prio_text(alloc, names, prios)?;
    let set = with_priorities(alloc, set, prios)?;
    let reply = admission(alloc, names, set)?;
    text.extend_from_slice(&reply.text)?;
    Ok(Reply {
        status: reply.status,
        text,
    })
}

// The level at which none passes.
fn stuck(
    alloc: Global,
    names: &Names,
    set: &CompiledSet,
    refusal: &NoAssignment,
) -> Result<Reply, OutOfMemory>
    requires refusal { IsRefusal set.now refusal.now }
    requires none { NoneKeeps set.now (limit set.now) }
    ensures { IfOk result (λ r. Sticks names.now set.now r.status r.text.items) }
{
    let cause = level_cause(alloc, refusal.level)?;
    let mut reply = refused(alloc, Status::Refused, &cause)?;
    put_unplaced(&mut reply.text, names, &refusal.unplaced)?;
    Ok(reply)
}

// The priorities of a set that compiles, or the level at which none passes.
fn answer(alloc: Global, names: &Names, set: &CompiledSet) -> Result<Reply, OutOfMemory>
    requires { NamesSet names.now set.now }
    ensures { IfOk result (λ r. Assigning names.now set.now r.status r.text.items) }
{
    match assigned::<Brand>(alloc, set, Blank::new(1))? {
        Ok(prios) => given(alloc, names, set, &prios),
        Err(refusal) => stuck(alloc, names, set, &refusal),
    }
}

/// The reply of `priorities` to a scenario. Beside the pass it compiles twice and admits once.
pub fn priorities(alloc: Global, scenario: Scenario) -> Result<Reply, OutOfMemory>
    requires { IsScenario (shown scenario) }
    ensures { IfOk result (λ r. PriorityReply (shown scenario) r.status r.text.items) }
{
    match compiled_scenario(alloc, scenario)? {
        Ok(accepted) => {
            let reply = answer(alloc, &accepted.names, &accepted.set);
            drop(accepted);
            reply
        }
        Err(reply) => Ok(reply),
    }
}
