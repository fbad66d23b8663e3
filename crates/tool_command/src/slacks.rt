//! The reply of `slack` to a scenario.
ghost use Rattle.std.specs.Prelude.{◌≡◌, IfOk};
ghost use Rattle.step_script.specs.Shown.{shown};
ghost use Rattle.step_script.specs.Scenarios.{IsScenario};
ghost use Rattle.tool_command.specs.Slacks.{slack_text as text_of, SlackReply};

use crate::slack_lines::slack_text;
use command_replies::{Reply, admitted_scenario, written};
use rt_base::{Names, OutOfMemory, Steps};
use set_admission::AdmittedSet;
use std::alloc::Global;
use std::marker::Brand;
use std::sync::ledger::{Blank, Ledger};
use step_script::Scenario;

// The text of a set. The looks of the searches are counted by a counter of its own.
fn text<L: Ledger>(
    alloc: Global,
    names: &Names,
    set: &AdmittedSet,
    blank: Blank,
) -> Result<Vec<u8>, OutOfMemory>
    requires name { blank.name ≡ L.name }
    requires parts { blank.parts ≡ L.parts }
    requires one_part { blank.parts ≡ 1 }
    ensures { IfOk result (λ text. text.items ≡ text_of names.now set.now) }
{
    let mut steps = Steps::<L>::start(blank);
    slack_text(alloc, names, set, &mut steps)
}

/// The reply of `slack` to a scenario.
pub fn slacks(alloc: Global, scenario: Scenario) -> Result<Reply, OutOfMemory>
    requires { IsScenario (shown scenario) }
    ensures { IfOk result (λ r. SlackReply (shown scenario) r.status r.text.items) }
{
    match admitted_scenario(alloc, scenario)? {
        Ok(accepted) => {
            let text = text::<Brand>(alloc, &accepted.names, &accepted.set, Blank::new(1));
            drop(accepted);
            Ok(written(text?))
        }
        Err(reply) => Ok(reply),
    }
}
