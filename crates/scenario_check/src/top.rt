//! All that is amiss in a text.
ghost use Rattle.std.specs.Prelude.{◌≡◌, ◌≤◌, length, IfOk};
ghost use Rattle.scenario_check.specs.Findings.{CheckReply, AnswersVerdict, status_of as status_by};

use crate::faults::fault_lines;
use crate::found::{Refusal, Verdict};
use crate::judge::judged;
use crate::listed::listed_lines;
use command_replies::{Reply, SCENARIO_LIMIT};
use io_edge::Status;
use rt_base::OutOfMemory;
use scenario_faults::{Scratch, Sheet, Tree, tree_of};
use scenario_reader::ScenarioError;
use std::alloc::Global;

fn status_of(refusal: Option<Refusal>) -> Status
    ensures { result ≡ status_by refusal }
{
    match refusal {
        None => Status::Ok,
        Some(_) => Status::Refused,
    }
}

// The text whose values are looked at: none if the input is no JSON.
fn text_of<'t>(input: &'t [u8], verdict: &Verdict) -> &'t str {
    match verdict {
        Verdict::Judged {
            refusal: Some(Refusal::Scenario(ScenarioError::NotJson)),
            ..
        } => "",
        _ => std::str::from_utf8(input).unwrap_or(""),
    }
}

// The answer to a verdict.
fn answer(sheet: Sheet<'_>, input: &[u8], verdict: &Verdict) -> Result<Reply, OutOfMemory>
    ensures { IfOk result (λ r. AnswersVerdict verdict.now r.status r.text.items) }
{
    match verdict {
        Verdict::Faulty { error } => Ok(Reply {
            status: Status::Refused,
            text: fault_lines(sheet, *error)?,
        }),
        Verdict::Judged {
            names,
            refusal,
            warnings,
        } => Ok(Reply {
            status: status_of(*refusal),
            text: listed_lines(sheet, input, names, *refusal, warnings)?,
        }),
    }
}

// The answer to a verdict, over the values of the text.
fn answer_by(
    alloc: Global,
    text: &str,
    tree: &Tree<'_>,
    input: &[u8],
    verdict: &Verdict,
) -> Result<Reply, OutOfMemory>
    ensures { IfOk result (λ r. AnswersVerdict verdict.now r.status r.text.items) }
{
    answer(Sheet { alloc, text, tree }, input, verdict)
}

/// All that is amiss in the text of a scenario, a line each, in the order of the text; the status is Refused exactly if
/// `run`, or `run --trial`, refuses the text, and else Ok. Among the lines are the words of the refusal, and each warning
/// that holds of a scenario which is read, once. A step for each byte, a look-up in a hash map for each name and member,
/// and a sort of the warnings.
#[tactic(auto, using(crate::proofs::Answering::answers))]
pub fn check(alloc: Global, trial: bool, input: &[u8]) -> Result<Reply, OutOfMemory>
    requires { length input.now ≤ SCENARIO_LIMIT }
    ensures { IfOk result (λ r. CheckReply trial input.now r.status r.text.items) }
{
    let verdict = judged(alloc, trial, input)?;
    let text = text_of(input, &verdict);
    let mut scratch = Scratch::new(alloc);
    let tree = tree_of(alloc, text, &mut scratch)?;
    answer_by(alloc, text, &tree, input, &verdict)
}
