//! The law that what `run` writes is legal to `replay`. It is about the definitions of the commands' answers alone.
ghost use Rattle.law_texts.specs.CommandLaws.{RunsAreLegal, RunTextsAreLegal};

use crate::read_back::{integers_are_of_64_bits, read_is_scenario};
use crate::sizes::run_is_read_whole;
use crate::verdicts::run_report_is_legal;
use run_report::one_verdict_at_most;
use set_admission::admitted_unless_refused;
use txn_compiler::compiled_unless_refused;

/// Whatever input `run` answers with status 0, as a trial or not, `replay` answers its text with status 0 and the line `legal`,
/// and with nothing else: the text is no longer than what is read, and it is a legal report.
pub fn replay_of_a_run_is_legal()
    ensures texts { RunTextsAreLegal }
    ensures commands { RunsAreLegal }
{
    run_is_read_whole();
    run_report_is_legal();
    one_verdict_at_most();
    compiled_unless_refused();
    admitted_unless_refused();
    read_is_scenario();
    integers_are_of_64_bits();
}
