//! Findings.
use crate::kinds::Warning;
use rt_base::Names;
use scenario_reader::ScenarioError;
use set_admission::AdmitError;
use txn_compiler::CompileError;

/// Why `run` refuses a scenario.
#[derive(Clone, Copy, Debug, PartialEq, Eq)]
pub enum Refusal {
    /// It is not read.
    Scenario(ScenarioError),
    /// Its declarations break a rule.
    Compile(CompileError),
    /// Its set is not admitted.
    Admit(AdmitError),
}

/// What is amiss.
#[derive(Clone, Copy, Debug, PartialEq, Eq)]
pub enum What {
    /// Something for which a scenario is refused.
    Refused(Refusal),
    /// A member stands in its object before; this one counts, or a later one.
    Repeated,
    /// A scenario may run with it.
    Warned(Warning),
}

/// What is amiss at a place of the text.
#[derive(Clone, Copy)]
pub struct Finding<'t> {
    /// The first byte of the place, from 0 on.
    pub at: usize,
    /// The line of the place, from 1 on.
    pub line: u64,
    /// Its column in characters, from 1 on.
    pub column: u64,
    pub what: What,
    /// The text of which the reason speaks, as it stands; empty if it speaks of none.
    pub token: &'t [u8],
    /// Why this is amiss, in words.
    pub reason: &'static [u8],
}

/// What is said of a text.
#[derive(Drop)]
pub(crate) enum Verdict {
    /// A form or a name refuses it.
    Faulty {
        error: ScenarioError,
    },
    /// It is refused for this, if for anything; of a scenario that is read there are warnings.
    Judged {
        names: Names,
        refusal: Option<Refusal>,
        warnings: Vec<Warning>,
    },
}
