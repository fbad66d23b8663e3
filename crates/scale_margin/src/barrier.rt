//! What bars a percentage of the steps, and the greatest percentage that nothing bars.
use set_admission::AdmitError;
use txn_compiler::CompileError;

/// Why a set is refused at a percentage of its steps. Want of memory is none of these.
#[derive(Clone, Copy, PartialEq, Eq, Debug)]
pub enum Barrier {
    /// The set does not compile: the first transaction in list order that has more than 10,000 steps.
    Compile(CompileError),
    /// The set compiles and is not admitted.
    Admit(AdmitError),
}

/// The greatest percentage of its steps, up to 1000, at which a set is accepted, 0 where there is none; and what bars the
/// next one, None where that is above 1000.
#[derive(Clone, Copy, PartialEq, Eq, Debug)]
pub struct Margin {
    pub percent: u32,
    pub barrier: Option<Barrier>,
}
