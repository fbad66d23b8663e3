//! Why there is no run.
use rt_base::{OutOfMemory, PlanRefused};
use set_admission::AdmitError;
use std::alloc::{AllocError, AllocFailed};
use std::fmt;
use txn_compiler::CompileError;

#[derive(Clone, Copy)]
pub enum Fault {
    /// A rule of sets is broken: change the declarations.
    NotCompiled(CompileError),
    /// A deadline, a validity or an interval may be missed: change periods, steps or validities.
    NotAdmitted(AdmitError),
    /// A release can not be planned.
    NotPlanned(PlanRefused),
    /// Another thread has the turn: try again.
    Busy,
    /// The journal is full and the out has no place: take more room.
    NoRoom,
    OutOfMemory,
}

impl From<OutOfMemory> for Fault {
    fn from(_e: OutOfMemory) -> Fault {
        Fault::OutOfMemory
    }
}

impl From<AllocError> for Fault {
    fn from(_e: AllocError) -> Fault {
        Fault::OutOfMemory
    }
}

impl<T: Drop> From<AllocFailed<T>> for Fault {
    fn from(_e: AllocFailed<T>) -> Fault {
        Fault::OutOfMemory
    }
}

impl fmt::Display for Fault {
    fn fmt<W: fmt::Write>(&self, f: &mut fmt::Formatter<W>) -> fmt::Result {
        match self {
            Fault::NotCompiled(refusal) => write!(f, "not compiled: {refusal}"),
            Fault::NotAdmitted(refusal) => write!(f, "not admitted: {refusal}"),
            Fault::NotPlanned(refusal) => write!(f, "not planned: {refusal:?}"),
            Fault::Busy => write!(f, "busy"),
            Fault::NoRoom => write!(f, "no room"),
            Fault::OutOfMemory => write!(f, "out of memory"),
        }
    }
}
