//! The failures of a run, and the causes below them.
ghost use Rattle.std.specs.Prelude.{◌≡◌};
ghost use Rattle.sim_run.specs.declared.fault.RunFault.TheVariants.{Writing, Memory};

use crate::out::Stopped;
use io_edge::WriteFault;
use rt_base::OutOfMemory;
use std::alloc::AllocError;

/// Why a run has no whole report.
#[derive(Clone, Copy, Debug, PartialEq, Eq)]
pub enum RunFault {
    /// What the entries or the report go to failed: the out stopped, the sink failed, or the disk of a journal.
    Writing,
    /// A growth was refused.
    Memory,
}

impl From<Stopped> for RunFault {
    ghost from_gives = { λ _ e. e ≡ Writing };

    fn from(_e: Stopped) -> RunFault {
        RunFault::Writing
    }
}

impl From<WriteFault> for RunFault {
    ghost from_gives = { λ _ e. e ≡ Writing };

    fn from(_e: WriteFault) -> RunFault {
        RunFault::Writing
    }
}

impl From<OutOfMemory> for RunFault {
    ghost from_gives = { λ _ e. e ≡ Memory };

    fn from(_e: OutOfMemory) -> RunFault {
        RunFault::Memory
    }
}

impl From<AllocError> for RunFault {
    ghost from_gives = { λ _ e. e ≡ Memory };

    fn from(_e: AllocError) -> RunFault {
        RunFault::Memory
    }
}
