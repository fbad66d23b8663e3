//! What is said of a pending job.
use rt_base::{JobId, Prio, Tick};

/// A pending job: its release, and how many steps it has used.
#[derive(Clone, Copy, PartialEq, Eq, Debug)]
pub struct Head {
    pub job: JobId,
    pub release: Tick,
    pub used: u64,
}

/// Why a new lock is refused: the job to wait on, and the ceiling.
#[derive(Clone, Copy, PartialEq, Eq, Debug)]
pub struct Blocker {
    pub holder: JobId,
    pub ceiling: Prio,
}
