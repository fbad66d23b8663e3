//! Planned releases, and why a plan is refused.
use crate::ids::{JobId, Tick};

/// A release that is planned and did not take place yet.
#[derive(Clone, Copy, PartialEq, Eq, Debug)]
pub struct Release {
    pub job: JobId,
    pub tick: Tick,
}

/// How many jobs of a transaction were planned in all, and the tick of the last of them (0 where there is none).
#[derive(Clone, Copy, PartialEq, Eq, Debug)]
pub struct Plans {
    pub number: u32,
    pub last: Tick,
}

/// Why a job is not planned. The refusals are judged in this order.
#[derive(Clone, Copy, PartialEq, Eq, Debug)]
pub enum PlanRefused {
    /// The tick lies before `now`.
    Past { now: Tick },
    /// The tick lies less than a period after the transaction's last planned one.
    TooSoon { earliest: Tick },
    /// The tick lies after the limit, 2^40.
    TooFar { limit: Tick },
    /// So many releases are planned and did not take place yet.
    CalendarFull { room: usize },
    /// So many jobs of the transaction were planned, 2^32 - 1: the next would have no serial.
    NoSerial { planned: u32 },
    /// The journal keeps so many entries. A board alone answers it.
    Full { room: usize },
}
