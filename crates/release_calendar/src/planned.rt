//! A planned release.
ghost use Rattle.std.specs.Prelude.{◌≡◌};
ghost use Rattle.release_calendar.specs.Agenda.{job_of};

use rt_base::{JobId, Tick, TxId};

/// A planned release, in the order in which the releases take place: by tick, then by transaction.
#[derive(Clone, Copy, PartialEq, Eq, PartialOrd, Ord, Debug)]
pub struct Planned {
    pub tick: Tick,
    pub tx: u32,
    pub serial: u32,
}

impl Planned {
    /// The release of a job.
    pub fn of(tx: TxId, serial: u32, tick: Tick) -> Planned
        ensures { result ≡ record { tick = tick; tx = tx.0; serial = serial } }
    {
        Planned {
            tick,
            tx: tx.0,
            serial,
        }
    }

    /// The job.
    pub fn job(self) -> JobId
        ensures { result ≡ job_of self }
    {
        JobId {
            tx: TxId(self.tx),
            serial: self.serial,
        }
    }
}
