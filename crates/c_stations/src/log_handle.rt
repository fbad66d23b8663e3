//! The handle of a log, as a program in C holds it.
ghost use Rattle.std.specs.Prelude.{◌≡◌, Option, None, Some, MatchOption};
ghost use Rattle.std.specs.Coded.{coded_option};
ghost use Rattle.c_stations.specs.Kept.{Station as Seen};
ghost use Rattle.c_stations.specs.contracts.log_station.LogStation.{the_row};

use crate::log_station::LogStation;
use c_forms::Slot;
use std::alloc::Global;
use std::marker::Model;
use std::mem;

/// A pointer to a station, or null where the handle is closed. In C it is a struct of one pointer, which begins as null, and
/// which C neither changes nor copies.
#[repr(C)]
pub struct LogHandle {
    at: *mut u8,
    alloc: Global,
    pub ghost station: { Option Seen } by { coded_option the_row.coded },
}

impl Model for LogHandle {
    ghost use Rattle.c_stations.specs.contracts.log_station.LogStation.{the_row};
    ghost use Rattle.c_forms.specs.Held.{held};

    ghost also_owns = { λ h. held the_row h.alloc h.at h.station };
}

impl LogHandle {
    fn of(slot: Slot<LogStation>) -> LogHandle
        ensures { result.station ≡ slot.value }
    {
        let Slot { at, alloc } = slot;
        LogHandle {
            at: at as *mut u8,
            alloc,
        }
    }

    fn into_slot(self) -> Slot<LogStation>
        ensures { result.value ≡ self.station }
    {
        let LogHandle { at, alloc } = self;
        Slot {
            at: at as *mut LogStation,
            alloc,
        }
    }

    /// Takes the station out, if the handle is open; it is closed then.
    pub fn take(&mut self, alloc: Global) -> Option<Box<LogStation>>
        ensures taken { MatchOption result (self.old.station ≡ None) (λ b. self.old.station ≡ Some b.value) }
        ensures closed { self.new.station ≡ None }
    {
        mem::replace(self, LogHandle::of(Slot::closed(alloc)))
            .into_slot()
            .into_box()
    }

    /// Puts a station in. The handle is closed, so that it has nothing to be freed.
    pub fn put(&mut self, station: Box<LogStation>)
        requires { self.old.station ≡ None }
        ensures { self.new.station ≡ Some station.value }
    {
        mem::forget(mem::replace(self, LogHandle::of(Slot::of(station))));
    }
}

impl Drop for LogHandle {
    fn drop(self) {
        if let Some(station) = self.into_slot().into_box() {
            drop(station);
        }
    }
}

// What it points to is owned by it alone, and may go to another thread.
unsafe impl Send for LogHandle {}
