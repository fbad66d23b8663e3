//! The handle of a seat, as a program in C holds it.
ghost use Rattle.std.specs.Prelude.{◌≡◌, Option, None, Some, MatchOption};
ghost use Rattle.std.specs.Coded.{coded_option};
ghost use Rattle.c_stations.specs.Seats.{SeatSeen as Seen};
ghost use Rattle.c_stations.specs.contracts.seat_station.SeatStation.{the_row};

use crate::seat_station::SeatStation;
use c_forms::Slot;
use std::alloc::Global;
use std::marker::Model;
use std::mem;

/// A pointer to a seat of a plant, or null where the handle is closed. In C it is a struct of one pointer, which begins as
/// null, and which C neither changes nor copies.
#[repr(C)]
pub struct SeatHandle {
    at: *mut u8,
    alloc: Global,
    pub ghost seat: { Option Seen } by { coded_option the_row.coded },
}

impl Model for SeatHandle {
    ghost use Rattle.c_stations.specs.contracts.seat_station.SeatStation.{the_row};
    ghost use Rattle.c_forms.specs.Held.{held};

    ghost also_owns = { λ h. held the_row h.alloc h.at h.seat };
}

impl SeatHandle {
    fn of(slot: Slot<SeatStation>) -> SeatHandle
        ensures { result.seat ≡ slot.value }
    {
        let Slot { at, alloc } = slot;
        SeatHandle {
            at: at as *mut u8,
            alloc,
        }
    }

    fn into_slot(self) -> Slot<SeatStation>
        ensures { result.value ≡ self.seat }
    {
        let SeatHandle { at, alloc } = self;
        Slot {
            at: at as *mut SeatStation,
            alloc,
        }
    }

    /// Takes the seat out, if the handle is open; it is closed then.
    pub fn take(&mut self, alloc: Global) -> Option<Box<SeatStation>>
        ensures taken { MatchOption result (self.old.seat ≡ None) (λ b. self.old.seat ≡ Some b.value) }
        ensures closed { self.new.seat ≡ None }
    {
        mem::replace(self, SeatHandle::of(Slot::closed(alloc)))
            .into_slot()
            .into_box()
    }

    /// Puts a seat in. The handle is closed, so that it has nothing to be freed.
    pub fn put(&mut self, station: Box<SeatStation>)
        requires { self.old.seat ≡ None }
        ensures { self.new.seat ≡ Some station.value }
    {
        mem::forget(mem::replace(self, SeatHandle::of(Slot::of(station))));
    }
}

impl Drop for SeatHandle {
    fn drop(self) {
        if let Some(station) = self.into_slot().into_box() {
            drop(station);
        }
    }
}

// What it points to is owned by it alone, and its share of the plant may go to another thread.
unsafe impl Send for SeatHandle {}
