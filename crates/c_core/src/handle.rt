//! The handle of a database, as a program in C holds it.
ghost use Rattle.std.specs.Prelude.{◌≡◌, Option, None, Some, MatchOption};
ghost use Rattle.std.specs.Coded.{coded_option};
ghost use Rattle.c_core.specs.Open.{OpenSeen as Seen};
ghost use Rattle.c_core.specs.contracts.checked.CheckedCore.{the_row};

use crate::checked::CheckedCore;
use c_forms::{OK, Slot};
use std::alloc::Global;
use std::marker::Model;
use std::mem;

/// The handle is closed.
pub const CLOSED: u32 = 1;

/// A pointer to a core, or null where the handle is closed. In C it is a struct of one pointer, which begins as null, and
/// which C neither changes nor copies.
#[repr(C)]
pub struct Handle {
    at: *mut u8,
    alloc: Global,
    pub ghost core: { Option Seen } by { coded_option the_row.coded },
}

impl Model for Handle {
    ghost use Rattle.c_core.specs.contracts.checked.CheckedCore.{the_row};
    ghost use Rattle.c_forms.specs.Held.{held};

    ghost also_owns = { λ h. held the_row h.alloc h.at h.core };
}

impl Handle {
    fn of(slot: Slot<CheckedCore>) -> Handle
        ensures { result.core ≡ slot.value }
    {
        let Slot { at, alloc } = slot;
        Handle {
            at: at as *mut u8,
            alloc,
        }
    }

    fn into_slot(self) -> Slot<CheckedCore>
        ensures { result.value ≡ self.core }
    {
        let Handle { at, alloc } = self;
        Slot {
            at: at as *mut CheckedCore,
            alloc,
        }
    }

    /// Takes the core out, if the handle is open; it is closed then.
    pub fn take(&mut self, alloc: Global) -> Option<Box<CheckedCore>>
        ensures taken { MatchOption result (self.old.core ≡ None) (λ b. self.old.core ≡ Some b.value) }
        ensures closed { self.new.core ≡ None }
    {
        mem::replace(self, Handle::of(Slot::closed(alloc)))
            .into_slot()
            .into_box()
    }

    /// Puts a core in. The handle is closed, so that it has nothing to be freed.
    pub fn put(&mut self, core: Box<CheckedCore>)
        requires { self.old.core ≡ None }
        ensures { self.new.core ≡ Some core.value }
    {
        mem::forget(mem::replace(self, Handle::of(Slot::of(core))));
    }

    /// Frees what the handle has, and closes it. CLOSED where it was closed.
    pub fn close(&mut self, alloc: Global) -> u32
        ensures closed { self.new.core ≡ None }
        ensures status { MatchOption self.old.core (result ≡ 1) (λ _. result ≡ 0) }
    {
        match self.take(alloc) {
            Some(core) => {
                drop(core);
                OK
            }
            None => CLOSED,
        }
    }
}

impl Drop for Handle {
    fn drop(self) {
        if let Some(core) = self.into_slot().into_box() {
            drop(core);
        }
    }
}

// What it points to is owned by it alone, and may go to another thread.
unsafe impl Send for Handle {}
