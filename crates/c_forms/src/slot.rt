//! What a handle has, as a type that does not cross to C.
ghost use Rattle.std.specs.Prelude.{◌≡◌, Option, None, Some, MatchOption};
ghost use Rattle.std.specs.Coded.{coded_option};

use crate::raw_box::RawBox;
use std::alloc::Global;
use std::marker::Model;
use std::ptr::null_mut;

/// A box as its pointer and its allocator, or null and an allocator.
pub struct Slot<T> {
    pub at: *mut T,
    pub alloc: Global,
    pub ghost value: { Option T } by { coded_option T.code },
}

impl<T> Model for Slot<T> {
    ghost use Rattle.c_forms.specs.Held.{held};

    ghost also_owns = { λ s. held T.row s.alloc s.at s.value };
}

impl<T> Slot<T> {
    /// Null.
    pub fn closed(alloc: Global) -> Slot<T>
        ensures { result.value ≡ None }
    {
        Slot {
            at: null_mut(),
            alloc,
        }
    }

    fn of_raw(value: RawBox<T, Global>) -> Slot<T>
        ensures { result.value ≡ Some value.value }
    {
        let RawBox { at, alloc } = value;
        Slot { at, alloc }
    }

    fn into_raw(self) -> Option<RawBox<T, Global>>
        ensures { MatchOption result (self.value ≡ None) (λ b. self.value ≡ Some b.value) }
    {
        let Slot { at, alloc } = self;
        if at.is_null() {
            None
        } else {
            Some(RawBox { at, alloc })
        }
    }
}

impl<T: Drop> Slot<T> {
    /// The box, taken apart.
    pub fn of(value: Box<T>) -> Slot<T>
        ensures { result.value ≡ Some value.value }
    {
        Slot::of_raw(RawBox::of(value))
    }

    /// The box again, if there is one.
    pub fn into_box(self) -> Option<Box<T>>
        ensures { MatchOption result (self.value ≡ None) (λ b. self.value ≡ Some b.value) }
    {
        match self.into_raw() {
            Some(value) => Some(value.into_box()),
            None => None,
        }
    }
}
