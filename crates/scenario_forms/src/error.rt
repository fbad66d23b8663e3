//! Why the forms of a scenario were not read.
ghost use Rattle.std.specs.Prelude.{◌≡◌};
ghost use Rattle.scenario_forms.specs.declared.error.FormError.TheVariants.{OutOfMemory as WantOfMemory};

use rt_base::OutOfMemory;
use std::alloc::{AllocError, AllocFailed};

/// A member of an item object.
#[derive(Clone, Copy, Debug, PartialEq, Eq)]
pub enum ItemMember {
    Name,
    Kind,
    Validity,
    Value,
}

/// A member of a transaction object.
#[derive(Clone, Copy, Debug, PartialEq, Eq)]
pub enum TxnMember {
    Name,
    Priority,
    Period,
    Offset,
    Deadline,
    Steps,
    Quiet,
    Reads,
    Writes,
    Releases,
    Jobs,
    Eager,
    Samples,
    Script,
}

/// A place in a scenario; indexes count from 0. An operation's place is its element of the member `script`.
#[derive(Clone, Copy, Debug, PartialEq, Eq)]
pub enum Place {
    Root,
    Version,
    Items,
    Item {
        i: usize,
    },
    ItemMember {
        i: usize,
        member: ItemMember,
    },
    Txns,
    Txn {
        i: usize,
    },
    TxnMember {
        i: usize,
        member: TxnMember,
    },
    Element {
        i: usize,
        member: TxnMember,
        j: usize,
    },
    Together,
    Set {
        i: usize,
    },
    SetItems {
        i: usize,
    },
    SetWithin {
        i: usize,
    },
    SetElement {
        i: usize,
        j: usize,
    },
}

/// Why the value of a text was not read.
#[derive(Clone, Copy, Debug, PartialEq, Eq)]
pub enum TextError {
    /// The bytes are no UTF-8, or the text has no reading as a JSON value.
    NotJson,
    OutOfMemory,
}

/// Why the forms of a scenario were not read.
#[derive(Clone, Copy, Debug, PartialEq, Eq)]
pub enum FormError {
    /// A member is missing or not of its form: the first place in reading order.
    BadField { place: Place },
    OutOfMemory,
}

impl From<AllocError> for FormError {
    ghost from_gives = { λ _ e. e ≡ WantOfMemory };

    fn from(_e: AllocError) -> FormError {
        FormError::OutOfMemory
    }
}

impl<T: Drop> From<AllocFailed<T>> for FormError {
    ghost from_gives = { λ _ e. e ≡ WantOfMemory };

    fn from(_e: AllocFailed<T>) -> FormError {
        FormError::OutOfMemory
    }
}

impl From<OutOfMemory> for FormError {
    ghost from_gives = { λ _ e. e ≡ WantOfMemory };

    fn from(_e: OutOfMemory) -> FormError {
        FormError::OutOfMemory
    }
}
