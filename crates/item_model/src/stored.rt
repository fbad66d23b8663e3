//! What is kept of an item, of a read and of a write.
use rt_base::{ItemId, Tick, Value};

/// An item as it stands: its value and its stamp.
#[derive(Clone, Copy, PartialEq, Eq, Debug)]
pub struct Stored {
    pub value: Value,
    pub stamp: Tick,
}

/// A read from outside the job, with the stamp that was read.
#[derive(Clone, Copy, PartialEq, Eq, Debug)]
pub struct OutsideRead {
    pub item: ItemId,
    pub stamp: Tick,
}

/// A job's own write of an item, with its last value.
#[derive(Clone, Copy, PartialEq, Eq, Debug)]
pub struct OwnWrite {
    pub item: ItemId,
    pub value: Value,
}
