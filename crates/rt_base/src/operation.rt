//! What a job asks for, what it is told, and how it ends.
use crate::ids::{ItemId, Tick, Value};

/// What a job asks for. Each granted operation takes one tick.
#[derive(Clone, Copy, PartialEq, Eq, Debug)]
pub enum Op {
    Read(ItemId),
    Write(ItemId, Value),
    Compute,
    Commit,
    Quit,
}

/// What a job is told of a granted operation.
#[derive(Clone, Copy, PartialEq, Eq, Debug)]
pub enum Outcome {
    /// Answers Read: the item's value and stamp, or the job's own write with no stamp.
    Got { value: Value, stamp: Option<Tick> },
    /// Answers Write.
    Put,
    /// Answers Compute.
    Computed,
    /// Answers Commit and Quit.
    Closed,
}

/// How a job ended. Only a committed job's writes are installed.
#[derive(Clone, Copy, PartialEq, Eq, Debug)]
pub enum End {
    Committed,
    /// It used its declared steps, and the last was neither Commit nor Quit.
    Overrun,
    /// It was still pending at its deadline, after the effect of the step that ends there.
    Late,
    /// Its commit ended, and a value that it read was past its validity: the first such item, and the stamp read.
    Stale { item: ItemId, stamp: Tick },
    /// Its commit ended, and two items of a relative set were read too far apart: the older one and the newer one.
    Apart { a: ItemId, b: ItemId },
    Quit,
}
