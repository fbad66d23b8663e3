//! Declarations of items.
use rt_base::{Tick, Value};

/// What an item is: sensor and derived items have a validity in ticks, after Ramamritham's absolute validity interval;
/// state items have none.
#[derive(Clone, Copy, PartialEq, Eq, Debug)]
pub enum ItemKind {
    Sensor { validity: Tick },
    Derived { validity: Tick },
    State,
}

/// An item as declared.
#[derive(Clone, Copy, PartialEq, Eq, Debug)]
pub struct ItemDecl {
    pub kind: ItemKind,
    pub initial: Value,
}
