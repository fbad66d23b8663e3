//! Transactions, items, jobs and relative sets.
use crate::list::List;

/// An instant of the modelled processor, in ticks; 0 at the start.
pub type Tick = u64;

/// An assigned priority: a greater number is a higher priority.
pub type Prio = u32;

/// The value of an item.
pub type Value = i64;

/// A transaction, by its place in the set's list.
#[derive(Clone, Copy, PartialEq, Eq, Debug)]
pub struct TxId(pub u32);

/// An item, by its place in the set's list.
#[derive(Clone, Copy, PartialEq, Eq, Debug)]
pub struct ItemId(pub u32);

/// A job: its transaction and which of that transaction's jobs it is, counted from 0 in the order of their plans.
#[derive(Clone, Copy, PartialEq, Eq, Debug)]
pub struct JobId {
    pub tx: TxId,
    pub serial: u32,
}

/// A relative set after Ramamritham: items that a job is to read together, and the interval in ticks within which
/// their stamps lie. The items stand in rising order without repeats.
#[derive(Drop)]
pub struct TogetherDecl {
    pub items: List<ItemId>,
    pub within: Tick,
}
