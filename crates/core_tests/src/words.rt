//! Numbers and declarations from words, and values as text.
use item_model::{ItemDecl, ItemKind};
use rt_base::{ItemId, List, TogetherDecl};
use std::alloc::Global;
use std::fmt::Debug;
use test_sets::plain_txn;
use txn_set::TxnDecl;

/// Writes a value by `Debug`, and lets go of it.
pub fn tell<T: Debug + Drop>(said: &mut String, value: T) -> Option<()> {
    let written = write!(said, "{value:?}");
    drop(value);
    written.ok()
}

/// A number.
pub fn number(word: &str) -> Option<u64> {
    word.parse::<u64>().ok()
}

/// A size.
pub fn size(word: &str) -> Option<usize> {
    word.parse::<usize>().ok()
}

/// The numbers between commas; `-` is none of them.
pub fn numbers(alloc: Global, text: &str) -> Option<Vec<u64>> {
    let mut all = Vec::new(alloc);
    if text == "-" {
        return Some(all);
    }
    for word in text.split(',') {
        all.push(number(word)?).ok()?;
    }
    Some(all)
}

// The items at these places.
fn places(alloc: Global, text: &str) -> Option<List<ItemId>> {
    let mut items = Vec::new(alloc);
    for place in numbers(alloc, text)?.as_slice() {
        items.push(ItemId((*place & 0xffff) as u32)).ok()?;
    }
    Some(List::of(items))
}

/// An item of the value 0: `state`, or a kind and its validity.
pub fn item(text: &str) -> Option<ItemDecl> {
    let kind = match text.split_once(' ') {
        Some(("sensor", validity)) => ItemKind::Sensor {
            validity: number(validity)?,
        },
        Some(("derived", validity)) => ItemKind::Derived {
            validity: number(validity)?,
        },
        _ => ItemKind::State,
    };
    Some(ItemDecl { kind, initial: 0 })
}

/// A transaction: its priority, its period, its steps, its quiet steps, and the places of what it reads and writes. Its
/// deadline is at its period.
pub fn txn(alloc: Global, text: &str) -> Option<TxnDecl> {
    let (prio, rest) = text.split_once(' ')?;
    let (period, rest) = rest.split_once(' ')?;
    let (steps, rest) = rest.split_once(' ')?;
    let (quiet, rest) = rest.split_once(' ')?;
    let (reads, writes) = rest.split_once(' ')?;
    let prio = prio.parse::<u32>().ok()?;
    let (period, steps, quiet) = (number(period)?, number(steps)?, number(quiet)?);
    let reads = places(alloc, reads)?;
    let writes = places(alloc, writes)?;
    let mut txn = plain_txn(prio, period, steps, reads, writes);
    txn.quiet = quiet;
    Some(txn)
}

/// A relative set: its interval and the places of its items.
pub fn group(alloc: Global, text: &str) -> Option<TogetherDecl> {
    let (within, items) = text.split_once(' ')?;
    let within = number(within)?;
    Some(TogetherDecl {
        items: places(alloc, items)?,
        within,
    })
}
