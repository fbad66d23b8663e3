//! Sets that lines declare, compiled, admitted and rated.
use crate::ladders::write_ages;
use crate::margins::write_margin;
use crate::priorities::write_priorities;
use crate::responses::write_responses;
use crate::texts::{write_bounds, write_rates, write_set};
use crate::words::{group, item, numbers, txn};
use item_model::{ItemDecl, ItemKind};
use rt_base::{List, TogetherDecl};
use set_admission::admit;
use std::alloc::Global;
use std::mem;
use test_sets::{are_in_range, compile_in_range, plain_txn};
use txn_set::{CompiledSet, TxnDecl};
use update_rates::plan_rates;

/// Declarations.
#[derive(Drop)]
pub struct Declared {
    items: Vec<ItemDecl>,
    txns: Vec<TxnDecl>,
    together: Vec<TogetherDecl>,
}

/// None.
pub fn nothing(alloc: Global) -> Declared {
    Declared {
        items: Vec::new(alloc),
        txns: Vec::new(alloc),
        together: Vec::new(alloc),
    }
}

// The declarations, and none are left.
fn taken(alloc: Global, declared: &mut Declared) -> Declared {
    mem::replace(declared, nothing(alloc))
}

// Writes the bounds of a set that is admitted, or why it is not.
fn admit_set(alloc: Global, set: CompiledSet, said: &mut String) -> Option<()> {
    match admit(alloc, set) {
        Ok(admitted) => {
            let written = write_bounds(&admitted, said);
            drop(admitted.into_set());
            written
        }
        Err((set, error)) => {
            drop(set);
            write!(said, "{error:?}").ok()
        }
    }
}

// Writes what the copy of a set tells.
fn write_copy(alloc: Global, set: &CompiledSet, said: &mut String) -> Option<()> {
    let copy = set.copy(alloc).ok()?;
    let written = write_set(&copy, said);
    drop(copy);
    written
}

// Writes what a compiled set comes to, without being admitted.
fn judge_compiled(alloc: Global, set: &CompiledSet, what: &str, said: &mut String) -> Option<()> {
    match what {
        "told" => write_set(set, said),
        "copy" => write_copy(alloc, set, said),
        "margin" => write_margin(alloc, set, said),
        "priorities" => write_priorities(alloc, set, said),
        "sizes" => write!(said, "compiled").ok(),
        _ => None,
    }
}

// Writes what the rates of declarations are.
fn rate(alloc: Global, declared: Declared, said: &mut String) -> Option<()> {
    let Declared {
        items,
        txns,
        together,
    } = declared;
    if !are_in_range(&items, &txns, &together) {
        drop(items);
        drop(txns);
        drop(together);
        return None;
    }
    match plan_rates(alloc, items, txns, together) {
        Ok(admitted) => {
            let written = write_rates(&admitted, said);
            drop(admitted);
            written
        }
        Err(error) => write!(said, "{error:?}").ok(),
    }
}

// Writes what declarations come to.
fn judge(alloc: Global, declared: Declared, what: &str, said: &mut String) -> Option<()> {
    let Declared {
        items,
        txns,
        together,
    } = declared;
    match compile_in_range(alloc, items, txns, together)? {
        Ok(set) if what == "bounds" => admit_set(alloc, set, said),
        Ok(set) => {
            let judged = judge_compiled(alloc, &set, what, said);
            drop(set);
            judged
        }
        Err(error) => write!(said, "{error:?}").ok(),
    }
}

// Adds so many transactions, items and relative sets.
fn add_many(alloc: Global, declared: &mut Declared, counts: [u64; 3]) -> Option<()> {
    let [txns, items, groups] = counts;
    for place in 0..txns {
        let prio = (place & 0xffff) as u32;
        let (reads, writes) = (List::of(Vec::new(alloc)), List::of(Vec::new(alloc)));
        let txn = plain_txn(prio + 1, 40, 4, reads, writes);
        declared.txns.push(txn).ok()?;
    }
    for _ in 0..items {
        let kind = ItemKind::State;
        declared.items.push(ItemDecl { kind, initial: 0 }).ok()?;
    }
    for _ in 0..groups {
        let items = List::of(Vec::new(alloc));
        declared
            .together
            .push(TogetherDecl { items, within: 5 })
            .ok()?;
    }
    Some(())
}

// How many transactions, items and relative sets a text asks for.
fn counts_of(alloc: Global, text: &str) -> Option<[u64; 3]> {
    match numbers(alloc, text)?.as_slice() {
        [txns, items, groups] => Some([*txns, *items, *groups]),
        _ => None,
    }
}

// Declares what a line says.
fn declare(alloc: Global, declared: &mut Declared, word: &str, rest: &str) -> Option<()> {
    match word {
        "item" => declared.items.push(item(rest)?).ok(),
        "txn" => declared.txns.push(txn(alloc, rest)?).ok(),
        "together" => declared.together.push(group(alloc, rest)?).ok(),
        _ => add_many(alloc, declared, counts_of(alloc, rest)?),
    }
}

/// Does what a line says, and writes what comes of it, if anything.
pub fn follow_set(
    alloc: Global,
    declared: &mut Declared,
    line: &str,
    said: &mut String,
) -> Option<()> {
    let (word, rest) = line.split_once(' ').unwrap_or((line, ""));
    match word {
        "item" | "txn" | "together" | "many" => declare(alloc, declared, word, rest),
        "new" => {
            drop(taken(alloc, declared));
            Some(())
        }
        "responses" => write_responses(alloc, rest, said),
        "ages" => write_ages(alloc, rest, said),
        "rates" => rate(alloc, taken(alloc, declared), said),
        _ => judge(alloc, taken(alloc, declared), word, said),
    }
}
