//! Sets and entries from the lines of a report.
use crate::range::compile_in_range;
use journal_text::read_entry;
use name_table::{NameTable, NameTables};
use report_text::{Head, read_head};
use rt_base::Name;
use std::alloc::Global;
use step_journal::Entry;
use txn_set::CompiledSet;

/// A set, and names for its places and for some beyond.
#[derive(Drop)]
pub struct Told {
    pub names: NameTables,
    pub set: CompiledSet,
}

// Puts a name behind the others. None where it is there, or memory ran out.
fn add(alloc: Global, names: &mut NameTable, name: &Name) -> Option<()> {
    if names.len() >= 1 << 32 || names.place(name.as_slice()).is_some() {
        return None;
    }
    names.add(alloc, name).ok()
}

// A word and a place.
fn numbered(alloc: Global, word: &str, place: usize) -> Option<Name> {
    let name = format!(in alloc; "{word}{place}").ok()?;
    Name::new(name.as_bytes())
}

// Puts these names into a table, and further ones up to so many: the word and the place of each.
fn add_all(
    alloc: Global,
    all: &mut NameTable,
    names: &[Name],
    word: &str,
    count: usize,
) -> Option<()> {
    for name in names {
        add(alloc, all, name)?;
    }
    for place in names.len()..count {
        add(alloc, all, &numbered(alloc, word, place)?)?;
    }
    Some(())
}

// A table of these names and of further ones.
fn padded(alloc: Global, names: &[Name], word: &str, count: usize) -> Option<NameTable> {
    let mut all = NameTable::new(alloc);
    match add_all(alloc, &mut all, names, word, count) {
        Some(()) => Some(all),
        None => {
            drop(all);
            None
        }
    }
}

// The names that are declared, and further ones.
fn all_names(alloc: Global, declared: &NameTables) -> Option<NameTables> {
    let names = declared.names();
    let items = padded(alloc, names.items.as_slice(), "item", 901)?;
    match padded(alloc, names.txns.as_slice(), "txn", 10) {
        Some(txns) => Some(NameTables::of(items, txns)),
        None => {
            drop(items);
            None
        }
    }
}

// The set that declarations are. None where it is refused.
fn compiled(alloc: Global, head: Head) -> Option<CompiledSet> {
    let Head {
        names,
        items,
        txns,
        together,
        admitted: _,
        lines: _,
    } = head;
    drop(names);
    let (items, txns) = (items.into_vec(), txns.into_vec());
    match compile_in_range(alloc, items, txns, together.into_vec()) {
        Some(Ok(set)) => Some(set),
        _ => None,
    }
}

// The set and the names of a head.
fn told_of(alloc: Global, head: Head) -> Option<Told> {
    let names = all_names(alloc, &head.names);
    let Some(set) = compiled(alloc, head) else {
        drop(names);
        return None;
    };
    match names {
        Some(names) => Some(Told { names, set }),
        None => {
            drop(set);
            None
        }
    }
}

/// The set that the head of a report declares. None where it is refused.
pub fn declared(alloc: Global, text: &str) -> Option<Told> {
    if text.len() >= 1 << 32 {
        return None;
    }
    match read_head(alloc, text.as_bytes()) {
        Ok(head) => told_of(alloc, head),
        Err(_) => None,
    }
}

/// The entry of a line.
pub fn entry_of(names: &NameTables, line: &str) -> Option<Entry> {
    read_entry(names, line.as_bytes())
}
