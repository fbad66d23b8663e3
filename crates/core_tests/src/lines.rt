//! The lines of reports and journals: numbers, jobs, entries and heads, read and written.
use crate::heads::try_head;
use journal_text::{
    Numeral, Numerals, item, job, put, put_job, put_name, put_short, put_signed, put_unsigned,
    read_entry, tx, write_entry,
};
use line_fields::{done, next_unsigned, next_word, short, signed, unsigned, word};
use name_table::NameTables;
use report_text::{Head, read_head};
use rt_base::{JobId, TxId};
use std::alloc::Global;

const NAMES: &[u8] = b"rtdb report 1
item temp sensor 20 0
item valve state - 0
txn sample 3 10 0 10 2 reads - writes temp
txn control 2 20 0 20 4 reads temp writes valve
txn logger 1 40 0 40 6 reads temp,valve writes -
mode trial
";

// The names of two items and three transactions.
fn small(alloc: Global) -> Option<NameTables> {
    let head = read_head(alloc, NAMES).ok()?;
    let Head {
        names,
        items,
        txns,
        together,
        admitted: _,
        lines: _,
    } = head;
    drop(items);
    drop(txns);
    drop(together);
    Some(names)
}

// Writes the number that a word is: one below 2^64, one below 2^32, and one with a sign.
fn try_number(text: &[u8], said: &mut String) -> Option<()> {
    let (whole, least, with_sign) = (unsigned(text), short(text), signed(text));
    write!(said, "{whole:?} {least:?} {with_sign:?}").ok()
}

// Writes the item, the transaction and the job that a word is.
fn try_ids(names: &NameTables, text: &[u8], said: &mut String) -> Option<()> {
    let (item, tx, job) = (item(names, text), tx(names, text), job(names, text));
    write!(said, "{item:?} {tx:?} {job:?}").ok()
}

// Writes the entry of a line, and whether the line is written of it.
fn try_entry(alloc: Global, names: &NameTables, line: &[u8], said: &mut String) -> Option<()> {
    let Some(entry) = read_entry(names, line) else {
        return said.push_str("none").ok();
    };
    let mut text = Vec::with_capacity(alloc, 256).ok()?;
    write_entry(names.names(), &entry, &mut Numerals::new(), &mut text);
    let same = text.strip_suffix(b"\n") == Some(line);
    drop(text);
    write!(said, "{entry:?} {same}").ok()
}

// Writes whether the bytes are none, the length of their first word, the number in their next field, and the length of what
// follows the word `by`.
fn try_fields(text: &[u8], said: &mut String) -> Option<()> {
    let none = done(text).is_some();
    let length = word(text).0.len();
    let number = match next_unsigned(text) {
        Some((n, _)) => Some(n),
        None => None,
    };
    let rest = match next_word(b"by", text) {
        Some((_, rest)) => Some(rest.len()),
        None => None,
    };
    write!(said, "{none} {length} {number:?} {rest:?}").ok()
}

// Adds bytes that are a text.
fn add_text(bytes: Vec<u8>, said: &mut String) -> Option<()> {
    let text = String::from_utf8(bytes).ok()?;
    said.push_str(text.as_str()).ok()
}

// Writes a word, an item, a job and three numbers as they are written.
fn try_written(alloc: Global, names: &NameTables, said: &mut String) -> Option<()> {
    let names = names.names();
    let (items, txns) = (names.items.as_slice(), names.txns.as_slice());
    if items.is_empty() || txns.len() < 3 {
        return None;
    }
    let logger = JobId {
        tx: TxId(2),
        serial: 3,
    };
    let mut text = Vec::with_capacity(alloc, 200).ok()?;
    put(&mut text, b"x");
    put_name(&mut text, items, 0);
    put_job(&mut text, txns, logger);
    put_signed(&mut text, -5);
    put_unsigned(&mut text, 18446744073709551615);
    put_short(&mut text, 6);
    add_text(text, said)
}

// Puts the numbers of a text, one after another, by a numeral that goes from each to the next.
fn put_numerals(text: &str, into: &mut Vec<u8>) -> Option<()> {
    let mut numeral = Numeral::of(0);
    for word in text.split(' ') {
        numeral.go_to(unsigned(word.as_bytes())?);
        into.reserve(33).ok()?;
        numeral.put(into);
        into.push(b' ').ok()?;
    }
    Some(())
}

// Writes the numbers of a text, by a numeral.
fn try_numerals(alloc: Global, text: &str, said: &mut String) -> Option<()> {
    let mut bytes = Vec::new(alloc);
    let put = put_numerals(text, &mut bytes);
    let added = add_text(bytes, said);
    put.and(added)
}

// Writes what names tell of a text.
fn try_named(
    alloc: Global,
    names: &NameTables,
    word: &str,
    bytes: &[u8],
    said: &mut String,
) -> Option<()> {
    match word {
        "ids" => try_ids(names, bytes, said),
        "entry" => try_entry(alloc, names, bytes, said),
        _ => try_written(alloc, names, said),
    }
}

// Writes what is read of a text.
fn try_text(alloc: Global, word: &str, text: &str, said: &mut String) -> Option<()> {
    let bytes = text.as_bytes();
    match word {
        "number" => try_number(bytes, said),
        "fields" => try_fields(bytes, said),
        "head" => try_head(alloc, bytes, said),
        "numerals" => try_numerals(alloc, text, said),
        "ids" | "entry" | "written" => {
            let names = small(alloc)?;
            let tried = try_named(alloc, &names, word, bytes, said);
            drop(names);
            tried
        }
        _ => None,
    }
}

/// Writes what comes of a line, in whose text signs stand for line ends and carriage returns.
pub fn try_line(alloc: Global, word: &str, rest: &str, said: &mut String) -> Option<()> {
    let text = rest.replace(alloc, "⏎", "\n").ok()?;
    let text = text.as_str().replace(alloc, "␍", "\r").ok()?;
    let tried = try_text(alloc, word, text.as_str(), said);
    drop(text);
    tried
}
