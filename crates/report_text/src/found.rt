//! What one line declares.
ghost use Rattle.std.specs.Prelude.{◌≡◌, ◌^◌, ◌<◌, length, option_map, IfOk};
ghost use Rattle.report_text.specs.Head.{timed_of, state_of, decl_of, item_of, numbers_of, quiet_of, written, txn_of, set_of, mode_line_of, found_after, found_of};

use crate::lists::{list, word_after};
use crate::words::{next_fresh, next_mode};
use item_model::{ItemDecl, ItemKind};
use line_fields::{done, field, next_short, next_signed, next_unsigned, next_word, word};
use name_table::NameTable;
use rt_base::{ItemId, List, Name, OutOfMemory, TogetherDecl};
use std::alloc::Global;
use txn_set::TxnDecl;

/// The parts of the declarations, in their order.
#[derive(Clone, Copy, Debug, PartialEq, Eq)]
pub enum Part {
    Items,
    Txns,
    Sets,
}

/// The numbers of a transaction.
#[derive(Clone, Copy)]
pub struct Numbers {
    pub name: Name,
    pub prio: u32,
    pub period: u64,
    pub offset: u64,
    pub deadline: u64,
    pub steps: u64,
}

/// What one line declares.
#[derive(Drop)]
pub enum Found {
    Item(Name, ItemDecl),
    Txn(Name, TxnDecl),
    Set(TogetherDecl),
    Mode(bool),
}

#[tactic(auto, unfolding(crate::specs::Head::timed_of))]
fn timed(rest: &[u8]) -> Option<((u64, i64), &[u8])>
    ensures { option_map (λ p. (p.0, p.1.now)) result ≡ timed_of rest.now }
{
    let (validity, rest) = next_unsigned(rest)?;
    let (value, rest) = next_signed(rest)?;
    Some(((validity, value), rest))
}

#[tactic(auto, unfolding(crate::specs::Head::state_of))]
fn state(rest: &[u8]) -> Option<(i64, &[u8])>
    ensures { option_map (λ p. (p.0, p.1.now)) result ≡ state_of rest.now }
{
    let (_, rest) = next_word(b"-", rest)?;
    next_signed(rest)
}

#[tactic(auto, unfolding(crate::specs::Head::decl_of))]
fn decl<'a>(word: &[u8], rest: &'a [u8]) -> Option<(ItemDecl, &'a [u8])>
    ensures { option_map (λ p. (p.0, p.1.now)) result ≡ decl_of word.now rest.now }
{
    if word == b"sensor".as_slice() {
        let ((validity, initial), rest) = timed(rest)?;
        Some((
            ItemDecl {
                kind: ItemKind::Sensor { validity },
                initial,
            },
            rest,
        ))
    } else if word == b"derived".as_slice() {
        let ((validity, initial), rest) = timed(rest)?;
        Some((
            ItemDecl {
                kind: ItemKind::Derived { validity },
                initial,
            },
            rest,
        ))
    } else if word == b"state".as_slice() {
        let (initial, rest) = state(rest)?;
        Some((
            ItemDecl {
                kind: ItemKind::State,
                initial,
            },
            rest,
        ))
    } else {
        None
    }
}

#[tactic(auto, unfolding(crate::specs::Head::item_of))]
fn item(items: &NameTable, rest: &[u8]) -> Option<Found>
    ensures { result ≡ item_of items.now rest.now }
{
    let Some((name, rest)) = next_fresh(items, rest) else {
        return None;
    };
    let (word, rest) = field(rest)?;
    let (decl, rest) = decl(word, rest)?;
    done(rest)?;
    Some(Found::Item(name, decl))
}

#[tactic(auto, unfolding(crate::specs::Head::numbers_of))]
fn txn_numbers<'a>(txns: &NameTable, rest: &'a [u8]) -> Option<(Numbers, &'a [u8])>
    ensures { option_map (λ p. (p.0, p.1.now)) result ≡ numbers_of txns.now rest.now }
{
    let Some((name, rest)) = next_fresh(txns, rest) else {
        return None;
    };
    let (prio, rest) = next_short(rest)?;
    let (period, rest) = next_unsigned(rest)?;
    let (offset, rest) = next_unsigned(rest)?;
    let (deadline, rest) = next_unsigned(rest)?;
    let (steps, rest) = next_unsigned(rest)?;
    Some((
        Numbers {
            name,
            prio,
            period,
            offset,
            deadline,
            steps,
        },
        rest,
    ))
}

#[tactic(auto, unfolding(crate::specs::Head::quiet_of))]
fn quiet(two: bool, rest: &[u8]) -> Option<u64>
    ensures { result ≡ quiet_of two rest.now }
{
    if two {
        let (_, rest) = next_word(b"quiet", rest)?;
        let (n, rest) = next_unsigned(rest)?;
        done(rest)?;
        Some(n)
    } else {
        done(rest)?;
        Some(0)
    }
}

// A transaction with these numbers and reads, from what stands after them.
#[tactic(auto, unfolding(crate::specs::Head::written))]
fn txn_written(
    alloc: Global,
    items: &NameTable,
    two: bool,
    numbers: Numbers,
    reads: List<ItemId>,
    rest: &[u8],
) -> Result<Option<Found>, OutOfMemory>
    requires { length items.now < 2 ^ 32 }
    ensures { IfOk result (λ o. o ≡ written items.now two numbers reads rest.now) }
{
    let Some((word, rest)) = word_after(b"writes", rest) else {
        drop(reads);
        return Ok(None);
    };
    let writes = match list(alloc, items, word) {
        Ok(Some(writes)) => writes,
        Ok(None) => {
            drop(reads);
            return Ok(None);
        }
        Err(OutOfMemory) => {
            drop(reads);
            return Err(OutOfMemory);
        }
    };
    let Some(quiet) = quiet(two, rest) else {
        drop(reads);
        drop(writes);
        return Ok(None);
    };
    Ok(Some(Found::Txn(
        numbers.name,
        TxnDecl {
            prio: numbers.prio,
            period: numbers.period,
            offset: numbers.offset,
            deadline: numbers.deadline,
            steps: numbers.steps,
            quiet,
            reads,
            writes,
        },
    )))
}

#[tactic(auto, unfolding(crate::specs::Head::txn_of, crate::specs::Head::written))]
fn txn(
    alloc: Global,
    items: &NameTable,
    txns: &NameTable,
    two: bool,
    rest: &[u8],
) -> Result<Option<Found>, OutOfMemory>
    requires { length items.now < 2 ^ 32 }
    ensures { IfOk result (λ o. o ≡ txn_of items.now txns.now two rest.now) }
{
    let Some((numbers, rest)) = txn_numbers(txns, rest) else {
        return Ok(None);
    };
    let Some((word, rest)) = word_after(b"reads", rest) else {
        return Ok(None);
    };
    let Some(reads) = list(alloc, items, word)? else {
        return Ok(None);
    };
    txn_written(alloc, items, two, numbers, reads, rest)
}

#[tactic(auto, unfolding(crate::specs::Head::set_of))]
fn set(
    alloc: Global,
    items: &NameTable,
    two: bool,
    rest: &[u8],
) -> Result<Option<Found>, OutOfMemory>
    requires { length items.now < 2 ^ 32 }
    ensures { IfOk result (λ o. o ≡ set_of items.now two rest.now) }
{
    if !two {
        return Ok(None);
    }
    let Some((within, rest)) = next_unsigned(rest) else {
        return Ok(None);
    };
    let Some((word, rest)) = field(rest) else {
        return Ok(None);
    };
    let Some(items) = list(alloc, items, word)? else {
        return Ok(None);
    };
    match done(rest) {
        Some(()) => Ok(Some(Found::Set(TogetherDecl { items, within }))),
        None => Ok(None),
    }
}

#[tactic(auto, unfolding(crate::specs::Head::mode_line_of))]
fn mode_line(rest: &[u8]) -> Option<Found>
    ensures { result ≡ mode_line_of rest.now }
{
    let (mode, rest) = next_mode(rest)?;
    done(rest)?;
    Some(Found::Mode(mode))
}

#[tactic(auto, unfolding(crate::specs::Head::found_after))]
fn found_by(
    alloc: Global,
    items: &NameTable,
    txns: &NameTable,
    two: bool,
    word: &[u8],
    rest: &[u8],
) -> Result<Option<Found>, OutOfMemory>
    requires { length items.now < 2 ^ 32 }
    ensures { IfOk result (λ o. o ≡ found_after items.now txns.now two word.now rest.now) }
{
    if word == b"item".as_slice() {
        Ok(item(items, rest))
    } else if word == b"txn".as_slice() {
        txn(alloc, items, txns, two, rest)
    } else if word == b"together".as_slice() {
        set(alloc, items, two, rest)
    } else if word == b"mode".as_slice() {
        Ok(mode_line(rest))
    } else {
        Ok(None)
    }
}

/// What a line declares after these names.
#[tactic(auto, unfolding(crate::specs::Head::found_of))]
pub(crate) fn declared(
    alloc: Global,
    items: &NameTable,
    txns: &NameTable,
    two: bool,
    line: &[u8],
) -> Result<Option<Found>, OutOfMemory>
    requires { length items.now < 2 ^ 32 }
    ensures { IfOk result (λ o. o ≡ found_of items.now txns.now two line.now) }
{
    let (word, rest) = word(line);
    found_by(alloc, items, txns, two, word, rest)
}
