//! What a board tells, as text.
use board::Board;
use rt_base::{ItemId, TxId};
use std::alloc::AllocError;

// Writes the pending job of a transaction, and how many of its jobs ended.
fn write_job<B: Board>(text: &mut String, board: &B, tx: u32) -> Result<(), AllocError> {
    if (tx as usize) >= board.set().txns().len() {
        return Ok(());
    }
    let (pending, ended) = (board.pending(TxId(tx)), board.ended(TxId(tx)));
    write!(text, ", {tx} has {pending:?} after {ended}")
}

// Writes the value and the stamp of an item.
fn write_item<B: Board>(text: &mut String, board: &B, item: u32) -> Result<(), AllocError> {
    if (item as usize) >= board.set().items().len() {
        return Ok(());
    }
    let (value, stamp) = board.peek(ItemId(item));
    write!(text, ", {item} is {value} of {stamp}")
}

// Writes where a board is, and what it keeps.
fn write_place<B: Board>(text: &mut String, board: &B) -> Result<(), AllocError> {
    let (now, running, planned) = (board.now(), board.running(), board.planned());
    write!(text, "at {now} runs {running:?}, {planned} planned")?;
    let (first, count) = (board.first(), board.count());
    write!(text, ", entries {first} to {count}")?;
    let (room, entries) = (board.room(), board.entries().len());
    write!(text, ", {entries} in {room}")
}

/// Writes what the accessors of a board answer. Err where memory ran out.
pub fn write_look<B: Board>(text: &mut String, board: &B) -> Result<(), AllocError> {
    write_place(text, board)?;
    for tx in 0..64 {
        write_job(text, board, tx)?;
    }
    for item in 0..256 {
        write_item(text, board, item)?;
    }
    Ok(())
}
