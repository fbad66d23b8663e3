//! Words and numbers, each after one blank.
ghost use Rattle.std.specs.Prelude.{◌≡◌, ◌++◌, decimal, OnOk};
ghost use Rattle.refusal_lines.specs.Causes.{word, number, item, txn};

use itoa::Buffer;
use rt_base::{ItemId, Names, OutOfMemory, TxId};

pub(crate) fn put(out: &mut Vec<u8>, bytes: &[u8]) -> Result<(), OutOfMemory>
    ensures { OnOk result (out.new.items ≡ out.old.items ++ bytes.now) }
{
    out.extend_from_slice(bytes)?;
    Ok(())
}

pub(crate) fn put_decimal(out: &mut Vec<u8>, n: u64) -> Result<(), OutOfMemory>
    ensures { OnOk result (out.new.items ≡ out.old.items ++ decimal n) }
{
    put(out, Buffer::new().format(n).as_bytes())
}

pub(crate) fn put_word(out: &mut Vec<u8>, bytes: &[u8]) -> Result<(), OutOfMemory>
    ensures { OnOk result (out.new.items ≡ out.old.items ++ word bytes.now) }
{
    put(out, b" ")?;
    put(out, bytes)
}

/// Appends a blank and a number in decimal digits. After want of memory a part may stand.
pub fn put_number(out: &mut Vec<u8>, n: u64) -> Result<(), OutOfMemory>
    ensures { OnOk result (out.new.items ≡ out.old.items ++ number n) }
{
    put(out, b" ")?;
    put_decimal(out, n)
}

/// Appends a blank and the name of an item. After want of memory a part may stand.
pub fn put_item(out: &mut Vec<u8>, names: &Names, i: ItemId) -> Result<(), OutOfMemory>
    ensures { OnOk result (out.new.items ≡ out.old.items ++ item names.now i) }
{
    put(out, b" ")?;
    let names = names.items.as_slice();
    let at = i.0 as usize;
    if at < names.len() {
        put(out, names[at].as_slice())?;
    }
    Ok(())
}

/// Appends a blank and the name of a transaction. After want of memory a part may stand.
pub fn put_txn(out: &mut Vec<u8>, names: &Names, tx: TxId) -> Result<(), OutOfMemory>
    ensures { OnOk result (out.new.items ≡ out.old.items ++ txn names.now tx) }
{
    put(out, b" ")?;
    let names = names.txns.as_slice();
    let at = tx.0 as usize;
    if at < names.len() {
        put(out, names[at].as_slice())?;
    }
    Ok(())
}

/// Appends a word and the name of an item. After want of memory a part may stand.
pub fn put_of_item(
    out: &mut Vec<u8>,
    names: &Names,
    word: &[u8],
    i: ItemId,
) -> Result<(), OutOfMemory>
    ensures { OnOk result (out.new.items ≡ out.old.items ++ (word.now ++ item names.now i)) }
{
    put(out, word)?;
    put_item(out, names, i)
}

/// Appends a word and the name of a transaction. After want of memory a part may stand.
pub fn put_of_txn(
    out: &mut Vec<u8>,
    names: &Names,
    word: &[u8],
    tx: TxId,
) -> Result<(), OutOfMemory>
    ensures { OnOk result (out.new.items ≡ out.old.items ++ (word.now ++ txn names.now tx)) }
{
    put(out, word)?;
    put_txn(out, names, tx)
}

/// Appends a word, the name of a transaction and a number. After want of memory a part may stand.
pub(crate) fn put_of_txn_and_number(
    out: &mut Vec<u8>,
    names: &Names,
    word: &[u8],
    tx: TxId,
    n: u64,
) -> Result<(), OutOfMemory>
    ensures { OnOk result (out.new.items ≡ out.old.items ++ (word.now ++ txn names.now tx ++ number n)) }
{
    put_of_txn(out, names, word, tx)?;
    put_number(out, n)
}
