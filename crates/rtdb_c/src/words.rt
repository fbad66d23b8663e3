//! Words and numbers, each after one blank.
ghost use Rattle.std.specs.Prelude.{◌≡◌, ◌+◌, ◌≤◌, ◌++◌, length, decimal};
ghost use Rattle.refusal_lines.specs.Causes.{word, number};
ghost use Rattle.rtdb_c.specs.Texts.{item_name, txn_name};

use arrayvec::ArrayVec;
use itoa::Buffer;

/// A text while it is made.
pub type Words = ArrayVec<u8, 96>;

// Appends bytes.
fn put(out: &mut Words, bytes: &[u8])
    requires { length out.old.items + length bytes.now ≤ 96 }
    ensures text { out.new.items ≡ out.old.items ++ bytes.now }
    ensures len { length out.new.items ≡ length out.old.items + length bytes.now }
{
    match out.try_extend_from_slice(bytes) {
        Ok(()) => (),
        Err(_) => unreachable!(),
    }
}

/// A word that a text begins with.
pub fn begun(bytes: &[u8]) -> Words
    requires { length bytes.now ≤ 20 }
    ensures text { result.items ≡ bytes.now }
    ensures short { length result.items ≤ 20 }
{
    let mut out = Words::new();
    put(&mut out, bytes);
    out
}

fn put_decimal(out: &mut Words, n: u64)
    requires { length out.old.items + 20 ≤ 96 }
    ensures text { out.new.items ≡ out.old.items ++ decimal n }
    ensures short { length out.new.items ≤ length out.old.items + 20 }
{
    put(out, Buffer::new().format(n).as_bytes());
}

/// Appends a blank and a word.
pub fn put_word(out: &mut Words, bytes: &[u8])
    requires { length out.old.items + 1 + length bytes.now ≤ 96 }
    ensures { out.new.items ≡ out.old.items ++ word bytes.now }
{
    put(out, b" ");
    put(out, bytes);
}

/// Appends a blank and a number in decimal digits.
pub fn put_number(out: &mut Words, n: u64)
    requires { length out.old.items + 21 ≤ 96 }
    ensures text { out.new.items ≡ out.old.items ++ number n }
    ensures short { length out.new.items ≤ length out.old.items + 21 }
{
    put(out, b" ");
    put_decimal(out, n);
}

/// Appends a blank and the name of an item, which is made of its number.
pub fn put_item(out: &mut Words, item: u64)
    requires { length out.old.items + 25 ≤ 96 }
    ensures text { out.new.items ≡ out.old.items ++ word (item_name item) }
    ensures short { length out.new.items ≤ length out.old.items + 25 }
{
    put(out, b" ");
    put(out, b"item");
    put_decimal(out, item);
}

/// Appends a blank and the name of a transaction, which is made of its number.
pub fn put_txn(out: &mut Words, tx: u64)
    requires { length out.old.items + 24 ≤ 96 }
    ensures text { out.new.items ≡ out.old.items ++ word (txn_name tx) }
    ensures short { length out.new.items ≤ length out.old.items + 24 }
{
    put(out, b" ");
    put(out, b"txn");
    put_decimal(out, tx);
}
