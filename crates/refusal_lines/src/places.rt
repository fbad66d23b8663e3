//! Places of a scenario.
ghost use Rattle.std.specs.Prelude.{◌≡◌, ◌++◌, codes, decimal, OnOk};
ghost use Rattle.refusal_lines.specs.Places.{item_member as item_member_text, txn_member as txn_member_text, place_text};

use crate::words::{put, put_decimal};
use rt_base::OutOfMemory;
use scenario_forms::{ItemMember, Place, TxnMember};

fn item_member(member: ItemMember) -> &'static [u8]
    ensures { result.now ≡ item_member_text member }
{
    match member {
        ItemMember::Name => b"name",
        ItemMember::Kind => b"kind",
        ItemMember::Validity => b"validity",
        ItemMember::Value => b"value",
    }
}

/// The name of a transaction's member.
pub fn txn_member(member: TxnMember) -> &'static [u8]
    ensures { result.now ≡ txn_member_text member }
{
    match member {
        TxnMember::Name => b"name",
        TxnMember::Priority => b"priority",
        TxnMember::Period => b"period",
        TxnMember::Offset => b"offset",
        TxnMember::Deadline => b"deadline",
        TxnMember::Steps => b"steps",
        TxnMember::Quiet => b"quiet",
        TxnMember::Reads => b"reads",
        TxnMember::Writes => b"writes",
        TxnMember::Releases => b"releases",
        TxnMember::Jobs => b"jobs",
        TxnMember::Eager => b"eager",
        TxnMember::Samples => b"samples",
        TxnMember::Script => b"script",
    }
}

// A word, a number, and a word.
fn put_between(out: &mut Vec<u8>, before: &[u8], n: usize, after: &[u8]) -> Result<(), OutOfMemory>
    ensures { OnOk result (out.new.items ≡ out.old.items ++ (before.now ++ decimal n ++ after.now)) }
{
    put(out, before)?;
    put_decimal(out, n as u64)?;
    put(out, after)
}

fn put_numbered(out: &mut Vec<u8>, before: &[u8], n: usize) -> Result<(), OutOfMemory>
    ensures { OnOk result (out.new.items ≡ out.old.items ++ (before.now ++ decimal n)) }
{
    put(out, before)?;
    put_decimal(out, n as u64)
}

// A member of a numbered element.
fn put_member(out: &mut Vec<u8>, before: &[u8], i: usize, member: &[u8]) -> Result<(), OutOfMemory>
    ensures { OnOk result (out.new.items ≡ out.old.items ++ (before.now ++ decimal i ++ codes "/" ++ member.now)) }
{
    put_between(out, before, i, b"/")?;
    put(out, member)
}

fn put_txn_member(out: &mut Vec<u8>, i: usize, member: TxnMember) -> Result<(), OutOfMemory>
    ensures { OnOk result (out.new.items ≡ out.old.items ++ (codes "/transactions/" ++ decimal i ++ codes "/" ++ txn_member_text member)) }
{
    put_member(out, b"/transactions/", i, txn_member(member))
}

/// Appends a place, as a path from the root with indexes from 0. After want of memory a part of it may stand.
pub fn put_place(out: &mut Vec<u8>, place: Place) -> Result<(), OutOfMemory>
    ensures { OnOk result (out.new.items ≡ out.old.items ++ place_text place) }
{
    match place {
        Place::Root => put(out, b"/"),
        Place::Version => put(out, b"/version"),
        Place::Items => put(out, b"/items"),
        Place::Item { i } => put_numbered(out, b"/items/", i),
        Place::ItemMember { i, member } => put_member(out, b"/items/", i, item_member(member)),
        Place::Txns => put(out, b"/transactions"),
        Place::Txn { i } => put_numbered(out, b"/transactions/", i),
        Place::TxnMember { i, member } => put_txn_member(out, i, member),
        Place::Element { i, member, j } => {
            put_txn_member(out, i, member)?;
            put_numbered(out, b"/", j)
        }
        Place::Together => put(out, b"/together"),
        Place::Set { i } => put_numbered(out, b"/together/", i),
        Place::SetItems { i } => put_between(out, b"/together/", i, b"/items"),
        Place::SetWithin { i } => put_between(out, b"/together/", i, b"/within"),
        Place::SetElement { i, j } => {
            put_numbered(out, b"/together/", i)?;
            put_numbered(out, b"/items/", j)
        }
    }
}
