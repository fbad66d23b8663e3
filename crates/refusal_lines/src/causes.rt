//! Causes.
ghost use Rattle.std.specs.Prelude.{◌≡◌, ◌++◌, codes, OnOk};
ghost use Rattle.refusal_lines.specs.Causes.{member_of as member_of_number, release_cause, scenario_cause, which_text, compile_cause, admit_cause, word, number, item, txn};
ghost use Rattle.refusal_lines.specs.Places.{place_text};

use crate::places::{put_place, txn_member};
use crate::words::{
    put, put_item, put_number, put_of_item, put_of_txn, put_of_txn_and_number, put_txn, put_word,
};
use rt_base::{ItemId, Names, OutOfMemory, PlanRefused, TxId};
use scenario_forms::{Place, TxnMember};
use scenario_reader::ScenarioError;
use set_admission::AdmitError;
use txn_compiler::{CompileError, Which};

// A word and a number.
fn put_counted(out: &mut Vec<u8>, cause: &[u8], n: u64) -> Result<(), OutOfMemory>
    ensures { OnOk result (out.new.items ≡ out.old.items ++ (cause.now ++ number n)) }
{
    put(out, cause)?;
    put_number(out, n)
}

// A word and a place.
fn put_placed(out: &mut Vec<u8>, cause: &[u8], place: Place) -> Result<(), OutOfMemory>
    ensures { OnOk result (out.new.items ≡ out.old.items ++ (cause.now ++ word (place_text place))) }
{
    put(out, cause)?;
    put(out, b" ")?;
    put_place(out, place)
}

fn put_release_cause(
    out: &mut Vec<u8>,
    names: &Names,
    tx: TxId,
    index: u32,
    cause: PlanRefused,
) -> Result<(), OutOfMemory>
    ensures { OnOk result (out.new.items ≡ out.old.items ++ release_cause names.now tx index cause) }
{
    match cause {
        PlanRefused::TooSoon { earliest } => {
            put_of_txn_and_number(out, names, b"TooSoon", tx, index as u64)?;
            put_number(out, earliest)
        }
        PlanRefused::TooFar { limit } => {
            put_of_txn_and_number(out, names, b"TooFar", tx, index as u64)?;
            put_number(out, limit)
        }
        _ => Ok(()),
    }
}

/// Appends why a scenario was refused. The names are those of its transactions, and are looked up for a release alone.
/// After want of memory a part of the text may stand.
pub fn put_scenario_cause(
    out: &mut Vec<u8>,
    names: &Names,
    error: ScenarioError,
) -> Result<(), OutOfMemory>
    ensures { OnOk result (out.new.items ≡ out.old.items ++ scenario_cause names.now error) }
{
    match error {
        ScenarioError::NotJson => put(out, b"NotJson"),
        ScenarioError::BadField { place } => put_placed(out, b"BadField", place),
        ScenarioError::UnknownName { place } => put_placed(out, b"UnknownName", place),
        ScenarioError::BadScript { tx, op } => {
            put_placed(out, b"BadScript", script_element(tx, op))
        }
        ScenarioError::TooManySteps { tx } => put_placed(out, b"TooManySteps", script_of(tx)),
        ScenarioError::TooManyJobs { count } => put_counted(out, b"TooManyJobs", count),
        ScenarioError::BadRelease { tx, index, cause } => {
            put_release_cause(out, names, tx, index, cause)
        }
        ScenarioError::RoomTooLarge { needed } => put_counted(out, b"RoomTooLarge", needed),
        ScenarioError::EagerTooFar { needed } => put_counted(out, b"EagerTooFar", needed),
        ScenarioError::OutOfMemory => Ok(()),
    }
}

fn script_element(tx: TxId, op: usize) -> Place
    ensures { result ≡ Place.Element tx.0 TxnMember.Script op }
{
    Place::Element {
        i: tx.0 as usize,
        member: TxnMember::Script,
        j: op,
    }
}

fn script_of(tx: TxId) -> Place
    ensures { result ≡ Place.TxnMember tx.0 TxnMember.Script }
{
    Place::TxnMember {
        i: tx.0 as usize,
        member: TxnMember::Script,
    }
}

/// The member of a transaction that holds one of its numbers.
pub fn member_of(which: Which) -> TxnMember
    ensures { result ≡ member_of_number which }
{
    match which {
        Which::Prio => TxnMember::Priority,
        Which::Steps => TxnMember::Steps,
        Which::Period => TxnMember::Period,
        Which::Deadline => TxnMember::Deadline,
        Which::Offset => TxnMember::Offset,
        Which::Quiet => TxnMember::Quiet,
    }
}

fn which(which: Which) -> &'static [u8]
    ensures { result.now ≡ which_text which }
{
    txn_member(member_of(which))
}

fn put_two_writers(
    out: &mut Vec<u8>,
    names: &Names,
    i: ItemId,
    a: TxId,
    b: TxId,
) -> Result<(), OutOfMemory>
    ensures { OnOk result (out.new.items ≡ out.old.items ++ (codes "TwoWriters" ++ item names.now i ++ txn names.now a ++ txn names.now b)) }
{
    put_of_item(out, names, b"TwoWriters", i)?;
    put_txn(out, names, a)?;
    put_txn(out, names, b)
}

/// Appends why declarations are no set. The names are those of the items and transactions. After want of memory a part
/// of the text may stand.
pub fn put_compile_cause(
    out: &mut Vec<u8>,
    names: &Names,
    error: CompileError,
) -> Result<(), OutOfMemory>
    ensures { OnOk result (out.new.items ≡ out.old.items ++ compile_cause names.now error) }
{
    match error {
        CompileError::TooManyItems { count } => put_counted(out, b"TooManyItems", count as u64),
        CompileError::TooManyTxns { count } => put_counted(out, b"TooManyTxns", count as u64),
        CompileError::SamePrio { a, b } => {
            put_of_txn(out, names, b"SamePrio", a)?;
            put_txn(out, names, b)
        }
        CompileError::BadTimes { tx, which: field } => {
            put_of_txn(out, names, b"BadTimes", tx)?;
            put_word(out, which(field))
        }
        CompileError::NoWriter { item } => put_of_item(out, names, b"NoWriter", item),
        CompileError::TwoWriters { item, a, b } => put_two_writers(out, names, item, a, b),
        CompileError::CyclicDerivation { item } => {
            put_of_item(out, names, b"CyclicDerivation", item)
        }
        CompileError::OutOfMemory => Ok(()),
        CompileError::TooManySets { count } => put_counted(out, b"TooManySets", count as u64),
        CompileError::BadTogether { set } => put_counted(out, b"BadTogether", set as u64),
    }
}

/// Appends why a set is not admitted. The names are those of the items and transactions. After want of memory a part of
/// the text may stand.
pub fn put_admit_cause(
    out: &mut Vec<u8>,
    names: &Names,
    error: AdmitError,
) -> Result<(), OutOfMemory>
    ensures { OnOk result (out.new.items ≡ out.old.items ++ admit_cause names.now error) }
{
    match error {
        AdmitError::NotSchedulable { tx, demand } => {
            put_of_txn_and_number(out, names, b"NotSchedulable", tx, demand)
        }
        AdmitError::TooOld { tx, item, age } => {
            put_of_txn(out, names, b"TooOld", tx)?;
            put_item(out, names, item)?;
            put_number(out, age)
        }
        AdmitError::TooApart { tx, set, age } => {
            put_of_txn_and_number(out, names, b"TooApart", tx, set as u64)?;
            put_number(out, age)
        }
        AdmitError::OutOfMemory => Ok(()),
    }
}
