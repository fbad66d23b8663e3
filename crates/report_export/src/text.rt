//! The lines of a summary.
ghost use Rattle.std.specs.Prelude.{◌≡◌, ◌+◌, ◌<◌, ◌≤◌, ◌++◌, length, is_some, IsTrue, IfSome, OnOk, vec_len, vec_capacity};
ghost use Rattle.item_model.specs.Kinds.{validity_of, is_dated};
ghost use Rattle.txn_set.specs.Set.{txn_of};
ghost use Rattle.txn_set.specs.Ceilings.{blocking as blocking_of};
ghost use Rattle.set_admission.specs.Bounds.{response_of, age_of};
ghost use Rattle.line_fields.specs.Cuts.{field};
ghost use Rattle.run_report.specs.Summary.{counted};
ghost use Rattle.report_export.specs.Adding.{Grows};
ghost use Rattle.report_export.specs.Texts.{number_text, ended_text, others_text, counts_line, worst_line, bound_in, age_line, age_text};
ghost use Rattle.report_export.specs.Tallies.{count_at, tally_lines};

use crate::tally::Tally;
use item_model::validity;
use journal_text::{put, put_field, put_name, put_unsigned};
use rt_base::{ItemId, Names, OutOfMemory, Tick, TxId};
use set_admission::AdmittedSet;
use txn_set::CompiledSet;

/// What a summary is of: a set, its names, and, if it is admitted, its bounds.
#[derive(Clone, Copy)]
pub(crate) struct Summed<'a> {
    /// The names.
    pub names: &'a Names,
    /// The set.
    pub set: &'a CompiledSet,
    /// Its bounds, if it is admitted.
    pub bounds: Option<&'a AdmittedSet>,
}

// Adds a word and a number.
fn put_count(into: &mut Vec<u8>, word: &[u8], n: u64)
    requires { vec_len into.old + length word.now + 22 ≤ vec_capacity into.old }
    ensures items { into.new.items ≡ into.old.items ++ counted word.now n }
    ensures most { Grows into.old into.new (length word.now + 22) }
{
    put_field(into, word);
    put_unsigned(into, n);
}

// Adds a blank and a number, or `-`.
fn put_number(into: &mut Vec<u8>, n: Option<u64>)
    requires { vec_len into.old + 21 ≤ vec_capacity into.old }
    ensures items { into.new.items ≡ into.old.items ++ field (number_text n) }
    ensures most { Grows into.old into.new 21 }
{
    match n {
        Some(n) => put_unsigned(into, n),
        None => put(into, b" -"),
    }
}

// Adds how many jobs ended, and how many of them committed, or were stale or apart.
fn put_ended(into: &mut Vec<u8>, tally: &Tally)
    requires { vec_len into.old + 120 ≤ vec_capacity into.old }
    ensures items { into.new.items ≡ into.old.items ++ ended_text tally.now.ended (count_at tally.now) }
    ensures most { Grows into.old into.new 120 }
{
    put_count(into, b"jobs", tally.ended);
    put_count(into, b"committed", tally.ends[0]);
    put_count(into, b"stale", tally.ends[1]);
    put_count(into, b"apart", tally.ends[2]);
}

// Adds how many jobs ended otherwise, and how many are pending.
fn put_others(into: &mut Vec<u8>, tally: &Tally)
    requires { vec_len into.old + 120 ≤ vec_capacity into.old }
    ensures items { into.new.items ≡ into.old.items ++ others_text (count_at tally.now) tally.now.pending }
    ensures most { Grows into.old into.new 120 }
{
    put_count(into, b"overrun", tally.ends[3]);
    put_count(into, b"late", tally.ends[4]);
    put_count(into, b"quit", tally.ends[5]);
    put_count(into, b"pending", tally.pending);
}

fn add_counts(into: &mut Vec<u8>, names: &Names, tx: u32, tally: &Tally) -> Result<(), OutOfMemory>
    requires { tx < length names.now.txns }
    ensures { OnOk result (into.new.items ≡ into.old.items ++ counts_line names.now tx tally.now.ended (count_at tally.now) tally.now.pending) }
{
    into.reserve(512)?;
    put(into, b"txn");
    put_name(into, names.txns.as_slice(), tx);
    put_ended(into, tally);
    put_others(into, tally);
    put(into, b"\n");
    Ok(())
}

fn add_worst(
    into: &mut Vec<u8>,
    names: &Names,
    word: &[u8],
    tx: u32,
    found: Option<Tick>,
    bound: Option<Tick>,
) -> Result<(), OutOfMemory>
    requires tx { tx < length names.now.txns }
    requires word { length word.now ≤ 8 }
    ensures { OnOk result (into.new.items ≡ into.old.items ++ worst_line names.now word.now tx found bound) }
{
    into.reserve(256)?;
    put(into, word);
    put_name(into, names.txns.as_slice(), tx);
    put_number(into, found);
    put_number(into, bound);
    put(into, b"\n");
    Ok(())
}

// The response of a transaction of an admitted set.
#[tactic(auto, using(crate::proofs::SumTelling::response_told))]
fn response(set: &CompiledSet, bounds: Option<&AdmittedSet>, tx: TxId) -> Option<Tick>
    requires same { IfSome bounds (λ b. b.now ≡ set.now) }
    requires tx { tx.0 < length set.now.txns }
    ensures { result ≡ bound_in (is_some bounds.entry) (response_of set.now tx.0) }
{
    bounds.map(|admitted| admitted.response(tx))
}

// The blocking of a transaction of an admitted set.
#[tactic(auto, using(crate::proofs::SumTelling::blocking_told))]
fn blocking(set: &CompiledSet, bounds: Option<&AdmittedSet>, tx: TxId) -> Option<u64>
    requires same { IfSome bounds (λ b. b.now ≡ set.now) }
    requires tx { tx.0 < length set.now.txns }
    ensures { result ≡ bound_in (is_some bounds.entry) (blocking_of set.now (txn_of set.now tx.0).prio) }
{
    bounds.map(|admitted| admitted.blocking(tx))
}

/// Adds the lines of a transaction.
pub(crate) fn add_txn(
    into: &mut Vec<u8>,
    summed: Summed,
    tx: u32,
    tally: &Tally,
) -> Result<(), OutOfMemory>
    requires same { IfSome summed.bounds (λ b. b.now ≡ summed.set.now) }
    requires name { tx < length summed.names.now.txns }
    requires tx { tx < length summed.set.now.txns }
    ensures { OnOk result (into.new.items ≡ into.old.items ++ tally_lines summed.entry.names.now summed.entry.set.now (is_some summed.entry.bounds) tx tally.now) }
{
    let Summed { names, set, bounds } = summed;
    add_counts(into, names, tx, tally)?;
    let bound = response(set, bounds, TxId(tx));
    add_worst(into, names, b"response", tx, tally.response, bound)?;
    let bound = blocking(set, bounds, TxId(tx));
    add_worst(into, names, b"delay", tx, tally.delay, bound)
}

// The age bound of a sensor or derived item of an admitted set.
#[tactic(auto, using(crate::proofs::SumTelling::age_told))]
fn age_bound(set: &CompiledSet, bounds: Option<&AdmittedSet>, item: ItemId) -> Option<Tick>
    requires same { IfSome bounds (λ b. b.now ≡ set.now) }
    requires item { item.0 < length set.now.items }
    requires dated { IsTrue (is_dated set.now.items item.0) }
    ensures { result ≡ bound_in (is_some bounds.entry) (age_of set.now item.0) }
{
    bounds?.age(item)
}

fn add_age_line(
    into: &mut Vec<u8>,
    names: &Names,
    item: u32,
    found: Tick,
    bound: Option<Tick>,
    validity: Tick,
) -> Result<(), OutOfMemory>
    requires { item < length names.now.items }
    ensures { OnOk result (into.new.items ≡ into.old.items ++ age_line names.now item found bound validity) }
{
    into.reserve(256)?;
    put(into, b"age");
    put_name(into, names.items.as_slice(), item);
    put_unsigned(into, found);
    put_number(into, bound);
    put_unsigned(into, validity);
    put(into, b"\n");
    Ok(())
}

/// Adds the line of an item, if it has a validity and an age was found.
#[tactic(auto, using(crate::proofs::SumTelling::has_validity))]
pub(crate) fn add_age(
    into: &mut Vec<u8>,
    summed: Summed,
    item: u32,
    found: Option<Tick>,
) -> Result<(), OutOfMemory>
    requires same { IfSome summed.bounds (λ b. b.now ≡ summed.set.now) }
    requires name { item < length summed.names.now.items }
    requires item { item < length summed.set.now.items }
    ensures { OnOk result (into.new.items ≡ into.old.items ++ age_text summed.entry.names.now item found (bound_in (is_some summed.entry.bounds) (age_of summed.entry.set.now item)) (validity_of summed.entry.set.now.items item)) }
{
    let Some(found) = found else {
        return Ok(());
    };
    let Some(validity) = validity(summed.set.items(), ItemId(item)) else {
        return Ok(());
    };
    let bound = age_bound(summed.set, summed.bounds, ItemId(item));
    add_age_line(into, summed.names, item, found, bound, validity)
}
