//! The refusals for reads that may be too old or too far apart.

ghost use Rattle.std.specs.Prelude.{◌≡◌, ◌<◌, length};
ghost use Rattle.std.specs.List.{All, filter};
ghost use Rattle.txn_set.specs.Set.{IsCompiled, txn_of, may_read};
ghost use Rattle.set_admission.specs.Bounds.{age_of, AreAgesOf};
ghost use Rattle.set_admission.specs.Admission.{first_refusal, too_old, too_apart, greatest_age, apart_age};
ghost use Rattle.set_admission.specs.Admission.{is_apart as apart};

use crate::error::AdmitError;
use item_model::{is_above, validity};
use rt_base::{ItemId, Tick, TogetherDecl, TxId};
use txn_set::{CompiledSet, names_item};

fn age_at(set: &CompiledSet, ages: &[Tick], item: ItemId) -> Tick
    requires ages { AreAgesOf set.now ages.now }
    requires item { item.0 < length set.now.items }
    ensures { result ≡ age_of set.now item.0 }
{
    ages[item.0 as usize]
}

// The declared reads of a transaction.
fn reads_of(set: &CompiledSet, tx: TxId) -> &[ItemId]
    requires { tx.0 < length set.now.txns }
    ensures reads { result.now ≡ (txn_of set.now tx.0).reads }
    ensures in_range { All (λ i. i.0 < length set.now.items) result.now }
{
    set.is_compiled();
    set.txn(tx).reads.as_slice()
}

fn too_old_of(set: &CompiledSet, ages: &[Tick], tx: TxId) -> Option<AdmitError>
    requires ages { AreAgesOf set.now ages.now }
    requires tx { tx.0 < length set.now.txns }
    ensures { result ≡ too_old set.now tx }
{
    for item in reads_of(set, tx) {
        let age = age_at(set, ages, *item);
        if is_above(age, validity(set.items(), *item)) {
            return Some(AdmitError::TooOld {
                tx,
                item: *item,
                age,
            });
        }
    }
    None
}

/// The first transaction in this order with a declared read of an item whose age bound exceeds its validity.
pub fn first_too_old(set: &CompiledSet, ages: &[Tick], order: &[TxId]) -> Option<AdmitError>
    requires ages { AreAgesOf set.now ages.now }
    requires order { All (λ t. t.0 < length set.now.txns) order.now }
    ensures { result ≡ first_refusal (too_old set.now) order.now }
{
    for tx in order {
        if let Some(error) = too_old_of(set, ages, *tx) {
            return Some(error);
        }
    }
    None
}

// How many of these items a transaction reads, and their greatest age bound.
fn read_among(set: &CompiledSet, ages: &[Tick], tx: TxId, items: &[ItemId]) -> (usize, Tick)
    requires ages { AreAgesOf set.now ages.now }
    requires tx { tx.0 < length set.now.txns }
    requires items { All (λ i. i.0 < length set.now.items) items.now }
    ensures count { result.0 ≡ length (filter (λ i. may_read (txn_of set.now tx.0) i.0) items.now) }
    ensures greatest { result.1 ≡ greatest_age set.now (filter (λ i. may_read (txn_of set.now tx.0) i.0) items.now) }
{
    let reads = reads_of(set, tx);
    let mut count = 0;
    let mut greatest = 0;
    for item in items {
        if names_item(reads, *item) {
            count += 1;
            let age = age_at(set, ages, *item);
            if greatest < age {
                greatest = age;
            }
        }
    }
    (count, greatest)
}

fn is_apart(count: usize, age: Tick, within: Tick) -> bool
    ensures { result ≡ apart count age within }
{
    count >= 2 && within < age
}

// The greatest age bound of a relative set's items that a transaction reads, where it exceeds the interval.
fn apart_age_of(set: &CompiledSet, ages: &[Tick], tx: TxId, group: &TogetherDecl) -> Option<Tick>
    requires ages { AreAgesOf set.now ages.now }
    requires tx { tx.0 < length set.now.txns }
    requires group { All (λ i. i.0 < length set.now.items) group.now.items }
    ensures { result ≡ apart_age set.now tx group.now }
{
    let (count, age) = read_among(set, ages, tx, group.items.as_slice());
    if is_apart(count, age, group.within) {
        Some(age)
    } else {
        None
    }
}

fn too_apart_of(set: &CompiledSet, ages: &[Tick], tx: TxId) -> Option<AdmitError>
    requires ages { AreAgesOf set.now ages.now }
    requires tx { tx.0 < length set.now.txns }
    ensures { result ≡ too_apart set.now tx }
{
    set.is_compiled();
    for (place, group) in set.together().iter().enumerate() {
        if let Some(age) = apart_age_of(set, ages, tx, group) {
            return Some(AdmitError::TooApart {
                tx,
                set: place,
                age,
            });
        }
    }
    None
}

/// The first transaction in this order that may read items of a relative set too far apart.
pub fn first_too_apart(set: &CompiledSet, ages: &[Tick], order: &[TxId]) -> Option<AdmitError>
    requires ages { AreAgesOf set.now ages.now }
    requires order { All (λ t. t.0 < length set.now.txns) order.now }
    ensures { result ≡ first_refusal (too_apart set.now) order.now }
{
    for tx in order {
        if let Some(error) = too_apart_of(set, ages, *tx) {
            return Some(error);
        }
    }
    None
}
