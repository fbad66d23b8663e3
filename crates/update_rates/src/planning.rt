//! Declarations with their rates, as an admitted set.
ghost use Rattle.std.specs.Prelude.{◌≡◌, ◌≤◌, length, None, IfOk, IfErr, option_map};
ghost use Rattle.item_model.specs.Work.{first_of_both};
ghost use Rattle.txn_set.specs.Set.{IsCompiled};
ghost use Rattle.txn_compiler.specs.Kept.{IsInRange, set_of, kept};
ghost use Rattle.txn_compiler.specs.Refusal.{compile_refusal, Refuses as RefusesSet};
ghost use Rattle.txn_compiler.specs.Refusal.{too_many_items as too_many_items_of, too_many_txns as too_many_txns_of};
ghost use Rattle.set_admission.specs.Admission.{Refuses as RefusesAdmission};
ghost use Rattle.update_rates.specs.Updaters.{updaters as updaters_in};
ghost use Rattle.update_rates.specs.RatedSet.{with_rate, txns_with, list_rate, plain_set, rated_set};
ghost use Rattle.update_rates.specs.Refusal.{not_an_updater, too_tight, rate_refusal, Refuses};
ghost use Rattle.update_rates.specs.Laws.{HasBestRates, TellsTight};
ghost use Rattle.update_rates.specs.Ranking.{AreRates};
ghost use Rattle.update_rates.specs.declared.error.RateError.TheVariants.{Compile as DoesNotCompile};

use crate::deadline::LONGEST;
use crate::error::RateError;
use crate::rates::{Rate, rates_of};
use crate::updaters::updaters_of;
use item_model::ItemDecl;
use rt_base::{OutOfMemory, TogetherDecl};
use set_admission::{AdmitError, AdmittedSet, admit};
use std::alloc::Global;
use txn_compiler::{CompileError, compile};
use txn_set::{CompiledSet, TxnDecl, copies_of_sets};

// The numbers of items and of transactions are judged before the transactions get priorities.
fn too_many(items: &[ItemDecl], txns: &[TxnDecl]) -> Option<CompileError>
    ensures { result ≡ first_of_both (too_many_items_of items.now) (too_many_txns_of txns.now) }
{
    if items.len() > 256 {
        return Some(CompileError::TooManyItems { count: items.len() });
    }
    if txns.len() > 64 {
        return Some(CompileError::TooManyTxns { count: txns.len() });
    }
    None
}

fn give(txn: &mut TxnDecl, rate: Rate)
    ensures { txn.new ≡ with_rate rate txn.old }
{
    txn.prio = rate.prio;
    txn.period = rate.period;
    txn.deadline = rate.deadline;
    txn.offset = 0;
}

// The transactions with priorities that fall in list order, and the longest times.
fn with_list_rates(mut txns: Vec<TxnDecl>) -> Vec<TxnDecl>
    requires { length txns.items ≤ 64 }
    ensures { result.items ≡ txns_with (list_rate (length txns.items)) txns.items }
{
    let count = txns.len();
    for tx in 0..count {
        let rate = Rate {
            prio: (count - tx) as u32,
            period: LONGEST,
            deadline: LONGEST,
        };
        give(&mut txns[tx], rate);
    }
    txns
}

// The compiled set of the declarations as they are before their rates are known.
fn plain(
    alloc: Global,
    items: Vec<ItemDecl>,
    txns: Vec<TxnDecl>,
    together: Vec<TogetherDecl>,
) -> Result<CompiledSet, RateError>
    requires { IsInRange (set_of items.items txns.items together.items) }
    ensures set { let declared = kept (set_of items.items txns.items together.items) in
        IfOk result (λ s. s ≡ plain_set declared) }
    ensures passed { IfOk result (λ s. compile_refusal s ≡ None) }
    ensures refused { let declared = kept (set_of items.items txns.items together.items) in
        IfErr result (Refuses (option_map DoesNotCompile (compile_refusal (plain_set declared)))) }
{
    if let Some(error) = too_many(&items, &txns) {
        return Err(RateError::Compile(error));
    }
    let txns = with_list_rates(txns);
    Ok(compile(alloc, items, txns, together)?)
}

fn rated_txn(alloc: Global, txn: &TxnDecl, rate: Rate) -> Result<TxnDecl, OutOfMemory>
    ensures { IfOk result (λ t. t ≡ with_rate rate txn.now) }
{
    let mut rated = txn.copy(alloc)?;
    give(&mut rated, rate);
    Ok(rated)
}

// The transactions of a set with these rates.
fn rated_txns(alloc: Global, set: &CompiledSet, rates: &[Rate]) -> Result<Vec<TxnDecl>, OutOfMemory>
    requires { AreRates (updaters_in set.now) rates.now }
    ensures { IfOk result (λ txns. txns.items ≡ (rated_set set.now).txns) }
{
    let mut txns = Vec::with_capacity(alloc, rates.len())?;
    for (tx, txn) in set.txns().iter().enumerate() {
        txns.push(rated_txn(alloc, txn, rates[tx])?)?;
    }
    Ok(txns)
}

// Where no rule refuses a set, a compilation fails for want of memory alone.
fn compile_memory(error: CompileError) -> OutOfMemory
    requires { RefusesSet None error }
{
    match error {
        CompileError::OutOfMemory => OutOfMemory,
        _ => unreachable!(),
    }
}

// Where no rule refuses a set, an admission fails for want of memory alone.
fn admit_memory(error: AdmitError) -> OutOfMemory
    requires { RefusesAdmission None error }
{
    match error {
        AdmitError::OutOfMemory => OutOfMemory,
        _ => unreachable!(),
    }
}

// The set with these rates, compiled.
fn compiled(alloc: Global, set: &CompiledSet, rates: &[Rate]) -> Result<CompiledSet, OutOfMemory>
    requires updaters { not_an_updater set.now ≡ None }
    requires rates { AreRates (updaters_in set.now) rates.now }
    ensures { IfOk result (λ s. s ≡ rated_set set.now) }
{
    set.is_compiled();
    let items = Vec::from_slice(alloc, set.items())?;
    let txns = rated_txns(alloc, set, rates)?;
    let together = copies_of_sets(alloc, set.together())?;
    match compile(alloc, items, txns, together) {
        Ok(rated) => Ok(rated),
        Err(error) => Err(compile_memory(error)),
    }
}

// The set with these rates, admitted: each deadline is the response, and nothing is read.
fn admitted(alloc: Global, set: &CompiledSet, rates: &[Rate]) -> Result<AdmittedSet, OutOfMemory>
    requires updaters { not_an_updater set.now ≡ None }
    requires rates { AreRates (updaters_in set.now) rates.now }
    ensures { IfOk result (λ a. a ≡ rated_set set.now) }
{
    set.is_compiled();
    let rated = compiled(alloc, set, rates)?;
    match admit(alloc, rated) {
        Ok(admitted) => Ok(admitted),
        Err((_, error)) => Err(admit_memory(error)),
    }
}

/// The admitted set of updaters whose priorities, deadlines and periods are chosen from the validities of the sensor
/// items that they write alone, all in ticks (the More-Less approach of Xiong and Ramamritham). All else stays as it is
/// declared, with each list of items in rising order without repeats. The declared priorities and times play no part.
///
/// Updaters are ordered by rising validity, then by list order, and the first has the highest priority. A deadline is
/// the least window that holds the updater's steps and those of the earlier updaters, a period what the deadline leaves
/// of the validity. So a value is read within its validity, and no other periods that keep the validities are longer.
/// The declarations are refused by the first cause that they have, in the order of RateError.
///
/// It compiles the declarations twice and takes memory for both sets and their tables. Its time is that, the admission,
/// and for each window that is tried a division for each earlier updater; few windows are tried where the earlier updaters
/// take nearly all of the processor, and one where they take all.
pub fn plan_rates(
    alloc: Global,
    items: Vec<ItemDecl>,
    txns: Vec<TxnDecl>,
    together: Vec<TogetherDecl>,
) -> Result<AdmittedSet, RateError>
    requires { IsInRange (set_of items.items txns.items together.items) }
    ensures set { let declared = kept (set_of items.items txns.items together.items) in
        IfOk result (λ a. a ≡ rated_set declared) }
    ensures passed { let declared = kept (set_of items.items txns.items together.items) in
        IfOk result (λ a. rate_refusal declared ≡ None) }
    ensures best { let declared = kept (set_of items.items txns.items together.items) in
        IfOk result (HasBestRates declared) }
    ensures refused { let declared = kept (set_of items.items txns.items together.items) in
        IfErr result (Refuses (rate_refusal declared)) }
    ensures tight { let declared = kept (set_of items.items txns.items together.items) in
        IfErr result (TellsTight declared) }
{
    let set = plain(alloc, items, txns, together)?;
    set.is_compiled();
    let updaters = updaters_of(alloc, &set)?;
    let rates = rates_of(alloc, &updaters)?;
    Ok(admitted(alloc, &set, &rates)?)
}
