//! What admission found of a set.
ghost use Rattle.std.specs.Prelude.{◌≡◌, ◌<◌, [], length, None, true, IfOk};
ghost use Rattle.set_admission.specs.declared.error.AdmitError.TheVariants.{OutOfMemory as WantOfMemory};
ghost use Rattle.run_report.specs.Verdict.{refusal_in};
ghost use Rattle.picture_command.specs.Limits.{age_or_none, responses_in, ages_in, limits_of};

use rt_base::{ItemId, List, OutOfMemory, Tick, TxId};
use schedule_marks::Limits;
use set_admission::{AdmitError, AdmittedSet, admit};
use std::alloc::Global;
use txn_set::CompiledSet;

fn responses(alloc: Global, set: &AdmittedSet) -> Result<Vec<Tick>, OutOfMemory>
    ensures { IfOk result (λ v. v.items ≡ responses_in set.now) }
{
    set.is_admitted();
    let mut responses = Vec::new(alloc);
    for i in 0..set.set().txns().len() {
        responses.push(set.response(TxId(i as u32)))?;
    }
    Ok(responses)
}

// The age bound of an item, and 0 of a state item.
fn age(set: &AdmittedSet, item: ItemId) -> Tick
    requires { item.0 < length set.now.items }
    ensures { result ≡ age_or_none set.now item.0 }
{
    match set.age(item) {
        Some(age) => age,
        None => 0,
    }
}

fn ages(alloc: Global, set: &AdmittedSet) -> Result<Vec<Tick>, OutOfMemory>
    ensures { IfOk result (λ v. v.items ≡ ages_in set.now) }
{
    set.is_admitted();
    let mut ages = Vec::new(alloc);
    for i in 0..set.set().items().len() {
        ages.push(age(set, ItemId(i as u32)))?;
    }
    Ok(ages)
}

fn limits_of_admitted(alloc: Global, set: &AdmittedSet) -> Result<Limits, OutOfMemory>
    ensures { IfOk result (λ l. l ≡ limits_of set.now true) }
{
    let responses = responses(alloc, set)?;
    let ages = ages(alloc, set)?;
    Ok(Limits {
        responses: List::of(responses),
        ages: List::of(ages),
    })
}

fn no_limits(alloc: Global) -> Limits
    ensures { result ≡ record { responses = []; ages = [] } }
{
    Limits {
        responses: List::of(Vec::new(alloc)),
        ages: List::of(Vec::new(alloc)),
    }
}

// Why a set that is not refused is not admitted.
fn not_admitted(error: AdmitError) -> OutOfMemory
    requires { error ≡ WantOfMemory }
{
    match error {
        AdmitError::OutOfMemory => OutOfMemory,
        _ => unreachable!(),
    }
}

/// The limits of a set that is not refused, and the set, handed back. They are found again, so it costs what admission does.
#[tactic(auto, using(crate::proofs::Admitting::admitting_wants))]
pub(crate) fn with_limits(
    alloc: Global,
    set: CompiledSet,
    admitted: bool,
) -> Result<(CompiledSet, Limits), OutOfMemory>
    requires { refusal_in admitted set ≡ None }
    ensures same { IfOk result (λ r. r.0 ≡ set) }
    ensures limits { IfOk result (λ r. r.1 ≡ limits_of set admitted) }
{
    if !admitted {
        let limits = no_limits(alloc);
        return Ok((set, limits));
    }
    match admit(alloc, set) {
        Ok(set) => {
            let limits = limits_of_admitted(alloc, &set)?;
            Ok((set.into_set(), limits))
        }
        Err((_, error)) => Err(not_admitted(error)),
    }
}
