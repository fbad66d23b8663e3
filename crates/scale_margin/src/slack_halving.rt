//! The greatest accepted count of a transaction's steps, found by halving.
ghost use Rattle.std.specs.Prelude.{◌≡◌, ◌+◌, ◌<◌, ◌≤◌, length, None, IfOk};
ghost use Rattle.txn_set.specs.Set.{IsCompiled};
ghost use Rattle.txn_compiler.specs.Refusal.{Refuses as RefusesSet};
ghost use Rattle.set_admission.specs.Admission.{refusal};
ghost use Rattle.scale_margin.specs.Steps.{IsCount, with_steps as with_steps_of, barrier_at};
ghost use Rattle.scale_margin.specs.Slacks.{IsSlack, IsBetween};

use crate::limits::Slack;
use crate::slack_declared::txns_with;
use rt_base::{OutOfMemory, Steps, TxId};
use set_admission::{AdmitError, AdmittedSet, admit};
use std::alloc::Global;
use std::sync::ledger::Ledger;
use txn_compiler::{CompileError, CompiledSet, compile};
use txn_set::copies_of_sets;

// The most steps of a transaction.
const MOST: u64 = 10_000;

// A count breaks no rule of compiling, so that only want of memory is in the way.
fn not_compiled(error: CompileError) -> OutOfMemory
    requires { RefusesSet None error }
{
    match error {
        CompileError::OutOfMemory => OutOfMemory,
        _ => unreachable!(),
    }
}

// The compiled set with so many steps of a transaction.
fn with_steps(
    alloc: Global,
    set: &CompiledSet,
    tx: TxId,
    count: u64,
) -> Result<CompiledSet, OutOfMemory>
    requires { IsCount set.now tx.0 count }
    ensures { IfOk result (λ s. s ≡ with_steps_of set.now tx.0 count) }
{
    set.is_compiled();
    let items = Vec::from_slice(alloc, set.items())?;
    let txns = txns_with(alloc, set.txns(), tx, count)?;
    let together = copies_of_sets(alloc, set.together())?;
    match compile(alloc, items, txns, together) {
        Ok(set) => Ok(set),
        Err(error) => Err(not_compiled(error)),
    }
}

// Why a set is not admitted.
fn why_refused(alloc: Global, set: CompiledSet) -> Result<Option<AdmitError>, OutOfMemory>
    ensures { IfOk result (λ why. why ≡ refusal set) }
{
    set.is_compiled();
    match admit(alloc, set) {
        Ok(_) => Ok(None),
        Err((_, AdmitError::OutOfMemory)) => Err(OutOfMemory),
        Err((_, error)) => Ok(Some(error)),
    }
}

// What bars so many steps of a transaction. One look.
#[tactic(auto, unfolding(crate::specs::Steps::barrier_at))]
fn barrier<L: Ledger>(
    alloc: Global,
    set: &CompiledSet,
    tx: TxId,
    count: u64,
    steps: &mut Steps<L>,
) -> Result<Option<AdmitError>, OutOfMemory>
    requires { IsCount set.now tx.0 count }
    ensures barrier { IfOk result (λ b. b ≡ barrier_at set.now tx.0 count) }
    ensures look { steps.new ≡ steps.old + 1 }
{
    steps.look();
    let tried = with_steps(alloc, set, tx, count)?;
    why_refused(alloc, tried)
}

// What was found among the counts, when so many more are not yet decided: the half of them is left. One look at the most.
fn narrowed<L: Ledger>(
    alloc: Global,
    set: &CompiledSet,
    tx: TxId,
    found: Slack,
    half: u64,
    steps: &mut Steps<L>,
) -> Result<Slack, OutOfMemory>
    requires tx { tx.0 < length set.now.txns }
    requires half { (1 ≤ half) × (half ≤ 8192) }
    requires found { IsBetween set.now tx.0 (half + half) found }
    ensures found { IfOk result (IsBetween set.now tx.0 half) }
    ensures looks { steps.new ≤ steps.old + 1 }
{
    set.is_compiled();
    let most = found.most + half;
    if most > MOST {
        return Ok(found);
    }
    match barrier(alloc, set, tx, most, steps)? {
        None => Ok(Slack { most, ..found }),
        barrier => Ok(Slack { barrier, ..found }),
    }
}

/// Up to how many steps, to 10,000, a transaction of an admitted set may grow if all else stays, its quiet steps too, and what
/// bars one more. At most 14 looks, each of the memory and the time of `compile` and `admit`.
pub fn slack<L: Ledger>(
    alloc: Global,
    set: &AdmittedSet,
    tx: TxId,
    steps: &mut Steps<L>,
) -> Result<Slack, OutOfMemory>
    requires { tx.0 < length set.now.txns }
    ensures slack { IfOk result (IsSlack set.now tx.0) }
    ensures looks { steps.new ≤ steps.old + 14 }
{
    set.is_admitted();
    let set = set.set();
    let own = set.txn(tx).steps;
    let mut found = Slack {
        steps: own,
        most: own,
        barrier: None,
    };
    for bit in (0..14u32).rev() {
        found = narrowed(alloc, set, tx, found, 1 << bit, steps)?;
    }
    Ok(found)
}
