//! The greatest accepted percentage, found by halving.
ghost use Rattle.std.specs.Prelude.{◌≡◌, ◌≢◌, ◌+◌, ◌≤◌, None, IfOk};
ghost use Rattle.txn_compiler.specs.declared.error.CompileError.TheVariants.{OutOfMemory as CompilerWant};
ghost use Rattle.set_admission.specs.declared.error.AdmitError.TheVariants.{OutOfMemory as AdmissionWant};
ghost use Rattle.scale_margin.specs.declared.barrier.Barrier.TheVariants.{Compile, Admit};
ghost use Rattle.scale_margin.specs.Barriers.{barrier_at, IsCause};
ghost use Rattle.scale_margin.specs.Margins.{IsMargin, IsBetween};

use crate::barrier::{Barrier, Margin};
use crate::scaling::scaled_txns;
use rt_base::{OutOfMemory, Steps};
use set_admission::{AdmitError, admit};
use std::alloc::Global;
use std::sync::ledger::Ledger;
use txn_compiler::{CompileError, CompiledSet, compile};
use txn_set::copies_of_sets;

// The greatest percentage that is tried.
const GREATEST: u32 = 1000;

fn not_compiled(error: CompileError) -> Result<Barrier, OutOfMemory>
    ensures cause { IfOk result (λ b. b ≡ Compile error) }
    ensures known { IfOk result (λ b. error ≢ CompilerWant) }
{
    match error {
        CompileError::OutOfMemory => Err(OutOfMemory),
        cause => Ok(Barrier::Compile(cause)),
    }
}

fn not_admitted(error: AdmitError) -> Result<Barrier, OutOfMemory>
    ensures cause { IfOk result (λ b. b ≡ Admit error) }
    ensures known { IfOk result (λ b. error ≢ AdmissionWant) }
{
    match error {
        AdmitError::OutOfMemory => Err(OutOfMemory),
        cause => Ok(Barrier::Admit(cause)),
    }
}

/// What bars a compiled set at a percentage of its steps, from 1 to 1000: the first rule of compiling that it breaks
/// there, or else the first cause for which it is not admitted. None exactly where it is compiled and admitted. One look.
///
/// It takes memory for the scaled set, and to compile and to admit it. Its time is that of `compile` and of `admit`.
pub fn accepts<L: Ledger>(
    alloc: Global,
    set: &CompiledSet,
    percent: u32,
    steps: &mut Steps<L>,
) -> Result<Option<Barrier>, OutOfMemory>
    requires { (1 ≤ percent) × (percent ≤ 1000) }
    ensures barrier { IfOk result (λ b. b ≡ barrier_at set.now percent) }
    ensures cause { IfOk result IsCause }
    ensures look { steps.new ≡ steps.old + 1 }
{
    steps.look();
    set.is_compiled();
    let items = Vec::from_slice(alloc, set.items())?;
    let txns = scaled_txns(alloc, set.txns(), percent)?;
    let together = copies_of_sets(alloc, set.together())?;
    let scaled = match compile(alloc, items, txns, together) {
        Ok(scaled) => scaled,
        Err(error) => return Ok(Some(not_compiled(error)?)),
    };
    match admit(alloc, scaled) {
        Ok(admitted) => {
            drop(admitted);
            Ok(None)
        }
        Err((scaled, error)) => {
            drop(scaled);
            Ok(Some(not_admitted(error)?))
        }
    }
}

// What was found among the percentages, when so many more are not yet decided: the half of them is left. One look at the
// most.
fn narrowed<L: Ledger>(
    alloc: Global,
    set: &CompiledSet,
    found: Margin,
    half: u32,
    steps: &mut Steps<L>,
) -> Result<Margin, OutOfMemory>
    requires half { (1 ≤ half) × (half ≤ 512) }
    requires found { IsBetween set.now (half + half) found }
    ensures found { IfOk result (IsBetween set.now half) }
    ensures looks { steps.new ≤ steps.old + 1 }
{
    let percent = found.percent + half;
    if percent > GREATEST {
        return Ok(found);
    }
    match accepts(alloc, set, percent, steps)? {
        None => Ok(Margin {
            percent,
            barrier: found.barrier,
        }),
        barrier => Ok(Margin {
            percent: found.percent,
            barrier,
        }),
    }
}

/// The greatest percentage of its steps, up to 1000, at which a compiled set is compiled and admitted, 0 where there is
/// none, and what bars the next. At most ten looks, each of the memory and the time of `accepts`.
pub fn margin<L: Ledger>(
    alloc: Global,
    set: &CompiledSet,
    steps: &mut Steps<L>,
) -> Result<Margin, OutOfMemory>
    ensures margin { IfOk result (IsMargin set.now) }
    ensures looks { steps.new ≤ steps.old + 10 }
{
    set.is_compiled();
    let mut found = Margin {
        percent: 0,
        barrier: None,
    };
    for bit in (0..10u32).rev() {
        found = narrowed(alloc, set, found, 1 << bit, steps)?;
    }
    Ok(found)
}
