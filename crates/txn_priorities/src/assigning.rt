//! The pass from the lowest level up, and a set with its priorities.
ghost use Rattle.std.specs.Prelude.{◌≡◌, ◌+◌, ◌*◌, ◌≤◌, length, None, IfOk, IfErr};
ghost use Rattle.law_times.specs.Assigned.{IsAssignment, with_prios};
ghost use Rattle.law_times.specs.Pass.{pass, prio_at};
ghost use Rattle.law_times.specs.Laws.{IsSolved, NoneKeeps};
ghost use Rattle.txn_compiler.specs.Refusal.{Refuses};
ghost use Rattle.txn_priorities.specs.Limits.{limit};
ghost use Rattle.txn_priorities.specs.Answers.{IsRefusal};
ghost use Rattle.txn_priorities.specs.Laws.{AreInRange};

use crate::declared::txns_with;
use crate::limits::limits_of;
use crate::refusal::NoAssignment;
use crate::testing::{first_passing, unplaced_of};
use rt_base::{OutOfMemory, Prio, Steps};
use std::alloc::Global;
use std::sync::ledger::Ledger;
use txn_compiler::{CompileError, compile};
use txn_set::{CompiledSet, copies_of_sets};

/// Priorities from 1 to the number of the transactions, in list order, by which each has a response within its limit: its
/// deadline D, and `V - T` for each sensor item of validity V that it writes and that some transaction reads. If no assignment of
/// priorities at all does so, the first level at which none passes. The declared priorities do not matter.
///
/// From the lowest level up each is given to the first transaction in list order that passes the response test there
/// (Joseph and Pandya 1986) with all others that are left above it (Audsley 2001). A look for each test, at most
/// `n (n + 1) / 2`. It takes memory for the answer, for the limits, and for the loads of each test.
pub fn assign<L: Ledger>(
    alloc: Global,
    set: &CompiledSet,
    steps: &mut Steps<L>,
) -> Result<Result<Vec<Prio>, NoAssignment>, OutOfMemory>
    ensures pass { IfOk result (λ answer. IfOk answer (λ prios. prios.items ≡ pass set.now (limit set.now))) }
    ensures solved { IfOk result (λ answer. IfOk answer (λ prios. IsSolved set.now (limit set.now) prios.items)) }
    ensures refusal { IfOk result (λ answer. IfErr answer (IsRefusal set.now)) }
    ensures none { IfOk result (λ answer. IfErr answer (λ _. NoneKeeps set.now (limit set.now))) }
    ensures looks { 2 * steps.new ≤ 2 * steps.old + length set.now.txns * (length set.now.txns + 1) }
{
    set.is_compiled();
    let count = set.txns().len();
    let limits = limits_of(alloc, set)?;
    let mut prios = vec![in alloc; 0; count]?;
    let mut window = 0;
    for below in 0..count {
        let found = first_passing(alloc, set, &limits, &prios, &mut window, steps)?;
        let Some(tx) = found else {
            return Ok(Err(NoAssignment {
                level: below as u32 + 1,
                unplaced: unplaced_of(alloc, set, &limits, &prios)?,
            }));
        };
        prios[tx] = below as u32 + 1;
    }
    Ok(Ok(prios))
}

// Distinct priorities from 1 to 1000 break no rule of compiling, so that only want of memory is in the way.
fn not_compiled(error: CompileError) -> OutOfMemory
    requires { Refuses None error }
{
    match error {
        CompileError::OutOfMemory => OutOfMemory,
        _ => unreachable!(),
    }
}

/// The set with these priorities in list order, all else as it is. It takes the memory and the time of `compile`.
pub fn with_priorities(
    alloc: Global,
    set: &CompiledSet,
    prios: &[Prio],
) -> Result<CompiledSet, OutOfMemory>
    requires one_each { length prios.now ≡ length set.now.txns }
    requires distinct { IsAssignment set.now (prio_at prios.now) }
    requires range { AreInRange set.now (prio_at prios.now) }
    ensures { IfOk result (λ s. s ≡ with_prios (prio_at prios.now) set.now) }
{
    set.is_compiled();
    let items = Vec::from_slice(alloc, set.items())?;
    let txns = txns_with(alloc, set.txns(), prios)?;
    let together = copies_of_sets(alloc, set.together())?;
    match compile(alloc, items, txns, together) {
        Ok(set) => Ok(set),
        Err(error) => Err(not_compiled(error)),
    }
}
