//! The priorities that a set is assigned, or the level that nobody can have.
ghost use Rattle.std.specs.Prelude.{◌≡◌};

use crate::words::tell;
use rt_base::{OutOfMemory, Prio, Steps};
use std::alloc::Global;
use std::marker::Brand;
use std::sync::ledger::{Blank, Ledger};
use txn_priorities::{NoAssignment, assign};
use txn_set::CompiledSet;

fn assigned<L: Ledger>(
    alloc: Global,
    set: &CompiledSet,
    blank: Blank,
) -> Result<Result<Vec<Prio>, NoAssignment>, OutOfMemory>
    requires name { blank.name ≡ L.name }
    requires parts { blank.parts ≡ L.parts }
    requires one_part { blank.parts ≡ 1 }
{
    let mut steps = Steps::<L>::start(blank);
    assign(alloc, set, &mut steps)
}

// Writes what each of those that are left asks within its limit.
fn write_refusal(refusal: &NoAssignment, said: &mut String) -> Option<()> {
    let level = refusal.level;
    write!(said, "level {level}").ok()?;
    for row in &refusal.unplaced {
        write!(said, ", {} asks {} of {}", row.tx.0, row.demand, row.limit).ok()?;
    }
    Some(())
}

/// Writes the priorities in list order, or the level and what each transaction that is left asks there.
pub fn write_priorities(alloc: Global, set: &CompiledSet, said: &mut String) -> Option<()> {
    match assigned::<Brand>(alloc, set, Blank::new(1)).ok()? {
        Ok(prios) => tell(said, prios),
        Err(refusal) => {
            let written = write_refusal(&refusal, said);
            drop(refusal);
            written
        }
    }
}
