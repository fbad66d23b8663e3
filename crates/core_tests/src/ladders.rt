//! Ages along ladders of derived rows.
ghost use Rattle.std.specs.Prelude.{◌≤◌, length, IfOk};
ghost use Rattle.age_bounds.specs.Rungs.{IsRung, AreRungs};

use crate::words::{numbers, tell};
use age_bounds::{AgeRow, ages};
use rt_base::{List, OutOfMemory, Tick};
use std::alloc::Global;

// A sensor's row, or a derived one that is twice derived from the row before it. The sensor's parents are not looked at. A
// base is 2^31 at most.
fn rung(alloc: Global, place: usize, base: Tick) -> Result<AgeRow, OutOfMemory>
    ensures { IfOk result (IsRung place) }
{
    let before = place.saturating_sub(1);
    let parents = vec![in alloc; before, before]?;
    Ok(AgeRow {
        derived: place > 0,
        base: base.min(1 << 31),
        parents: List::of(parents),
    })
}

fn ladder(alloc: Global, bases: &[Tick]) -> Result<Vec<AgeRow>, OutOfMemory>
    requires { length bases.now ≤ 256 }
    ensures { IfOk result (λ rows. AreRungs rows.items) }
{
    let mut rows = Vec::new(alloc);
    for (i, base) in bases.iter().enumerate() {
        rows.push(rung(alloc, i, *base)?)?;
    }
    Ok(rows)
}

fn ladder_ages(alloc: Global, bases: &[Tick]) -> Result<Vec<Tick>, OutOfMemory>
    requires { length bases.now ≤ 256 }
{
    let rows = ladder(alloc, bases)?;
    ages(alloc, &rows)
}

/// Writes the ages along a ladder with the bases that a text tells, 256 at most.
pub fn write_ages(alloc: Global, text: &str, said: &mut String) -> Option<()> {
    let bases = numbers(alloc, text)?;
    if bases.len() > 256 {
        return None;
    }
    let found = ladder_ages(alloc, &bases);
    drop(bases);
    tell(said, found.ok()?)
}
