//! The margin of a set, and what a plain try of every percentage finds.
ghost use Rattle.std.specs.Prelude.{◌≡◌};

use rt_base::{OutOfMemory, Steps};
use scale_margin::{Margin, accepts, margin};
use std::alloc::Global;
use std::marker::Brand;
use std::sync::ledger::{Blank, Ledger};
use txn_set::CompiledSet;

// The last percentage that is accepted, and what bars the first that is not, by a try of each.
fn tried_plainly<L: Ledger>(
    alloc: Global,
    set: &CompiledSet,
    steps: &mut Steps<L>,
) -> Result<Margin, OutOfMemory> {
    let mut accepted = 0;
    let mut first = None;
    for percent in 1..1001 {
        match accepts(alloc, set, percent, steps)? {
            None => accepted = percent,
            barrier => {
                if first.is_none() {
                    first = barrier;
                }
            }
        }
    }
    Ok(Margin {
        percent: accepted,
        barrier: first,
    })
}

// The margin, and what a plain try finds.
fn margins<L: Ledger>(
    alloc: Global,
    set: &CompiledSet,
    blank: Blank,
) -> Result<(Margin, Margin), OutOfMemory>
    requires name { blank.name ≡ L.name }
    requires parts { blank.parts ≡ L.parts }
    requires one_part { blank.parts ≡ 1 }
{
    let mut steps = Steps::<L>::start(blank);
    let found = margin(alloc, set, &mut steps)?;
    Ok((found, tried_plainly(alloc, set, &mut steps)?))
}

/// Writes the margin of a set, what bars the next percentage, and whether a plain try finds the same.
pub fn write_margin(alloc: Global, set: &CompiledSet, said: &mut String) -> Option<()> {
    let (found, tried) = margins::<Brand>(alloc, set, Blank::new(1)).ok()?;
    let same = found == tried;
    write!(said, "{found:?}, a plain try finds it {same}").ok()
}
