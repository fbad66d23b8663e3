//! The margin of a core's set.
ghost use Rattle.std.specs.Prelude.{◌≡◌, ◌≢◌, ◌⊎◌, IfOk};
ghost use Rattle.scale_margin.specs.Margins.{IsMargin};
ghost use Rattle.c_forms.specs.Margins.{ToldMargin};

use crate::checked::CheckedCore;
use c_forms::{MarginForm, NO_MEMORY, OK, margin_form};
use rt_base::{OutOfMemory, Steps};
use scale_margin::{Margin, margin};
use std::alloc::Global;
use std::marker::Brand;
use std::sync::ledger::{Blank, Ledger};
use txn_set::CompiledSet;

// The margin of a set. The looks of the search are counted by a counter of its own.
fn margin_of<L: Ledger>(
    alloc: Global,
    set: &CompiledSet,
    blank: Blank,
) -> Result<Margin, OutOfMemory>
    requires name { blank.name ≡ L.name }
    requires parts { blank.parts ≡ L.parts }
    requires one_part { blank.parts ≡ 1 }
    ensures { IfOk result (IsMargin set.now) }
{
    let mut steps = Steps::<L>::start(blank);
    margin(alloc, set, &mut steps)
}

/// The margin of the core's set, admitted or not: the greatest percentage of its steps, up to 1000, at which it is compiled
/// and admitted, 0 if there is none, and what bars the next one. The core stays as it is. It takes memory for a scaled set
/// and its analysis, at most ten times one after the other, and gives it back; NO_MEMORY leaves the record as it was.
pub fn told_margin(alloc: Global, core: &CheckedCore, answer: &mut MarginForm) -> u32
    ensures status { (result ≡ 0) ⊎ (result ≡ 11) }
    ensures margin { result ≡ 0 → ToldMargin core.now.board.set answer.new }
    ensures refused { result ≢ 0 → answer.new ≡ answer.old }
{
    match margin_of::<Brand>(alloc, core.set(), Blank::new(1)) {
        Ok(margin) => {
            *answer = margin_form(margin);
            OK
        }
        Err(OutOfMemory) => NO_MEMORY,
    }
}
