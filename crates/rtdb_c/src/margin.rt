//! How far the steps of an open database's set may grow.
ghost use Rattle.std.specs.Prelude.{◌≡◌};
ghost use Rattle.rtdb_c.specs.Called.{Called};
ghost use Rattle.rtdb_c.specs.Margin.{IsMarginOf};

use c_core::{CLOSED, Handle, told_margin};
use c_forms::MarginForm;
use std::alloc::Global;

/// The greatest percentage of its steps at which the set is admitted, and what bars the next one; of a set that was not
/// admitted too. It takes memory and gives it back; NO_MEMORY leaves the record as it was.
#[unsafe(no_mangle)]
pub extern "C" fn rtdb_margin(alloc: Global, db: &mut Handle, answer: &mut MarginForm) -> u32
    ensures { Called db.old.core db.new.core ((result ≡ 1) × (answer.new ≡ answer.old)) (IsMarginOf result answer.old answer.new) }
{
    match db.take(alloc) {
        Some(core) => {
            let status = told_margin(alloc, &core, answer);
            db.put(core);
            status
        }
        None => CLOSED,
    }
}
