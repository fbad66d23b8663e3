//! The ceilings and the bounds of a set.
ghost use Rattle.std.specs.Prelude.{◌≡◌, ◌<◌, ◌++◌, length, OnOk, IfOk, Option};
ghost use Rattle.report_text.specs.Rows.{numbered};
ghost use Rattle.report_text.specs.Texts.{ceilings_of, NamesSet};
ghost use Rattle.run_report.specs.Bounds.{bounds_line, age_of_item, ages_line, limits_of, admitted_of};

use report_text::{add_age, add_bound, add_ceilings};
use rt_base::{ItemId, Names, OutOfMemory, TxId};
use set_admission::AdmittedSet;
use std::alloc::Global;
use txn_set::CompiledSet;

fn add_bounds(into: &mut Vec<u8>, names: &Names, set: &AdmittedSet) -> Result<(), OutOfMemory>
    requires { NamesSet names.now set.now }
    ensures { OnOk result (into.new.items ≡ into.old.items ++ numbered (bounds_line names.now set.now) 0 set.now.txns) }
{
    set.is_admitted();
    for i in 0..set.set().txns().len() {
        let tx = TxId(i as u32);
        add_bound(into, names, tx, set.blocking(tx), set.response(tx))?;
    }
    Ok(())
}

fn add_age_of(
    into: &mut Vec<u8>,
    names: &Names,
    set: &AdmittedSet,
    item: ItemId,
) -> Result<(), OutOfMemory>
    requires names { NamesSet names.now set.now }
    requires item { item.0 < length set.now.items }
    ensures { OnOk result (into.new.items ≡ into.old.items ++ age_of_item names.now set.now item.0) }
{
    match set.age(item) {
        Some(age) => add_age(into, names, item, age),
        None => Ok(()),
    }
}

fn add_ages(into: &mut Vec<u8>, names: &Names, set: &AdmittedSet) -> Result<(), OutOfMemory>
    requires { NamesSet names.now set.now }
    ensures { OnOk result (into.new.items ≡ into.old.items ++ numbered (ages_line names.now set.now) 0 set.now.items) }
{
    set.is_admitted();
    for i in 0..set.set().items().len() {
        add_age_of(into, names, set, ItemId(i as u32))?;
    }
    Ok(())
}

/// Adds the bounds and ages of an admitted set.
pub(crate) fn add_limits(
    into: &mut Vec<u8>,
    names: &Names,
    set: &AdmittedSet,
) -> Result<(), OutOfMemory>
    requires { NamesSet names.now set.now }
    ensures { OnOk result (into.new.items ≡ into.old.items ++ limits_of names.now set.now) }
{
    add_bounds(into, names, set)?;
    add_ages(into, names, set)
}

/// The write ceiling and the absolute ceiling of each item, a line each in item order.
pub fn ceilings_text(
    alloc: Global,
    names: &Names,
    set: &CompiledSet,
) -> Result<Vec<u8>, OutOfMemory>
    requires { NamesSet names.now set.now }
    ensures { IfOk result (λ text. text.items ≡ ceilings_of names.now set.now) }
{
    let mut text = Vec::new(alloc);
    add_ceilings(&mut text, names, set)?;
    Ok(text)
}

/// The blocking and the response of each transaction in list order, the age bound of each sensor or derived item in item
/// order, a line each, and a line that the set is admitted. Its time is that of the blockings: for each transaction a
/// look-up of each lower one's declared items.
pub fn admit_text(alloc: Global, names: &Names, set: &AdmittedSet) -> Result<Vec<u8>, OutOfMemory>
    requires { NamesSet names.now set.now }
    ensures { IfOk result (λ text. text.items ≡ admitted_of names.now set.now) }
{
    let mut text = Vec::new(alloc);
    add_limits(&mut text, names, set)?;
    text.extend_from_slice(b"admitted\n")?;
    Ok(text)
}
