//! Ceilings and bounds as JSON.
ghost use Rattle.std.specs.Prelude.{◌≡◌, ◌+◌, ◌<◌, ◌≤◌, ◌++◌, true, length, is_some, IfSome, OnOk};
ghost use Rattle.report_text.specs.Rows.{numbered};
ghost use Rattle.report_text.specs.Texts.{NamesSet};
ghost use Rattle.report_export.specs.Json.{ceiling_json, bound_json, age_json};
ghost use Rattle.report_export.specs.Whole.{ceilings_json, bounds_json, age_of_item, ages_json, limits_json};

use crate::parts::{put_counted, put_named};
use journal_text::put;
use rt_base::{ItemId, Names, OutOfMemory, Prio, Tick, TxId};
use set_admission::AdmittedSet;
use txn_set::CompiledSet;

fn add_ceiling(
    into: &mut Vec<u8>,
    names: &Names,
    item: ItemId,
    write: Prio,
    absolute: Prio,
) -> Result<(), OutOfMemory>
    requires { item.0 < length names.now.items }
    ensures { OnOk result (into.new.items ≡ into.old.items ++ ceiling_json names.now item.0 write absolute) }
{
    into.reserve(256)?;
    put_named(into, b"{\"ceiling\":{\"item\":\"", &names.items, item.0);
    put_counted(into, b"\",\"write\":", write as u64);
    put_counted(into, b",\"absolute\":", absolute as u64);
    put(into, b"}}\n");
    Ok(())
}

/// Adds the lines of the ceilings of each item, in item order.
pub(crate) fn add_ceilings(
    into: &mut Vec<u8>,
    names: &Names,
    set: &CompiledSet,
) -> Result<(), OutOfMemory>
    requires { NamesSet names.now set.now }
    ensures { OnOk result (into.new.items ≡ into.old.items ++ numbered (ceilings_json names.now set.now) 0 set.now.items) }
{
    set.is_compiled();
    for i in 0..set.items().len() {
        let item = ItemId(i as u32);
        add_ceiling(
            into,
            names,
            item,
            set.write_ceiling(item),
            set.absolute_ceiling(item),
        )?;
    }
    Ok(())
}

fn add_bound(
    into: &mut Vec<u8>,
    names: &Names,
    tx: TxId,
    blocking: u64,
    response: Tick,
) -> Result<(), OutOfMemory>
    requires { tx.0 < length names.now.txns }
    ensures { OnOk result (into.new.items ≡ into.old.items ++ bound_json names.now tx.0 blocking response) }
{
    into.reserve(256)?;
    put_named(into, b"{\"bound\":{\"txn\":\"", &names.txns, tx.0);
    put_counted(into, b"\",\"blocking\":", blocking);
    put_counted(into, b",\"response\":", response);
    put(into, b"}}\n");
    Ok(())
}

fn add_bounds(into: &mut Vec<u8>, names: &Names, set: &AdmittedSet) -> Result<(), OutOfMemory>
    requires { NamesSet names.now set.now }
    ensures { OnOk result (into.new.items ≡ into.old.items ++ numbered (bounds_json names.now set.now) 0 set.now.txns) }
{
    set.is_admitted();
    for (i, _) in set.set().txns().iter().enumerate() {
        let tx = TxId(i as u32);
        add_bound(into, names, tx, set.blocking(tx), set.response(tx))?;
    }
    Ok(())
}

fn add_age(into: &mut Vec<u8>, names: &Names, item: ItemId, age: Tick) -> Result<(), OutOfMemory>
    requires { item.0 < length names.now.items }
    ensures { OnOk result (into.new.items ≡ into.old.items ++ age_json names.now item.0 age) }
{
    into.reserve(256)?;
    put_named(into, b"{\"age\":{\"item\":\"", &names.items, item.0);
    put_counted(into, b"\",\"bound\":", age);
    put(into, b"}}\n");
    Ok(())
}

fn add_age_of(
    into: &mut Vec<u8>,
    names: &Names,
    set: &AdmittedSet,
    item: ItemId,
) -> Result<(), OutOfMemory>
    requires names { NamesSet names.now set.now }
    requires item { item.0 < length set.now.items }
    ensures { OnOk result (into.new.items ≡ into.old.items ++ age_of_item names.now set.now item.0) }
{
    match set.age(item) {
        Some(age) => add_age(into, names, item, age),
        None => Ok(()),
    }
}

fn add_ages(into: &mut Vec<u8>, names: &Names, set: &AdmittedSet) -> Result<(), OutOfMemory>
    requires { NamesSet names.now set.now }
    ensures { OnOk result (into.new.items ≡ into.old.items ++ numbered (ages_json names.now set.now) 0 set.now.items) }
{
    set.is_admitted();
    for i in 0..set.set().items().len() {
        add_age_of(into, names, set, ItemId(i as u32))?;
    }
    Ok(())
}

fn add_limits_of(into: &mut Vec<u8>, names: &Names, set: &AdmittedSet) -> Result<(), OutOfMemory>
    requires { NamesSet names.now set.now }
    ensures { OnOk result (into.new.items ≡ into.old.items ++ limits_json true names.now set.now) }
{
    add_bounds(into, names, set)?;
    add_ages(into, names, set)
}

/// Adds the lines of the bounds and ages, if there are bounds.
pub(crate) fn add_limits(
    into: &mut Vec<u8>,
    names: &Names,
    set: &CompiledSet,
    bounds: Option<&AdmittedSet>,
) -> Result<(), OutOfMemory>
    requires names { NamesSet names.now set.now }
    requires same { IfSome bounds (λ b. b.now ≡ set.now) }
    ensures { OnOk result (into.new.items ≡ into.old.items ++ limits_json (is_some bounds.entry) names.now set.now) }
{
    match bounds {
        Some(admitted) => add_limits_of(into, names, admitted),
        None => Ok(()),
    }
}
