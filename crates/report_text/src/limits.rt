//! The lines of ceilings and bounds.
ghost use Rattle.std.specs.Prelude.{◌≡◌, ◌+◌, ◌<◌, ◌≤◌, ◌++◌, length, OnOk};
ghost use Rattle.report_text.specs.Texts.{ceiling_line, ceilings_of, bound_line, age_line, NamesSet};

use journal_text::{put, put_name, put_short, put_unsigned};
use rt_base::{ItemId, Names, OutOfMemory, Prio, Tick, TxId};
use txn_set::CompiledSet;

fn add_ceiling(
    into: &mut Vec<u8>,
    names: &Names,
    item: ItemId,
    write: Prio,
    absolute: Prio,
) -> Result<(), OutOfMemory>
    requires { item.0 < length names.now.items }
    ensures { OnOk result (into.new.items ≡ into.old.items ++ ceiling_line names.now item.0 write absolute) }
{
    into.reserve(256)?;
    put(into, b"ceiling");
    put_name(into, names.items.as_slice(), item.0);
    put_short(into, write);
    put_short(into, absolute);
    put(into, b"\n");
    Ok(())
}

/// Adds the ceilings of each item, in item order.
pub fn add_ceilings(into: &mut Vec<u8>, names: &Names, set: &CompiledSet) -> Result<(), OutOfMemory>
    requires { NamesSet names.now set.now }
    ensures { OnOk result (into.new.items ≡ into.old.items ++ ceilings_of names.now set.now) }
{
    set.is_compiled();
    for i in 0..set.items().len() {
        let item = ItemId(i as u32);
        add_ceiling(
            into,
            names,
            item,
            set.write_ceiling(item),
            set.absolute_ceiling(item),
        )?;
    }
    Ok(())
}

/// Adds the line of a transaction's bounds.
pub fn add_bound(
    into: &mut Vec<u8>,
    names: &Names,
    tx: TxId,
    blocking: u64,
    response: Tick,
) -> Result<(), OutOfMemory>
    requires { tx.0 < length names.now.txns }
    ensures { OnOk result (into.new.items ≡ into.old.items ++ bound_line names.now tx.0 blocking response) }
{
    into.reserve(256)?;
    put(into, b"bound");
    put_name(into, names.txns.as_slice(), tx.0);
    put_unsigned(into, blocking);
    put_unsigned(into, response);
    put(into, b"\n");
    Ok(())
}

/// Adds the line of an item's age bound.
pub fn add_age(
    into: &mut Vec<u8>,
    names: &Names,
    item: ItemId,
    age: Tick,
) -> Result<(), OutOfMemory>
    requires { item.0 < length names.now.items }
    ensures { OnOk result (into.new.items ≡ into.old.items ++ age_line names.now item.0 age) }
{
    into.reserve(256)?;
    put(into, b"age");
    put_name(into, names.items.as_slice(), item.0);
    put_unsigned(into, age);
    put(into, b"\n");
    Ok(())
}
