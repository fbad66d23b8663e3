//! Sets and their bounds as text.
use rt_base::{ItemId, TxId};
use set_admission::AdmittedSet;
use txn_set::CompiledSet;

/// Writes the ceilings of each item, what each transaction reads and writes, and the priorities up to 4 that it may block.
pub fn write_set(set: &CompiledSet, said: &mut String) -> Option<()> {
    let (items, txns, groups) = (set.items().len(), set.txns().len(), set.together().len());
    write!(said, "{items} items, {txns} transactions, {groups} sets").ok()?;
    for item in 0..items.min(256) {
        let id = ItemId(item as u32);
        let (write, absolute) = (set.write_ceiling(id), set.absolute_ceiling(id));
        write!(said, "\n    item {item}: {write} {absolute}").ok()?;
    }
    for tx in 0..txns.min(64) {
        let id = TxId(tx as u32);
        let txn = &set.txns()[tx];
        let (reads, writes) = (txn.reads.as_slice(), txn.writes.as_slice());
        let blocks = [1, 2, 3, 4].map(|prio| set.blocks(id, prio));
        write!(
            said,
            "\n    transaction {tx}: {reads:?} {writes:?} {blocks:?}"
        )
        .ok()?;
    }
    Some(())
}

/// Writes the blocking and the response of each transaction, and the age bound of each item.
pub fn write_bounds(admitted: &AdmittedSet, said: &mut String) -> Option<()> {
    let count = admitted.set().txns().len();
    write!(said, "{count} transactions").ok()?;
    for tx in 0..count.min(64) {
        let id = TxId(tx as u32);
        let (blocking, response) = (admitted.blocking(id), admitted.response(id));
        write!(said, "\n    transaction {tx}: {blocking} {response}").ok()?;
    }
    for item in 0..admitted.set().items().len().min(256) {
        let age = admitted.age(ItemId(item as u32));
        write!(said, "\n    item {item}: {age:?}").ok()?;
    }
    Some(())
}

/// Writes the priority, the period and the deadline of each transaction.
pub fn write_rates(admitted: &AdmittedSet, said: &mut String) -> Option<()> {
    for txn in admitted.set().txns() {
        let (prio, period, deadline) = (txn.prio, txn.period, txn.deadline);
        write!(said, "\n    {prio} {period} {deadline}").ok()?;
    }
    Some(())
}
