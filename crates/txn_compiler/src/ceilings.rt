//! The ceilings of the items, after Sha, Rajkumar, Son and Chang.
ghost use Rattle.std.specs.Prelude.{◌≡◌, length, IfOk};
ghost use Rattle.std.specs.List.{All};
ghost use Rattle.txn_compiler.specs.Tables.{IsList, AreTxnsOver, ChangesNamed, no_ceilings, AreCeilings};
ghost use Rattle.txn_compiler.specs.Tables.{raise_absolute as absolute_raised, raise_write as write_raised};

use rt_base::{ItemId, Prio};
use std::alloc::{AllocError, Global};
use txn_set::{Ceilings, TxnDecl};

fn absolute_row(row: Ceilings, prio: Prio) -> Ceilings
    ensures { result ≡ absolute_raised prio row }
{
    Ceilings {
        write: row.write,
        absolute: row.absolute.max(prio),
    }
}

fn write_row(row: Ceilings, prio: Prio) -> Ceilings
    ensures { result ≡ write_raised prio row }
{
    Ceilings {
        write: row.write.max(prio),
        absolute: row.absolute.max(prio),
    }
}

// Raises the absolute ceilings of these items to at least a priority.
fn raise_absolute(table: &mut [Ceilings], items: &[ItemId], prio: Prio)
    requires { IsList (length table.old) items.now }
    ensures { ChangesNamed (absolute_raised prio) items.now table.old table.new }
{
    for item in items {
        let place = item.0 as usize;
        table[place] = absolute_row(table[place], prio);
    }
}

// Raises both ceilings of these items to at least a priority.
fn raise_write(table: &mut [Ceilings], items: &[ItemId], prio: Prio)
    requires { IsList (length table.old) items.now }
    ensures { ChangesNamed (write_raised prio) items.now table.old table.new }
{
    for item in items {
        let place = item.0 as usize;
        table[place] = write_row(table[place], prio);
    }
}

// Raises the ceilings of the items of each transaction.
fn raise_all(table: &mut [Ceilings], txns: &[TxnDecl])
    requires lists { AreTxnsOver (length table.old) txns.now }
    requires none { All (λ row. row ≡ no_ceilings) table.old }
    ensures { AreCeilings txns.now table.new }
{
    for txn in txns {
        raise_absolute(table, txn.reads.as_slice(), txn.prio);
        raise_write(table, txn.writes.as_slice(), txn.prio);
    }
}

/// The ceilings of the items, by one pass over the declared reads and writes.
pub fn ceilings(alloc: Global, count: usize, txns: &[TxnDecl]) -> Result<Vec<Ceilings>, AllocError>
    requires { AreTxnsOver count txns.now }
    ensures one_each { IfOk result (λ table. length table.items ≡ count) }
    ensures each { IfOk result (λ table. AreCeilings txns.now table.items) }
{
    let none = Ceilings {
        write: 0,
        absolute: 0,
    };
    let mut table = vec![in alloc; none; count]?;
    raise_all(&mut table, txns);
    Ok(table)
}
