//! The first two writers of each item.
ghost use Rattle.std.specs.Prelude.{◌≡◌, ◌≤◌, length, [], IfOk};
ghost use Rattle.std.specs.List.{All};
ghost use Rattle.txn_compiler.specs.Tables.{first_two, IsList, AreTxnsOver, AreWriters, ChangesNamed};
ghost use Rattle.txn_compiler.specs.Tables.{with_writer as row_with_writer};

use rt_base::{ItemId, TxId};
use std::alloc::{AllocError, Global};
use txn_set::TxnDecl;

/// The first two transactions in list order that may write an item.
#[derive(Clone, Copy)]
pub struct Writers {
    pub first: Option<TxId>,
    pub second: Option<TxId>,
}

impl Writers {
    fn with_writer(self, tx: TxId) -> Writers
        ensures { result ≡ row_with_writer tx self }
    {
        match self.first {
            None => Writers {
                first: Some(tx),
                second: self.second,
            },
            Some(first) => match self.second {
                None => Writers {
                    first: Some(first),
                    second: Some(tx),
                },
                Some(_) => self,
            },
        }
    }
}

// Notes a writer of each of these items.
fn note(table: &mut [Writers], writes: &[ItemId], tx: TxId)
    requires { IsList (length table.old) writes.now }
    ensures { ChangesNamed (row_with_writer tx) writes.now table.old table.new }
{
    for item in writes {
        let place = item.0 as usize;
        table[place] = table[place].with_writer(tx);
    }
}

// Notes the writers of the items, transaction by transaction.
fn note_all(table: &mut [Writers], txns: &[TxnDecl])
    requires few { length txns.now ≤ 64 }
    requires lists { AreTxnsOver (length table.old) txns.now }
    requires nobody { All (λ row. row ≡ first_two []) table.old }
    ensures { AreWriters txns.now table.new }
{
    for (tx, txn) in txns.iter().enumerate() {
        note(table, txn.writes.as_slice(), TxId(tx as u32));
    }
}

/// The writers of so many items, by one pass over the declared writes.
pub fn writers_by_item(
    alloc: Global,
    count: usize,
    txns: &[TxnDecl],
) -> Result<Vec<Writers>, AllocError>
    requires few { length txns.now ≤ 64 }
    requires lists { AreTxnsOver count txns.now }
    ensures one_each { IfOk result (λ table. length table.items ≡ count) }
    ensures each { IfOk result (λ table. AreWriters txns.now table.items) }
{
    let nobody = Writers {
        first: None,
        second: None,
    };
    let mut table = vec![in alloc; nobody; count]?;
    note_all(&mut table, txns);
    Ok(table)
}
