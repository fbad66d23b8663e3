//! The rates of updaters, and why there are none.
ghost use Rattle.std.specs.Prelude.{◌≡◌, ◌++◌, codes, IfOk, OnOk};
ghost use Rattle.refusal_lines.specs.Causes.{number, txn};
ghost use Rattle.refusal_lines.specs.Lines.{rate_cause, rate_line, rates_of};

use crate::causes::put_compile_cause;
use crate::words::{put_number, put_of_txn, put_of_txn_and_number};
use rt_base::{Names, OutOfMemory, TxId};
use set_admission::AdmittedSet;
use std::alloc::Global;
use txn_compiler::TxnDecl;
use update_rates::RateError;

fn add_rate(into: &mut Vec<u8>, names: &Names, tx: TxId, decl: &TxnDecl) -> Result<(), OutOfMemory>
    ensures { OnOk result (into.new.items ≡ into.old.items ++ rate_line names.now tx.0 decl.now) }
{
    put_of_txn(into, names, b"rate", tx)?;
    put_number(into, decl.prio as u64)?;
    put_number(into, decl.period)?;
    put_number(into, decl.deadline)?;
    into.extend_from_slice(b"\n")?;
    Ok(())
}

/// The priority, the period and the deadline of each transaction in list order, in ticks, a line each, and a line that the
/// set is admitted.
pub fn rates_text(alloc: Global, names: &Names, set: &AdmittedSet) -> Result<Vec<u8>, OutOfMemory>
    ensures { IfOk result (λ text. text.items ≡ rates_of names.now set.now) }
{
    set.is_admitted();
    let rated = set.set();
    let mut text = Vec::new(alloc);
    for i in 0..rated.txns().len() {
        let tx = TxId(i as u32);
        add_rate(&mut text, names, tx, rated.txn(tx))?;
    }
    text.extend_from_slice(b"admitted\n")?;
    Ok(text)
}

/// Appends why declarations get no rates. The names are those of the items and transactions. After want of memory a part
/// of the text may stand.
pub fn put_rate_cause(out: &mut Vec<u8>, names: &Names, error: RateError) -> Result<(), OutOfMemory>
    ensures { OnOk result (out.new.items ≡ out.old.items ++ rate_cause names.now error) }
{
    match error {
        RateError::Compile(error) => put_compile_cause(out, names, error),
        RateError::NotAnUpdater { tx } => put_of_txn(out, names, b"NotAnUpdater", tx),
        RateError::TooTight { tx, demand } => {
            put_of_txn_and_number(out, names, b"TooTight", tx, demand)
        }
        RateError::OutOfMemory => Ok(()),
    }
}
