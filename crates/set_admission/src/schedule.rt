//! The responses of the transactions, or the refusal of one without a response.

ghost use Rattle.std.specs.Prelude.{◌≡◌, IfOk, IfErr};
ghost use Rattle.txn_set.specs.Set.{IsCompiled};
ghost use Rattle.response_test.specs.Response.{AreResponses};
ghost use Rattle.set_admission.specs.Bounds.{AreResponsesOf};
ghost use Rattle.set_admission.specs.Admission.{falling, first_refusal, not_schedulable, Refuses};
ghost use Rattle.set_admission.specs.Rows.{resp_rows};

use crate::error::AdmitError;
use crate::order::resp_rows_of;
use response_test::{ResponseError, responses};
use rt_base::{OutOfMemory, Tick, TxId};
use std::alloc::Global;
use txn_set::CompiledSet;

// The responses in the order of the transactions, from those in falling priority.
fn by_transaction(
    alloc: Global,
    set: &CompiledSet,
    order: &[TxId],
    answers: &[Tick],
) -> Result<Vec<Tick>, OutOfMemory>
    requires compiled { IsCompiled set.now }
    requires order { order.now ≡ falling set.now }
    requires answers { AreResponses (resp_rows set.now order.now) answers.now }
    ensures { IfOk result (λ found. AreResponsesOf set.now found.items) }
{
    let mut found = vec![in alloc; 0; order.len()]?;
    for (rank, tx) in order.iter().enumerate() {
        found[tx.0 as usize] = answers[rank];
    }
    Ok(found)
}

/// The responses of the transactions, in ticks; else the first by falling priority that has none.
pub fn responses_of(
    alloc: Global,
    set: &CompiledSet,
    order: &[TxId],
) -> Result<Vec<Tick>, AdmitError>
    requires compiled { IsCompiled set.now }
    requires order { order.now ≡ falling set.now }
    ensures ok { IfOk result (λ answers. AreResponsesOf set.now answers.items) }
    ensures err { IfErr result (Refuses (first_refusal (not_schedulable set.now) (falling set.now))) }
{
    let rows = resp_rows_of(alloc, set, order)?;
    match responses(alloc, &rows) {
        Ok(answers) => {
            let found = by_transaction(alloc, set, order, &answers)?;
            Ok(found)
        }
        Err(ResponseError::Unschedulable { row, demand }) => Err(AdmitError::NotSchedulable {
            tx: order[row],
            demand,
        }),
        Err(ResponseError::OutOfMemory) => Err(AdmitError::OutOfMemory),
    }
}
