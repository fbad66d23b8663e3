//! The lines of slacks and spares.
ghost use Rattle.std.specs.Prelude.{◌≡◌, ◌<◌, ◌++◌, length, IfOk, OnOk};
ghost use Rattle.scale_margin.specs.Spares.{spare_of};
ghost use Rattle.tool_command.specs.Slacks.{barrier_line, barrier_text, slack_at, slack_line, slack_lines as lines_of_slack, slack_text as text_of, slacks_of, spare_line, spares_of};

use refusal_lines::{put_admit_cause, put_number, put_of_item, put_of_txn};
use rt_base::{ItemId, Names, OutOfMemory, Steps, TxId};
use scale_margin::{Slack, Spare, slack, spare};
use set_admission::{AdmitError, AdmittedSet};
use std::alloc::Global;
use std::sync::ledger::Ledger;

fn put_barrier(
    out: &mut Vec<u8>,
    names: &Names,
    barrier: Option<AdmitError>,
) -> Result<(), OutOfMemory>
    ensures { OnOk result (out.new.items ≡ out.old.items ++ barrier_text names.now barrier) }
{
    match barrier {
        Some(error) => put_admit_cause(out, names, error),
        None => {
            out.extend_from_slice(b"-")?;
            Ok(())
        }
    }
}

fn put_slack_line(
    out: &mut Vec<u8>,
    names: &Names,
    tx: TxId,
    slack: Slack,
) -> Result<(), OutOfMemory>
    ensures { OnOk result (out.new.items ≡ out.old.items ++ slack_line names.now tx.0 slack) }
{
    put_of_txn(out, names, b"slack", tx)?;
    put_number(out, slack.steps)?;
    put_number(out, slack.most)?;
    out.extend_from_slice(b"\n")?;
    Ok(())
}

fn put_barrier_line(
    out: &mut Vec<u8>,
    names: &Names,
    tx: TxId,
    slack: Slack,
) -> Result<(), OutOfMemory>
    ensures { OnOk result (out.new.items ≡ out.old.items ++ barrier_line names.now tx.0 slack) }
{
    put_of_txn(out, names, b"barrier", tx)?;
    out.extend_from_slice(b" ")?;
    put_barrier(out, names, slack.barrier)?;
    out.extend_from_slice(b"\n")?;
    Ok(())
}

fn put_spare(
    out: &mut Vec<u8>,
    names: &Names,
    item: ItemId,
    spare: Option<Spare>,
) -> Result<(), OutOfMemory>
    ensures { OnOk result (out.new.items ≡ out.old.items ++ spare_line names.now item.0 spare) }
{
    if let Some(spare) = spare {
        put_of_item(out, names, b"spare", item)?;
        put_number(out, spare.validity)?;
        put_number(out, spare.age)?;
        out.extend_from_slice(b"\n")?;
    }
    Ok(())
}

// The slack of one transaction.
#[tactic(auto, using(crate::proofs::Texts::slack_is))]
fn put_slack_of<L: Ledger>(
    alloc: Global,
    out: &mut Vec<u8>,
    names: &Names,
    set: &AdmittedSet,
    tx: TxId,
    steps: &mut Steps<L>,
) -> Result<(), OutOfMemory>
    requires { tx.0 < length set.now.txns }
    ensures { OnOk result (out.new.items ≡ out.old.items ++ lines_of_slack names.now tx.0 (slack_at set.now tx.0)) }
{
    let slack = slack(alloc, set, tx, steps)?;
    put_slack_line(out, names, tx, slack)?;
    put_barrier_line(out, names, tx, slack)
}

fn put_slacks<L: Ledger>(
    alloc: Global,
    out: &mut Vec<u8>,
    names: &Names,
    set: &AdmittedSet,
    steps: &mut Steps<L>,
) -> Result<(), OutOfMemory>
    ensures { OnOk result (out.new.items ≡ out.old.items ++ slacks_of names.now set.now) }
{
    set.is_admitted();
    for place in 0..set.set().txns().len() {
        put_slack_of(alloc, out, names, set, TxId(place as u32), steps)?;
    }
    Ok(())
}

fn put_spares(out: &mut Vec<u8>, names: &Names, set: &AdmittedSet) -> Result<(), OutOfMemory>
    ensures { OnOk result (out.new.items ≡ out.old.items ++ spares_of names.now set.now) }
{
    set.is_admitted();
    for place in 0..set.set().items().len() {
        let item = ItemId(place as u32);
        put_spare(out, names, item, spare(set, item))?;
    }
    Ok(())
}

/// The slacks of the transactions in list order, two lines each, and the spares of the items, a line each.
pub fn slack_text<L: Ledger>(
    alloc: Global,
    names: &Names,
    set: &AdmittedSet,
    steps: &mut Steps<L>,
) -> Result<Vec<u8>, OutOfMemory>
    ensures { IfOk result (λ text. text.items ≡ text_of names.now set.now) }
{
    let mut text = Vec::new(alloc);
    put_slacks(alloc, &mut text, names, set, steps)?;
    put_spares(&mut text, names, set)?;
    Ok(text)
}
