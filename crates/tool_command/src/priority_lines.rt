//! The lines of priorities, and of a level at which none passes.
ghost use Rattle.std.specs.Prelude.{◌≡◌, ◌≤◌, ◌++◌, length, IfOk, OnOk};
ghost use Rattle.tool_command.specs.Priorities.{prio_line, prio_lines, level_cause as cause_of, unplaced_line, unplaced_lines};

use refusal_lines::{put_number, put_of_txn};
use rt_base::{Names, OutOfMemory, Prio, TxId};
use std::alloc::Global;
use txn_priorities::Unplaced;

fn put_prio(out: &mut Vec<u8>, names: &Names, tx: TxId, prio: Prio) -> Result<(), OutOfMemory>
    ensures { OnOk result (out.new.items ≡ out.old.items ++ prio_line names.now tx.0 prio) }
{
    put_of_txn(out, names, b"prio", tx)?;
    put_number(out, u64::from(prio))?;
    out.extend_from_slice(b"\n")?;
    Ok(())
}

/// The priorities of the transactions, in list order.
pub fn prio_text(alloc: Global, names: &Names, prios: &[Prio]) -> Result<Vec<u8>, OutOfMemory>
    requires { length prios.now ≤ 64 }
    ensures { IfOk result (λ text. text.items ≡ prio_lines names.now prios.now) }
{
    let mut text = Vec::new(alloc);
    for place in 0..prios.len() {
        put_prio(&mut text, names, TxId(place as u32), prios[place])?;
    }
    Ok(text)
}

fn put_unplaced_row(out: &mut Vec<u8>, names: &Names, row: Unplaced) -> Result<(), OutOfMemory>
    ensures { OnOk result (out.new.items ≡ out.old.items ++ unplaced_line names.now row) }
{
    put_of_txn(out, names, b"unplaced", row.tx)?;
    put_number(out, row.limit)?;
    put_number(out, row.demand)?;
    out.extend_from_slice(b"\n")?;
    Ok(())
}

/// Those that are left at a level, in list order.
pub fn put_unplaced(out: &mut Vec<u8>, names: &Names, rows: &[Unplaced]) -> Result<(), OutOfMemory>
    ensures { OnOk result (out.new.items ≡ out.old.items ++ unplaced_lines names.now rows.now) }
{
    for place in 0..rows.len() {
        put_unplaced_row(out, names, rows[place])?;
    }
    Ok(())
}

/// Why there are no priorities: the level at which none passes.
pub fn level_cause(alloc: Global, level: Prio) -> Result<Vec<u8>, OutOfMemory>
    ensures { IfOk result (λ cause. cause.items ≡ cause_of level) }
{
    let mut cause = Vec::from_slice(alloc, b"NoPriorities")?;
    put_number(&mut cause, u64::from(level))?;
    Ok(cause)
}
