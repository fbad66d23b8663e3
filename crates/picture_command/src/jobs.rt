//! The table of transactions: what their jobs came to, beside their bounds.
ghost use Rattle.std.specs.Prelude.{◌≡◌, ◌≤◌, ◌<◌, ◌++◌, length, OnOk};
ghost use Rattle.txn_set.specs.Set.{txn_of};
ghost use Rattle.picture_command.specs.Tables.{if_ended, if_committed, time_of, ended_in, committed_in, response_in, delay_in, total, worst, declared_cells, job_cells, txn_line, txn_head, txn_lines, txn_table, table_end};

use crate::text::{add_cell, add_maybe_cell, add_number_cell, number_at};
use job_rows::JobRow;
use rt_base::{End, Names, OutOfMemory, Tick, TxId};
use schedule_marks::{add, commits, deadline, name, priority};
use txn_set::CompiledSet;

fn one_if_ended(end: Option<(End, Tick)>) -> u64
    ensures value { result ≡ if_ended end }
    ensures most { result ≤ 1 }
{
    match end {
        Some(_) => 1,
        None => 0,
    }
}

fn one_if_committed(end: Option<(End, Tick)>) -> u64
    ensures value { result ≡ if_committed end }
    ensures most { result ≤ 1 }
{
    match end {
        Some((end, _)) => { if commits(end) { 1 } else { 0 } }
        None => 0,
    }
}

fn time(release: Tick, end: Option<(End, Tick)>) -> Tick
    ensures { result ≡ time_of release end }
{
    match end {
        Some((_, tick)) => tick.saturating_sub(release),
        None => 0,
    }
}

fn ended(tx: TxId, row: &JobRow) -> u64
    ensures value { result ≡ ended_in tx.0 row.now }
    ensures most { result ≤ 1 }
{
    if row.job.tx.0 == tx.0 {
        one_if_ended(row.end)
    } else {
        0
    }
}

fn committed(tx: TxId, row: &JobRow) -> u64
    ensures value { result ≡ committed_in tx.0 row.now }
    ensures most { result ≤ 1 }
{
    if row.job.tx.0 == tx.0 {
        one_if_committed(row.end)
    } else {
        0
    }
}

fn response(tx: TxId, row: &JobRow) -> Tick
    ensures { result ≡ response_in tx.0 row.now }
{
    if row.job.tx.0 == tx.0 {
        time(row.release, row.end)
    } else {
        0
    }
}

fn delay(tx: TxId, row: &JobRow) -> Tick
    ensures { result ≡ delay_in tx.0 row.now }
{
    if row.job.tx.0 == tx.0 { row.delay } else { 0 }
}

fn all_ended(tx: TxId, rows: &[JobRow]) -> u64
    ensures { result ≡ total (ended_in tx.0) rows.now }
{
    let mut count: u64 = 0;
    for row in rows {
        count += ended(tx, row);
    }
    count
}

fn all_committed(tx: TxId, rows: &[JobRow]) -> u64
    ensures { result ≡ total (committed_in tx.0) rows.now }
{
    let mut count: u64 = 0;
    for row in rows {
        count += committed(tx, row);
    }
    count
}

fn worst_response(tx: TxId, rows: &[JobRow]) -> Tick
    ensures { result ≡ worst (response_in tx.0) rows.now }
{
    let mut worst = 0;
    for row in rows {
        worst = worst.max(response(tx, row));
    }
    worst
}

fn worst_delay(tx: TxId, rows: &[JobRow]) -> Tick
    ensures { result ≡ worst (delay_in tx.0) rows.now }
{
    let mut worst = 0;
    for row in rows {
        worst = worst.max(delay(tx, row));
    }
    worst
}

fn period(set: &CompiledSet, tx: TxId) -> Tick
    ensures { result ≡ (txn_of set.now tx.0).period }
{
    let txns = set.txns();
    let at = tx.0 as usize;
    if at < txns.len() { txns[at].period } else { 0 }
}

// Its name and what was declared of it.
fn add_declared(
    into: &mut Vec<u8>,
    names: &Names,
    set: &CompiledSet,
    tx: TxId,
) -> Result<(), OutOfMemory>
    ensures { OnOk result (into.new.items ≡ into.old.items ++ declared_cells names.now set.now tx.0) }
{
    let prio = priority(set, tx) as u64;
    let period = period(set, tx);
    let deadline = deadline(set, tx);
    add_cell(into, name(names.txns.as_slice(), tx.0))?;
    add_number_cell(into, prio)?;
    add_number_cell(into, period)?;
    add_number_cell(into, deadline)?;
    Ok(())
}

// How many of its jobs ended, how many of these committed, the longest response beside the bound, and the longest delay.
fn add_jobs(
    into: &mut Vec<u8>,
    responses: &[Tick],
    rows: &[JobRow],
    tx: TxId,
) -> Result<(), OutOfMemory>
    ensures { OnOk result (into.new.items ≡ into.old.items ++ job_cells responses.now rows.now tx.0) }
{
    add_number_cell(into, all_ended(tx, rows))?;
    add_number_cell(into, all_committed(tx, rows))?;
    add_number_cell(into, worst_response(tx, rows))?;
    add_maybe_cell(into, number_at(responses, tx.0))?;
    add_number_cell(into, worst_delay(tx, rows))?;
    Ok(())
}

fn add_line(
    into: &mut Vec<u8>,
    names: &Names,
    set: &CompiledSet,
    responses: &[Tick],
    rows: &[JobRow],
    tx: TxId,
) -> Result<(), OutOfMemory>
    ensures { OnOk result (into.new.items ≡ into.old.items ++ txn_line names.now set.now responses.now rows.now tx.0) }
{
    add(into, b"<tr>")?;
    add_declared(into, names, set, tx)?;
    add_jobs(into, responses, rows, tx)?;
    add(into, b"</tr>\n")?;
    Ok(())
}

fn add_lines(
    into: &mut Vec<u8>,
    names: &Names,
    set: &CompiledSet,
    responses: &[Tick],
    rows: &[JobRow],
) -> Result<(), OutOfMemory>
    ensures { OnOk result (into.new.items ≡ into.old.items ++ txn_lines names.now set.now responses.now rows.now) }
{
    set.is_compiled();
    for i in 0..set.txns().len() {
        add_line(into, names, set, responses, rows, TxId(i as u32))?;
    }
    Ok(())
}

fn add_head(into: &mut Vec<u8>) -> Result<(), OutOfMemory>
    ensures { OnOk result (into.new.items ≡ into.old.items ++ txn_head) }
{
    add(
        into,
        b"<table>\n<caption>Transactions, in ticks</caption>\n<tr><th>name</th><th>priority</th><th>period</th><th>deadline</th>",
    )?;
    add(
        into,
        b"<th>ended</th><th>committed</th><th>worst response</th><th>bound</th><th>worst delay</th></tr>\n",
    )
}

/// The end of a table.
pub(crate) fn add_end(into: &mut Vec<u8>) -> Result<(), OutOfMemory>
    ensures { OnOk result (into.new.items ≡ into.old.items ++ table_end) }
{
    add(into, b"</table>\n")
}

/// The table of transactions. For each it goes four times over the rows.
pub(crate) fn add_txns(
    into: &mut Vec<u8>,
    names: &Names,
    set: &CompiledSet,
    responses: &[Tick],
    rows: &[JobRow],
) -> Result<(), OutOfMemory>
    ensures { OnOk result (into.new.items ≡ into.old.items ++ txn_table names.now set.now responses.now rows.now) }
{
    add_head(into)?;
    add_lines(into, names, set, responses, rows)?;
    add_end(into)?;
    Ok(())
}
