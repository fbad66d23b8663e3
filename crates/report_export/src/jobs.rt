//! Jobs and last items as JSON, and jobs as rows of a table.
ghost use Rattle.std.specs.Prelude.{ℕ, ◌≡◌, ◌+◌, ◌<◌, ◌≤◌, ◌^◌, ◌++◌, Some, length, OnOk, vec_len, vec_capacity};
ghost use Rattle.std.specs.List.{All};
ghost use Rattle.rt_base.specs.declared.operation.End.{End as EndOf};
ghost use Rattle.report_text.specs.Rows.{numbered};
ghost use Rattle.report_text.specs.Texts.{KnownBy, KnownClose, KnownRow};
ghost use Rattle.report_export.specs.Adding.{Grows};
ghost use Rattle.report_export.specs.Json.{close_json, by_json, job_json, final_json};
ghost use Rattle.report_export.specs.Table.{close_cells, by_cell, job_cells, table_with};

use crate::parts::{
    add_text, put_counted, put_end, put_end_words, put_job, put_name, put_named, put_short,
    put_valued,
};
use item_model::Stored;
use job_rows::JobRow;
use journal_text::put;
use rt_base::{End, JobId, Names, OutOfMemory, Tick};

// ---- JSON

#[inline(always)]
fn put_close(into: &mut Vec<u8>, names: &Names, release: Tick, end: Option<(End, Tick)>)
    requires known { KnownClose names.now end }
    requires after { (e : EndOf) (tick : ℕ) → end ≡ Some (e, tick) → release ≤ tick }
    requires room { vec_len into.old + 160 ≤ vec_capacity into.old }
    ensures items { into.new.items ≡ into.old.items ++ close_json names.now release end }
    ensures most { Grows into.old into.new 160 }
{
    match end {
        Some((end, tick)) => {
            put_counted(into, b",\"tick\":", tick);
            put(into, b",\"end\":");
            put_end(into, names, end);
            put_counted(into, b",\"response\":", tick - release);
        }
        None => put(
            into,
            b",\"tick\":null,\"end\":\"pending\",\"response\":null",
        ),
    }
}

#[inline(always)]
fn put_by(into: &mut Vec<u8>, names: &Names, by: Option<JobId>)
    requires known { KnownBy names.now by }
    requires room { vec_len into.old + 51 ≤ vec_capacity into.old }
    ensures items { into.new.items ≡ into.old.items ++ by_json names.now by }
    ensures most { Grows into.old into.new 51 }
{
    match by {
        Some(job) => {
            put(into, b",\"by\":\"");
            put_job(into, &names.txns, job);
            put(into, b"\"");
        }
        None => put(into, b",\"by\":null"),
    }
}

fn add_job(into: &mut Vec<u8>, names: &Names, row: &JobRow) -> Result<(), OutOfMemory>
    requires { KnownRow names.now row.now }
    ensures { OnOk result (into.new.items ≡ into.old.items ++ job_json names.now 0 row.now) }
{
    into.reserve(400)?;
    put(into, b"{\"job\":{\"job\":\"");
    put_job(into, &names.txns, row.job);
    put_counted(into, b"\",\"release\":", row.release);
    put_close(into, names, row.release, row.end);
    put_by(into, names, row.delayed_by);
    put_counted(into, b",\"delay\":", row.delay);
    put(into, b"}}\n");
    Ok(())
}

/// Adds the lines of jobs.
pub(crate) fn add_jobs(
    into: &mut Vec<u8>,
    names: &Names,
    rows: &[JobRow],
) -> Result<(), OutOfMemory>
    requires { All (KnownRow names.now) rows.now }
    ensures { OnOk result (into.new.items ≡ into.old.items ++ numbered (job_json names.now) 0 rows.now) }
{
    for row in rows {
        add_job(into, names, row)?;
    }
    Ok(())
}

fn add_final(into: &mut Vec<u8>, names: &Names, at: u32, stored: Stored) -> Result<(), OutOfMemory>
    requires { at < length names.now.items }
    ensures { OnOk result (into.new.items ≡ into.old.items ++ final_json names.now at stored) }
{
    into.reserve(256)?;
    put_named(into, b"{\"final\":{\"item\":\"", &names.items, at);
    put_valued(into, b"\",\"value\":", stored.value);
    put_counted(into, b",\"stamp\":", stored.stamp);
    put(into, b"}}\n");
    Ok(())
}

/// Adds the last items, in item order.
pub(crate) fn add_finals(
    into: &mut Vec<u8>,
    names: &Names,
    items: &[Stored],
) -> Result<(), OutOfMemory>
    requires known { length items.now ≤ length names.now.items }
    requires few { length items.now < 2 ^ 32 }
    ensures { OnOk result (into.new.items ≡ into.old.items ++ numbered (final_json names.now) 0 items.now) }
{
    for (i, stored) in items.iter().enumerate() {
        add_final(into, names, i as u32, *stored)?;
    }
    Ok(())
}

// ---- the table

#[inline(always)]
fn put_close_cells(into: &mut Vec<u8>, names: &Names, release: Tick, end: Option<(End, Tick)>)
    requires known { KnownClose names.now end }
    requires after { (e : EndOf) (tick : ℕ) → end ≡ Some (e, tick) → release ≤ tick }
    requires room { vec_len into.old + 130 ≤ vec_capacity into.old }
    ensures items { into.new.items ≡ into.old.items ++ close_cells names.now release end }
    ensures most { Grows into.old into.new 130 }
{
    match end {
        Some((end, tick)) => {
            put_counted(into, b",", tick);
            put_end_words(into, b',', names, end);
            put_counted(into, b",", tick - release);
        }
        None => put(into, b",,pending,"),
    }
}

#[inline(always)]
fn put_by_cell(into: &mut Vec<u8>, names: &Names, by: Option<JobId>)
    requires known { KnownBy names.now by }
    requires room { vec_len into.old + 44 ≤ vec_capacity into.old }
    ensures items { into.new.items ≡ into.old.items ++ by_cell names.now by }
    ensures most { Grows into.old into.new 44 }
{
    put(into, b",");
    match by {
        Some(job) => put_job(into, &names.txns, job),
        None => {}
    }
}

fn add_cells(into: &mut Vec<u8>, names: &Names, row: &JobRow) -> Result<(), OutOfMemory>
    requires { KnownRow names.now row.now }
    ensures { OnOk result (into.new.items ≡ into.old.items ++ job_cells names.now 0 row.now) }
{
    into.reserve(400)?;
    put_name(into, &names.txns, row.job.tx.0);
    put(into, b",");
    put_short(into, row.job.serial);
    put_counted(into, b",", row.release);
    put_close_cells(into, names, row.release, row.end);
    put_by_cell(into, names, row.delayed_by);
    put_counted(into, b",", row.delay);
    put(into, b"\n");
    Ok(())
}

fn add_rows(into: &mut Vec<u8>, names: &Names, rows: &[JobRow]) -> Result<(), OutOfMemory>
    requires { All (KnownRow names.now) rows.now }
    ensures { OnOk result (into.new.items ≡ into.old.items ++ numbered (job_cells names.now) 0 rows.now) }
{
    for row in rows {
        add_cells(into, names, row)?;
    }
    Ok(())
}

/// Adds the header and a row for each job.
pub(crate) fn add_table(
    into: &mut Vec<u8>,
    names: &Names,
    rows: &[JobRow],
) -> Result<(), OutOfMemory>
    requires { All (KnownRow names.now) rows.now }
    ensures { OnOk result (into.new.items ≡ into.old.items ++ table_with names.now rows.now) }
{
    add_text(into, b"txn,serial,release,tick,end,response,by,delay\n")?;
    add_rows(into, names, rows)
}
