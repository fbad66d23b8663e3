//! The lines of jobs and last items.
ghost use Rattle.std.specs.Prelude.{ℕ, ◌≡◌, ◌+◌, ◌<◌, ◌≤◌, ◌^◌, ◌++◌, Some, length, slice_get, OnOk, vec_len, vec_capacity};
ghost use Rattle.std.specs.List.{All};
ghost use Rattle.rt_base.specs.declared.operation.End.{End as EndOf};
ghost use Rattle.line_fields.specs.Cuts.{field};
ghost use Rattle.report_text.specs.Texts.{by_text, close_text, job_line, jobs_text, final_line, finals_text, KnownBy, KnownClose, KnownRow};

use item_model::Stored;
use job_rows::JobRow;
use journal_text::{Numerals, put, put_end, put_job, put_name, put_signed, put_unsigned};
use rt_base::{End, JobId, Names, OutOfMemory, Tick};
use std::mem;

#[inline(always)]
fn put_by(into: &mut Vec<u8>, names: &Names, by: Option<JobId>)
    requires known { KnownBy names.now by }
    requires room { vec_len into.old + 44 ≤ vec_capacity into.old }
    ensures items { into.new.items ≡ into.old.items ++ field (by_text names.now by) }
    ensures len { vec_len into.new ≤ vec_len into.old + 44 }
    ensures room { vec_capacity into.old ≤ vec_capacity into.new }
{
    match by {
        Some(job) => put_job(into, names.txns.as_slice(), job),
        None => put(into, b" -"),
    }
}

#[inline(always)]
fn put_close(
    into: &mut Vec<u8>,
    names: &Names,
    release: Tick,
    end: Option<(End, Tick)>,
    numerals: &mut Numerals,
)
    requires known { KnownClose names.now end }
    requires after { (e : EndOf) (tick : ℕ) → end ≡ Some (e, tick) → release ≤ tick }
    requires room { vec_len into.old + 126 ≤ vec_capacity into.old }
    ensures items { into.new.items ≡ into.old.items ++ close_text names.now release end }
    ensures len { vec_len into.new ≤ vec_len into.old + 114 }
    ensures room { vec_capacity into.old ≤ vec_capacity into.new }
{
    match end {
        Some((end, tick)) => {
            numerals.put_tick(into, tick);
            put_end(into, names, end);
            put_unsigned(into, tick - release);
        }
        None => put(into, b" - pending -"),
    }
}

#[inline(always)]
fn put_row(into: &mut Vec<u8>, names: &Names, row: &JobRow, numerals: &mut Numerals)
    requires known { KnownRow names.now row.now }
    requires room { vec_len into.old + 256 ≤ vec_capacity into.old }
    ensures items { into.new.items ≡ into.old.items ++ job_line names.now 0 row.now }
    ensures len { vec_len into.new ≤ vec_len into.old + 256 }
    ensures room { vec_capacity into.old ≤ vec_capacity into.new }
{
    put(into, b"job");
    numerals.put_job(into, names.txns.as_slice(), row.job);
    put_unsigned(into, row.release);
    put_close(into, names, row.release, row.end, numerals);
    put_by(into, names, row.delayed_by);
    put_unsigned(into, row.delay);
    put(into, b"\n");
}

// Adds the line of a job: at most 256 bytes. It takes no memory.
fn put_job_line(into: &mut Vec<u8>, names: &Names, row: &JobRow, numerals: &mut Numerals)
    requires known { KnownRow names.now row.now }
    requires room { vec_len into.old + 256 ≤ vec_capacity into.old }
    ensures items { into.new.items ≡ into.old.items ++ job_line names.now 0 row.now }
    ensures len { vec_len into.new ≤ vec_len into.old + 256 }
    ensures room { vec_capacity into.old ≤ vec_capacity into.new }
{
    // A list of its own stays in registers while the pieces are added.
    let alloc = *into.allocator();
    let mut line = mem::replace(into, Vec::new(alloc));
    put_row(&mut line, names, row, numerals);
    *into = line;
}

fn add_job(
    into: &mut Vec<u8>,
    names: &Names,
    row: &JobRow,
    numerals: &mut Numerals,
) -> Result<(), OutOfMemory>
    requires { KnownRow names.now row.now }
    ensures { OnOk result (into.new.items ≡ into.old.items ++ job_line names.now 0 row.now) }
{
    into.reserve(256)?;
    put_job_line(into, names, row, numerals);
    Ok(())
}

/// Adds the lines of jobs, in the order of the rows.
pub fn add_jobs(into: &mut Vec<u8>, names: &Names, rows: &[JobRow]) -> Result<(), OutOfMemory>
    requires { All (KnownRow names.now) rows.now }
    ensures { OnOk result (into.new.items ≡ into.old.items ++ jobs_text names.now rows.now) }
{
    let mut numerals = Numerals::new();
    for i in 0..rows.len() {
        add_job(into, names, &rows[i], &mut numerals)?;
    }
    Ok(())
}

fn add_final(into: &mut Vec<u8>, names: &Names, at: u32, stored: Stored) -> Result<(), OutOfMemory>
    requires { at < length names.now.items }
    ensures { OnOk result (into.new.items ≡ into.old.items ++ final_line names.now at stored) }
{
    into.reserve(256)?;
    put(into, b"final");
    put_name(into, names.items.as_slice(), at);
    put_signed(into, stored.value);
    put_unsigned(into, stored.stamp);
    put(into, b"\n");
    Ok(())
}

/// Adds the last items, in item order.
pub fn add_finals(into: &mut Vec<u8>, names: &Names, items: &[Stored]) -> Result<(), OutOfMemory>
    requires known { length items.now ≤ length names.now.items }
    requires few { length items.now < 2 ^ 32 }
    ensures { OnOk result (into.new.items ≡ into.old.items ++ finals_text names.now items.now) }
{
    for i in 0..items.len() {
        add_final(into, names, i as u32, items[i])?;
    }
    Ok(())
}
