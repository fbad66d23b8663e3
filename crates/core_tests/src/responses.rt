//! The responses of worked rows.
ghost use Rattle.std.specs.Prelude.{IfOk, IfSome};
ghost use Rattle.std.specs.List.{All};
ghost use Rattle.response_test.specs.Response.{HasGoodRanges};

use crate::words::{number, tell};
use response_test::{RespRow, responses};
use rt_base::OutOfMemory;
use std::alloc::Global;

// A row of these steps, blocking and period, which is its deadline. None where one is out of range.
fn row(text: &str) -> Option<RespRow>
    ensures { IfSome result HasGoodRanges }
{
    let (steps, rest) = text.split_once(' ')?;
    let (blocking, period) = rest.split_once(' ')?;
    let (steps, blocking, period) = (number(steps)?, number(blocking)?, number(period)?);
    if steps < 1 || steps > 10_000 || blocking > 9_999 || period < 1 || period > 1 << 30 {
        return None;
    }
    Some(RespRow {
        steps,
        blocking,
        period,
        deadline: period,
    })
}

// The rows between commas; one that is out of range counts as want of memory.
fn rows(alloc: Global, text: &str) -> Result<Vec<RespRow>, OutOfMemory>
    ensures { IfOk result (λ rows. All HasGoodRanges rows.items) }
{
    let mut rows = Vec::new(alloc);
    for words in text.split(',') {
        match row(words) {
            Some(row) => rows.push(row)?,
            None => return Err(OutOfMemory),
        }
    }
    Ok(rows)
}

/// Writes the responses of the rows between commas, 64 at most.
pub fn write_responses(alloc: Global, text: &str, said: &mut String) -> Option<()> {
    let rows = rows(alloc, text).ok()?;
    if rows.len() > 64 {
        return None;
    }
    let found = responses(alloc, rows.as_slice());
    drop(rows);
    tell(said, found)
}
