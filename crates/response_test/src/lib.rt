//! The response test of Joseph and Pandya 1986, with a blocking term: for each transaction the least window that holds
//! its demand, found by iteration to the fixed point.
#![tactic(auto)]

ghost use Rattle.std.specs.Prelude.{◌≡◌, ◌<◌, ◌≤◌, ◌^◌, length, IfOk, IfErr, MatchResult, Some, None};
ghost use Rattle.std.specs.List.{All};
ghost use Rattle.response_test.specs.Response.{HasGoodRanges, demand, response, AreResponses, Tells};
ghost use Rattle.response_test.specs.Loads.{StandsFor};

mod windows;

use rt_base::Tick;
use std::alloc::Global;
pub use windows::Loads;

/// A transaction as the response test sees it: its steps and its blocking in steps, which last a tick each, and its
/// period and deadline in ticks.
#[derive(Clone, Copy, PartialEq, Eq, Debug)]
pub struct RespRow {
    pub steps: u64,
    pub blocking: u64,
    pub period: Tick,
    pub deadline: Tick,
}

/// Why there are no responses.
#[derive(Clone, Copy, PartialEq, Eq, Debug)]
pub enum ResponseError {
    /// The first row without a response, and its demand, in ticks, within its deadline.
    Unschedulable { row: usize, demand: u64 },
    /// A growth was refused.
    OutOfMemory,
}

/// The responses, in ticks, of rows that stand in falling priority: for each row the least window, from 1 to its
/// deadline, that is at least the demand of the row, its blocking and the rows before it (Joseph and Pandya 1986, with
/// the blocking term that later textbooks add). `Unschedulable` comes exactly where a row has none.
///
/// It takes memory twice, a place for each row. Its time is that of `Loads::least_window` for each row, over the rows before it.
pub fn responses(alloc: Global, rows: &[RespRow]) -> Result<Vec<Tick>, ResponseError>
    requires few { length rows.now ≤ 64 }
    requires ranges { All HasGoodRanges rows.now }
    ensures ok { IfOk result (λ answers. AreResponses rows.now answers.items) }
    ensures err { IfErr result (Tells rows.now) }
{
    let Ok(mut answers) = Vec::with_capacity(alloc, rows.len()) else {
        return Err(ResponseError::OutOfMemory);
    };
    let Ok(mut loads) = Loads::new(alloc, rows.len()) else {
        return Err(ResponseError::OutOfMemory);
    };
    for (i, row) in rows.iter().enumerate() {
        match response_of(&rows[..i], &mut loads, *row) {
            Ok(ticks) => answers.push(ticks).unwrap(),
            Err(demand) => return Err(ResponseError::Unschedulable { row: i, demand }),
        }
        let Ok(()) = loads.add(row.steps, row.period) else {
            return Err(ResponseError::OutOfMemory);
        };
    }
    Ok(answers)
}

// The response of a row below these, whose loads are given too, or else its demand within its deadline.
fn response_of(higher: &[RespRow], loads: &mut Loads, row: RespRow) -> Result<Tick, u64>
    requires few { length higher.now < 64 }
    requires ranges { All HasGoodRanges higher.now }
    requires stands { StandsFor loads.old higher.now }
    requires row { HasGoodRanges row }
    ensures loads { loads.new ≡ loads.old }
    ensures ok { IfOk result (λ w. response higher.now row ≡ Some w) }
    ensures none { IfErr result (λ d. response higher.now row ≡ None) }
    ensures err { IfErr result (λ d. d ≡ demand higher.now row row.deadline) }
{
    match loads.least_window(row.steps + row.blocking, row.deadline) {
        Some(ticks) => Ok(ticks),
        None => Err(demand_of(higher, row, row.deadline)),
    }
}

// What the row, its blocking and these higher rows may take of a window of so many ticks.
fn demand_of(higher: &[RespRow], row: RespRow, ticks: Tick) -> u64
    requires few { length higher.now < 64 }
    requires ranges { All HasGoodRanges higher.now }
    requires row { HasGoodRanges row }
    requires ticks { ticks ≤ 2 ^ 30 }
    ensures { result ≡ demand higher.now row ticks }
{
    let mut total = row.steps + row.blocking;
    for h in higher {
        total += ticks.div_ceil(h.period) * h.steps;
    }
    total
}
