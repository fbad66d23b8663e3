//! The tables at the start.
ghost use Rattle.std.specs.Prelude.{◌≡◌, [], IfOk, length, map, replicate};
ghost use Rattle.board.specs.Answers.{most_planned};
ghost use Rattle.release_calendar.specs.Agenda.{no_plans};
ghost use Rattle.core_tables.specs.Seen.{no_tally};

use crate::tally::Tally;
use release_calendar::Calendar;
use rt_base::{OutOfMemory, Tick};
use std::alloc::Global;
use txn_set::{CompiledSet, TxnDecl};

/// How many releases may be planned and not take place yet.
const MOST_PLANNED: usize = 65_536;

// The periods of the transactions.
fn periods_of(alloc: Global, txns: &[TxnDecl]) -> Result<Vec<Tick>, OutOfMemory>
    ensures { IfOk result (λ periods. periods.items ≡ map (λ t. t.period) txns.now) }
{
    let mut periods = Vec::new(alloc);
    for txn in txns {
        periods.push(txn.period)?;
    }
    Ok(periods)
}

/// A tally for each of so many transactions, of which no job has ended.
pub fn no_tallies(alloc: Global, count: usize) -> Result<Vec<Tally>, OutOfMemory>
    ensures { IfOk result (λ tallies. tallies.items ≡ replicate count no_tally) }
{
    let mut tallies = Vec::new(alloc);
    tallies.resize(
        count,
        Tally {
            number: 0,
            last: None,
        },
    )?;
    Ok(tallies)
}

/// Nothing planned, with places for 65,536 planned releases.
pub fn calendar_of(alloc: Global, set: &CompiledSet) -> Result<Calendar, OutOfMemory>
    ensures periods { IfOk result (λ c. c.periods ≡ map (λ t. t.period) set.now.txns) }
    ensures plans { IfOk result (λ c. c.plans ≡ replicate (length c.periods) no_plans) }
    ensures planned { IfOk result (λ c. c.planned ≡ []) }
    ensures room { IfOk result (λ c. c.room ≡ most_planned) }
{
    set.is_compiled();
    let periods = periods_of(alloc, set.txns())?;
    Calendar::new(alloc, periods, MOST_PLANNED)
}
