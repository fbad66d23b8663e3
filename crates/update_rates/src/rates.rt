//! The rates of updaters: their priorities, periods and deadlines.
ghost use Rattle.std.specs.Prelude.{◌≡◌, ◌≤◌, length, None, IfOk, IfErr};
ghost use Rattle.std.specs.List.{All};
ghost use Rattle.update_rates.specs.Ranking.{HasFewSteps, AreRates};
ghost use Rattle.update_rates.specs.Refusal.{too_tight, Refuses};

use crate::deadline::{LONGEST, deadline_of, earlier_loads};
use crate::error::RateError;
use crate::order::ranking_of;
use crate::updaters::Updater;
use rt_base::{Prio, Tick, TxId};
use std::alloc::Global;

/// The priority of an updater, and its period and deadline in ticks.
#[derive(Clone, Copy, PartialEq, Eq, Debug)]
pub struct Rate {
    pub prio: Prio,
    pub period: Tick,
    pub deadline: Tick,
}

/// The rates of updaters, in list order, or the first by rising validity that has no deadline. No deadline is less than that of
/// an earlier updater, so the search for it starts there. It takes memory for them, and for each updater for the loads of the
/// earlier ones.
pub fn rates_of(alloc: Global, updaters: &[Updater]) -> Result<Vec<Rate>, RateError>
    requires few { length updaters.now ≤ 64 }
    requires steps { All HasFewSteps updaters.now }
    ensures ok { IfOk result (λ rates. AreRates updaters.now rates.items) }
    ensures passed { IfOk result (λ rates. too_tight updaters.now ≡ None) }
    ensures err { IfErr result (Refuses (too_tight updaters.now)) }
{
    let ranking = ranking_of(alloc, updaters)?;
    let none = Rate {
        prio: 0,
        period: 0,
        deadline: 0,
    };
    let mut rates = vec![in alloc; none; updaters.len()]?;
    let mut from = 1;
    for ranked in &ranking {
        let mut loads = earlier_loads(alloc, updaters, &rates, ranked.tx, from)?;
        match deadline_of(updaters, &rates, &mut loads, ranked.tx) {
            Ok(deadline) => {
                from = deadline;
                rates[ranked.tx] = Rate {
                    prio: (updaters.len() - ranked.place) as u32,
                    period: (updaters[ranked.tx].validity - deadline).min(LONGEST),
                    deadline,
                }
            }
            Err(demand) => {
                return Err(RateError::TooTight {
                    tx: TxId(ranked.tx as u32),
                    demand,
                });
            }
        }
    }
    Ok(rates)
}
