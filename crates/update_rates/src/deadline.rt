//! The deadline of an updater, from the rates of the earlier ones.
ghost use Rattle.std.specs.Prelude.{◌≡◌, ◌<◌, ◌≤◌, ◌^◌, length, Some, None, IfOk, IfErr};
ghost use Rattle.std.specs.List.{All};
ghost use Rattle.update_rates.specs.Rates.{load, cap, longest, deadline, period};
ghost use Rattle.update_rates.specs.Ranking.{HasFewSteps, AreRatedBefore, IsTooShort, StandForEarlier};

use crate::order::is_earlier;
use crate::rates::Rate;
use crate::updaters::Updater;
use response_test::Loads;
use rt_base::{OutOfMemory, Tick};
use std::alloc::Global;

/// Periods and deadlines are at most this, in ticks.
pub const LONGEST: Tick = 1 << 30;

// What a job of the updater at `tx` and the jobs of the earlier ones may take of so many ticks.
fn load_of(updaters: &[Updater], rates: &[Rate], tx: usize, ticks: Tick) -> u64
    requires few { length updaters.now ≤ 64 }
    requires steps { All HasFewSteps updaters.now }
    requires rates { AreRatedBefore updaters.now rates.now tx }
    requires tx { tx < length updaters.now }
    requires ticks { ticks ≤ longest }
    ensures { result ≡ load updaters.now (period updaters.now) tx ticks }
{
    let mut total = updaters[tx].steps;
    for other in 0..updaters.len() {
        if is_earlier(updaters, other, tx) {
            total += ticks.div_ceil(rates[other].period) * updaters[other].steps;
        }
    }
    total
}

/// The loads of the updaters that come before the one at `tx`, of which no window below `from` holds its load. It takes
/// memory once, a place for each updater.
pub fn earlier_loads(
    alloc: Global,
    updaters: &[Updater],
    rates: &[Rate],
    tx: usize,
    from: Tick,
) -> Result<Loads, OutOfMemory>
    requires few { length updaters.now ≤ 64 }
    requires steps { All HasFewSteps updaters.now }
    requires rates { AreRatedBefore updaters.now rates.now tx }
    requires tx { tx < length updaters.now }
    requires from { IsTooShort updaters.now tx from }
    ensures stand { IfOk result (StandForEarlier updaters.now tx) }
{
    let mut loads = Loads::new(alloc, updaters.len())?;
    for other in 0..updaters.len() {
        if is_earlier(updaters, other, tx) {
            loads.add(updaters[other].steps, rates[other].period)?;
        }
    }
    loads.start_from(updaters[tx].steps, from);
    Ok(loads)
}

/// The least window up to the cap that holds the load of the updater at `tx`, given the loads of the earlier ones; or else
/// the load of the cap. Its time is that of `Loads::least_window`.
pub fn deadline_of(
    updaters: &[Updater],
    rates: &[Rate],
    loads: &mut Loads,
    tx: usize,
) -> Result<Tick, u64>
    requires few { length updaters.now ≤ 64 }
    requires steps { All HasFewSteps updaters.now }
    requires rates { AreRatedBefore updaters.now rates.now tx }
    requires tx { tx < length updaters.now }
    requires stand { StandForEarlier updaters.now tx loads.old }
    ensures found { IfOk result (λ d. deadline updaters.now tx ≡ Some d) }
    ensures none { IfErr result (λ e. deadline updaters.now tx ≡ None) }
    ensures demand { IfErr result (λ e. e ≡ load updaters.now (period updaters.now) tx (cap updaters.now tx)) }
{
    let most = (updaters[tx].validity / 2).min(LONGEST);
    match loads.least_window(updaters[tx].steps, most) {
        Some(ticks) => Ok(ticks),
        None => Err(load_of(updaters, rates, tx, most)),
    }
}
