//! The least window that holds its demand, found with the shares of the processor that higher rows take.
ghost use Rattle.std.specs.Prelude.{◌≡◌, ℕ, ◌+◌, ◌-◌, ◌*◌, ◌^◌, ◌<◌, ◌≤◌, [], length, IfOk, OnErr};
ghost use Rattle.std.specs.List.{All};
ghost use Rattle.std.specs.Int.{div_ceil};
ghost use Rattle.response_test.specs.Loads.{IsFair, IsBelow, IsBound, Serves, uses, shares, window};

use rt_base::{OutOfMemory, Tick};
use std::alloc::{AllocFailed, Global};
use std::marker::Model;

// The parts that the processor is shared in.
const WHOLE: u64 = 1 << 48;

/// The steps of a row in each period, and its share of the processor: how many of 2^48 parts they take, rounded down.
#[derive(Clone, Copy, PartialEq, Eq, Debug)]
pub struct Load {
    steps: u64,
    period: Tick,
    share: u64,
}

fn load_of(steps: u64, period: Tick) -> Load
    requires steps { steps ≤ 10000 }
    requires period { (1 ≤ period) × (period ≤ 2 ^ 30) }
    ensures fair { IsFair result }
    ensures steps { result.steps ≡ steps }
    ensures period { result.period ≡ period }
{
    Load {
        steps,
        period,
        share: steps * WHOLE / period,
    }
}

// The place of the first load with a shorter period.
fn place_of(loads: &[Load], period: Tick) -> usize
    ensures { result ≤ length loads.now }
{
    loads
        .iter()
        .position(|load| load.period < period)
        .unwrap_or(loads.len())
}

// Adds the load of a row of these steps and this period, before the first one with a shorter period. Where memory is
// refused nothing is added.
fn add_load(loads: &mut Vec<Load>, steps: u64, period: Tick) -> Result<(), AllocFailed<Load>>
    requires steps { steps ≤ 10000 }
    requires period { (1 ≤ period) × (period ≤ 2 ^ 30) }
    requires fair { All IsFair loads.now.items }
    ensures fair { All IsFair loads.new.items }
    ensures unchanged { OnErr result (loads.new.items ≡ loads.old.items) }
    ensures length { IfOk result (λ _. length loads.new.items ≡ length loads.old.items + 1) }
    ensures uses { IfOk result (λ _. (w : ℕ) → uses w loads.new.items ≡ uses w loads.old.items + div_ceil w period * steps) }
{
    let place = place_of(loads, period);
    loads.insert(place, load_of(steps, period))
}

// The parts of the processor that the loads leave; none where they take all of it, or more.
fn idle_of(loads: &[Load]) -> u64
    ensures { result ≡ 2 ^ 48 - shares loads.now }
{
    let mut idle = WHOLE;
    for load in loads {
        idle = idle.saturating_sub(load.share);
    }
    idle
}

// A demand and how many parts of the processor serve it: windows of which so many parts are less than the demand are
// too short.
#[derive(Clone, Copy, PartialEq, Eq, Debug)]
struct Bound {
    demand: u64,
    parts: u64,
}

// Of two bounds the one that asks for the longer window.
fn longer(first: Bound, second: Bound) -> Bound
    requires first { IsBound first }
    requires second { IsBound second }
    ensures bound { IsBound result }
    ensures second { second.demand * result.parts ≤ result.demand * second.parts }
    ensures both { (v : ℕ) → Serves first v → Serves second v → Serves result v }
{
    let shorter = first.demand as u128 * second.parts as u128;
    if shorter < second.demand as u128 * first.parts as u128 {
        second
    } else {
        first
    }
}

// The least window, from this one on, that a bound admits; one past the deadline where that one is longer.
fn raised(window: Tick, bound: Bound, deadline: Tick) -> Tick
    requires window { window ≤ 2 ^ 30 }
    requires bound { IsBound bound }
    requires deadline { deadline ≤ 2 ^ 30 }
    ensures serves { result ≤ deadline → Serves bound result }
    ensures least { (v : ℕ) → window ≤ v → Serves bound v → result ≤ v }
{
    let needed = bound.demand as u128 * WHOLE as u128;
    if needed <= window as u128 * bound.parts as u128 {
        return window;
    }
    let least = needed.div_ceil(bound.parts as u128);
    if least <= deadline as u128 {
        least as u64
    } else {
        deadline + 1
    }
}

// A window that is no longer than any window from these ticks on which holds its demand, these steps and what the
// loads use of it; and no shorter than the demand of these ticks, unless it is past the deadline. So it is the ticks
// themselves where they hold their demand, and is longer where they do not.
//
// In a window that holds its demand each load takes at least its share, and at least what it takes of a shorter
// window. So there is a bound for each number of loads: the first so many, of the longest periods, take what they take
// of these ticks, and the others their shares. The window given is the least that they all admit.
fn next_window(loads: &[Load], idle: u64, own: u64, ticks: Tick, deadline: Tick) -> Tick
    requires few { length loads.now ≤ 64 }
    requires fair { All IsFair loads.now }
    requires idle { idle ≡ 2 ^ 48 - shares loads.now }
    requires own { (1 ≤ own) × (own ≤ 19999) }
    requires ticks { ticks ≤ deadline }
    requires deadline { deadline ≤ 2 ^ 30 }
    ensures holds { result ≤ deadline → own + uses ticks loads.now ≤ result }
    ensures skips { (v : ℕ) → ticks ≤ v → own + uses v loads.now ≤ v → result ≤ v }
{
    if idle == 0 {
        return deadline + 1;
    }
    let mut demand = own;
    let mut parts = idle;
    let mut longest = Bound { demand, parts };
    for load in loads {
        demand += ticks.div_ceil(load.period) * load.steps;
        parts += load.share;
        longest = longer(longest, Bound { demand, parts });
    }
    raised(ticks, longest, deadline)
}

// The least window, from this one on, that holds these steps and what the loads use of it; or else one past `most`.
//
// It goes on from a window that is too short to one that is at least as long as its demand, and as long as follows from the
// shares of the processor that the loads take.
fn first_window(loads: &[Load], own: u64, from: Tick, most: Tick) -> Tick
    requires few { length loads.now ≤ 64 }
    requires fair { All IsFair loads.now }
    requires own { (1 ≤ own) × (own ≤ 19999) }
    requires from { IsBelow loads.now own from }
    requires most { most ≤ 2 ^ 30 }
    ensures below { IsBelow loads.now own result }
    ensures holds { result ≤ most → own + uses result loads.now ≤ result }
{
    let idle = idle_of(loads);
    let mut ticks = from;
    while ticks <= most {
        let next = next_window(loads, idle, own, ticks, most);
        if next <= ticks {
            return ticks;
        }
        ticks = next;
    }
    ticks
}

/// The loads of higher rows, which contracts see as their list, in any order; and what is known of windows: none from 1 to
/// below `from` holds `own` steps and what the loads use of it.
#[derive(Drop)]
pub struct Loads {
    loads: Vec<Load>,
    own: u64,
    from: Tick,
}

impl Model for Loads {
    ghost use Rattle.std.specs.Prelude.{List};
    ghost use Rattle.response_test.specs.declared.windows.Load.{Load as Seen};
    ghost use Rattle.response_test.specs.Loads.{AreLoads};

    ghost Value = { List Seen };

    ghost view = { λ l. l.loads.items };

    ghost invariant = { λ l. AreLoads l.loads.items l.own l.from };
}

impl Loads {
    /// No loads, with room for so many.
    pub fn new(alloc: Global, room: usize) -> Result<Loads, OutOfMemory>
        ensures { IfOk result (λ l. l ≡ []) }
    {
        Ok(Loads {
            loads: Vec::with_capacity(alloc, room)?,
            own: 0,
            from: 1,
        })
    }

    /// Adds the load of a row of these steps and this period. Where memory is refused nothing is added.
    pub fn add(&mut self, steps: u64, period: Tick) -> Result<(), OutOfMemory>
        requires few { length self.old < 64 }
        requires steps { steps ≤ 10000 }
        requires period { (1 ≤ period) × (period ≤ 2 ^ 30) }
        ensures unchanged { OnErr result (self.new ≡ self.old) }
        ensures length { IfOk result (λ _. length self.new ≡ length self.old + 1) }
        ensures uses { IfOk result (λ _. (w : ℕ) → uses w self.new ≡ uses w self.old + div_ceil w period * steps) }
    {
        add_load(&mut self.loads, steps, period)?;
        self.own = self.own.saturating_sub(steps);
        Ok(())
    }

    /// The least window, from 1 to `most` ticks, that holds these steps and what the loads use of it; None exactly where
    /// there is none.
    ///
    /// It starts from the window that the last call found or that `start_from` was told, where these steps and those of the
    /// loads that were added since are no fewer than the steps of that call; else from the steps, below which no window fits.
    /// Each window costs a division for each load, and no memory. Where the loads take all of the processor, or leave too
    /// little for the steps, one window tells. No clause bounds the number of windows.
    pub fn least_window(&mut self, own: u64, most: Tick) -> Option<Tick>
        requires own { (1 ≤ own) × (own ≤ 19999) }
        requires most { most ≤ 2 ^ 30 }
        ensures window { result ≡ window self.old own most }
        ensures unchanged { self.new ≡ self.old }
    {
        let from = self.start(own);
        let window = first_window(&self.loads, own, from, most);
        self.own = own;
        self.from = window;
        if window <= most { Some(window) } else { None }
    }

    /// Lets the next search for these steps, or more, start from a window below which none holds them.
    pub fn start_from(&mut self, own: u64, from: Tick)
        requires { IsBelow self.old own from }
        ensures { self.new ≡ self.old }
    {
        self.own = own;
        self.from = from;
    }

    // The window from which to start for these steps.
    fn start(&self, own: u64) -> Tick
        requires { 1 ≤ own }
        ensures { IsBelow self.now own result }
    {
        if self.own <= own {
            self.from.max(own)
        } else {
            own
        }
    }
}
