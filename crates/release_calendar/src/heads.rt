//! A tick for each transaction, and the least of them at hand.
ghost use Rattle.std.specs.Prelude.{◌≡◌, ℕ, ◌+◌, ◌*◌, ◌^◌, ◌<◌, ◌≤◌, min, length, slice_set, slice_index_or, IfOk, IfSome};
ghost use Rattle.release_calendar.specs.Heads.{IsLeastOf, IsLeast, IsFirstLeast, no_tick, no_key, tick_at, key_of};

use rt_base::{OutOfMemory, Tick};
use std::alloc::Global;
use std::marker::Model;

/// How many keys stand in a row.
const ROW: usize = 8;

/// How many transactions there may be.
const PLACES: u64 = 1 << 22;

/// What stands where there is no key.
const NO_KEY: u64 = (1 << 63) - 1;

/// The tick of a transaction that has none, which no release has.
pub const NO_TICK: Tick = NO_KEY / PLACES;

/// The tick of the first release of each transaction. Kept are keys, by which ticks come in order, and of equal ticks the lower
/// transaction first; of each eight of these the least; and the least of all. There are whole rows of eight, and whole rows of
/// eight of their least keys. A change looks at one row, and at the least keys of all rows where that of its row changes: at 16
/// keys for up to 64 transactions, and at 8 more for each 64 further ones.
#[derive(Drop)]
pub struct Heads {
    keys: Vec<u64>,
    leasts: Vec<u64>,
    least: u64,
    tick: Tick,
}

impl Model for Heads {
    ghost use Rattle.std.specs.Prelude.{◌≡◌, ℕ, map, List as Many};
    ghost use Rattle.release_calendar.specs.Heads.{tick_of, AreKeys, AreLeasts};

    ghost Value = { Many ℕ };

    ghost view = { λ c. map tick_of c.keys.items };

    ghost invariant = { λ c. AreKeys c.keys.items × AreLeasts c.keys.items c.leasts.items c.least × (c.tick ≡ tick_of c.least) };
}

/// The key of a transaction and its tick.
#[inline(always)]
fn key(tx: usize, tick: Tick) -> u64
    requires tx { tx < 2 ^ 22 }
    requires tick { tick ≤ no_tick }
    ensures { result ≡ key_of tx tick }
{
    tick * PLACES + tx as u64
}

impl Heads {
    /// No tick for any of at least so many transactions. Err comes also where there are more than 2^22.
    pub fn new(alloc: Global, transactions: usize) -> Result<Heads, OutOfMemory>
        ensures size { IfOk result (λ h. transactions ≤ length h) }
        ensures none { IfOk result (λ h. (tx : ℕ) → tick_at h tx ≡ no_tick) }
    {
        if PLACES < transactions as u64 {
            return Err(OutOfMemory);
        }
        let rows = (transactions.saturating_sub(1) / 64 + 1) * ROW;
        let keys = vec![in alloc; NO_KEY; rows * ROW]?;
        let leasts = vec![in alloc; NO_KEY; rows]?;
        Ok(Heads {
            keys,
            leasts,
            least: NO_KEY,
            tick: NO_TICK,
        })
    }

    /// The least tick, by one look.
    pub fn least(&self) -> Tick
        ensures { IsLeast self.now result }
    {
        self.tick
    }

    /// The first transaction with this tick, if that is the least and there is one. It costs one look.
    #[inline(always)]
    pub fn first_at(&self, tick: Tick) -> Option<usize>
        ensures { IfSome result (λ tx. IsFirstLeast self.now tx × (tick_at self.now tx ≡ tick) × (tick < no_tick)) }
    {
        if self.tick == tick && tick < NO_TICK {
            Some((self.least % PLACES) as usize)
        } else {
            None
        }
    }

    /// Notes the tick of a transaction that has none. It costs two comparisons.
    #[inline(always)]
    pub fn put(&mut self, tx: usize, tick: Tick)
        requires tx { tx < length self.old }
        requires none { tick_at self.old tx ≡ no_tick }
        requires tick { tick < no_tick }
        ensures { self.new ≡ slice_set self.old tx tick }
    {
        let least = self.least;
        let row = tx / ROW;
        let key = key(tx, tick);
        self.keys[tx] = key;
        self.leasts[row] = lower(self.leasts[row], key);
        self.least = lower(least, key);
        self.tick = self.least / PLACES;
    }

    /// Notes the tick of a transaction, and finds the least anew: of its row, and where that changes, of the rows.
    #[inline(always)]
    pub fn set(&mut self, tx: usize, tick: Tick)
        requires tx { tx < length self.old }
        requires tick { tick ≤ no_tick }
        ensures { self.new ≡ slice_set self.old tx tick }
    {
        let row = tx / ROW;
        let keys = &mut self.keys;
        keys[tx] = key(tx, tick);
        let least = least_of(keys, ROW * row);
        if least != self.leasts[row] {
            self.leasts[row] = least;
            self.least = least_of_all(&self.leasts);
            self.tick = self.least / PLACES;
        }
    }
}

/// The lower of two keys. They are compared as signed numbers, which costs less where several are at once.
#[inline(always)]
fn lower(a: u64, b: u64) -> u64
    requires first { a ≤ no_key }
    requires second { b ≤ no_key }
    ensures { result ≡ min a b }
{
    if (a as i64) < (b as i64) { a } else { b }
}

/// The least of the eight keys from a place on.
#[inline(always)]
fn least_of(keys: &[u64], from: usize) -> u64
    requires room { from + 8 ≤ length keys.now }
    requires low { (k : ℕ) (d : ℕ) → k < length keys.now → slice_index_or keys.now k d ≤ no_key }
    ensures { IsLeastOf keys.now from 8 result }
{
    let low = lower(
        lower(keys[from], keys[from + 1]),
        lower(keys[from + 2], keys[from + 3]),
    );
    let high = lower(
        lower(keys[from + 4], keys[from + 5]),
        lower(keys[from + 6], keys[from + 7]),
    );
    lower(low, high)
}

/// The least of all keys, which are whole rows and one row at least.
#[inline(always)]
fn least_of_all(keys: &[u64]) -> u64
    requires rows { (rows : ℕ) × (length keys.now ≡ 8 * (rows + 1)) }
    requires low { (k : ℕ) (d : ℕ) → k < length keys.now → slice_index_or keys.now k d ≤ no_key }
    ensures { IsLeastOf keys.now 0 (length keys.now) result }
{
    let mut least = least_of(keys, 0);
    for row in 1..keys.len() / ROW {
        least = lower(least, least_of(keys, ROW * row));
    }
    least
}
