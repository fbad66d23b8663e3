//! The calendar.
ghost use Rattle.std.specs.Prelude.{◌≡◌, ℕ, ◌+◌, ◌*◌, ◌^◌, ◌<◌, ◌≤◌, [], ◌∷◌, List, false, max, length, replicate, slice_index_or, None, Some, IfOk, IfErr, OnErr, MatchResult, MatchOption, IsTrue};
ghost use Rattle.rt_base.specs.declared.release.Release.{Release};
ghost use Rattle.release_calendar.specs.Agenda.{Agenda, Holds, ArePeriods, no_plans, plans_of, earliest, refusal, next_for, IsPlanned, SamePlans, NothingDue, IsDue, left, least_tick, comes_later};

use crate::planned::Planned;
use crate::queues::Queues;
use rt_base::{JobId, OutOfMemory, PlanRefused, Plans, Tick, TxId};
use std::alloc::Global;
use std::marker::Model;

/// The latest tick for which a job may be planned.
const LAST_TICK: Tick = 1 << 40;

/// How many jobs of each transaction were planned and for which tick the last, and the planned releases that did not take
/// place yet: of each transaction in order, and the next of them at hand. Contracts speak of these releases as a list, whose
/// order may be that of the plans. No call after `new` takes memory.
#[derive(Drop)]
pub struct Calendar {
    periods: Vec<Tick>,
    plans: Vec<Plans>,
    planned: Queues,
}

impl Model for Calendar {
    ghost use Rattle.release_calendar.specs.Agenda.{Agenda as Kept};
    ghost use Rattle.release_calendar.specs.Queues.{releases, IsCalendar};

    ghost Value = { Kept };

    ghost view = { λ c. record { periods = c.periods.items; plans = c.plans.items; planned = releases c.planned.queues; room = c.planned.room } };

    ghost invariant = { λ c. IsCalendar (record { periods = c.periods.items; plans = c.plans.items; planned = releases c.planned.queues; room = c.planned.room }) c.planned.queues };
}

impl Calendar {
    /// Nothing planned, of transactions with these periods, each from 1 to 2^30 ticks. There is room for so many planned
    /// releases in all, and that room is reserved for each transaction. Err comes where a growth was refused, and for more than
    /// 2^22 transactions.
    pub fn new(alloc: Global, periods: Vec<Tick>, room: usize) -> Result<Calendar, OutOfMemory>
        requires { ArePeriods periods.items }
        ensures periods { IfOk result (λ c. c.periods ≡ periods.items) }
        ensures plans { IfOk result (λ c. c.plans ≡ replicate (length periods.items) no_plans) }
        ensures planned { IfOk result (λ c. c.planned ≡ []) }
        ensures room { IfOk result (λ c. c.room ≡ room) }
    {
        let planned = Queues::new(alloc, periods.len(), room)?;
        let mut plans = Vec::with_capacity(alloc, periods.len())?;
        for _ in 0..periods.len() {
            plans.push(Plans { number: 0, last: 0 })?;
        }
        Ok(Calendar {
            periods,
            plans,
            planned,
        })
    }

    /// The answer that `plan` would give; it changes nothing. The refusals are judged in the order of `PlanRefused`, and
    /// Full never comes.
    pub fn check(&self, tx: TxId, tick: Tick, now: Tick) -> Result<u32, PlanRefused>
        requires { tx.0 < length self.now.periods }
        ensures rule { MatchResult result (λ _. refusal self.now tx.0 tick now ≡ None) (λ refused. refusal self.now tx.0 tick now ≡ Some refused) }
        ensures serial { IfOk result (λ serial. serial ≡ (plans_of self.now tx.0).number) }
    {
        let earliest = self.earliest(tx);
        let number = self.plans[tx.0 as usize].number;
        if tick < now {
            Err(PlanRefused::Past { now })
        } else if tick < earliest {
            Err(PlanRefused::TooSoon { earliest })
        } else if LAST_TICK < tick {
            Err(PlanRefused::TooFar { limit: LAST_TICK })
        } else if self.planned.room() <= self.planned.waiting() {
            Err(PlanRefused::CalendarFull {
                room: self.planned.room(),
            })
        } else if u32::MAX <= number {
            Err(PlanRefused::NoSerial { planned: u32::MAX })
        } else {
            Ok(number)
        }
    }

    /// Plans the next job of a transaction for a tick, and answers its serial. A refusal changes nothing. It costs the same,
    /// however many transactions there are and releases are planned.
    pub fn plan(&mut self, tx: TxId, tick: Tick, now: Tick) -> Result<u32, PlanRefused>
        requires { tx.0 < length self.old.periods }
        ensures rule { MatchResult result (λ _. refusal self.old tx.0 tick now ≡ None) (λ refused. refusal self.old tx.0 tick now ≡ Some refused) }
        ensures serial { IfOk result (λ serial. serial ≡ (plans_of self.old tx.0).number) }
        ensures planned { IfOk result (λ _. IsPlanned self.old self.new tx.0 tick) }
        ensures periods { self.new.periods ≡ self.old.periods }
        ensures unchanged { OnErr result (self.new ≡ self.old) }
    {
        let serial = self.check(tx, tick, now)?;
        self.note(tx, serial, tick);
        Ok(serial)
    }

    /// The tick at which `plan_next` would plan: the greater of `now` and the last planned tick plus the period, or `now`
    /// where nothing was planned before.
    pub fn next_for(&self, tx: TxId, now: Tick) -> Tick
        requires { tx.0 < length self.now.periods }
        ensures { result ≡ next_for self.now tx.0 now }
    {
        now.max(self.earliest(tx))
    }

    /// Plans the next job of a transaction for the tick of `next_for`, and answers its serial and that tick. It is never
    /// refused as Past or TooSoon, and a refusal changes nothing.
    pub fn plan_next(&mut self, tx: TxId, now: Tick) -> Result<(u32, Tick), PlanRefused>
        requires { tx.0 < length self.old.periods }
        ensures rule { MatchResult result (λ _. refusal self.old tx.0 (next_for self.old tx.0 now) now ≡ None) (λ refused. refusal self.old tx.0 (next_for self.old tx.0 now) now ≡ Some refused) }
        ensures serial { IfOk result (λ planned. planned.0 ≡ (plans_of self.old tx.0).number) }
        ensures tick { IfOk result (λ planned. planned.1 ≡ next_for self.old tx.0 now) }
        ensures planned { IfOk result (λ _. IsPlanned self.old self.new tx.0 (next_for self.old tx.0 now)) }
        ensures periods { self.new.periods ≡ self.old.periods }
        ensures later { IfErr result (λ refused. IsTrue (comes_later refused)) }
        ensures unchanged { OnErr result (self.new ≡ self.old) }
    {
        let tick = self.next_for(tx, now);
        let serial = self.plan(tx, tick, now)?;
        Ok((serial, tick))
    }

    /// Whether a release may be planned for a tick. It costs one comparison, and is false wherever nothing is planned up to
    /// that tick.
    pub fn may_be_due(&self, tick: Tick) -> bool
        ensures { (planned : List Release) → Holds self.now planned → result ≡ false → NothingDue tick planned }
    {
        self.planned.may_have(tick)
    }

    /// Takes out one release that is planned for a tick, the one with the least transaction number; None exactly where there
    /// is none. It costs one comparison where nothing is planned up to that tick. Where nothing is planned before it, it costs
    /// at most 16 looks for up to 64 transactions, and at most 8 more for each 64 further ones. Else it goes over the planned
    /// releases.
    pub fn due(&mut self, tick: Tick) -> Option<JobId>
        ensures due { (planned : List Release) → Holds self.old planned → MatchOption result (NothingDue tick planned) (IsDue tick planned) }
        ensures left { (planned : List Release) → Holds self.old planned → Holds self.new (left tick result planned) }
        ensures rest { SamePlans self.old self.new }
    {
        match self.planned.first_at(tick) {
            Some(place) => Some(self.planned.take(place).job()),
            None => self.due_later(tick),
        }
    }

    #[inline(never)]
    fn due_later(&mut self, tick: Tick) -> Option<JobId>
        ensures due { (planned : List Release) → Holds self.old planned → MatchOption result (NothingDue tick planned) (IsDue tick planned) }
        ensures left { (planned : List Release) → Holds self.old planned → Holds self.new (left tick result planned) }
        ensures rest { SamePlans self.old self.new }
    {
        let place = self.planned.place_at(tick)?;
        Some(self.planned.take(place).job())
    }

    /// The least planned tick, by one look; None exactly where nothing is planned.
    pub fn next_tick(&self) -> Option<Tick>
        ensures { (planned : List Release) → Holds self.now planned → result ≡ least_tick planned }
    {
        self.planned.first()
    }

    /// How many releases are planned and did not take place yet.
    pub fn waiting(&self) -> usize
        ensures { (planned : List Release) → Holds self.now planned → result ≡ length planned }
    {
        self.planned.waiting()
    }

    /// Plans the next job of a transaction for a tick for which `check` does not refuse it, without a second check, and answers
    /// its serial.
    pub fn plan_free(&mut self, tx: TxId, tick: Tick) -> u32
        requires tx { tx.0 < length self.old.periods }
        requires free { (now : ℕ) × (refusal self.old tx.0 tick now ≡ None) }
        ensures serial { result ≡ (plans_of self.old tx.0).number }
        ensures planned { IsPlanned self.old self.new tx.0 tick }
        ensures periods { self.new.periods ≡ self.old.periods }
    {
        let serial = self.plans[tx.0 as usize].number;
        self.note(tx, serial, tick);
        serial
    }

    fn earliest(&self, tx: TxId) -> Tick
        requires { tx.0 < length self.now.periods }
        ensures { result ≡ earliest self.now tx.0 }
    {
        let plans = self.plans[tx.0 as usize];
        if plans.number == 0 {
            0
        } else {
            plans.last + self.periods[tx.0 as usize]
        }
    }

    fn note(&mut self, tx: TxId, serial: u32, tick: Tick)
        requires tx { tx.0 < length self.old.periods }
        requires room { length self.old.planned < self.old.room }
        requires serial { serial ≡ (plans_of self.old tx.0).number }
        requires number { serial + 1 < 2 ^ 32 }
        requires early { earliest self.old tx.0 ≤ tick }
        requires tick { tick ≤ 2 ^ 40 }
        ensures { IsPlanned self.old self.new tx.0 tick }
    {
        self.plans[tx.0 as usize] = Plans {
            number: serial + 1,
            last: tick,
        };
        self.planned.put(Planned::of(tx, serial, tick));
    }
}
