//! Planned releases: worked calls, and many calls beside a plain scan.
ghost use Rattle.std.specs.Prelude.{◌≡◌, ◌<◌, length};

use rand::RngExt;
use rand_pcg::Pcg32;
use release_calendar::Calendar;
use rt_base::{JobId, OutOfMemory, PlanRefused, Tick, TxId};

const SLOW: TxId = TxId(0);

const FAST: TxId = TxId(1);

fn job(tx: TxId, serial: u32) -> Option<JobId> {
    Some(JobId { tx, serial })
}

// Each cause is answered where no earlier one holds.
#[test]
fn refusals(rt: HostRuntime) -> Result<(), OutOfMemory> {
    let periods = Vec::from_array(rt.alloc(), [10, 5])?;
    let mut calendar = Calendar::new(rt.alloc(), periods, 1)?;
    assert!(rt; calendar.plan(SLOW, 20, 0) == Ok(0));
    for (tick, now, want) in [
        (5, 6, PlanRefused::Past { now: 6 }),
        (29, 6, PlanRefused::TooSoon { earliest: 30 }),
        ((1 << 40) + 1, 6, PlanRefused::TooFar { limit: 1 << 40 }),
        (1 << 40, 6, PlanRefused::CalendarFull { room: 1 }),
    ] {
        assert!(rt; calendar.check(SLOW, tick, now) == Err(want));
    }
    assert!(rt; calendar.due(20) == job(SLOW, 0));
    assert!(rt; calendar.check(SLOW, 30, 20) == Ok(1));
    drop(calendar);
    Ok(())
}

// Releases of one tick come by transaction, also where an earlier tick still has one.
#[test]
fn releases(rt: HostRuntime) -> Result<(), OutOfMemory> {
    let periods = Vec::from_array(rt.alloc(), [10, 5])?;
    let mut calendar = Calendar::new(rt.alloc(), periods, 4)?;
    assert!(rt; calendar.plan(FAST, 7, 0) == Ok(0));
    assert!(rt; calendar.plan(SLOW, 7, 0) == Ok(0));
    assert!(rt; calendar.next_for(FAST, 0) == 12);
    assert!(rt; calendar.plan_next(FAST, 0) == Ok((1, 12)));
    assert!(rt; calendar.waiting() == 3);
    assert!(rt; calendar.next_tick() == Some(7));
    for (tick, want) in [
        (12, job(FAST, 1)),
        (7, job(SLOW, 0)),
        (7, job(FAST, 0)),
        (7, None),
    ] {
        assert!(rt; calendar.due(tick) == want);
    }
    assert!(rt; calendar.next_tick() == None);
    drop(calendar);
    Ok(())
}

const PERIODS: [Tick; 3] = [10, 5, 7];

const ROOM: usize = 5;

// The calendar's rule over places: of each transaction how many were planned and for which tick the last, and the releases.
#[derive(Clone, Copy)]
struct Plain {
    plans: [(u32, Tick); 3],
    planned: [Option<(JobId, Tick)>; 5],
}

impl Plain {
    fn earliest(&self, tx: TxId) -> Tick
        requires { tx.0 < 3 }
    {
        let (number, last) = self.plans[tx.0 as usize];
        if number == 0 {
            0
        } else {
            last.saturating_add(PERIODS[tx.0 as usize])
        }
    }

    fn plan(&mut self, tx: TxId, tick: Tick, now: Tick) -> Result<u32, PlanRefused>
        requires { tx.0 < 3 }
    {
        let earliest = self.earliest(tx);
        let (serial, _) = self.plans[tx.0 as usize];
        if tick < now {
            return Err(PlanRefused::Past { now });
        }
        if tick < earliest {
            return Err(PlanRefused::TooSoon { earliest });
        }
        if tick > 1 << 40 {
            return Err(PlanRefused::TooFar { limit: 1 << 40 });
        }
        for i in 0..ROOM {
            if self.planned[i] == None {
                self.planned[i] = Some((JobId { tx, serial }, tick));
                self.plans[tx.0 as usize] = (serial.saturating_add(1), tick);
                return Ok(serial);
            }
        }
        Err(PlanRefused::CalendarFull { room: ROOM })
    }

    fn due(&mut self, tick: Tick) -> Option<JobId> {
        for tx in 0..3 {
            for i in 0..ROOM {
                if let Some((job, at)) = self.planned[i] {
                    if at == tick && job.tx.0 == tx {
                        self.planned[i] = None;
                        return Some(job);
                    }
                }
            }
        }
        None
    }

    // How many are planned, and for which tick the first.
    fn waiting(&self) -> (usize, Option<Tick>) {
        let mut number: usize = 0;
        let mut first = None;
        for i in 0..ROOM {
            if let Some((_, tick)) = self.planned[i] {
                number = number.saturating_add(1);
                first = Some(tick.min(first.unwrap_or(tick)));
            }
        }
        (number, first)
    }
}

// Whether both answer one call alike, and tell the same of what is planned then.
fn alike(calendar: &mut Calendar, plain: &mut Plain, rng: &mut Pcg32, now: Tick) -> bool
    requires { length calendar.old.periods ≡ 3 }
    ensures { calendar.new.periods ≡ calendar.old.periods }
{
    let tx = TxId(rng.random_range(0..3u32));
    let tick = now
        .saturating_add(rng.random_range(0..20u64))
        .saturating_sub(2);
    let same = match rng.random_range(0..5u64) {
        0 => calendar.plan(tx, tick, now) == plain.plan(tx, tick, now),
        1 => {
            let next = now.max(plain.earliest(tx));
            match (calendar.plan_next(tx, now), plain.plan(tx, next, now)) {
                (Ok(planned), Ok(serial)) => planned == (serial, next),
                (Err(refused), Err(other)) => refused == other,
                _ => false,
            }
        }
        2 => calendar.due(tick) == plain.due(tick),
        _ => {
            let (_, first) = plain.waiting();
            let first = first.unwrap_or(tick);
            calendar.due(first) == plain.due(first)
        }
    };
    same && (calendar.waiting(), calendar.next_tick()) == plain.waiting()
}

#[test]
fn beside_a_plain_scan(rt: HostRuntime) -> Result<(), OutOfMemory> {
    let periods = Vec::from_array(rt.alloc(), PERIODS)?;
    let mut calendar = Calendar::new(rt.alloc(), periods, ROOM)?;
    let mut plain = Plain {
        plans: [(0, 0); 3],
        planned: [None; 5],
    };
    let mut rng = Pcg32::new(1, 1);
    let mut now = 0;
    for call in 0..400 {
        let same = alike(&mut calendar, &mut plain, &mut rng, now);
        assert!(rt; same, "call {call}");
        now = now.saturating_add(rng.random_range(0..3u64));
    }
    drop(calendar);
    Ok(())
}
