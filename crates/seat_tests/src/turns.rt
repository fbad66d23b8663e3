//! What each seat does on a thread of its own: a sampler, a controller and a logger run their jobs, and the operator drains.
//! Each goes on until its jobs are over, and makes so many tries at most, so that it ends whatever the others do.
ghost use Rattle.std.specs.Prelude.{◌≡◌, Some, None};
ghost use Rattle.shared_plant.specs.Seats.{IsOf};
ghost use Rattle.rt_base.specs.declared.ids.TxId.{TxId as Transaction};

use crate::calls::{drained, idled, replied};
use crate::house::{House, closed};
use crate::progress::Progress;
use board::{Board, StepReply};
use rt_base::{JobId, Op, Tick, TxId};
use shared_plant::{Plant, Seat};
use std::alloc::Global;
use std::thread;
use std::thread::{Threads, join};
use step_journal::Entry;

// Far more than a caller needs, even where another's thread starts late.
const TRIES: u32 = 1 << 24;

const DRAINS: u32 = 10_000;

/// The releases of the sampler, the controller and the logger.
pub const PLANS: [(u32, Tick); 7] = [(0, 0), (0, 10), (0, 20), (0, 30), (1, 0), (1, 20), (2, 0)];

/// A seat with what its caller keeps: the entries that its calls appended, with 0 for the tick, or those that it drained; and
/// how many of its operations were refused for good.
#[derive(Drop)]
struct Caller<B: Board> {
    seat: Seat<B>,
    kept: Vec<Entry>,
    refused: u32,
}

fn note(kept: &mut Vec<Entry>, entry: Entry) {
    if kept.len() < kept.capacity() {
        kept.push_reserved(entry);
    }
}

// The entry that a reply tells of, with 0 for the tick.
fn told(job: JobId, op: Op, reply: StepReply) -> Option<Entry> {
    let tick = 0;
    match reply {
        StepReply::Done { outcome, over } => Some(Entry::Step {
            job,
            op,
            outcome,
            over,
            tick,
        }),
        StepReply::Blocked { by, ceiling } => Some(Entry::Blocked {
            job,
            op,
            by,
            ceiling,
            tick,
        }),
        _ => None,
    }
}

// How far the caller is after a reply; where its job is not released yet the time goes on.
fn after<B: Board>(
    plant: &Plant<B>,
    caller: &mut Caller<B>,
    reply: Option<StepReply>,
    now: Progress,
) -> Progress
    requires { IsOf plant.now caller.old.seat }
    ensures { (caller.new.seat.plant ≡ caller.old.seat.plant) × (caller.new.seat.tx ≡ caller.old.seat.tx) }
{
    match reply {
        Some(StepReply::Done { outcome, over }) => now.after(outcome, over),
        Some(
            StepReply::Undeclared { .. } | StepReply::TooEarly { .. } | StepReply::Unwritten { .. },
        ) => now.after_refusal(),
        Some(StepReply::NoJob { ended, last: _ }) => {
            if ended > now.serial {
                return now.of(ended);
            }
            if let Some(to) = idled(plant, &mut caller.seat) {
                note(&mut caller.kept, Entry::Idle { from: 0, to });
            }
            now
        }
        _ => {
            thread::yield_now();
            now
        }
    }
}

// One try of a transaction's caller.
fn try_once<B: Board>(plant: &Plant<B>, caller: &mut Caller<B>, tx: TxId, now: Progress) -> Progress
    requires { IsOf plant.now caller.old.seat × ((tx : Transaction) × (caller.old.seat.tx ≡ Some tx)) }
    ensures { (caller.new.seat.plant ≡ caller.old.seat.plant) × (caller.new.seat.tx ≡ caller.old.seat.tx) }
{
    let op = now.op(tx);
    let job = JobId {
        tx,
        serial: now.serial,
    };
    let reply = replied(plant, &mut caller.seat, now.serial, op);
    if let Some(reply) = reply
        && let Some(entry) = told(job, op, reply)
    {
        note(&mut caller.kept, entry);
    }
    after(plant, caller, reply, now)
}

// How many jobs of a transaction `PLANS` has.
fn jobs_of(tx: TxId) -> u32 {
    match tx.0 {
        0 => 4,
        1 => 2,
        _ => 1,
    }
}

fn make_steps<B: Board>(plant: &Plant<B>, caller: &mut Caller<B>, tx: TxId, is_hostile: bool)
    requires { IsOf plant.now caller.old.seat × ((tx : Transaction) × (caller.old.seat.tx ≡ Some tx)) }
    ensures { (caller.new.seat.plant ≡ caller.old.seat.plant) × (caller.new.seat.tx ≡ caller.old.seat.tx) }
{
    let mut now = Progress::new(is_hostile);
    for _ in 0..TRIES {
        if now.serial >= jobs_of(tx) {
            break;
        }
        now = try_once(plant, caller, tx, now);
    }
    caller.refused = now.refused;
}

fn drain_often<B: Board>(plant: &Plant<B>, caller: &mut Caller<B>)
    requires { IsOf plant.now caller.old.seat × (caller.old.seat.tx ≡ None) }
    ensures { (caller.new.seat.plant ≡ caller.old.seat.plant) × (caller.new.seat.tx ≡ caller.old.seat.tx) }
{
    for _ in 0..DRAINS {
        drained(plant, &mut caller.seat, 3, &mut caller.kept);
        thread::yield_now();
    }
}

// A caller that takes its turns.
fn after_turns<B: Board>(plant: &Plant<B>, mut caller: Caller<B>, is_hostile: bool) -> Caller<B>
    requires { IsOf plant.now caller.seat }
    ensures { (result.seat.plant ≡ caller.seat.plant) × (result.seat.tx ≡ caller.seat.tx) }
{
    match caller.seat.tx() {
        Some(tx) => make_steps(plant, &mut caller, tx, is_hostile),
        None => drain_often(plant, &mut caller),
    }
    caller
}

// Two callers at once.
fn two_turns<R: Threads, B: Board + Send>(
    rt: &R,
    plant: &Plant<B>,
    a: Caller<B>,
    b: Caller<B>,
    is_hostile: bool,
) -> (Caller<B>, Caller<B>)
    requires { IsOf plant.now a.seat × IsOf plant.now b.seat }
    ensures a { (result.0.seat.plant ≡ a.seat.plant) × (result.0.seat.tx ≡ a.seat.tx) }
    ensures b { (result.1.seat.plant ≡ b.seat.plant) × (result.1.seat.tx ≡ b.seat.tx) }
{
    join(
        rt,
        || -> Caller<B>
            requires { IsOf plant.now a.seat }
            ensures { (result.seat.plant ≡ a.seat.plant) × (result.seat.tx ≡ a.seat.tx) }
        { after_turns(plant, a, is_hostile) },
        || -> Caller<B>
            requires { IsOf plant.now b.seat }
            ensures { (result.seat.plant ≡ b.seat.plant) × (result.seat.tx ≡ b.seat.tx) }
        { after_turns(plant, b, is_hostile) },
    )
}

/// What the operator drained, what the three callers kept, and how many operations of theirs were refused for good.
#[derive(Drop)]
pub struct Kept {
    pub drained: Vec<Entry>,
    pub sample: Vec<Entry>,
    pub control: Vec<Entry>,
    pub logger: Vec<Entry>,
    pub refused: [u32; 3],
}

fn book(alloc: Global) -> Option<Vec<Entry>> {
    Vec::with_capacity(alloc, 4096).ok()
}

fn new_kept(alloc: Global) -> Option<Kept> {
    Some(Kept {
        drained: book(alloc)?,
        sample: book(alloc)?,
        control: book(alloc)?,
        logger: book(alloc)?,
        refused: [0, 0, 0],
    })
}

fn new_caller<B: Board>(seat: Seat<B>, kept: Vec<Entry>) -> Caller<B>
    ensures { result.seat ≡ seat }
{
    Caller {
        seat,
        kept,
        refused: 0,
    }
}

/// Plans the releases, and lets all callers take their turns at once: the board that was left, and what was drained and kept.
pub fn take_turns<R: Threads + Sync, B: Board + Send + Drop>(
    rt: &R,
    alloc: Global,
    mut house: House<B>,
    is_hostile: bool,
) -> Option<(B, Kept)> {
    let kept = new_kept(alloc)?;
    if !house.plan_each(&PLANS) {
        return None;
    }
    let House {
        plant,
        operator,
        sample,
        control,
        logger,
    } = house;
    let (o, s) = (
        new_caller(operator, kept.drained),
        new_caller(sample, kept.sample),
    );
    let (c, l) = (
        new_caller(control, kept.control),
        new_caller(logger, kept.logger),
    );
    let ((o, s), (c, l)) = join(
        rt,
        || -> (Caller<B>, Caller<B>)
            requires { IsOf plant o.seat × IsOf plant s.seat }
            ensures o { (result.0.seat.plant ≡ o.seat.plant) × (result.0.seat.tx ≡ o.seat.tx) }
            ensures s { (result.1.seat.plant ≡ s.seat.plant) × (result.1.seat.tx ≡ s.seat.tx) }
        { two_turns(rt, &plant, o, s, is_hostile) },
        || -> (Caller<B>, Caller<B>)
            requires { IsOf plant c.seat × IsOf plant l.seat }
            ensures c { (result.0.seat.plant ≡ c.seat.plant) × (result.0.seat.tx ≡ c.seat.tx) }
            ensures l { (result.1.seat.plant ≡ l.seat.plant) × (result.1.seat.tx ≡ l.seat.tx) }
        { two_turns(rt, &plant, c, l, is_hostile) },
    );
    let kept = Kept {
        drained: o.kept,
        sample: s.kept,
        control: c.kept,
        logger: l.kept,
        refused: [s.refused, c.refused, l.refused],
    };
    let house = House {
        plant,
        operator: o.seat,
        sample: s.seat,
        control: c.seat,
        logger: l.seat,
    };
    let (_, _, board) = closed(alloc, house)?;
    Some((board, kept))
}
