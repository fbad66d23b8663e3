//! A seat's tries while another seat has the turn: they are told Busy, and answered after the turn is given back.
ghost use Rattle.std.specs.Prelude.{◌≡◌, ◌+◌, ◌<◌, Some, true, length};
ghost use Rattle.rt_base.specs.declared.ids.TxId.{TxId as Transaction};
ghost use Rattle.shared_plant.specs.Seats.{IsOf};
ghost use Rattle.shared_plant.specs.Answers.{missed_once};

use crate::house::{House, Opens, house_over};
use board::{Board, IdleReply, StepReply};
use item_model::Items;
use rt_base::{ItemId, JobId, Op, Outcome, PlanRefused, Tick, TxId, Value};
use shared_plant::{Plant, Seat, Tried};
use std::alloc::Global;
use std::sync::Arc;
use std::sync::atomic::{AtomicU64, Ordering};
use std::thread;
use std::thread::{Threads, join};
use step_journal::Entry;
use txn_set::CompiledSet;

const TEMP: ItemId = ItemId(0);

// How far two threads are: one is inside a call of the board, and then the other has made its tries.
const INSIDE: u64 = 1;

const TRIED: u64 = 2;

// So many yields are more than a thread takes to start.
const YIELDS: u64 = 1 << 24;

fn wait_for(stage: &AtomicU64, wanted: u64) {
    for _ in 0..YIELDS {
        if stage.load(Ordering::SeqCst) >= wanted {
            return;
        }
        thread::yield_now();
    }
}

// A board whose first peek ends when another thread has made its tries.
#[derive(Drop)]
struct Held<B: Board> {
    board: B,
    stage: Arc<AtomicU64, Global>,
}

impl<B: Board> Board for Held<B> {
    ghost stands = { λ h history. B.stands h.board history };

    ghost set = { λ h. B.set h.board };

    ghost room = { λ h. B.room h.board };

    ghost first = { λ h. B.first h.board };

    ghost kept = { λ h. B.kept h.board };

    ghost is_history = { λ h history s. B.is_history h.board history s };

    fn plan(&mut self, tx: TxId, tick: Tick) -> Result<JobId, PlanRefused> {
        self.board.plan(tx, tick)
    }

    fn plan_next(&mut self, tx: TxId) -> Result<(JobId, Tick), PlanRefused> {
        self.board.plan_next(tx)
    }

    fn step(&mut self, job: JobId, op: Op) -> StepReply {
        self.board.step(job, op)
    }

    fn ask(&mut self, job: JobId, op: Op) -> Option<Outcome> {
        self.board.ask(job, op)
    }

    fn compute(&mut self, job: JobId) -> bool {
        self.board.compute(job)
    }

    fn idle(&mut self) -> IdleReply {
        self.board.idle()
    }

    fn peek(&self, item: ItemId) -> (Value, Tick) {
        if self.stage.load(Ordering::SeqCst) == 0 {
            self.stage.store(INSIDE, Ordering::SeqCst);
            wait_for(&self.stage, TRIED);
        }
        self.board.peek(item)
    }

    fn now(&self) -> Tick {
        self.board.now()
    }

    fn running(&self) -> Option<JobId> {
        self.board.running()
    }

    fn pending(&self, tx: TxId) -> Option<JobId> {
        self.board.pending(tx)
    }

    fn ended(&self, tx: TxId) -> u32 {
        self.board.ended(tx)
    }

    fn planned(&self) -> usize {
        self.board.planned()
    }

    fn room(&self) -> usize {
        self.board.room()
    }

    fn entries(&self) -> &[Entry] {
        self.board.entries()
    }

    fn set(&self) -> &CompiledSet {
        self.board.set()
    }

    fn drain(&mut self, most: usize, into: &mut Vec<Entry>) -> usize {
        self.board.drain(most, into)
    }

    fn discard(&mut self) {
        self.board.discard();
    }

    fn first(&self) -> u64 {
        self.board.first()
    }

    fn count(&self) -> u64 {
        self.board.count()
    }

    fn into_parts(self) -> (Items, Vec<Entry>) {
        let Held { board, stage: _ } = self;
        board.into_parts()
    }
}

// Whether the turn was taken at a step; the seat has then missed it.
fn is_step_busy<B: Board>(plant: &Plant<B>, seat: &mut Seat<B>) -> bool
    requires { IsOf plant.now seat.old × ((tx : Transaction) × (seat.old.tx ≡ Some tx)) }
    ensures same { (seat.new.plant ≡ seat.old.plant) × (seat.new.tx ≡ seat.old.tx) }
    ensures missed { result ≡ true → seat.new ≡ missed_once seat.old }
{
    match plant.try_step(seat, 0, Op::Read(TEMP)) {
        Tried::Said(_) => false,
        Tried::Busy => true,
    }
}

// Whether the turn was taken at a peek; the seat has then missed it.
fn is_peek_busy<B: Board>(plant: &Plant<B>, seat: &mut Seat<B>) -> bool
    requires { IsOf plant.now seat.old × (0 < length plant.now.set.items) }
    ensures same { (seat.new.plant ≡ seat.old.plant) × (seat.new.tx ≡ seat.old.tx) }
    ensures missed { result ≡ true → seat.new ≡ missed_once seat.old }
{
    match plant.try_peek(seat, TEMP) {
        Tried::Said(_) => false,
        Tried::Busy => true,
    }
}

// Whether a peek was answered with the item as it was at the start; the seat has then had the turn once more.
fn is_peeked<B: Board>(plant: &Plant<B>, seat: &mut Seat<B>) -> bool
    requires { IsOf plant.now seat.old × (0 < length plant.now.set.items) }
    ensures same { (seat.new.plant ≡ seat.old.plant) × (seat.new.tx ≡ seat.old.tx) }
    ensures turns { result ≡ true → seat.new.turns ≡ seat.old.turns + 1 }
{
    match plant.try_peek(seat, TEMP) {
        Tried::Said(stored) => stored == (0, 0),
        Tried::Busy => false,
    }
}

// Once the other thread has the turn: whether a step and a peek are both told that it is taken. The seat has then missed it
// twice, and nothing else of it has changed.
fn try_twice<B: Board>(plant: &Plant<B>, seat: &mut Seat<B>, stage: &AtomicU64) -> bool
    requires seat { IsOf plant.now seat.old × ((tx : Transaction) × (seat.old.tx ≡ Some tx)) }
    requires item { 0 < length plant.now.set.items }
    ensures same { (seat.new.plant ≡ seat.old.plant) × (seat.new.tx ≡ seat.old.tx) }
    ensures missed { result ≡ true → seat.new ≡ missed_once (missed_once seat.old) }
{
    wait_for(stage, INSIDE);
    let step_is_busy = is_step_busy(plant, seat);
    let peek_is_busy = is_peek_busy(plant, seat);
    stage.store(TRIED, Ordering::SeqCst);
    step_is_busy && peek_is_busy
}

fn peek_as<B: Board>(plant: &Plant<B>, mut seat: Seat<B>) -> (Seat<B>, bool)
    requires { IsOf plant.now seat × (0 < length plant.now.set.items) }
    ensures { (result.0.plant ≡ seat.plant) × (result.0.tx ≡ seat.tx) }
{
    let peeked = is_peeked(plant, &mut seat);
    (seat, peeked)
}

fn try_as<B: Board>(plant: &Plant<B>, mut seat: Seat<B>, stage: &AtomicU64) -> (Seat<B>, bool)
    requires { IsOf plant.now seat × (0 < length plant.now.set.items) }
    ensures { (result.0.plant ≡ seat.plant) × (result.0.tx ≡ seat.tx) }
{
    match seat.tx() {
        Some(_) => {
            let busy = try_twice(plant, &mut seat, stage);
            (seat, busy)
        }
        None => (seat, false),
    }
}

// Whether a seat's peek and its step are answered.
fn is_told<B: Board>(plant: &Plant<B>, seat: &mut Seat<B>) -> (bool, bool)
    requires { IsOf plant.now seat.old × (0 < length plant.now.set.items) }
{
    let peeked = is_peeked(plant, seat);
    match seat.tx() {
        Some(_) => (peeked, !is_step_busy(plant, seat)),
        None => (peeked, false),
    }
}

// One thread peeks by the sampler's seat, and within that call another tries a step and a peek by the controller's: whether
// the first was answered, both tries were told Busy, and the controller's peek and step are answered after it.
fn told_by_two<R: Threads, B: Board + Send + Drop>(
    rt: &R,
    house: House<B>,
    stage: &AtomicU64,
) -> [bool; 4] {
    let House {
        plant,
        operator,
        sample,
        control,
        logger,
    } = house;
    drop(operator);
    drop(logger);
    let ((sample, peeked), (mut control, busy)) = join(
        rt,
        || -> (Seat<B>, bool)
            requires { IsOf plant sample × (0 < length plant.set.items) }
            ensures { (result.0.plant ≡ sample.plant) × (result.0.tx ≡ sample.tx) }
        { peek_as(&plant, sample) },
        || -> (Seat<B>, bool)
            requires { IsOf plant control × (0 < length plant.set.items) }
            ensures { (result.0.plant ≡ control.plant) × (result.0.tx ≡ control.tx) }
        { try_as(&plant, control, stage) },
    );
    drop(sample);
    let (again, stepped) = is_told(&plant, &mut control);
    drop(control);
    drop(plant);
    [peeked, busy, again, stepped]
}

/// What two threads are told of which one tries while the other has the turn.
pub fn told_while_held<R: Threads, B: Opens + Send + Drop>(
    rt: &R,
    alloc: Global,
    set: &CompiledSet,
) -> Option<[bool; 4]> {
    let stage = Arc::new(alloc, AtomicU64::new(0)).ok()?;
    let inside = Arc::try_clone(&stage).ok()?;
    let board = Held {
        board: B::open(alloc, set)?,
        stage: inside,
    };
    let house = house_over(alloc, board)?;
    Some(told_by_two(rt, house, &stage))
}
