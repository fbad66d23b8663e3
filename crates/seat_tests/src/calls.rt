//! What a caller asks at a seat, and what it is told.
ghost use Rattle.std.specs.Prelude.{◌≡◌, ◌<◌, Some, None, length};
ghost use Rattle.shared_plant.specs.Seats.{IsOf};
ghost use Rattle.rt_base.specs.declared.ids.TxId.{TxId as Transaction};

use crate::house::House;
use board::{Board, IdleReply, StepReply};
use rt_base::{ItemId, Op, Tick, TxId, Value};
use shared_plant::{Plant, Seat, Tried};
use std::fmt::Debug;
use std::sync::Wait;
use step_journal::Entry;

/// Whether the plan was granted.
pub fn is_planned<B: Board>(plant: &Plant<B>, seat: &mut Seat<B>, tx: TxId, tick: Tick) -> bool
    requires { IsOf plant.now seat.old × (tx.0 < length plant.now.set.txns) }
    ensures { (seat.new.plant ≡ seat.old.plant) × (seat.new.tx ≡ seat.old.tx) }
{
    match plant.try_plan(seat, tx, tick) {
        Tried::Said(Ok(_)) => true,
        _ => false,
    }
}

/// The stored value and stamp of the first item; None where the turn was taken.
pub fn peeked<B: Board>(plant: &Plant<B>, seat: &mut Seat<B>) -> Option<(Value, Tick)>
    requires { IsOf plant.now seat.old × (0 < length plant.now.set.items) }
    ensures { (seat.new.plant ≡ seat.old.plant) × (seat.new.tx ≡ seat.old.tx) }
{
    match plant.try_peek(seat, ItemId(0)) {
        Tried::Said(stored) => Some(stored),
        Tried::Busy => None,
    }
}

/// What a step is answered; None where the turn was taken.
pub fn replied<B: Board>(
    plant: &Plant<B>,
    seat: &mut Seat<B>,
    serial: u32,
    op: Op,
) -> Option<StepReply>
    requires { IsOf plant.now seat.old × ((tx : Transaction) × (seat.old.tx ≡ Some tx)) }
    ensures { (seat.new.plant ≡ seat.old.plant) × (seat.new.tx ≡ seat.old.tx) }
{
    match plant.try_step(seat, serial, op) {
        Tried::Said(reply) => Some(reply),
        Tried::Busy => None,
    }
}

// What a step is answered, where it is tried until the board answers.
fn waited<R: Wait, B: Board>(
    rt: &R,
    plant: &Plant<B>,
    seat: &mut Seat<B>,
    serial: u32,
    op: Op,
) -> StepReply
    requires { IsOf plant.now seat.old × ((tx : Transaction) × (seat.old.tx ≡ Some tx)) }
    ensures { (seat.new.plant ≡ seat.old.plant) × (seat.new.tx ≡ seat.old.tx) }
{
    plant.step(rt, seat, serial, op)
}

/// How many entries were drained.
pub fn drained<B: Board>(
    plant: &Plant<B>,
    seat: &mut Seat<B>,
    most: usize,
    into: &mut Vec<Entry>,
) -> Option<usize>
    requires { IsOf plant.now seat.old × (seat.old.tx ≡ None) }
    ensures { (seat.new.plant ≡ seat.old.plant) × (seat.new.tx ≡ seat.old.tx) }
{
    match plant.try_drain(seat, most, into) {
        Tried::Said(count) => Some(count),
        Tried::Busy => None,
    }
}

/// To which tick the time went on, if this call did it.
pub fn idled<B: Board>(plant: &Plant<B>, seat: &mut Seat<B>) -> Option<Tick>
    requires { IsOf plant.now seat.old }
    ensures { (seat.new.plant ≡ seat.old.plant) × (seat.new.tx ≡ seat.old.tx) }
{
    match plant.try_idle(seat) {
        Tried::Said(IdleReply::Advanced { to }) => Some(to),
        _ => None,
    }
}

/// What is asked at a seat.
#[derive(Clone, Copy)]
pub enum Ask {
    Plan(TxId, Tick),
    Step(u32, Op),
    Wait(u32, Op),
    Peek,
    Front,
}

// Writes what was told.
fn tell<T: Debug>(said: &mut String, told: &T) -> Option<()> {
    write!(said, "{told:?}").ok()
}

// Writes what is told at a seat. None where it is none of a transaction that steps.
fn ask_at<R: Wait, B: Board>(
    rt: &R,
    plant: &Plant<B>,
    seat: &mut Seat<B>,
    ask: Ask,
    said: &mut String,
) -> Option<()>
    requires { IsOf plant.now seat.old × (2 < length plant.now.set.txns) × (0 < length plant.now.set.items) }
    ensures { (seat.new.plant ≡ seat.old.plant) × (seat.new.tx ≡ seat.old.tx) }
{
    match ask {
        Ask::Plan(tx, tick) => {
            let granted = tx.0 < 3 && is_planned(plant, seat, tx, tick);
            write!(said, "granted {granted}").ok()
        }
        Ask::Peek => tell(said, &peeked(plant, seat)),
        Ask::Front => tell(said, &seat.front()),
        Ask::Step(serial, op) => match seat.tx() {
            Some(_) => tell(said, &replied(plant, seat, serial, op)),
            None => None,
        },
        Ask::Wait(serial, op) => match seat.tx() {
            Some(_) => tell(said, &waited(rt, plant, seat, serial, op)),
            None => None,
        },
    }
}

impl<B: Board> House<B> {
    /// Writes what is told at the seat of this name.
    pub fn ask<R: Wait>(&mut self, rt: &R, seat: &str, ask: Ask, said: &mut String) -> Option<()> {
        match seat {
            "operator" => ask_at(rt, &self.plant, &mut self.operator, ask, said),
            "sample" => ask_at(rt, &self.plant, &mut self.sample, ask, said),
            "control" => ask_at(rt, &self.plant, &mut self.control, ask, said),
            "logger" => ask_at(rt, &self.plant, &mut self.logger, ask, said),
            _ => None,
        }
    }

    /// Plans each of these, the transaction and the tick. Whether all were granted.
    pub fn plan_each(&mut self, plans: &[(u32, Tick)]) -> bool {
        plan_each(&self.plant, &mut self.operator, plans)
    }

    /// How many entries were drained, at most so many.
    pub fn drain(&mut self, most: usize, into: &mut Vec<Entry>) -> Option<usize> {
        drained(&self.plant, &mut self.operator, most, into)
    }
}

/// Plans each of these, the transaction and the tick. Whether all were granted.
pub fn plan_each<B: Board>(plant: &Plant<B>, seat: &mut Seat<B>, plans: &[(u32, Tick)]) -> bool
    requires { IsOf plant.now seat.old × (2 < length plant.now.set.txns) }
    ensures { (seat.new.plant ≡ seat.old.plant) × (seat.new.tx ≡ seat.old.tx) }
{
    let mut all = true;
    for (tx, tick) in plans {
        all = *tx < 3 && is_planned(plant, seat, TxId(*tx), *tick) && all;
    }
    all
}
