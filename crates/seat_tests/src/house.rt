//! A plant with its four seats, over any board that can be opened over a set.
ghost use Rattle.std.specs.Prelude.{◌≡◌, ◌<◌, ◌++◌, ◌∷◌, [], None, length, OnOk, IfSome};
ghost use Rattle.shared_plant.specs.Seats.{IsOf, AreOf};
ghost use Rattle.seat_tests.specs.Fresh.{IsFresh, AreFresh};

use admitted_core::AdmittedCore;
use board::Board;
use rt_base::OutOfMemory;
use set_admission::admit;
use shared_plant::{CloseRefused, Plant, Seat};
use std::alloc::Global;
use step_journal::Entry;
use turn_cell::Past;
use txn_set::CompiledSet;

/// A board that can be opened over a set.
pub trait Opens: Board + Sized {
    /// A board of the set with an empty history. None where the set is refused.
    fn open(alloc: Global, set: &CompiledSet) -> Option<Self>
        ensures { IfSome result (λ b. Self.stands b []) };
}

impl Opens for AdmittedCore {
    fn open(alloc: Global, set: &CompiledSet) -> Option<AdmittedCore> {
        let Ok(set) = set.copy(alloc) else {
            return None;
        };
        let Ok(set) = admit(alloc, set) else {
            return None;
        };
        match AdmittedCore::new(alloc, set, 4096) {
            Ok(core) => Some(core),
            Err(_) => None,
        }
    }
}

/// A plant of three transactions and an item at least, and its seats.
#[derive(Drop)]
pub struct House<B: Board> {
    pub plant: Plant<B>,
    pub operator: Seat<B>,
    pub sample: Seat<B>,
    pub control: Seat<B>,
    pub logger: Seat<B>,
    ghost operators: { IsOf plant operator × (operator.tx ≡ None) },
    ghost samples: { IsOf plant sample },
    ghost controls: { IsOf plant control },
    ghost loggers: { IsOf plant logger },
    ghost sizes: { (2 < length plant.set.txns) × (0 < length plant.set.items) },
}

/// The history of a new board.
pub struct NoEntry;

impl Past<Entry> for NoEntry {
    ghost past = { [] };
}

// A plant over a board with so many transactions and items at least, and its seats.
fn started<B: Board + Drop>(alloc: Global, board: B) -> Option<(Plant<B>, Vec<Seat<B>>)>
    requires { B.stands board [] }
    ensures sizes { IfSome result (λ r. (2 < length r.0.set.txns) × (0 < length r.0.set.items)) }
    ensures seats { IfSome result (λ r. AreFresh r.0 r.1.items) }
{
    if board.set().txns().len() < 3 {
        return None;
    }
    if board.set().items().is_empty() {
        return None;
    }
    match Plant::start::<NoEntry>(alloc, board) {
        Ok(started) => Some(started),
        Err(_) => None,
    }
}

// The last seat of a list.
fn fresh_seat<B: Board>(plant: &Plant<B>, seats: &mut Vec<Seat<B>>) -> Option<Seat<B>>
    requires { AreFresh plant.now seats.old.items }
    ensures { IfSome result (λ s. IsFresh plant.now s × AreFresh plant.now seats.new.items) }
{
    let _plant = plant;
    match seats.pop() {
        Some(seat) => Some(seat),
        None => None,
    }
}

// The last two seats of a list, the last one first.
fn two_seats<B: Board>(plant: &Plant<B>, seats: &mut Vec<Seat<B>>) -> Option<(Seat<B>, Seat<B>)>
    requires { AreFresh plant.now seats.old.items }
    ensures { IfSome result (λ s. IsFresh plant.now s.0 × IsFresh plant.now s.1 × AreFresh plant.now seats.new.items) }
{
    let last = fresh_seat(plant, seats)?;
    let before = fresh_seat(plant, seats)?;
    Some((last, before))
}

/// A plant over a board with an empty history, whose seats have made no call.
pub fn house_over<B: Board + Drop>(alloc: Global, board: B) -> Option<House<B>>
    requires { B.stands board [] }
    ensures { IfSome result (λ h. IsFresh h.plant h.sample × IsFresh h.plant h.control × IsFresh h.plant h.logger) }
{
    let (plant, mut seats) = started(alloc, board)?;
    let (operator, logger) = two_seats(&plant, &mut seats)?;
    let (control, sample) = two_seats(&plant, &mut seats)?;
    drop(seats);
    match operator.tx() {
        Some(_) => None,
        None => Some(House {
            plant,
            operator,
            sample,
            control,
            logger,
        }),
    }
}

/// A plant over the set, whose seats have made no call. None where the set is refused.
pub fn new_house<B: Opens + Drop>(alloc: Global, set: &CompiledSet) -> Option<House<B>>
    ensures { IfSome result (λ h. IsFresh h.plant h.sample × IsFresh h.plant h.control × IsFresh h.plant h.logger) }
{
    let board = B::open(alloc, set)?;
    house_over(alloc, board)
}

// Puts a seat at the end of a list.
fn put<B: Board>(
    plant: &Plant<B>,
    seats: &mut Vec<Seat<B>>,
    seat: Seat<B>,
) -> Result<(), OutOfMemory>
    requires { AreOf plant.now seats.old.items × IsOf plant.now seat }
    ensures { OnOk result (AreOf plant.now seats.new.items) }
{
    let _plant = plant;
    seats.push(seat)?;
    Ok(())
}

// These seats, the operator's last.
fn seats_of<B: Board>(
    alloc: Global,
    plant: &Plant<B>,
    sample: Seat<B>,
    control: Seat<B>,
    operator: Seat<B>,
) -> Option<Vec<Seat<B>>>
    requires { IsOf plant.now sample × IsOf plant.now control × IsOf plant.now operator }
    ensures { IfSome result (λ s. AreOf plant.now s.items) }
{
    let mut seats = Vec::new(alloc);
    put(plant, &mut seats, sample).ok()?;
    put(plant, &mut seats, control).ok()?;
    put(plant, &mut seats, operator).ok()?;
    Some(seats)
}

fn let_go<B: Board + Drop>(refused: CloseRefused<B>) {
    let CloseRefused {
        plant,
        seats,
        have: _,
        need: _,
    } = refused;
    drop(plant);
    drop(seats);
}

// The board of a plant that was not closed without this seat, and what was answered then.
fn closed_with<B: Board + Drop>(
    refused: CloseRefused<B>,
    seat: Seat<B>,
) -> Option<(usize, usize, B)>
    requires { AreOf refused.plant refused.seats × IsOf refused.plant seat }
{
    let CloseRefused {
        plant,
        seats,
        have,
        need,
    } = refused;
    let mut seats = seats.into_vec();
    put(&plant, &mut seats, seat).ok()?;
    match plant.close(seats) {
        Ok(board) => Some((have, need, board)),
        Err(refused) => {
            let_go(refused);
            None
        }
    }
}

/// The board of a plant that all seats close; before them, all but the logger's, and what was answered then.
pub fn closed<B: Board + Drop>(alloc: Global, house: House<B>) -> Option<(usize, usize, B)> {
    let House {
        plant,
        operator,
        sample,
        control,
        logger,
    } = house;
    let seats = seats_of(alloc, &plant, sample, control, operator)?;
    let Err(refused) = plant.close(seats) else {
        return None;
    };
    closed_with(refused, logger)
}
