//! Plants for programs in C: the functions of embed/rtdb.h by which threads share a database, each by the handle of a seat
//! of its own. Each makes one try for the turn at most, and none waits.
ghost use Rattle.std.specs.Prelude.{◌≡◌, ◌≢◌, None, MatchOption, IfSome, IsSomeAnd};
ghost use Rattle.c_stations.specs.Seats.{PlantOpened};
ghost use Rattle.c_stations.specs.Tries.{SeatStepped, SeatPlanned, SeatPlannedNext, SeatIdled, SeatPeeked, SeatDrained};
ghost use Rattle.rtdb_c.specs.Called.{ToldWhy};
ghost use Rattle.rtdb_c.specs.SeatCalls.{SeatCalled, HandedTo, IsFrontOf};

use crate::{OPEN, told_why};
use c_core::{CLOSED, StoredForm};
use c_forms::{EntryForm, OK, OpForm, RefusalForm, StepForm, Tables, TimeForm};
use c_stations::{SeatHandle, SeatStation, plant_over};
use std::alloc::Global;

/// Compiles and admits the set of these tables, and opens a plant over it at the opening state, whose journal has room for so
/// many entries: the handle is that of the operator's seat. OPEN where the handle is open already. Else status and record are
/// those of the first cause, and the handle stays closed; NO_MEMORY may come in place of each. All memory that the plant
/// needs is taken here, but that of further seats.
#[unsafe(no_mangle)]
pub extern "C" fn rtdb_plant_open(
    alloc: Global,
    operator: &mut SeatHandle,
    tables: &Tables,
    room: usize,
    refusal: &mut RefusalForm,
) -> u32
    ensures opened { result ≡ 0 → (operator.old.seat ≡ None) × (refusal.new ≡ refusal.old) × IsSomeAnd operator.new.seat (PlantOpened tables.now room) }
    ensures refused { result ≢ 0 → operator.new.seat ≡ operator.old.seat }
    ensures open { IfSome operator.old.seat (λ s. (result ≡ 2) × (refusal.new ≡ refusal.old)) }
    ensures why { operator.old.seat ≡ None → result ≢ 0 → ToldWhy tables.now room result refusal.new }
{
    if let Some(station) = operator.take(alloc) {
        operator.put(station);
        return OPEN;
    }
    match plant_over(alloc, tables, room) {
        Ok(station) => {
            operator.put(station);
            OK
        }
        Err(refused) => {
            let (status, form) = told_why(refused);
            *refusal = form;
            status
        }
    }
}

// Hands a further seat to a handle that is closed.
fn hand_to(alloc: Global, station: &mut SeatStation, seat: &mut SeatHandle, tx: &mut u32) -> u32
    ensures { HandedTo result seat.old.seat seat.new.seat tx.old tx.new station.old station.new }
{
    if let Some(was) = seat.take(alloc) {
        seat.put(was);
        return OPEN;
    }
    match station.open_next(alloc) {
        Ok((which, handed)) => {
            seat.put(handed);
            *tx = which;
            OK
        }
        Err(status) => status,
    }
}

/// Opens the seat of the last transaction whose seat was not opened, and says which transaction's it is. OPEN where its
/// handle is open already, NOTHING where no seat is left, NO_MEMORY after want of memory: then all is as it was. It takes
/// memory for the seat.
#[unsafe(no_mangle)]
pub extern "C" fn rtdb_seat_open(
    alloc: Global,
    operator: &mut SeatHandle,
    seat: &mut SeatHandle,
    tx: &mut u32,
) -> u32
    ensures { SeatCalled operator.old.seat operator.new.seat ((result ≡ 1) × (seat.new.seat ≡ seat.old.seat) × (tx.new ≡ tx.old)) (HandedTo result seat.old.seat seat.new.seat tx.old tx.new) }
{
    let Some(mut station) = operator.take(alloc) else {
        return CLOSED;
    };
    let status = hand_to(alloc, &mut station, seat, tx);
    operator.put(station);
    status
}

/// Closes the handle of a seat. The last one that is closed frees the plant. It answers whether it was open.
#[unsafe(no_mangle)]
pub extern "C" fn rtdb_seat_close(alloc: Global, seat: &mut SeatHandle) -> u32
    ensures closed { seat.new.seat ≡ None }
    ensures status { MatchOption seat.old.seat (result ≡ 1) (λ _. result ≡ 0) }
{
    match seat.take(alloc) {
        Some(station) => {
            drop(station);
            OK
        }
        None => CLOSED,
    }
}

/// A job of the seat's own transaction asks for an operation. BUSY where another seat's call has the turn. WRONG_SEAT by the
/// operator's seat, else NO_OPERATION where the number names none.
#[unsafe(no_mangle)]
pub extern "C" fn rtdb_seat_step(
    alloc: Global,
    seat: &mut SeatHandle,
    serial: u32,
    op: OpForm,
    answer: &mut StepForm,
) -> u32
    ensures { SeatCalled seat.old.seat seat.new.seat ((result ≡ 1) × (answer.new ≡ answer.old)) (SeatStepped serial op result answer.old answer.new) }
{
    match seat.take(alloc) {
        Some(mut station) => {
            let status = station.step(serial, op, answer);
            seat.put(station);
            status
        }
        None => CLOSED,
    }
}

/// Plans a transaction's next job for a tick. BUSY where another seat's call has the turn. NO_TRANSACTION where it is none of
/// the set.
#[unsafe(no_mangle)]
pub extern "C" fn rtdb_seat_plan(
    alloc: Global,
    seat: &mut SeatHandle,
    tx: u32,
    tick: u64,
    answer: &mut TimeForm,
) -> u32
    ensures { SeatCalled seat.old.seat seat.new.seat ((result ≡ 1) × (answer.new ≡ answer.old)) (SeatPlanned tx tick result answer.old answer.new) }
{
    match seat.take(alloc) {
        Some(mut station) => {
            let status = station.plan(tx, tick, answer);
            seat.put(station);
            status
        }
        None => CLOSED,
    }
}

/// Plans a transaction's next job for the earliest tick that may be. BUSY where another seat's call has the turn.
/// NO_TRANSACTION where it is none of the set.
#[unsafe(no_mangle)]
pub extern "C" fn rtdb_seat_plan_next(
    alloc: Global,
    seat: &mut SeatHandle,
    tx: u32,
    answer: &mut TimeForm,
) -> u32
    ensures { SeatCalled seat.old.seat seat.new.seat ((result ≡ 1) × (answer.new ≡ answer.old)) (SeatPlannedNext tx result answer.old answer.new) }
{
    match seat.take(alloc) {
        Some(mut station) => {
            let status = station.plan_next(tx, answer);
            seat.put(station);
            status
        }
        None => CLOSED,
    }
}

/// With nothing pending the time goes on to the next planned release. BUSY where another seat's call has the turn.
#[unsafe(no_mangle)]
pub extern "C" fn rtdb_seat_idle(alloc: Global, seat: &mut SeatHandle, answer: &mut TimeForm) -> u32
    ensures { SeatCalled seat.old.seat seat.new.seat ((result ≡ 1) × (answer.new ≡ answer.old)) (SeatIdled result answer.old answer.new) }
{
    match seat.take(alloc) {
        Some(mut station) => {
            let status = station.idle(answer);
            seat.put(station);
            status
        }
        None => CLOSED,
    }
}

/// An item's installed value and stamp. BUSY where another seat's call has the turn. NO_ITEM where it is none of the set.
#[unsafe(no_mangle)]
pub extern "C" fn rtdb_seat_peek(
    alloc: Global,
    seat: &mut SeatHandle,
    item: u32,
    stored: &mut StoredForm,
) -> u32
    ensures { SeatCalled seat.old.seat seat.new.seat ((result ≡ 1) × (stored.new ≡ stored.old)) (SeatPeeked item result stored.old stored.new) }
{
    match seat.take(alloc) {
        Some(mut station) => {
            let status = station.peek(item, stored);
            seat.put(station);
            status
        }
        None => CLOSED,
    }
}

/// Moves the oldest kept entries into the caller's array, by the operator's seat, as many as it has places for and no more
/// than 64, and answers how many. BUSY where another seat's call has the turn. WRONG_SEAT by each other seat.
#[unsafe(no_mangle)]
pub extern "C" fn rtdb_seat_drain(
    alloc: Global,
    seat: &mut SeatHandle,
    into: &mut [EntryForm],
    moved: &mut usize,
) -> u32
    ensures { SeatCalled seat.old.seat seat.new.seat ((result ≡ 1) × (into.new ≡ into.old) × (moved.new ≡ moved.old)) (SeatDrained result moved.old moved.new into.old into.new) }
{
    match seat.take(alloc) {
        Some(mut station) => {
            let status = station.drain(into, moved);
            seat.put(station);
            status
        }
        None => CLOSED,
    }
}

/// How many entries of the history the seat has seen, its own among them. It makes no try.
#[unsafe(no_mangle)]
pub extern "C" fn rtdb_seat_front(alloc: Global, seat: &mut SeatHandle, count: &mut u64) -> u32
    ensures { SeatCalled seat.old.seat seat.new.seat ((result ≡ 1) × (count.new ≡ count.old)) (IsFrontOf result count.old count.new) }
{
    match seat.take(alloc) {
        Some(station) => {
            *count = station.front();
            seat.put(station);
            OK
        }
        None => CLOSED,
    }
}
