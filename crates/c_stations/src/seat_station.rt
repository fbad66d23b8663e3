//! A seat of a plant, whose calls test each number. A call answers a status: OK where this try had the turn, BUSY where
//! another seat's call had it, and else why nothing was tried. After each status but OK what is to be written to is as it
//! was. No call takes memory but `open_next`, and none waits.
ghost use Rattle.std.specs.Prelude.{◌≡◌, ◌<◌, [], IfOk, IfErr, None, Some, length};
ghost use Rattle.rt_base.specs.declared.ids.TxId.{TxId as Transaction};
ghost use Rattle.shared_plant.specs.Seats.{newcomer};
ghost use Rattle.c_stations.specs.Seats.{SeatSeen, HandsOut, WhyNoneHanded};
ghost use Rattle.c_stations.specs.Tries.{SeatStepped, SeatPlanned, SeatPlannedNext, SeatIdled, SeatPeeked, SeatDrained};

use admitted_core::AdmittedCore;
use c_core::{NO_ITEM, NO_OPERATION, NO_TRANSACTION, NOTHING, StoredForm};
use c_forms::{
    EntryForm, NO_MEMORY, OK, OpForm, StepForm, TimeForm, idle_form, op_of, plan_form,
    plan_next_form, put_entries, put_step,
};
use rt_base::{ItemId, TxId};
use shared_plant::{Plant, Seat, Tried};
use std::alloc::Global;
use std::marker::Model;
use std::sync::Arc;
use step_journal::Entry;

/// Another seat's call has the turn. Nothing is learnt or changed; the call may be made again.
pub const BUSY: u32 = 26;

/// The call is not one of this seat: the operator's seat makes no steps, and it alone drains.
pub const WRONG_SEAT: u32 = 27;

/// A seat, with its share of the plant that it is of. The operator's seat has those seats too that were not handed out.
/// Contracts see the plant, the seat, and how many seats were not handed out.
pub struct SeatStation {
    pub(crate) plant: Arc<Plant<AdmittedCore>>,
    pub(crate) seat: Seat<AdmittedCore>,
    pub(crate) others: Vec<Seat<AdmittedCore>>,
    pub(crate) spare: Vec<Entry>,
    pub(crate) txns: usize,
    pub(crate) items: usize,
}

impl Model for SeatStation {
    ghost use Rattle.std.specs.Prelude.{vec_len, vec_capacity};
    ghost use Rattle.c_stations.specs.Seats.{SeatSeen, seen_of, IsStation};

    ghost Value = { SeatSeen };

    ghost view = { λ s. seen_of s.plant.value s.seat (vec_len s.others) };

    ghost invariant = { λ s. IsStation s.plant.value s.seat s.others.items s.spare.items (vec_capacity s.spare) s.txns s.items };
}

impl Drop for SeatStation {
    fn drop(self) {
        drop(self.into_seat());
    }
}

// A further seat of the plant, or the seat back after want of memory.
fn station_of(
    alloc: Global,
    first: &SeatStation,
    seat: Seat<AdmittedCore>,
) -> Result<Box<SeatStation>, Seat<AdmittedCore>>
    requires { (tx : Transaction) × (seat ≡ newcomer first.now.plant.id [] 0 (Some tx)) × (tx.0 < length first.now.plant.set.txns) }
    ensures ok { IfOk result (λ b. b.value ≡ record { plant = first.now.plant; seat = seat; left = 0 }) }
    ensures err { IfErr result (λ s. s ≡ seat) }
{
    let Ok(plant) = Arc::try_clone(&first.plant) else {
        return Err(seat);
    };
    let station = SeatStation {
        plant,
        seat,
        others: Vec::new(alloc),
        spare: Vec::new(alloc),
        txns: first.txns,
        items: first.items,
    };
    match Box::new(alloc, station) {
        Ok(station) => Ok(station),
        Err(failed) => Err(failed.value.into_seat()),
    }
}

impl SeatStation {
    // The seat alone. The share of the plant is given back.
    fn into_seat(self) -> Seat<AdmittedCore>
        ensures { result ≡ self.seat }
    {
        let SeatStation {
            plant,
            seat,
            others,
            spare,
            txns: _,
            items: _,
        } = self;
        drop(plant);
        drop(others);
        drop(spare);
        seat
    }

    /// Hands out the last transaction's seat that was not handed out, and says which transaction's it is. NOTHING where
    /// none is left here, and NO_MEMORY after want of memory: then all is as it was. It takes memory for the seat.
    pub fn open_next(&mut self, alloc: Global) -> Result<(u32, Box<SeatStation>), u32>
        ensures handed { IfOk result (λ r. HandsOut self.old self.new r.0 r.1.value) }
        ensures none { IfErr result (λ status. (self.new ≡ self.old) × WhyNoneHanded self.old.left status) }
    {
        let Some(seat) = self.others.pop() else {
            return Err(NOTHING);
        };
        let tx = self.others.len() as u32;
        match station_of(alloc, self, seat) {
            Ok(station) => Ok((tx, station)),
            Err(seat) => {
                self.others.push_reserved(seat);
                Err(NO_MEMORY)
            }
        }
    }

    /// A job of the seat's own transaction asks for an operation. WRONG_SEAT by the operator's seat, else NO_OPERATION where
    /// the number names none.
    pub fn step(&mut self, serial: u32, op: OpForm, answer: &mut StepForm) -> u32
        ensures { SeatStepped serial op result answer.old answer.new self.old self.new }
    {
        let Some(_) = self.seat.tx() else {
            return WRONG_SEAT;
        };
        let Some(op) = op_of(op) else {
            return NO_OPERATION;
        };
        let Tried::Said(reply) = self.plant.try_step(&mut self.seat, serial, op) else {
            return BUSY;
        };
        put_step(reply, answer);
        OK
    }

    /// Plans a transaction's next job for a tick. NO_TRANSACTION where it is none of the set.
    pub fn plan(&mut self, tx: u32, tick: u64, answer: &mut TimeForm) -> u32
        ensures { SeatPlanned tx tick result answer.old answer.new self.old self.new }
    {
        if tx as usize >= self.txns {
            return NO_TRANSACTION;
        }
        let Tried::Said(planned) = self.plant.try_plan(&mut self.seat, TxId(tx), tick) else {
            return BUSY;
        };
        *answer = plan_form(tick, planned);
        OK
    }

    /// Plans a transaction's next job for the earliest tick that may be. NO_TRANSACTION where it is none of the set.
    pub fn plan_next(&mut self, tx: u32, answer: &mut TimeForm) -> u32
        ensures { SeatPlannedNext tx result answer.old answer.new self.old self.new }
    {
        if tx as usize >= self.txns {
            return NO_TRANSACTION;
        }
        let Tried::Said(planned) = self.plant.try_plan_next(&mut self.seat, TxId(tx)) else {
            return BUSY;
        };
        *answer = plan_next_form(planned);
        OK
    }

    /// With nothing pending the time goes on to the next planned release.
    pub fn idle(&mut self, answer: &mut TimeForm) -> u32
        ensures { SeatIdled result answer.old answer.new self.old self.new }
    {
        let Tried::Said(reply) = self.plant.try_idle(&mut self.seat) else {
            return BUSY;
        };
        *answer = idle_form(reply);
        OK
    }

    /// An item's installed value and stamp. NO_ITEM where it is none of the set.
    pub fn peek(&mut self, item: u32, stored: &mut StoredForm) -> u32
        ensures { SeatPeeked item result stored.old stored.new self.old self.new }
    {
        if item as usize >= self.items {
            return NO_ITEM;
        }
        let Tried::Said(reply) = self.plant.try_peek(&mut self.seat, ItemId(item)) else {
            return BUSY;
        };
        *stored = StoredForm {
            value: reply.0,
            stamp: reply.1,
        };
        OK
    }

    /// Moves the oldest kept entries into a slice, by the operator's seat, as many as it has places for and no more than 64.
    /// WRONG_SEAT by each other seat. It costs one move for each entry that was kept.
    pub fn drain(&mut self, into: &mut [EntryForm], moved: &mut usize) -> u32
        ensures { SeatDrained result moved.old moved.new into.old into.new self.old self.new }
    {
        let None = self.seat.tx() else {
            return WRONG_SEAT;
        };
        match self
            .plant
            .try_drain(&mut self.seat, into.len(), &mut self.spare)
        {
            Tried::Busy => BUSY,
            Tried::Said(count) => {
                put_entries(into, self.spare.as_slice());
                self.spare.clear();
                *moved = count;
                OK
            }
        }
    }

    /// How many entries of the history the seat has seen.
    pub fn front(&self) -> u64
        ensures { result ≡ length self.now.seat.seen }
    {
        self.seat.front()
    }
}
