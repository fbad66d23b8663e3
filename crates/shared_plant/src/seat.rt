//! A caller's seat at a plant.
ghost use Rattle.std.specs.Prelude.{◌≡◌, ◌≤◌, None, length};
ghost use Rattle.shared_plant.specs.Seats.{IsSound, standing_of};

use crate::shared_board::SharedBoard;
use board::Board;
use rt_base::TxId;
use std::marker::Model;
use turn_cell::{HasSeat, TurnSeat};

/// A caller's seat, one for each transaction and one for the operator. Contracts see it as the seat facts: what it has
/// seen of the one history, its own entries with their places there, how many of its tries found the turn free and how
/// many found it taken, how many entries the operator's seat has drained, and how many had been drained when the seat
/// last took the turn. It is Send where the board is.
pub struct Seat<B: Board> {
    pub(crate) seat: TurnSeat<SharedBoard<B>>,
    pub(crate) tx: Option<TxId>,
    pub(crate) front: u64,
}

impl<B: Board> Model for Seat<B> {
    ghost use Rattle.shared_plant.specs.Seats.{SeatFacts, facts_of, IsKept};

    ghost Value = { SeatFacts };

    ghost view = { λ s. facts_of s.seat s.tx };

    ghost invariant = { λ s. IsKept s.seat s.tx s.front };
}

impl<B: Board> Drop for Seat<B> {
    fn drop(self) {
        let Self {
            seat: _,
            tx: _,
            front: _,
        } = self;
    }
}

impl<B: Board> HasSeat<SharedBoard<B>> for Seat<B> {
    ghost standing = { standing_of };

    fn into_turn_seat(self) -> TurnSeat<SharedBoard<B>> {
        let Seat {
            seat,
            tx: _,
            front: _,
        } = self;
        seat
    }
}

impl<B: Board> Seat<B> {
    /// The transaction of the seat; None exactly for the operator's.
    pub fn tx(&self) -> Option<TxId>
        ensures { result ≡ self.now.tx }
    {
        self.tx
    }

    /// How many entries the seat has seen. Its own entries stand among them, each at its place, and what the operator
    /// drained is among them.
    pub fn front(&self) -> u64
        ensures front { result ≡ length self.now.seen }
        ensures sound { IsSound self.now }
    {
        self.front
    }
}
