//! Who may cross threads. It is proved here, since else it shows only where a caller starts threads.
use crate::cell::{Taken, TurnCell, TurnSeat};
use crate::storied::Storied;

fn may_share<X: Sync>(_x: &X) {}

fn may_send<X: Send>(x: X) -> X {
    x
}

pub(crate) fn cell_is_sync<T: Storied + Send>(cell: &TurnCell<T>) {
    may_share(cell);
}

pub(crate) fn cell_is_send<T: Storied + Send>(cell: TurnCell<T>) -> TurnCell<T> {
    may_send(cell)
}

pub(crate) fn seat_is_send<T: Storied + Send>(seat: TurnSeat<T>) -> TurnSeat<T> {
    may_send(seat)
}

pub(crate) fn taken_is_send<T: Storied + Send>(taken: Taken<T>) -> Taken<T> {
    may_send(taken)
}
