//! Who may cross threads. It is proved here, since else it shows only where a caller starts threads.
use crate::plant::Plant;
use crate::seat::Seat;
use board::Board;

fn may_share<X: Sync>(_x: &X) {}

fn may_send<X: Send>(x: X) -> X {
    x
}

pub(crate) fn plant_is_sync<B: Board + Send>(plant: &Plant<B>) {
    may_share(plant);
}

pub(crate) fn plant_is_send<B: Board + Send>(plant: Plant<B>) -> Plant<B> {
    may_send(plant)
}

pub(crate) fn seat_is_send<B: Board + Send>(seat: Seat<B>) -> Seat<B> {
    may_send(seat)
}
