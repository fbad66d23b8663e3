//! A seat may go to another thread. It is proved here, since else it shows only where a caller needs it.
use crate::seat_station::SeatStation;

fn may_send<X: Send>(x: X) -> X {
    x
}

pub(crate) fn station_is_send(station: SeatStation) -> SeatStation {
    may_send(station)
}
