//! The steps on the table, by a seat whose view a clause can name.
ghost use Rattle.std.specs.Prelude.{◌≡◌, ◌≢◌, ◌≤◌, ◌+◌, ◌<◌, ◌^◌, ◌++◌, ◌∷◌, [], true, false, length, IfSome, IfNone, Some, None};
ghost use Rattle.turn_cell.specs.Turn.{Begins, counted, unborn, missing, taking, released, noting, draining, keeping, sibling, joined, IsSame, Idle, Holding};
ghost use Rattle.turn_cell.specs.Seats.{opened, IsOf};

use crate::plays::{Add, Cut, Drain, Give, Glue, Look, Start, Try, TurnRule};
use crate::storied::{Past, Storied, Told};
use crate::view::{Origin, View};
use atomic_table::{Seat, Shared};
use std::marker::Brand;

pub(crate) const TURN: usize = 0;

pub(crate) const COUNT: usize = 1;

pub(crate) const DRAINED: usize = 2;

pub(crate) type TurnTable<T> = Shared<
    Option<T>,
    View<<T as Storied>::Note>,
    Origin<T>,
    TurnRule<T>,
>;

pub(crate) type TableSeat<T> = Seat<Option<T>, View<<T as Storied>::Note>>;

fn attempt<T: Storied, J: Told<T>>(table: &TurnTable<T>, seat: &mut TableSeat<T>) -> Option<T>
    requires cell { IsOf table.now.table_id seat.old }
    requires idle { Idle seat.old }
    requires told { J.told ≡ Some table.now.key.value.value }
    ensures cell { IsSame seat.old seat.new }
    ensures some { IfSome result (λ x. Holding seat.new × (seat.new.me.0 ≡ taking seat.old.me.0 seat.new.me.0.seen (T.first x)) × (counted seat.new.me.0 ≡ T.first x)) }
    ensures history { IfSome result (λ x. Begins seat.old.me.0.seen seat.new.me.0.seen × T.stands x seat.new.me.0.seen × (T.fixed x ≡ T.fixed table.now.key.value.value)) }
    ensures base { IfSome result (λ x. seat.old.me.0.base ≤ T.first x) }
    ensures none { IfNone result (Idle seat.new × (seat.new.me.0 ≡ missing seat.old.me.0)) }
{
    let found = table.compare_exchange::<Try<T, J>>(seat, TURN, 0, 1);
    if found == 0 {
        Some(table.exchange(seat, 0, None).unwrap())
    } else {
        None
    }
}

pub(crate) fn take<T: Storied>(table: &TurnTable<T>, seat: &mut TableSeat<T>) -> Option<T>
    requires cell { IsOf table.now.table_id seat.old }
    requires idle { Idle seat.old }
    ensures cell { IsSame seat.old seat.new }
    ensures some { IfSome result (λ x. Holding seat.new × (seat.new.me.0 ≡ taking seat.old.me.0 seat.new.me.0.seen (T.first x)) × (counted seat.new.me.0 ≡ T.first x)) }
    ensures history { IfSome result (λ x. Begins seat.old.me.0.seen seat.new.me.0.seen × T.stands x seat.new.me.0.seen × (T.fixed x ≡ T.fixed table.now.key.value.value)) }
    ensures base { IfSome result (λ x. seat.old.me.0.base ≤ T.first x) }
    ensures none { IfNone result (Idle seat.new × (seat.new.me.0 ≡ missing seat.old.me.0)) }
{
    attempt::<T, Brand>(table, seat)
}

pub(crate) fn put_back<T: Storied>(table: &TurnTable<T>, seat: &mut TableSeat<T>, value: T)
    requires cell { IsOf table.now.table_id seat.old }
    requires turn { Holding seat.old }
    requires history { T.stands value seat.old.me.0.seen }
    requires fixed { T.fixed value ≡ T.fixed table.now.key.value.value }
    requires first { T.first value ≡ counted seat.old.me.0 }
    ensures cell { IsSame seat.old seat.new }
    ensures given { Idle seat.new × (seat.new.me.0 ≡ released seat.old.me.0) }
{
    let left = table.exchange(seat, 0, Some(value));
    let None = left else { unreachable!() };
    table.swap::<Give>(seat, TURN, 0);
}

pub(crate) fn begin<T: Storied, P: Past<T::Note>>(table: &TurnTable<T>, seat: &mut TableSeat<T>)
    requires cell { IsOf table.now.table_id seat.old }
    requires stands { T.stands table.now.key.value.value P.past }
    requires long { length P.past ≡ table.now.key.start }
    requires some { 0 < table.now.key.seats }
    requires unborn { seat.old.me ≡ (unborn (T.first table.now.key.value.value) table.now.key.seats, []) }
    ensures cell { IsSame seat.old seat.new }
    ensures opened { seat.new.me ≡ (opened P.past (T.first table.now.key.value.value) true table.now.key.seats, []) }
{
    table.load::<Start<P>>(seat, TURN);
}

pub(crate) fn cut<T: Storied>(table: &TurnTable<T>, seat: &mut TableSeat<T>) -> TableSeat<T>
    requires cell { IsOf table.now.table_id seat.old }
    requires begun { seat.old.me.0.begun ≡ true }
    requires heavy { 2 ≤ seat.old.me.0.weight }
    ensures cell { IsSame seat.old seat.new × (result.table_id ≡ seat.old.table_id) }
    ensures views { (seat.new.me ≡ (keeping seat.old.me.0, seat.old.me.1)) × (result.me ≡ (sibling seat.old.me.0, [])) }
{
    table.split_seat::<Cut>(seat)
}

pub(crate) fn glue<T: Storied>(table: &TurnTable<T>, seat: &mut TableSeat<T>, other: TableSeat<T>)
    requires cell { IsOf table.now.table_id seat.old × (other.table_id ≡ table.now.table_id) × (other.me.1 ≡ []) }
    requires idle { (seat.old.me.0.begun ≡ true) × (seat.old.me.0.holds ≡ false) × (other.me.0.holds ≡ false) }
    requires heavy { 0 < seat.old.me.0.weight }
    ensures cell { IsSame seat.old seat.new }
    ensures view { seat.new.me ≡ (joined seat.old.me.0 other.me.0, seat.old.me.1) }
{
    table.join_seat::<Glue>(seat, other);
}

fn append<T: Storied, J: Told<T::Note>>(
    table: &TurnTable<T>,
    seat: &mut TableSeat<T>,
    note: T::Note,
) -> u64
    requires cell { IsOf table.now.table_id seat.old }
    requires turn { Holding seat.old }
    requires room { length seat.old.me.0.seen + 1 < 2 ^ 64 }
    requires told { J.told ≡ Some note }
    ensures cell { IsSame seat.old seat.new }
    ensures noted { (seat.new.me.0 ≡ noting seat.old.me.0 note) × (seat.new.me.1 ≡ seat.old.me.1) }
{
    table.fetch_add::<Add<J>>(seat, COUNT, 1)
}

pub(crate) fn add<T: Storied>(table: &TurnTable<T>, seat: &mut TableSeat<T>, note: T::Note)
    requires cell { IsOf table.now.table_id seat.old }
    requires turn { Holding seat.old }
    requires room { length seat.old.me.0.seen + 1 < 2 ^ 64 }
    ensures cell { IsSame seat.old seat.new }
    ensures noted { Holding seat.new × (seat.new.me.0 ≡ noting seat.old.me.0 note) }
{
    let _ = append::<T, Brand>(table, seat, note);
}

pub(crate) fn drain<T: Storied>(table: &TurnTable<T>, seat: &mut TableSeat<T>, count: u64)
    requires cell { IsOf table.now.table_id seat.old }
    requires turn { Holding seat.old × (seat.old.me.0.marked ≡ true) }
    requires room { seat.old.me.0.drained + count < 2 ^ 64 }
    ensures cell { IsSame seat.old seat.new }
    ensures drained { Holding seat.new × (seat.new.me.0 ≡ draining seat.old.me.0 count) }
{
    let _ = table.fetch_add::<Drain>(seat, DRAINED, count);
}

pub(crate) fn count<T: Storied>(table: &TurnTable<T>, seat: &mut TableSeat<T>) -> u64
    requires cell { IsOf table.now.table_id seat.old }
    requires begun { seat.old.me.0.begun ≡ true }
    ensures cell { IsSame seat.old seat.new }
    ensures same { (seat.new.me.0 ≡ seat.old.me.0) × (seat.new.me.1 ≡ seat.old.me.1) }
    ensures seen { length seat.old.me.0.seen ≤ result }
{
    table.load::<Look>(seat, COUNT)
}
