//! The cell, its seats, and the calls of a seat.
ghost use Rattle.std.specs.Prelude.{◌≡◌, ◌≢◌, ◌≤◌, ◌+◌, ◌-◌, ◌<◌, ◌^◌, ◌++◌, ◌∷◌, [], true, false, length, map, replicate, IfSome, IfNone, IfOk, IfErr, Some, None, vec_capacity};
ghost use Rattle.std.specs.Borrow.{sem};
ghost use Rattle.turn_cell.specs.Turn.{Begins, counted, unborn, missing, taking, noting, draining, released};
ghost use Rattle.turn_cell.specs.Seats.{Standing, IsOf, Ready, AreIdle, fresh, Gathered, Whole};
ghost use Rattle.turn_cell.specs.Lending.{LendsValue};

use crate::plays::TurnRule;
use crate::steps::{TableSeat, TurnTable, add, begin, count, cut, drain, glue, put_back, take};
use crate::storied::{Past, Storied};
use crate::view::{Origin, View};
use atomic_table::{Refused, Seat, Table};
use rt_base::OutOfMemory;
use std::alloc::Global;
use std::marker::Model;
use std::snapshot::Snapshot;

/// A value behind a turn. It has three atomic words (the turn, the count of notes, the number of those that the value no
/// longer keeps) and one slot, in which the value lies while the turn is free. It is Sync where the value is Send.
pub struct TurnCell<T: Storied> {
    table: Table<Option<T>, View<T::Note>, Origin<T>, TurnRule<T>, Global>,
    seats: u32,
}

impl<T: Storied> Model for TurnCell<T> {
    ghost use Rattle.turn_cell.specs.Seats.{Cell};
    ghost use Rattle.std.specs.Prelude.{◌≡◌, ◌<◌};

    ghost Value = { Cell T };

    ghost view = { λ c. record { id = c.table.shared.table_id; origin = c.table.shared.key.value.value; start = c.table.shared.key.start; seats = c.seats } };

    ghost invariant = { λ c. (c.table.shared.table_id.words ≡ 3) × (c.table.shared.table_id.slots ≡ 1) × (c.table.shared.key.seats ≡ c.seats) × (0 < c.seats) };
}

impl<T: Storied + Drop> Drop for TurnCell<T> {
    fn drop(self) {
        let Self { table: _, seats: _ } = self;
    }
}

/// A caller's seat at a cell, one for each thread. Seats come from `TurnCell::new` alone, so their number is fixed; the
/// last carries the mark, and it alone may drain. A seat is Send where the value is.
pub struct TurnSeat<T: Storied> {
    seat: Seat<Option<T>, View<T::Note>>,
}

impl<T: Storied> Model for TurnSeat<T> {
    ghost use Rattle.turn_cell.specs.Seats.{Standing, Ready};

    ghost Value = { Standing T.Note };

    ghost view = { λ s. record { cell = s.seat.table_id; view = s.seat.me.0 } };

    ghost invariant = { λ s. Ready s.seat.me };
}

impl<T: Storied> Drop for TurnSeat<T> {
    fn drop(self) {
        let Self { seat: _ } = self;
    }
}

/// What has a seat of a cell in it, as a seat of a layer above. By it that layer hands its own seats to `close`.
pub trait HasSeat<T: Storied>: Drop {
    ghost standing: { Self → Standing T.Note };

    /// The seat of the cell.
    fn into_turn_seat(self) -> TurnSeat<T>
        ensures { result ≡ standing self };
}

impl<T: Storied> HasSeat<T> for TurnSeat<T> {
    ghost standing = { λ s. s };

    fn into_turn_seat(self) -> TurnSeat<T> {
        self
    }
}

/// The value, handed out to the holder of the turn. It cannot be let go, so it ends in `give`.
pub struct Taken<T> {
    value: T,
}

impl<T: Storied> TurnCell<T> {
    /// Tries once for the turn, by one compare-exchange, and does not wait. None comes exactly where that exchange found
    /// the turn taken: the seat has then missed one more turn, and learns nothing else. Some hands out the value: the seat
    /// has taken one more turn, has now seen the whole history, which begins with all that it had seen before, and knows how
    /// many notes the value no longer keeps, which are no fewer than when it last knew. The fixed part is that of the
    /// value that the cell was made with. It takes no memory.
    pub fn try_take(&self, seat: &mut TurnSeat<T>) -> Option<Taken<T>>
        requires cell { seat.old.cell ≡ self.now.id }
        requires idle { seat.old.view.holds ≡ false }
        ensures cell { seat.new.cell ≡ seat.old.cell }
        ensures some { IfSome result (λ t. (seat.new.view ≡ taking seat.old.view seat.new.view.seen (T.first t.value)) × (counted seat.new.view ≡ T.first t.value)) }
        ensures history { IfSome result (λ t. Begins seat.old.view.seen seat.new.view.seen × T.stands t.value seat.new.view.seen × (T.fixed t.value ≡ T.fixed self.now.origin)) }
        ensures base { IfSome result (λ t. seat.old.view.base ≤ T.first t.value) }
        ensures none { IfNone result (seat.new.view ≡ missing seat.old.view) }
    {
        let value = take(&self.table.shared, &mut seat.seat)?;
        Some(Taken { value })
    }

    /// Puts the value back, by an exchange of the slot and a swap of the turn word. Its whole history has to be counted, its
    /// fixed part has to be that of the value that the cell was made with, and what it no longer keeps has to be counted.
    /// The seat holds the turn no more, and learns nothing. It takes no memory.
    pub fn give(&self, seat: &mut TurnSeat<T>, held: Taken<T>)
        requires cell { seat.old.cell ≡ self.now.id }
        requires turn { seat.old.view.holds ≡ true }
        requires history { T.stands held.value seat.old.view.seen }
        requires fixed { T.fixed held.value ≡ T.fixed self.now.origin }
        requires first { T.first held.value ≡ counted seat.old.view }
        ensures cell { seat.new.cell ≡ seat.old.cell }
        ensures given { seat.new.view ≡ released seat.old.view }
    {
        let Taken { value } = held;
        put_back(&self.table.shared, &mut seat.seat, value);
    }

    /// Counts one note, with which the value's history has just become longer. It is then the last that the seat has seen,
    /// and one of the seat's own, at its place in the history: that place is no other note's, of no other seat. It takes no
    /// memory.
    pub fn note(&self, seat: &mut TurnSeat<T>, held: &mut Taken<T>, note: T::Note)
        requires cell { seat.old.cell ≡ self.now.id }
        requires turn { seat.old.view.holds ≡ true }
        requires history { T.stands held.old.value (seat.old.view.seen ++ note ∷ []) }
        requires room { length seat.old.view.seen + 1 < 2 ^ 64 }
        ensures cell { seat.new.cell ≡ seat.old.cell }
        ensures same { held.new.value ≡ held.old.value }
        ensures noted { seat.new.view ≡ noting seat.old.view note }
    {
        let _ = held;
        add(&self.table.shared, &mut seat.seat, note);
    }

    /// Counts notes that the value no longer keeps, by the seat that carries the mark. Its number grows by so many. It
    /// takes no memory.
    pub fn drained(&self, seat: &mut TurnSeat<T>, held: &mut Taken<T>, count: u64)
        requires cell { seat.old.cell ≡ self.now.id }
        requires turn { (seat.old.view.holds ≡ true) × (seat.old.view.marked ≡ true) }
        requires first { T.first held.old.value ≡ seat.old.view.drained + count }
        ensures cell { seat.new.cell ≡ seat.old.cell }
        ensures same { held.new.value ≡ held.old.value }
        ensures drained { seat.new.view ≡ draining seat.old.view count }
    {
        // The value counts in 64 bits what it no longer keeps, so that the sum fits.
        let _first = held.value.first();
        drain(&self.table.shared, &mut seat.seat, count);
    }

    /// How many notes were counted at the moment of this look: no fewer than the seat has seen. The seat learns no note,
    /// and needs no turn.
    pub fn look(&self, seat: &mut TurnSeat<T>) -> u64
        requires cell { seat.old.cell ≡ self.now.id }
        ensures same { seat.new ≡ seat.old }
        ensures seen { length seat.old.view.seen ≤ result }
    {
        count(&self.table.shared, &mut seat.seat)
    }

    /// A cell with this value and so many seats, each of which has seen the history that `P` names and has made no call. The
    /// last carries the mark, with the number of notes that the value no longer keeps. After want of memory the value is
    /// handed back.
    pub fn new<P: Past<T::Note>>(
        alloc: Global,
        value: T,
        seats: u32,
    ) -> Result<(TurnCell<T>, Vec<TurnSeat<T>>), (T, OutOfMemory)>
        requires seats { 0 < seats }
        requires stands { T.stands value P.past }
        ensures cell { IfOk result (λ r. (r.0.origin ≡ value) × (r.0.start ≡ length P.past) × (r.0.seats ≡ seats)) }
        ensures fresh { IfOk result (λ r. r.1.items ≡ replicate (seats - 1) (fresh r.0.id P.past (T.first value) false) ++ fresh r.0.id P.past (T.first value) true ∷ []) }
        ensures err { IfErr result (λ e. e.0 ≡ value) }
    {
        let Ok(mut list) = Vec::with_capacity(alloc, seats as usize) else {
            return Err((value, OutOfMemory));
        };
        let Ok(mut slots) = Vec::with_capacity(alloc, 1) else {
            return Err((value, OutOfMemory));
        };
        let start = value.count();
        let first = value.first();
        let origin = Origin {
            value: Snapshot::of(&value),
            start,
            seats: seats as u64,
        };
        slots.push_reserved(Some(value));
        match Table::new(alloc, &[0, start, first], slots, &origin) {
            Ok((table, seat)) => {
                deal::<T, P>(&table.shared, seat, seats, &mut list);
                Ok((TurnCell { table, seats }, list))
            }
            Err(refused) => Err((unpacked(refused), OutOfMemory)),
        }
    }

    /// Takes all seats back, and then the value. Refused exactly where fewer seats were handed in than the cell has; then
    /// all is handed back. The value stands for one history, with which what each seat has seen begins; each note that was
    /// counted is one seat's, once, and stands at its place there; and the marked seat's number is the number of notes
    /// that the value no longer keeps. It takes no memory.
    pub fn close<S: HasSeat<T>>(self, seats: Vec<S>) -> Result<T, (TurnCell<T>, Vec<S>)>
        requires { AreIdle S.standing self.id seats.items }
        ensures enough { IfOk result (λ x. length seats.items ≡ self.seats) }
        ensures whole { IfOk result (λ x. Whole T.stands T.fixed T.first self.origin self.start x (map (λ s. (S.standing s).view) seats.items)) }
        ensures refused { IfErr result (λ r. (length seats.items < self.seats) × (r.0 ≡ self) × (r.1 ≡ seats)) }
    {
        if seats.len() < self.seats as usize {
            return Err((self, seats));
        }
        let all = gather::<T, S>(&self.table.shared, seats);
        let TurnCell { table, seats: _ } = self;
        let mut closed = table.close_with(all);
        let slot = closed.take(0);
        closed.free();
        let Some(value) = slot else { unreachable!() };
        Ok(value)
    }
}

impl<T: Storied> TurnSeat<T> {
    fn into_seat(self) -> TableSeat<T>
        ensures { (result.table_id ≡ self.cell) × (result.me.0 ≡ self.view) × Ready result.me }
    {
        let TurnSeat { seat } = self;
        seat
    }
}

// Chooses the history, and makes the seats.
fn deal<T: Storied, P: Past<T::Note>>(
    table: &TurnTable<T>,
    mut seat: TableSeat<T>,
    seats: u32,
    list: &mut Vec<TurnSeat<T>>,
)
    requires cell { IsOf table.now.table_id seat }
    requires stands { T.stands table.now.key.value.value P.past }
    requires long { length P.past ≡ table.now.key.start }
    requires seats { (0 < seats) × (table.now.key.seats ≡ seats) }
    requires unborn { seat.me ≡ (unborn (T.first table.now.key.value.value) table.now.key.seats, []) }
    requires room { (list.old.items ≡ []) × (seats ≤ vec_capacity list.old) }
    ensures { list.new.items ≡ replicate (seats - 1) (fresh table.now.table_id P.past (T.first table.now.key.value.value) false) ++ fresh table.now.table_id P.past (T.first table.now.key.value.value) true ∷ [] }
{
    begin::<T, P>(table, &mut seat);
    for made in 1..seats {
        let _ = made;
        list.push_reserved(TurnSeat {
            seat: cut(table, &mut seat),
        });
    }
    list.push_reserved(TurnSeat { seat });
}

// Joins the seats into one.
fn gather<T: Storied, S: HasSeat<T>>(table: &TurnTable<T>, mut seats: Vec<S>) -> TableSeat<T>
    requires cell { (table.now.table_id.words ≡ 3) × (table.now.table_id.slots ≡ 1) }
    requires some { 0 < length seats.items }
    requires seats { AreIdle S.standing table.now.table_id seats.items }
    ensures cell { result.table_id ≡ table.now.table_id }
    ensures all { Gathered (map (λ s. (S.standing s).view) seats.items) result.me.0 }
{
    let mut all = inner::<T, S>(seats.pop().unwrap());
    while let Some(next) = seats.pop() {
        glue(table, &mut all, inner::<T, S>(next));
    }
    all
}

// The table's seat in what has one.
fn inner<T: Storied, S: HasSeat<T>>(seat: S) -> TableSeat<T>
    ensures { (result.table_id ≡ (S.standing seat).cell) × (result.me.0 ≡ (S.standing seat).view) × Ready result.me }
{
    seat.into_turn_seat().into_seat()
}

// What was to be the table's one slot.
fn unpacked<T>(refused: Refused<Option<T>, Global>) -> T
    requires { (x : T) × (refused.slots.items ≡ Some x ∷ []) }
    ensures { refused.slots.items ≡ Some result ∷ [] }
{
    let Refused { mut slots } = refused;
    let value = slots.pop().unwrap().unwrap();
    slots.destroy_empty();
    value
}

impl<T> Taken<T> {
    /// Lends the value.
    pub fn value(&self) -> &T
        ensures { result.now ≡ self.now.value }
    {
        &self.value
    }

    /// Lends the value, to be changed. What is left in it is what was taken.
    pub fn value_mut(&mut self) -> &mut T
        ensures* writes_back { sem 𝓛 (LendsValue T.row self.entry result) }
        ensures value { result.now ≡ self.old.value }
    {
        &mut self.value
    }
}
