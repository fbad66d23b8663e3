//! A diary behind a turn, by one thread and by two.
ghost use Rattle.std.specs.Prelude.{◌≡◌, ℕ, List, ◌+◌, ◌<◌, ◌^◌, ◌++◌, ◌∷◌, [], true, false, length, drop, vec_len, vec_capacity, ◌≤◌, IfOk};
ghost use Rattle.turn_cell.specs.Turn.{counted};

use std::alloc::{AllocError, Global};
use std::test::Fail;
use std::thread::{Threads, join};
use turn_cell::{Past, Storied, Taken, TurnCell, TurnSeat};

/// Some notes, of which the oldest may be gone.
#[derive(Drop)]
struct Diary {
    gone: u64,
    kept: Vec<u8>,
    ghost short: { gone + vec_len kept < 2 ^ 63 },
}

impl Storied for Diary {
    type Note = u8;

    type Fixed = ();

    ghost stands = { λ d history. (length history ≡ d.gone + length d.kept.items) × (drop d.gone history ≡ d.kept.items) };

    ghost fixed = { λ d. tt };

    ghost first = { λ d. d.gone };

    fn count(&self) -> u64 {
        self.gone + self.kept.len() as u64
    }

    fn first(&self) -> u64 {
        self.gone
    }
}

impl Diary {
    fn add(&mut self, note: u8) -> bool
        ensures yes { result ≡ true → (self.new.gone ≡ self.old.gone) × (self.new.kept.items ≡ self.old.kept.items ++ note ∷ []) }
        ensures no { result ≡ false → (self.new.gone ≡ self.old.gone) × (self.new.kept.items ≡ self.old.kept.items) }
    {
        if self.kept.len() == self.kept.capacity()
            || self.gone + self.kept.len() as u64 >= 1 << 62
        {
            return false;
        }
        self.kept.push_reserved(note);
        true
    }

    fn forget(&mut self) -> u64
        ensures gone { self.new.gone ≡ self.old.gone + result }
        ensures stands { (history : List ℕ) → length history ≡ self.old.gone + length self.old.kept.items → (length history ≡ self.new.gone + length self.new.kept.items) × (drop self.new.gone history ≡ self.new.kept.items) }
    {
        let count = self.kept.len() as u64;
        self.kept.clear();
        self.gone += count;
        count
    }
}

type Writer = TurnSeat<Diary>;

/// The history of a new diary.
struct NoNote;

impl Past<u8> for NoNote {
    ghost past = { [] };
}

// Writes a note where there is room, and gives the turn back; whether there was room.
fn write(cell: &TurnCell<Diary>, seat: &mut Writer, taken: Taken<Diary>, note: u8) -> bool
    requires cell { seat.old.cell ≡ cell.now.id }
    requires turn { seat.old.view.holds ≡ true }
    requires history { (length seat.old.view.seen ≡ taken.value.gone + length taken.value.kept.items) × (drop taken.value.gone seat.old.view.seen ≡ taken.value.kept.items) }
    requires first { taken.value.gone ≡ counted seat.old.view }
    ensures cell { (seat.new.cell ≡ seat.old.cell) × (seat.new.view.holds ≡ false) }
{
    let mut taken = taken;
    if taken.value_mut().add(note) {
        cell.note(seat, &mut taken, note);
        cell.give(seat, taken);
        true
    } else {
        cell.give(seat, taken);
        false
    }
}

/// None where the turn was taken, and else whether there was room.
fn try_write(cell: &TurnCell<Diary>, seat: &mut Writer, note: u8) -> Option<bool>
    requires cell { seat.old.cell ≡ cell.now.id }
    requires idle { seat.old.view.holds ≡ false }
    ensures cell { (seat.new.cell ≡ seat.old.cell) × (seat.new.view.holds ≡ false) }
{
    let taken = cell.try_take(seat)?;
    Some(write(cell, seat, taken, note))
}

// How often a seat misses the turn, which it gives back at once.
fn missed(cell: &TurnCell<Diary>, seat: &mut Writer) -> u64
    requires { (seat.old.cell ≡ cell.now.id) × (seat.old.view.holds ≡ false) }
    ensures { (seat.new.cell ≡ seat.old.cell) × (seat.new.view.holds ≡ false) × (seat.new.view.marked ≡ seat.old.view.marked) }
{
    match cell.try_take(seat) {
        Some(taken) => {
            cell.give(seat, taken);
            0
        }
        None => 1,
    }
}

// One seat takes the turn, which the other then finds taken, and writes a note: what was looked at before, how often the turn
// was missed, and what the other looks at after.
fn noted(cell: &TurnCell<Diary>, marked: &mut Writer, other: &mut Writer) -> Option<(u64, u64, u64)>
    requires marked { (marked.old.cell ≡ cell.now.id) × (marked.old.view.holds ≡ false) }
    requires other { (other.old.cell ≡ cell.now.id) × (other.old.view.holds ≡ false) }
    ensures marked { (marked.new.cell ≡ marked.old.cell) × (marked.new.view.holds ≡ false) × (marked.new.view.marked ≡ marked.old.view.marked) }
    ensures other { (other.new.cell ≡ other.old.cell) × (other.new.view.holds ≡ false) }
{
    let before = cell.look(other);
    let taken = cell.try_take(other)?;
    let missed = missed(cell, marked);
    if !write(cell, other, taken, 7) {
        return None;
    }
    Some((before, missed, cell.look(marked)))
}

// How many notes the marked seat finds, and how many it drains.
fn drained(cell: &TurnCell<Diary>, marked: &mut Writer) -> Option<(u64, u64)>
    requires { (marked.old.cell ≡ cell.now.id) × (marked.old.view.holds ≡ false) × (marked.old.view.marked ≡ true) }
    ensures { (marked.new.cell ≡ marked.old.cell) × (marked.new.view.holds ≡ false) }
{
    let mut taken = cell.try_take(marked)?;
    let kept = taken.value().kept.len() as u64;
    let gone = taken.value_mut().forget();
    cell.drained(marked, &mut taken, gone);
    cell.give(marked, taken);
    Some((kept, gone))
}

// How often one seat of two does not close a cell, and the diary that both leave.
fn closed(
    cell: TurnCell<Diary>,
    mut seats: Vec<Writer>,
    marked: Writer,
    other: Writer,
) -> Option<(u64, Diary)>
    requires seats { (seats.items ≡ []) × (2 ≤ vec_capacity seats) }
    requires marked { (marked.cell ≡ cell.id) × (marked.view.holds ≡ false) }
    requires other { (other.cell ≡ cell.id) × (other.view.holds ≡ false) }
{
    seats.push_reserved(marked);
    let (cell, mut seats, refused) = match cell.close(seats) {
        Ok(diary) => {
            drop(other);
            drop(diary);
            return None;
        }
        Err((cell, seats)) => (cell, seats, 1),
    };
    seats.push_reserved(other);
    match cell.close(seats) {
        Ok(diary) => Some((refused, diary)),
        Err((cell, seats)) => {
            drop(cell);
            drop(seats);
            None
        }
    }
}

// What the steps of both seats answer while the cell is open.
fn asked(
    cell: &TurnCell<Diary>,
    marked: &mut Writer,
    other: &mut Writer,
) -> Option<((u64, u64, u64), (u64, u64))>
    requires marked { (marked.old.cell ≡ cell.now.id) × (marked.old.view.holds ≡ false) × (marked.old.view.marked ≡ true) }
    requires other { (other.old.cell ≡ cell.now.id) × (other.old.view.holds ≡ false) }
    ensures marked { (marked.new.cell ≡ marked.old.cell) × (marked.new.view.holds ≡ false) }
    ensures other { (other.new.cell ≡ other.old.cell) × (other.new.view.holds ≡ false) }
{
    let written = noted(cell, marked, other)?;
    let drained = drained(cell, marked)?;
    Some((written, drained))
}

/// One thread with both seats of a cell: what each step answered, and the diary.
fn visited<P: Past<u8>>(alloc: Global, diary: Diary) -> Option<([u64; 6], Diary)>
    requires { (length P.past ≡ diary.gone + length diary.kept.items) × (drop diary.gone P.past ≡ diary.kept.items) }
{
    let (cell, mut seats) = match TurnCell::new::<P>(alloc, diary, 2) {
        Ok(made) => made,
        Err((diary, _)) => {
            drop(diary);
            return None;
        }
    };
    let mut marked = seats.pop().unwrap();
    let mut other = seats.pop().unwrap();
    let answers = asked(&cell, &mut marked, &mut other);
    let (refused, diary) = closed(cell, seats, marked, other)?;
    let Some(((before, missed, after), (kept, gone))) = answers else {
        drop(diary);
        return None;
    };
    Some(([before, missed, after, kept, gone, refused], diary))
}

/// Two threads with a seat each try to write a note.
fn written<P: Past<u8>, R: Threads>(
    rt: &R,
    alloc: Global,
    diary: Diary,
) -> Option<(Diary, Option<bool>, Option<bool>)>
    requires { (length P.past ≡ diary.gone + length diary.kept.items) × (drop diary.gone P.past ≡ diary.kept.items) }
{
    let (cell, mut seats) = match TurnCell::new::<P>(alloc, diary, 2) {
        Ok(made) => made,
        Err((diary, _)) => {
            drop(diary);
            return None;
        }
    };
    let one = seats.pop().unwrap();
    let two = seats.pop().unwrap();
    let ((one, a), (two, b)) = join(
        rt,
        || -> (Writer, Option<bool>)
            requires { (one.cell ≡ cell.id) × (one.view.holds ≡ false) }
            ensures { (result.0.cell ≡ cell.id) × (result.0.view.holds ≡ false) }
        { write_as(&cell, one, 7) },
        || -> (Writer, Option<bool>)
            requires { (two.cell ≡ cell.id) × (two.view.holds ≡ false) }
            ensures { (result.0.cell ≡ cell.id) × (result.0.view.holds ≡ false) }
        { write_as(&cell, two, 9) },
    );
    seats.push_reserved(one);
    seats.push_reserved(two);
    match cell.close(seats) {
        Ok(diary) => Some((diary, a, b)),
        Err((cell, seats)) => {
            drop(cell);
            drop(seats);
            None
        }
    }
}

fn write_as(cell: &TurnCell<Diary>, mut seat: Writer, note: u8) -> (Writer, Option<bool>)
    requires { (seat.cell ≡ cell.now.id) × (seat.view.holds ≡ false) }
    ensures { (result.0.cell ≡ seat.cell) × (result.0.view.holds ≡ false) }
{
    let said = try_write(cell, &mut seat, note);
    (seat, said)
}

fn new_diary(alloc: Global) -> Result<Diary, AllocError>
    ensures { IfOk result (λ d. (d.gone ≡ 0) × (d.kept.items ≡ [])) }
{
    Ok(Diary {
        gone: 0,
        kept: Vec::with_capacity(alloc, 4)?,
    })
}

/// The turn is one seat's at a time, a note is counted and drained, and fewer seats than there are do not close a cell.
#[test]
fn one_thread_with_two_seats(rt: HostRuntime) -> Result<(), Fail> {
    let diary = new_diary(rt.alloc())?;
    let (answers, left) = visited::<NoNote>(rt.alloc(), diary).expect(&rt, "memory and turns");
    assert_eq!(rt; answers, [0, 1, 1, 1, 1, 1]);
    assert_eq!(rt; left.gone, 1);
    assert_eq!(rt; left.kept.len(), 0);
    drop(left);
    Ok(())
}

/// At least the first of two tries finds the turn free, and what was written is kept.
#[test]
fn two_threads_write(rt: HostRuntime) -> Result<(), Fail> {
    let diary = new_diary(rt.alloc())?;
    let (left, a, b) = written::<NoNote, HostRuntime>(&rt, rt.alloc(), diary).expect(&rt, "memory");
    let wrote = usize::from(a == Some(true)) + usize::from(b == Some(true));
    assert!(rt; wrote >= 1 && left.kept.len() == wrote);
    drop(left);
    Ok(())
}
