//! The plant and its calls.
ghost use Rattle.std.specs.Prelude.{◌≡◌, ◌≤◌, ◌+◌, ◌<◌, ◌-◌, ◌++◌, ◌∷◌, [], List, Some, None, length, replicate, slice_get, true, false, ℕ, IfOk, IfErr, vec_len, vec_capacity};
ghost use Rattle.step_journal.specs.declared.entry.Entry.{Entry as Noted};
ghost use Rattle.step_journal.specs.History.{state_of};
ghost use Rattle.rt_base.specs.declared.ids.TxId.{TxId as Transaction};
ghost use Rattle.rt_base.specs.declared.ids.JobId.{JobId as Job};
ghost use Rattle.board.specs.Histories.{plan_entry, plan_next_entry, step_entry, idle_entry, plan_answer, plan_next_answer, step_answer, idle_answer, now_of};
ghost use Rattle.turn_cell.specs.Seats.{fresh};
ghost use Rattle.shared_plant.specs.Seats.{TableId, IsOf, AreOf, Closed, is_operator, newcomer, newcomers};
ghost use Rattle.shared_plant.specs.Steps.{Stepped};
ghost use Rattle.shared_plant.specs.Answers.{IsBusy, IfSaid, missed_once, Answered, AnsweredLate, nothing, Drained, DrainedLate, IsNotYet, WaitsAt};

use crate::asker::Asker;
use crate::seat::Seat;
use crate::shared_board::SharedBoard;
use crate::tried::Tried;
use crate::turn::{settle, step_on};
use board::{Board, IdleReply, StepReply};
use rt_base::{ItemId, JobId, List, Op, OutOfMemory, PlanRefused, Tick, TxId, Value};
use std::alloc::Global;
use std::marker::Model;
use std::sync::Wait;
use step_journal::Entry;
use turn_cell::{Past, TurnCell, TurnSeat};

/// The most steps of a job that one turn has.
pub const MOST_STEPS: u32 = 64;

/// A board that callers share, each by its seat, from threads of their own and without a lock. A `try_` call makes one
/// exchange for the turn, takes no memory and does not wait. It is Sync where the board is Send.
pub struct Plant<B: Board> {
    cell: TurnCell<SharedBoard<B>>,
    need: u32,
}

impl<B: Board> Model for Plant<B> {
    ghost use Rattle.shared_plant.specs.Seats.{PlantFacts};
    ghost use Rattle.std.specs.Prelude.{◌≡◌};

    ghost Value = { PlantFacts };

    ghost view = { λ p. record { id = p.cell.id; set = B.set p.cell.origin.board.value; room = B.room p.cell.origin.board.value; start = p.cell.start; seats = p.cell.seats } };

    ghost invariant = { λ p. p.need ≡ p.cell.seats };
}

impl<B: Board + Drop> Drop for Plant<B> {
    fn drop(self) {
        let Self { cell: _, need: _ } = self;
    }
}

/// What a refused `close` hands back, how many seats were handed in, and how many the plant has.
pub struct CloseRefused<B: Board> {
    pub plant: Plant<B>,
    pub seats: List<Seat<B>>,
    pub have: usize,
    pub need: usize,
}

impl<B: Board> Plant<B> {
    /// A plant on this board, with a seat for each transaction, in order, and the operator's last. Each has seen the
    /// history that `P` names, for which the board stands, and has made no call. After want of memory the board is handed
    /// back.
    pub fn start<P: Past<Entry>>(
        alloc: Global,
        board: B,
    ) -> Result<(Plant<B>, Vec<Seat<B>>), (B, OutOfMemory)>
        requires { B.stands board P.past }
        ensures plant { IfOk result (λ r. (r.0.set ≡ B.set board) × (r.0.room ≡ B.room board) × (r.0.start ≡ length P.past) × (r.0.seats ≡ length (B.set board).txns + 1)) }
        ensures seats { IfOk result (λ r. r.1.items ≡ newcomers r.0.id P.past (B.first board) (length (B.set board).txns) ++ newcomer r.0.id P.past (B.first board) None ∷ []) }
        ensures members { IfOk result (λ r. AreOf r.0 r.1.items) }
        ensures err { IfErr result (λ e. e.0 ≡ board) }
    {
        let txs = txs_of(&board);
        let front = board.count();
        let need = txs + 1;
        let Ok(mut seats) = Vec::with_capacity(alloc, need as usize) else {
            return Err((board, OutOfMemory));
        };
        let shared = SharedBoard::boxed(alloc, board)?;
        match TurnCell::<SharedBoard<B>>::new::<P>(alloc, shared, need) {
            Ok((cell, cells)) => {
                seat_all(cells, txs, front, &mut seats);
                Ok((Plant { cell, need }, seats))
            }
            Err((shared, error)) => Err((shared.into_board(), error)),
        }
    }

    /// Takes all seats back, and then the board. Refused exactly where fewer seats were handed in than the plant has; then
    /// all is handed back. The board has the set and the room of the one that the plant was started with. It stands for
    /// one legal history, with which what each seat has seen begins, and which holds each call that changed anything once.
    /// It takes no memory.
    pub fn close(self, seats: Vec<Seat<B>>) -> Result<B, CloseRefused<B>>
        requires plant { AreOf self seats.items }
        ensures enough { IfOk result (λ b. vec_len seats ≡ self.seats) }
        ensures closed { IfOk result (λ b. Closed B.stands B.set B.room B.first B.kept self b seats.items) }
        ensures refused { IfErr result (λ r. (r.have < r.need) × (r.have ≡ vec_len seats) × (r.need ≡ self.seats)) }
        ensures back { IfErr result (λ r. (r.plant ≡ self) × (r.seats ≡ seats.items)) }
    {
        let have = seats.len();
        let need = self.need as usize;
        if have < need {
            return Err(CloseRefused {
                plant: self,
                seats: List::of(seats),
                have,
                need,
            });
        }
        let Plant { cell, need: _ } = self;
        match cell.close(seats) {
            Ok(shared) => Ok(shared.into_board()),
            Err(_) => unreachable!(),
        }
    }

    /// A job of the seat's own transaction asks for an operation. The answer is the board's at the history that the seat
    /// has then seen, without the entry of this call.
    pub fn try_step(&self, seat: &mut Seat<B>, serial: u32, op: Op) -> Tried<StepReply>
        requires plant { IsOf self.now seat.old }
        requires tx { (tx : Transaction) × (seat.old.tx ≡ Some tx) }
        ensures busy { IsBusy result → seat.new ≡ missed_once seat.old }
        ensures said { (tx : Transaction) → seat.old.tx ≡ Some tx → IfSaid result (λ r. let job : Job = record { tx = tx; serial = serial } in Answered self.now.set (λ history base. r ≡ step_answer self.now.set history (length history - base) self.now.room job op) (λ history. step_entry (now_of self.now.set history) job op r) seat.old seat.new) }
    {
        let Some(tx) = seat.tx else { unreachable!() };
        let Some(mut taken) = self.cell.try_take(&mut seat.seat) else {
            return Tried::Busy;
        };
        let (reply, entry) = taken.value_mut().step(JobId { tx, serial }, op);
        seat.front = settle(&self.cell, &mut seat.seat, taken, entry);
        Tried::Said(reply)
    }

    /// Steps of a job of the seat's own transaction in one turn, at most `MOST_STEPS`, one after another: the asker says for what
    /// the job asks, the board answers at the history with the steps before, and the asker hears it. They go on while the
    /// operation was done and the job runs. The answer is the job that runs then. Other seats find the turn taken for so long.
    #[inline(always)]
    pub fn try_steps<C, A: Asker<C>>(
        &self,
        seat: &mut Seat<B>,
        serial: u32,
        asker: &mut A,
        with: &C,
    ) -> Tried<Option<JobId>>
        requires plant { IsOf self.now seat.old }
        requires tx { (tx : Transaction) × (seat.old.tx ≡ Some tx) }
        ensures busy { IsBusy result → (seat.new ≡ missed_once seat.old) × (asker.new ≡ asker.old) }
        ensures said { (tx : Transaction) → seat.old.tx ≡ Some tx → IfSaid result (λ running. let job : Job = record { tx = tx; serial = serial } in Stepped A.asks A.hears self.now job 64 running asker.old asker.new seat.old seat.new) }
    {
        let Some(tx) = seat.tx else { unreachable!() };
        let Some(mut taken) = self.cell.try_take(&mut seat.seat) else {
            return Tried::Busy;
        };
        let job = JobId { tx, serial };
        step_on(&self.cell, &mut seat.seat, &mut taken, job, asker, with);
        let running = taken.value().board.running();
        seat.front = settle(&self.cell, &mut seat.seat, taken, None);
        Tried::Said(running)
    }

    /// Plans the transaction's next job for a tick. Any seat may plan for any transaction.
    pub fn try_plan(
        &self,
        seat: &mut Seat<B>,
        tx: TxId,
        tick: Tick,
    ) -> Tried<Result<JobId, PlanRefused>>
        requires plant { IsOf self.now seat.old }
        requires tx { tx.0 < length self.now.set.txns }
        ensures busy { IsBusy result → seat.new ≡ missed_once seat.old }
        ensures said { IfSaid result (λ r. Answered self.now.set (λ history base. r ≡ plan_answer self.now.set history (length history - base) self.now.room tx.0 tick) (λ history. plan_entry tx tick r) seat.old seat.new) }
    {
        let Some(mut taken) = self.cell.try_take(&mut seat.seat) else {
            return Tried::Busy;
        };
        let (reply, entry) = taken.value_mut().plan(tx, tick);
        seat.front = settle(&self.cell, &mut seat.seat, taken, entry);
        Tried::Said(reply)
    }

    /// Plans the transaction's next job for the earliest tick at which it may be planned. Any seat may plan for any
    /// transaction.
    pub fn try_plan_next(
        &self,
        seat: &mut Seat<B>,
        tx: TxId,
    ) -> Tried<Result<(JobId, Tick), PlanRefused>>
        requires plant { IsOf self.now seat.old }
        requires tx { tx.0 < length self.now.set.txns }
        ensures busy { IsBusy result → seat.new ≡ missed_once seat.old }
        ensures said { IfSaid result (λ r. Answered self.now.set (λ history base. r ≡ plan_next_answer self.now.set history (length history - base) self.now.room tx.0) (λ history. plan_next_entry tx r) seat.old seat.new) }
    {
        let Some(mut taken) = self.cell.try_take(&mut seat.seat) else {
            return Tried::Busy;
        };
        let (reply, entry) = taken.value_mut().plan_next(tx);
        seat.front = settle(&self.cell, &mut seat.seat, taken, entry);
        Tried::Said(reply)
    }

    /// With nothing pending, the time goes on to the least planned tick. Any seat may try.
    pub fn try_idle(&self, seat: &mut Seat<B>) -> Tried<IdleReply>
        requires plant { IsOf self.now seat.old }
        ensures busy { IsBusy result → seat.new ≡ missed_once seat.old }
        ensures said { IfSaid result (λ r. Answered self.now.set (λ history base. r ≡ idle_answer self.now.set history (length history - base) self.now.room) (λ history. idle_entry (now_of self.now.set history) r) seat.old seat.new) }
    {
        let Some(mut taken) = self.cell.try_take(&mut seat.seat) else {
            return Tried::Busy;
        };
        let (reply, entry) = taken.value_mut().idle();
        seat.front = settle(&self.cell, &mut seat.seat, taken, entry);
        Tried::Said(reply)
    }

    /// An item's installed value and stamp, at the history that the seat has then seen. Any seat may look.
    pub fn try_peek(&self, seat: &mut Seat<B>, item: ItemId) -> Tried<(Value, Tick)>
        requires plant { IsOf self.now seat.old }
        requires item { item.0 < length self.now.set.items }
        ensures busy { IsBusy result → seat.new ≡ missed_once seat.old }
        ensures said { IfSaid result (λ r. Answered self.now.set (λ history base. slice_get (state_of self.now.set history).items item.0 ≡ Some (record { value = r.0; stamp = r.1 })) nothing seat.old seat.new) }
    {
        let Some(taken) = self.cell.try_take(&mut seat.seat) else {
            return Tried::Busy;
        };
        let reply = taken.value().board.peek(item);
        seat.front = settle(&self.cell, &mut seat.seat, taken, None);
        Tried::Said(reply)
    }

    /// Moves the oldest kept entries to the end of `into`, by the operator's seat: as many as there are, no more than
    /// `most`, and no more than `into` has spare places for.
    pub fn try_drain(&self, seat: &mut Seat<B>, most: usize, into: &mut Vec<Entry>) -> Tried<usize>
        requires plant { IsOf self.now seat.old }
        requires operator { seat.old.tx ≡ None }
        ensures busy { IsBusy result → (seat.new ≡ missed_once seat.old) × (into.new ≡ into.old) }
        ensures said { IfSaid result (λ n. Drained self.now most (vec_capacity into.old - vec_len into.old) into.old.items into.new.items n seat.old seat.new) }
        ensures places { vec_capacity into.new ≡ vec_capacity into.old }
    {
        let Some(mut taken) = self.cell.try_take(&mut seat.seat) else {
            return Tried::Busy;
        };
        let count = taken.value_mut().drain(most, into);
        let front = taken.value().board.count();
        self.cell.drained(&mut seat.seat, &mut taken, count as u64);
        self.cell.give(&mut seat.seat, taken);
        seat.front = front;
        Tried::Said(count)
    }

    /// As `try_step`, tried again while the answer is Busy or NotYet: the first other answer is given. It may wait.
    pub fn step<R: Wait>(&self, rt: &R, seat: &mut Seat<B>, serial: u32, op: Op) -> StepReply
        requires plant { IsOf self.now seat.old }
        requires tx { (tx : Transaction) × (seat.old.tx ≡ Some tx) }
        ensures answer { (tx : Transaction) → seat.old.tx ≡ Some tx → let job : Job = record { tx = tx; serial = serial } in AnsweredLate self.now.set (WaitsAt self.now.set self.now.room job op) (λ history base. result ≡ step_answer self.now.set history (length history - base) self.now.room job op) (λ history. step_entry (now_of self.now.set history) job op result) seat.old seat.new }
        ensures yet { IsNotYet result → ⊥ }
    {
        for _ in rt.forever() {
            if let Tried::Said(reply) = self.try_step(seat, serial, op) {
                if !is_not_yet(&reply) {
                    return reply;
                }
            }
        }
        unreachable!()
    }

    /// As `try_drain`, tried again until the answer is not Busy. It may wait.
    pub fn drain<R: Wait>(
        &self,
        rt: &R,
        seat: &mut Seat<B>,
        most: usize,
        into: &mut Vec<Entry>,
    ) -> usize
        requires plant { IsOf self.now seat.old }
        requires operator { seat.old.tx ≡ None }
        ensures drained { DrainedLate self.now most (vec_capacity into.old - vec_len into.old) into.old.items into.new.items result seat.old seat.new }
        ensures places { vec_capacity into.new ≡ vec_capacity into.old }
    {
        for _ in rt.forever() {
            if let Tried::Said(count) = self.try_drain(seat, most, into) {
                return count;
            }
        }
        unreachable!()
    }
}

// How many transactions the board's set has.
fn txs_of<B: Board>(board: &B) -> u32
    ensures all { result ≡ length (B.set board.now).txns }
    ensures small { result < 4294967295 }
{
    board.set().is_compiled();
    board.set().txns().len() as u32
}

// Seats the transactions in order, and the operator last.
fn seat_all<B: Board>(
    mut cells: Vec<TurnSeat<SharedBoard<B>>>,
    txs: u32,
    front: u64,
    seats: &mut Vec<Seat<B>>,
)
    requires fresh { (id : TableId) × (past : List Noted) × (first : ℕ) × (length past ≡ front) × (first ≤ length past) × (cells.items ≡ replicate txs (fresh id past first false) ++ fresh id past first true ∷ []) }
    requires room { (seats.old.items ≡ []) × (txs < vec_capacity seats.old) }
    ensures { (id : TableId) (past : List Noted) (first : ℕ) → cells.items ≡ replicate txs (fresh id past first false) ++ fresh id past first true ∷ [] → seats.new.items ≡ newcomers id past first txs ++ newcomer id past first None ∷ [] }
{
    let operator = cells.pop().unwrap();
    for tx in 0..txs {
        let seat = cells.pop().unwrap();
        seats.push_reserved(seated(seat, Some(TxId(tx)), front));
    }
    seats.push_reserved(seated(operator, None, front));
}

// A seat that has seen the past, and made no call.
fn seated<B: Board>(seat: TurnSeat<SharedBoard<B>>, tx: Option<TxId>, front: u64) -> Seat<B>
    requires { (id : TableId) × (past : List Noted) × (first : ℕ) × (length past ≡ front) × (first ≤ length past) × (seat ≡ fresh id past first (is_operator tx)) }
    ensures { (id : TableId) (past : List Noted) (first : ℕ) → seat ≡ fresh id past first (is_operator tx) → result ≡ newcomer id past first tx }
{
    Seat { seat, tx, front }
}

fn is_not_yet(reply: &StepReply) -> bool
    ensures yes { result ≡ true → IsNotYet reply.now }
    ensures no { result ≡ false → IsNotYet reply.now → ⊥ }
{
    matches!(reply, StepReply::NotYet { running: _ })
}
