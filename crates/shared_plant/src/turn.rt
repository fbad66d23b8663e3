//! The steps of a turn, and its end.
ghost use Rattle.std.specs.Prelude.{◌≡◌, ◌≢◌, ◌<◌, List, length, Some, None, true, false};
ghost use Rattle.step_journal.specs.declared.entry.Entry.{Entry as Noted};
ghost use Rattle.turn_cell.specs.Turn.{counted, released};
ghost use Rattle.board.specs.Histories.{noted, step_entry, running_of};
ghost use Rattle.shared_plant.specs.Seats.{SeatFacts};
ghost use Rattle.shared_plant.specs.Shared.{noting_own};
ghost use Rattle.shared_plant.specs.Steps.{OneStep, Steps, IsHeld};

use crate::asker::Asker;
use crate::plant::MOST_STEPS;
use crate::shared_board::SharedBoard;
use board::{Board, StepReply};
use rt_base::{End, JobId, Op, Outcome, Prio, Tick};
use step_journal::Entry;
use turn_cell::{Taken, TurnCell, TurnSeat};

// Notes an entry, or none, and gives the turn back. The answer is the length of the history.
pub(crate) fn settle<B: Board>(
    cell: &TurnCell<SharedBoard<B>>,
    seat: &mut TurnSeat<SharedBoard<B>>,
    mut taken: Taken<SharedBoard<B>>,
    entry: Option<Entry>,
) -> u64
    requires cell { seat.old.cell ≡ cell.now.id }
    requires turn { seat.old.view.holds ≡ true }
    requires history { B.stands taken.value.board.value (noted seat.old.view.seen entry) }
    requires fixed { (B.set taken.value.board.value ≡ B.set cell.now.origin.board.value) × (B.room taken.value.board.value ≡ B.room cell.now.origin.board.value) }
    requires first { B.first taken.value.board.value ≡ counted seat.old.view }
    ensures cell { seat.new.cell ≡ seat.old.cell }
    ensures view { seat.new.view ≡ released (noting_own seat.old.view entry) }
    ensures front { result ≡ length (noted seat.old.view.seen entry) }
{
    let front = taken.value().board.count();
    note_own(cell, seat, &mut taken, entry);
    cell.give(seat, taken);
    front
}

// Notes an entry, or none. The turn goes on.
#[inline(always)]
fn note_own<B: Board>(
    cell: &TurnCell<SharedBoard<B>>,
    seat: &mut TurnSeat<SharedBoard<B>>,
    taken: &mut Taken<SharedBoard<B>>,
    entry: Option<Entry>,
)
    requires cell { seat.old.cell ≡ cell.now.id }
    requires turn { seat.old.view.holds ≡ true }
    requires history { B.stands taken.old.value.board.value (noted seat.old.view.seen entry) }
    ensures cell { seat.new.cell ≡ seat.old.cell }
    ensures same { taken.new.value ≡ taken.old.value }
    ensures view { seat.new.view ≡ noting_own seat.old.view entry }
{
    match entry {
        Some(entry) => {
            // It fits in 64 bits, so that one more entry does.
            let _count = taken.value().board.count();
            cell.note(seat, taken, entry);
        }
        None => {}
    }
}

// One step in a turn: the asker says for what the job asks, the board answers, the entry is noted, and the asker hears the
// answer. Whether the operation was done and the job has not ended.
#[inline(always)]
pub(crate) fn step_once<B: Board, C, A: Asker<C>>(
    cell: &TurnCell<SharedBoard<B>>,
    seat: &mut TurnSeat<SharedBoard<B>>,
    taken: &mut Taken<SharedBoard<B>>,
    job: JobId,
    asker: &mut A,
    with: &C,
) -> bool
    requires cell { seat.old.cell ≡ cell.now.id }
    requires turn { seat.old.view.holds ≡ true }
    requires stands { B.stands taken.old.value.board.value seat.old.view.seen }
    requires in_set { job.tx.0 < length (B.set taken.old.value.board.value).txns }
    ensures cell { seat.new.cell ≡ seat.old.cell }
    ensures fixed { (B.set taken.new.value.board.value ≡ B.set taken.old.value.board.value) × (B.room taken.new.value.board.value ≡ B.room taken.old.value.board.value) × (B.first taken.new.value.board.value ≡ B.first taken.old.value.board.value) }
    ensures stands { B.stands taken.new.value.board.value seat.new.view.seen }
    ensures step { let b = taken.old.value.board.value in OneStep A.asks A.hears (B.set b) (B.room b) (B.first b) job (result ≡ true) (result ≡ false) asker.old asker.new seat.old.view seat.new.view }
{
    let op = asker.ask(with, job.tx);
    let tick = taken.value().board.now();
    if taken.value_mut().compute(job, op) {
        let outcome = Outcome::Computed;
        note_own(cell, seat, taken, done(job, op, outcome, None, tick));
        asker.done(outcome);
        return true;
    }
    match taken.value_mut().board.step(job, op) {
        StepReply::Done {
            outcome,
            over: None,
        } => {
            note_own(cell, seat, taken, done(job, op, outcome, None, tick));
            asker.done(outcome);
            true
        }
        StepReply::Done {
            outcome,
            over: Some(end),
        } => {
            note_own(cell, seat, taken, done(job, op, outcome, Some(end), tick));
            asker.ended(outcome);
            false
        }
        StepReply::Blocked { by, ceiling } => {
            note_own(cell, seat, taken, waits(job, op, by, ceiling, tick));
            asker.blocked(op);
            false
        }
        reply => {
            asker.hear(op, &reply);
            false
        }
    }
}

// The entry of an operation that was done.
#[inline(always)]
fn done(job: JobId, op: Op, outcome: Outcome, over: Option<End>, tick: Tick) -> Option<Entry>
    ensures { result ≡ step_entry tick job op (StepReply.Done outcome over) }
{
    Some(Entry::Step {
        job,
        op,
        outcome,
        over,
        tick,
    })
}

// The entry of an operation for which the job waits.
#[inline(always)]
fn waits(job: JobId, op: Op, by: JobId, ceiling: Prio, tick: Tick) -> Option<Entry>
    ensures { result ≡ step_entry tick job op (StepReply.Blocked by ceiling) }
{
    Some(Entry::Blocked {
        job,
        op,
        by,
        ceiling,
        tick,
    })
}

// The steps of a turn: while the operation was done and the job runs, up to the most that a turn has.
#[inline(always)]
pub(crate) fn step_on<B: Board, C, A: Asker<C>>(
    cell: &TurnCell<SharedBoard<B>>,
    seat: &mut TurnSeat<SharedBoard<B>>,
    taken: &mut Taken<SharedBoard<B>>,
    job: JobId,
    asker: &mut A,
    with: &C,
)
    requires cell { seat.old.cell ≡ cell.now.id }
    requires turn { seat.old.view.holds ≡ true }
    requires stands { B.stands taken.old.value.board.value seat.old.view.seen }
    requires in_set { job.tx.0 < length (B.set taken.old.value.board.value).txns }
    ensures fixed { (B.set taken.new.value.board.value ≡ B.set taken.old.value.board.value) × (B.room taken.new.value.board.value ≡ B.room taken.old.value.board.value) × (B.first taken.new.value.board.value ≡ B.first taken.old.value.board.value) }
    ensures stands { B.stands taken.new.value.board.value seat.new.view.seen }
    ensures steps { let b = taken.old.value.board.value in (s : SeatFacts) → IsHeld s seat.old → s.base ≡ B.first b → (t : SeatFacts) × IsHeld t seat.new × Steps A.asks A.hears (B.set b) (B.room b) job 64 asker.old asker.new s t }
{
    for _ in 0..MOST_STEPS {
        if !step_once(cell, seat, taken, job, asker, with) {
            return;
        }
        if !runs(taken.value(), job) {
            return;
        }
    }
}

// Whether the job runs.
#[inline(always)]
fn runs<B: Board>(board: &SharedBoard<B>, job: JobId) -> bool
    ensures yes { (history : List Noted) → B.stands board.now.board.value history → result ≡ true → running_of (B.set board.now.board.value) history ≡ Some job }
    ensures no { (history : List Noted) → B.stands board.now.board.value history → result ≡ false → running_of (B.set board.now.board.value) history ≢ Some job }
{
    match board.board.running() {
        Some(running) => running.tx.0 == job.tx.0 && running.serial == job.serial,
        None => false,
    }
}
