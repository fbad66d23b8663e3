//! The first answers of a board over the known set.
ghost use Rattle.std.specs.Prelude.{◌≡◌, length};

use crate::growths::known::{AVERAGE, CONTROL, MEAN, SAMPLE, TEMP, VALVE, is_known_set};
use board::{Board, IdleReply, StepReply};
use rt_base::{End, JobId, Op, Outcome, TxId};

/// The first job of a transaction.
pub fn first_of(tx: TxId) -> JobId
    ensures { result.tx ≡ tx }
{
    JobId { tx, serial: 0 }
}

/// A granted step after which the job goes on.
pub fn done(outcome: Outcome) -> StepReply {
    StepReply::Done {
        outcome,
        over: None,
    }
}

// Plans a job of each transaction.
fn plans_all<B: Board>(board: &mut B) -> bool
    requires { length (B.set board.old).txns ≡ 3 }
    ensures { B.set board.new ≡ B.set board.old }
{
    let sample = board.plan(SAMPLE, 0) == Ok(first_of(SAMPLE));
    let average = board.plan(AVERAGE, 0) == Ok(first_of(AVERAGE));
    let control = board.plan(CONTROL, 4) == Ok(first_of(CONTROL));
    sample && average && control
}

// The sampler writes and commits, and then the averager reads what it wrote.
fn steps_on<B: Board>(board: &mut B) -> bool
    requires { length (B.set board.old).txns ≡ 3 }
    ensures { B.set board.new ≡ B.set board.old }
{
    let (sample, average) = (first_of(SAMPLE), first_of(AVERAGE));
    let early = board.step(average, Op::Compute);
    let put = board.step(sample, Op::Write(TEMP, 5));
    let closed = board.step(sample, Op::Commit);
    let got = board.step(average, Op::Read(TEMP));
    let committed = StepReply::Done {
        outcome: Outcome::Closed,
        over: Some(End::Committed),
    };
    let read = done(Outcome::Got {
        value: 5,
        stamp: Some(0),
    });
    early == StepReply::NotYet { running: sample }
        && put == done(Outcome::Put)
        && closed == committed
        && got == read
}

// What is told after those steps.
fn tells<B: Board>(board: &mut B) -> bool
    requires { (length (B.set board.old).txns ≡ 3) × (length (B.set board.old).items ≡ 3) }
{
    let average = first_of(AVERAGE);
    let idled = board.idle() == IdleReply::NotIdle { running: average };
    let items = [board.peek(TEMP), board.peek(MEAN), board.peek(VALVE)];
    let jobs = (
        board.ended(SAMPLE),
        board.pending(AVERAGE),
        board.pending(CONTROL),
    );
    let counts = (board.now(), board.planned(), board.count());
    idled
        && items == [(5, 0), (0, 0), (7, 0)]
        && jobs == (1, Some(average), None)
        && counts == (3, 1, 6)
}

/// Whether a new board over the known set answers as is known. It is driven on.
pub fn has_known_answers<B: Board>(board: &mut B) -> bool {
    if board.set().items().len() != 3 {
        return false;
    }
    if board.set().txns().len() != 3 {
        return false;
    }
    is_known_set(board.set())
        && is_new(board)
        && plans_all(board)
        && steps_on(board)
        && tells(board)
}

/// Whether nothing happened on the board yet.
pub fn is_new<B: Board>(board: &B) -> bool {
    let counts = (board.now(), board.planned(), board.count(), board.first());
    counts == (0, 0, 0, 0) && board.running().is_none() && board.entries().is_empty()
}
