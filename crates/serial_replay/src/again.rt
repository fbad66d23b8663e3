//! The calls of a history made again on a board.
ghost use Rattle.std.specs.Prelude.{◌≡◌, ◌<◌, [], ℕ, List as Many, length, nat_lt, is_some, Some, IsTrue, ◌↔◌, MatchOption};
ghost use Rattle.rt_base.specs.declared.ids.JobId.{JobId as Job};
ghost use Rattle.rt_base.specs.declared.operation.Op.{Op as Operation};
ghost use Rattle.step_journal.specs.declared.entry.Entry.{Entry as Noted};
ghost use Rattle.step_journal.specs.Step.{plan as planning, ask as asking, idle as idling};
ghost use Rattle.step_journal.specs.History.{event_of};
ghost use Rattle.board.specs.Histories.{step_entry};
ghost use Rattle.serial_replay.specs.Boards.{GoesOnBy, made_by};
ghost use Rattle.serial_replay.specs.Replays.{IsFirstIllegal, HasReplayed};

use board::{Board, IdleReply, StepReply, answers_are_steps};
use rt_base::{End, JobId, Op, Outcome, Tick, TxId};
use step_journal::Entry;

// Whether the board's set has this transaction.
fn is_in_set<B: Board>(board: &B, tx: TxId) -> bool
    ensures { result ≡ nat_lt tx.0 (length (B.set board.now).txns) }
{
    (tx.0 as usize) < board.set().txns().len()
}

fn is_plan_noted<B: Board>(board: &mut B, tx: TxId, tick: Tick) -> bool
    requires { length (B.kept board.old) < B.room board.old }
    ensures noted { (history : Many Noted) → B.stands board.old history → result ≡ is_some (made_by (B.set board.old) history (planning tx.0 tick)) }
    ensures goes_on { GoesOnBy B.stands B.set B.room B.first board.old board.new (planning tx.0 tick) }
{
    answers_are_steps();
    if !is_in_set(board, tx) {
        return false;
    }
    match board.plan(tx, tick) {
        Ok(_) => true,
        Err(_) => false,
    }
}

// Whether an answer to a step has an entry.
#[inline(always)]
fn has_entry(reply: StepReply) -> bool
    ensures { (now : ℕ) (job : Job) (op : Operation) → result ≡ is_some (step_entry now job op reply) }
{
    match reply {
        StepReply::Done { .. } => true,
        StepReply::Blocked { .. } => true,
        StepReply::NoJob { .. } => false,
        StepReply::NotYet { .. } => false,
        StepReply::Undeclared { .. } => false,
        StepReply::TooEarly { .. } => false,
        StepReply::Unwritten { .. } => false,
        StepReply::Full { .. } => false,
    }
}

#[inline(always)]
fn is_step_noted<B: Board>(board: &mut B, job: JobId, op: Op) -> bool
    requires { length (B.kept board.old) < B.room board.old }
    ensures noted { (history : Many Noted) → B.stands board.old history → result ≡ is_some (made_by (B.set board.old) history (asking job op)) }
    ensures goes_on { GoesOnBy B.stands B.set B.room B.first board.old board.new (asking job op) }
{
    answers_are_steps();
    if !is_in_set(board, job.tx) {
        return false;
    }
    if let Op::Compute = op {
        if board.compute(job) {
            return true;
        }
    }
    has_entry(board.step(job, op))
}

fn is_idle_noted<B: Board>(board: &mut B) -> bool
    requires { length (B.kept board.old) < B.room board.old }
    ensures noted { (history : Many Noted) → B.stands board.old history → result ≡ is_some (made_by (B.set board.old) history idling) }
    ensures goes_on { GoesOnBy B.stands B.set B.room B.first board.old board.new idling }
{
    answers_are_steps();
    match board.idle() {
        IdleReply::Advanced { .. } => true,
        IdleReply::NotIdle { .. } => false,
        IdleReply::Nothing => false,
        IdleReply::Full { .. } => false,
    }
}

// Makes the call of an entry again: whether the board noted one for it.
#[inline(always)]
fn is_noted<B: Board>(board: &mut B, entry: &Entry) -> bool
    requires { length (B.kept board.old) < B.room board.old }
    ensures noted { (history : Many Noted) → B.stands board.old history → result ≡ is_some (made_by (B.set board.old) history (event_of entry.now)) }
    ensures goes_on { GoesOnBy B.stands B.set B.room B.first board.old board.new (event_of entry.now) }
{
    match *entry {
        Entry::Planned { tx, tick } => is_plan_noted(board, tx, tick),
        Entry::Step { job, op, .. } => is_step_noted(board, job, op),
        Entry::Blocked { job, op, .. } => is_step_noted(board, job, op),
        Entry::Idle { .. } => is_idle_noted(board),
    }
}

#[inline(always)]
fn is_same_outcome(a: &Outcome, b: &Outcome) -> bool
    ensures { IsTrue result ↔ (a.now ≡ b.now) }
{
    a == b
}

#[inline(always)]
fn is_same_over(a: &Option<End>, b: &Option<End>) -> bool
    ensures { IsTrue result ↔ (a.now ≡ b.now) }
{
    a == b
}

// Whether two entries are the same. It compares their parts where they stand, so that neither is put together for it.
#[inline(always)]
fn is_same(made: &Entry, entry: &Entry) -> bool
    ensures { IsTrue result ↔ (made.now ≡ entry.now) }
{
    match (made, entry) {
        (Entry::Planned { tx, tick }, Entry::Planned { tx: t, tick: k }) => tick == k && tx == t,
        (
            Entry::Step {
                job,
                op,
                outcome,
                over,
                tick,
            },
            Entry::Step {
                job: j,
                op: o,
                outcome: r,
                over: v,
                tick: k,
            },
        ) => {
            tick == k && job == j && op == o && is_same_outcome(outcome, r) && is_same_over(over, v)
        }
        (
            Entry::Blocked {
                job,
                op,
                by,
                ceiling,
                tick,
            },
            Entry::Blocked {
                job: j,
                op: o,
                by: b,
                ceiling: c,
                tick: k,
            },
        ) => tick == k && job == j && op == o && by == b && ceiling == c,
        (Entry::Idle { from, to }, Entry::Idle { from: f, to: t }) => from == f && to == t,
        _ => false,
    }
}

// Makes the call of an entry again: whether the board noted this very entry. It is compared where the board keeps it.
#[inline(always)]
fn is_made_again<B: Board>(board: &mut B, entry: &Entry) -> bool
    requires { length (B.kept board.old) < B.room board.old }
    ensures made { (history : Many Noted) → B.stands board.old history → IsTrue result ↔ (made_by (B.set board.old) history (event_of entry.now) ≡ Some entry.now) }
    ensures goes_on { GoesOnBy B.stands B.set B.room B.first board.old board.new (event_of entry.now) }
{
    if !is_noted(board, entry) {
        return false;
    }
    match board.entries().last() {
        Some(made) => is_same(made, entry),
        None => false,
    }
}

// Lets go of the entries of a board that has room for no more.
fn make_room<B: Board>(board: &mut B)
    requires some { 0 < B.room board.old }
    ensures stands { (history : Many Noted) → B.stands board.old history → B.stands board.new history }
    ensures fixed { (B.set board.new ≡ B.set board.old) × (B.room board.new ≡ B.room board.old) }
    ensures kept { length (B.kept board.new) < B.room board.new }
{
    if board.entries().len() < board.room() {
        return;
    }
    board.discard();
}

/// Makes the call of each entry again on a new board. The answer is the index of the first entry that the board does not make
/// so, if there is one. The board keeps as many entries at a time as it has room for.
pub fn again<B: Board>(board: &mut B, entries: &[Entry]) -> Option<usize>
    requires stands { B.stands board.old [] }
    requires room { 0 < B.room board.old }
    ensures set { B.set board.new ≡ B.set board.old }
    ensures answer { MatchOption result (HasReplayed (B.set board.old) (B.stands board.new) entries.now) (IsFirstIllegal (B.set board.old) entries.now) }
{
    for (i, entry) in entries.iter().enumerate() {
        if !is_made_again(board, entry) {
            return Some(i);
        }
        make_room(board);
    }
    None
}
