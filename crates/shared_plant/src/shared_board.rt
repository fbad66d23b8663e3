//! A board in a cell: its history is the board's history, its notes are the entries, and its fixed part is the set and the
//! room. It has a place of its own on the heap, so that a turn does not move it. Each call gives the board's answer and the
//! entry that the board appended, if any.
ghost use Rattle.std.specs.Prelude.{◌≡◌, IsTrue, None, false, ℕ, ◌+◌, ◌-◌, ◌≤◌, ◌<◌, ◌++◌, List, length, min, take, drop, vec_len, vec_capacity, IfOk, IfErr};
ghost use Rattle.step_journal.specs.declared.entry.Entry.{Entry as Noted};
ghost use Rattle.board.specs.Histories.{noted, plan_entry, plan_next_entry, step_entry, idle_entry, plan_answer, plan_next_answer, step_answer, idle_answer, now_of};
ghost use Rattle.shared_plant.specs.Shared.{IsNext};

use board::{Board, IdleReply, StepReply};
use rt_base::{JobId, Op, OutOfMemory, Outcome, PlanRefused, Tick, TxId};
use std::alloc::Global;
use step_journal::Entry;
use turn_cell::Storied;
use txn_set::CompiledSet;

#[derive(Drop)]
pub(crate) struct SharedBoard<B> {
    pub(crate) board: Box<B>,
}

impl<B: Board> Storied for SharedBoard<B> {
    type Note = Entry;

    type Fixed = (CompiledSet, usize);

    ghost stands = { λ s history. B.stands s.board.value history };

    ghost fixed = { λ s. (B.set s.board.value, B.room s.board.value) };

    ghost first = { λ s. B.first s.board.value };

    fn count(&self) -> u64 {
        self.board.count()
    }

    fn first(&self) -> u64 {
        self.board.first()
    }
}

impl<B: Board> SharedBoard<B> {
    // A place of its own for the board, which is handed back after want of memory.
    pub(crate) fn boxed(alloc: Global, board: B) -> Result<SharedBoard<B>, (B, OutOfMemory)>
        ensures ok { IfOk result (λ s. s.board.value ≡ board) }
        ensures err { IfErr result (λ e. e.0 ≡ board) }
    {
        match Box::new(alloc, board) {
            Ok(board) => Ok(SharedBoard { board }),
            Err(failed) => Err((failed.value, OutOfMemory)),
        }
    }

    pub(crate) fn into_board(self) -> B
        ensures { result ≡ self.board.value }
    {
        let SharedBoard { board } = self;
        Box::into_inner(board)
    }

    pub(crate) fn plan(
        &mut self,
        tx: TxId,
        tick: Tick,
    ) -> (Result<JobId, PlanRefused>, Option<Entry>)
        requires { tx.0 < length (B.set self.old.board.value).txns }
        ensures fixed { (B.set self.new.board.value ≡ B.set self.old.board.value) × (B.room self.new.board.value ≡ B.room self.old.board.value) × (B.first self.new.board.value ≡ B.first self.old.board.value) }
        ensures answer { (history : List Noted) → B.stands self.old.board.value history → result.0 ≡ plan_answer (B.set self.old.board.value) history (length history - B.first self.old.board.value) (B.room self.old.board.value) tx.0 tick }
        ensures entry { (history : List Noted) → B.stands self.old.board.value history → result.1 ≡ plan_entry tx tick result.0 }
        ensures after { (history : List Noted) → B.stands self.old.board.value history → IsNext B.stands B.set B.first self.old.board.value self.new.board.value history (noted history result.1) }
    {
        let reply = self.board.plan(tx, tick);
        let entry = entry_of_plan(tx, tick, &reply);
        (reply, entry)
    }

    pub(crate) fn plan_next(
        &mut self,
        tx: TxId,
    ) -> (Result<(JobId, Tick), PlanRefused>, Option<Entry>)
        requires { tx.0 < length (B.set self.old.board.value).txns }
        ensures fixed { (B.set self.new.board.value ≡ B.set self.old.board.value) × (B.room self.new.board.value ≡ B.room self.old.board.value) × (B.first self.new.board.value ≡ B.first self.old.board.value) }
        ensures answer { (history : List Noted) → B.stands self.old.board.value history → result.0 ≡ plan_next_answer (B.set self.old.board.value) history (length history - B.first self.old.board.value) (B.room self.old.board.value) tx.0 }
        ensures entry { (history : List Noted) → B.stands self.old.board.value history → result.1 ≡ plan_next_entry tx result.0 }
        ensures after { (history : List Noted) → B.stands self.old.board.value history → IsNext B.stands B.set B.first self.old.board.value self.new.board.value history (noted history result.1) }
    {
        let reply = self.board.plan_next(tx);
        let entry = entry_of_plan_next(tx, &reply);
        (reply, entry)
    }

    pub(crate) fn step(&mut self, job: JobId, op: Op) -> (StepReply, Option<Entry>)
        requires { job.tx.0 < length (B.set self.old.board.value).txns }
        ensures fixed { (B.set self.new.board.value ≡ B.set self.old.board.value) × (B.room self.new.board.value ≡ B.room self.old.board.value) × (B.first self.new.board.value ≡ B.first self.old.board.value) }
        ensures answer { (history : List Noted) → B.stands self.old.board.value history → result.0 ≡ step_answer (B.set self.old.board.value) history (length history - B.first self.old.board.value) (B.room self.old.board.value) job op }
        ensures entry { (history : List Noted) → B.stands self.old.board.value history → result.1 ≡ step_entry (now_of (B.set self.old.board.value) history) job op result.0 }
        ensures after { (history : List Noted) → B.stands self.old.board.value history → IsNext B.stands B.set B.first self.old.board.value self.new.board.value history (noted history result.1) }
    {
        let now = self.board.now();
        let reply = self.board.step(job, op);
        let entry = entry_of_step(now, job, op, &reply);
        (reply, entry)
    }

    // Computes for the job, where it asks for that and nothing else happens by it: whether it did.
    #[inline(always)]
    pub(crate) fn compute(&mut self, job: JobId, op: Op) -> bool
        requires { job.tx.0 < length (B.set self.old.board.value).txns }
        ensures fixed { (B.set self.new.board.value ≡ B.set self.old.board.value) × (B.room self.new.board.value ≡ B.room self.old.board.value) × (B.first self.new.board.value ≡ B.first self.old.board.value) }
        ensures computed { IsTrue result → op ≡ Op.Compute }
        ensures answer { IsTrue result → (history : List Noted) → B.stands self.old.board.value history → StepReply.Done Outcome.Computed None ≡ step_answer (B.set self.old.board.value) history (length history - B.first self.old.board.value) (B.room self.old.board.value) job op }
        ensures after { IsTrue result → (history : List Noted) → B.stands self.old.board.value history → B.stands self.new.board.value (noted history (step_entry (now_of (B.set self.old.board.value) history) job op (StepReply.Done Outcome.Computed None))) }
        ensures unchanged { result ≡ false → self.new.board.value ≡ self.old.board.value }
    {
        match op {
            Op::Compute => self.board.compute(job),
            Op::Read(_) => false,
            Op::Write(_, _) => false,
            Op::Commit => false,
            Op::Quit => false,
        }
    }

    pub(crate) fn idle(&mut self) -> (IdleReply, Option<Entry>)
        ensures fixed { (B.set self.new.board.value ≡ B.set self.old.board.value) × (B.room self.new.board.value ≡ B.room self.old.board.value) × (B.first self.new.board.value ≡ B.first self.old.board.value) }
        ensures answer { (history : List Noted) → B.stands self.old.board.value history → result.0 ≡ idle_answer (B.set self.old.board.value) history (length history - B.first self.old.board.value) (B.room self.old.board.value) }
        ensures entry { (history : List Noted) → B.stands self.old.board.value history → result.1 ≡ idle_entry (now_of (B.set self.old.board.value) history) result.0 }
        ensures after { (history : List Noted) → B.stands self.old.board.value history → IsNext B.stands B.set B.first self.old.board.value self.new.board.value history (noted history result.1) }
    {
        let now = self.board.now();
        let reply = self.board.idle();
        let entry = entry_of_idle(now, &reply);
        (reply, entry)
    }

    pub(crate) fn drain(&mut self, most: usize, into: &mut Vec<Entry>) -> usize
        ensures fixed { (B.set self.new.board.value ≡ B.set self.old.board.value) × (B.room self.new.board.value ≡ B.room self.old.board.value) × (B.first self.new.board.value ≡ B.first self.old.board.value + result) }
        ensures count { (history : List Noted) → B.stands self.old.board.value history → result ≡ min most (min (length history - B.first self.old.board.value) (vec_capacity into.old - vec_len into.old)) }
        ensures moved { (history : List Noted) → B.stands self.old.board.value history → into.new.items ≡ into.old.items ++ take result (drop (B.first self.old.board.value) history) }
        ensures places { vec_capacity into.new ≡ vec_capacity into.old }
        ensures within { (history : List Noted) → B.stands self.old.board.value history → B.first self.old.board.value + result ≤ length history }
        ensures fits { (history : List Noted) → B.stands self.old.board.value history → length history - B.first self.old.board.value ≤ B.room self.old.board.value }
        ensures after { (history : List Noted) → B.stands self.old.board.value history → IsNext B.stands B.set B.first self.old.board.value self.new.board.value history history }
    {
        self.board.drain(most, into)
    }
}

// The entry of a plan that was granted.
fn entry_of_plan(tx: TxId, tick: Tick, reply: &Result<JobId, PlanRefused>) -> Option<Entry>
    ensures { result ≡ plan_entry tx tick reply.now }
{
    match reply {
        Ok(_) => Some(Entry::Planned { tx, tick }),
        Err(_) => None,
    }
}

fn entry_of_plan_next(tx: TxId, reply: &Result<(JobId, Tick), PlanRefused>) -> Option<Entry>
    ensures { result ≡ plan_next_entry tx reply.now }
{
    match reply {
        Ok((_, tick)) => Some(Entry::Planned { tx, tick: *tick }),
        Err(_) => None,
    }
}

// The entry of an operation that was granted, or that was refused for the first time.
fn entry_of_step(now: Tick, job: JobId, op: Op, reply: &StepReply) -> Option<Entry>
    ensures { result ≡ step_entry now job op reply.now }
{
    match reply {
        StepReply::Done { outcome, over } => Some(Entry::Step {
            job,
            op,
            outcome: *outcome,
            over: *over,
            tick: now,
        }),
        StepReply::Blocked { by, ceiling } => Some(Entry::Blocked {
            job,
            op,
            by: *by,
            ceiling: *ceiling,
            tick: now,
        }),
        _ => None,
    }
}

fn entry_of_idle(now: Tick, reply: &IdleReply) -> Option<Entry>
    ensures { result ≡ idle_entry now reply.now }
{
    match reply {
        IdleReply::Advanced { to } => Some(Entry::Idle { from: now, to: *to }),
        _ => None,
    }
}
