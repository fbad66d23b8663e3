//! A core is a board.
ghost use Rattle.std.specs.Prelude.{◌≡◌, ◌<◌, ℕ, List, length};
ghost use Rattle.lock_core.specs.Stands.{Stands};

use crate::core_board::Core;
use board::{Board, IdleReply, StepReply};
use item_model::Items;
use rt_base::{ItemId, JobId, Op, Outcome, PlanRefused, Tick, TxId, Value};
use step_journal::Entry;
use txn_set::CompiledSet;

impl Board for Core {
    ghost stands = { Stands };

    ghost set = { λ c. c.set };

    ghost room = { λ c. c.journal.room };

    ghost first = { λ c. c.journal.first };

    ghost kept = { λ c. c.journal.kept };

    ghost is_history = { λ c history h. h.is_history };

    fn plan(&mut self, tx: TxId, tick: Tick) -> Result<JobId, PlanRefused> {
        self.plan(tx, tick)
    }

    fn plan_next(&mut self, tx: TxId) -> Result<(JobId, Tick), PlanRefused> {
        self.plan_next(tx)
    }

    fn step(&mut self, job: JobId, op: Op) -> StepReply {
        self.step(job, op)
    }

    #[inline(always)]
    fn ask(&mut self, job: JobId, op: Op) -> Option<Outcome> {
        self.ask(job, op)
    }

    #[inline(always)]
    fn compute(&mut self, job: JobId) -> bool {
        self.compute(job)
    }

    fn idle(&mut self) -> IdleReply {
        self.idle()
    }

    fn peek(&self, item: ItemId) -> (Value, Tick) {
        self.peek(item)
    }

    fn now(&self) -> Tick {
        self.now()
    }

    fn running(&self) -> Option<JobId> {
        self.running()
    }

    fn pending(&self, tx: TxId) -> Option<JobId> {
        self.pending(tx)
    }

    fn ended(&self, tx: TxId) -> u32 {
        self.ended(tx)
    }

    fn planned(&self) -> usize {
        self.planned()
    }

    fn room(&self) -> usize {
        self.room()
    }

    fn entries(&self) -> &[Entry] {
        self.entries()
    }

    fn set(&self) -> &CompiledSet {
        self.set()
    }

    fn drain(&mut self, most: usize, into: &mut Vec<Entry>) -> usize {
        self.drain(most, into)
    }

    fn discard(&mut self) {
        self.discard();
    }

    fn first(&self) -> u64 {
        self.first()
    }

    fn count(&self) -> u64 {
        self.count()
    }

    fn into_parts(self) -> (Items, Vec<Entry>) {
        self.into_parts()
    }
}
