//! The calls of a board on a plain core.
ghost use Rattle.std.specs.Prelude.{◌≡◌, ◌<◌, ℕ, List, length};
ghost use Rattle.plain_core.specs.Stands.{Stands};

use crate::plain::PlainCore;
use crate::running::running;
use crate::tables::{job_at, tally_at};
use board::{Board, IdleReply, StepReply};
use item_model::Items;
use rt_base::{ItemId, JobId, Op, Outcome, PlanRefused, Tick, TxId, Value};
use step_journal::Entry;
use txn_set::CompiledSet;

impl Board for PlainCore {
    ghost stands = { Stands };

    ghost set = { λ c. c.set };

    ghost room = { λ c. c.journal.room };

    ghost first = { λ c. c.journal.first };

    ghost kept = { λ c. c.journal.kept };

    ghost is_history = { λ c history h. h.is_history };

    fn plan(&mut self, tx: TxId, tick: Tick) -> Result<JobId, PlanRefused> {
        self.plan_at(tx, tick)
    }

    fn plan_next(&mut self, tx: TxId) -> Result<(JobId, Tick), PlanRefused> {
        let now = self.tables.now();
        let earliest = self.earliest(tx);
        let tick = if now < earliest { earliest } else { now };
        match self.plan_at(tx, tick) {
            Ok(job) => Ok((job, tick)),
            Err(e) => Err(e),
        }
    }

    fn step(&mut self, job: JobId, op: Op) -> StepReply {
        match self.step_check(job, op) {
            StepReply::NoJob { ended, last } => StepReply::NoJob { ended, last },
            StepReply::NotYet { running } => StepReply::NotYet { running },
            StepReply::Undeclared { item } => StepReply::Undeclared { item },
            StepReply::TooEarly { left } => StepReply::TooEarly { left },
            StepReply::Unwritten { item } => StepReply::Unwritten { item },
            StepReply::Full { room } => StepReply::Full { room },
            StepReply::Blocked { by, ceiling } => {
                self.block(job, op, by, ceiling);
                StepReply::Blocked { by, ceiling }
            }
            StepReply::Done { outcome, over } => {
                self.go(job, op, outcome, over);
                StepReply::Done { outcome, over }
            }
        }
    }

    fn ask(&mut self, job: JobId, op: Op) -> Option<Outcome> {
        Board::step(self, job, op).told()
    }

    fn compute(&mut self, job: JobId) -> bool {
        let _job = job;
        false
    }

    fn idle(&mut self) -> IdleReply {
        match self.idle_check() {
            IdleReply::Advanced { to } => {
                self.go_on(to);
                IdleReply::Advanced { to }
            }
            IdleReply::NotIdle { running } => IdleReply::NotIdle { running },
            IdleReply::Nothing => IdleReply::Nothing,
            IdleReply::Full { room } => IdleReply::Full { room },
        }
    }

    fn peek(&self, item: ItemId) -> (Value, Tick) {
        self.tables.item(item)
    }

    fn now(&self) -> Tick {
        self.tables.now()
    }

    fn running(&self) -> Option<JobId> {
        running(self.set.txns(), self.tables.slots())
    }

    fn pending(&self, tx: TxId) -> Option<JobId> {
        job_at(self.tables.slots(), tx)
    }

    fn ended(&self, tx: TxId) -> u32 {
        tally_at(self.tables.tallies(), tx).number as u32
    }

    fn planned(&self) -> usize {
        self.tables.planned().len()
    }

    fn room(&self) -> usize {
        self.journal.room()
    }

    fn entries(&self) -> &[Entry] {
        self.journal.entries()
    }

    fn set(&self) -> &CompiledSet {
        &self.set
    }

    fn drain(&mut self, most: usize, into: &mut Vec<Entry>) -> usize {
        self.journal.drain_into(most, into)
    }

    fn discard(&mut self) {
        self.journal.discard();
    }

    fn first(&self) -> u64 {
        self.journal.first()
    }

    fn count(&self) -> u64 {
        self.journal.first() + self.journal.len() as u64
    }

    fn into_parts(self) -> (Items, Vec<Entry>) {
        let PlainCore {
            set: _,
            journal,
            tables,
        } = self;
        (tables.into_items(), journal.into_entries())
    }
}
