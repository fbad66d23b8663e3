//! A body with its present serial number and operation.
ghost use Rattle.std.specs.Prelude.{◌≡◌, ℕ, List, Some, None};
ghost use Rattle.step_journal.specs.declared.entry.Entry.{Entry as Noted};
ghost use Rattle.rt_base.specs.declared.operation.Op.{Op as Asked};
ghost use Rattle.rt_base.specs.declared.ids.TxId.{TxId as Transaction};
ghost use Rattle.board.specs.Histories.{step_entry};
ghost use Rattle.shared_plant.specs.Answers.{with_own};
ghost use Rattle.shared_plant.specs.Steps.{IsOn};
ghost use Rattle.txn_threads.specs.Scripts.{job_of, NoSteps};
ghost use Rattle.txn_threads.specs.Tasks.{Tied, Asks, Hears, heard_of};

use crate::gate::Gate;
use board::StepReply;
use rt_base::{ItemId, Op, Outcome, TxId};
use shared_plant::Asker;
use step_script::Body;

// What a task heard that its member has to know.
#[derive(Clone, Copy)]
pub(crate) enum Heard {
    // Nothing, or that its job goes on, has ended or waits.
    Nothing,
    // The job is not pending: so many of its transaction have ended.
    Over(u32),
    // The journal is full.
    Full,
    Undeclared(ItemId),
    TooEarly(u64),
    Unwritten(ItemId),
}

// The body of a transaction's jobs, the serial number of the present one, and its operation until that is done.
#[derive(Drop)]
pub(crate) struct Task<Y> {
    pub(crate) body: Y,
    pub(crate) serial: u32,
    pub(crate) op: Option<Op>,
    pub(crate) heard: Heard,
}

impl<Y: Body> Task<Y> {
    // To the first job.
    pub(crate) fn clear(&mut self)
        ensures same { Y.gives self.new.body ≡ Y.gives self.old.body }
        ensures tied { (tx : Transaction) (mine : List (ℕ × Noted)) → NoSteps tx mine → Tied Y.gives Y.stands tx mine self.new }
    {
        self.serial = 0;
        self.op = None;
        self.body.begin(0);
    }

    // The present operation. The body is asked where there is none yet.
    pub(crate) fn operation<G: Gate>(&mut self, gate: &G, tx: TxId) -> Op
        ensures same { Y.gives self.new.body ≡ Y.gives self.old.body }
        ensures serial { self.new.serial ≡ self.old.serial }
        ensures kept { self.new.op ≡ Some result }
        ensures tied { (tx : Transaction) (mine : List (ℕ × Noted)) → Tied Y.gives Y.stands tx mine self.old → Tied Y.gives Y.stands tx mine self.new }
    {
        if let Some(op) = self.op {
            return op;
        }
        gate.asked(tx);
        let op = self.body.next();
        gate.answered(tx);
        self.op = Some(op);
        op
    }

    // Goes on after the answer to the present operation. What it heard is kept.
    pub(crate) fn answered(&mut self, reply: &StepReply)
        ensures same { Y.gives self.new.body ≡ Y.gives self.old.body }
        ensures heard { self.new.heard ≡ self.old.heard }
        ensures serial { IsOn reply.now → self.new.serial ≡ self.old.serial }
        ensures tied { (tx : Transaction) (mine : List (ℕ × Noted)) (op : Asked) (now : ℕ) (history : List Noted) → Tied Y.gives Y.stands tx mine self.old → Tied Y.gives Y.stands tx (with_own mine history (step_entry now (job_of tx self.old.serial) op reply.now)) self.new }
    {
        match reply {
            StepReply::Done { outcome, over } => {
                self.op = None;
                self.body.told(*outcome);
                if over.is_some() {
                    self.go_on();
                }
            }
            StepReply::NoJob { ended, last: _ } => self.catch_up(*ended),
            _ => {}
        }
    }

    // To the next job.
    fn go_on(&mut self)
        ensures same { Y.gives self.new.body ≡ Y.gives self.old.body }
        ensures heard { self.new.heard ≡ self.old.heard }
        ensures tied { (tx : Transaction) (mine : List (ℕ × Noted)) → Tied Y.gives Y.stands tx mine self.old → Tied Y.gives Y.stands tx mine self.new }
    {
        if let Some(serial) = self.serial.checked_add(1) {
            self.serial = serial;
            self.op = None;
            self.body.begin(serial);
        }
    }

    // To the first job that has not ended.
    fn catch_up(&mut self, ended: u32)
        ensures same { Y.gives self.new.body ≡ Y.gives self.old.body }
        ensures heard { self.new.heard ≡ self.old.heard }
        ensures tied { (tx : Transaction) (mine : List (ℕ × Noted)) → Tied Y.gives Y.stands tx mine self.old → Tied Y.gives Y.stands tx mine self.new }
    {
        if self.serial < ended {
            self.serial = ended;
            self.op = None;
            self.body.begin(ended);
        }
    }
}

fn kept_of(reply: &StepReply) -> Heard
    ensures { result ≡ heard_of reply.now }
{
    match reply {
        StepReply::NoJob { ended, last: _ } => Heard::Over(*ended),
        StepReply::NotYet { running: _ } => Heard::Nothing,
        StepReply::Undeclared { item } => Heard::Undeclared(*item),
        StepReply::TooEarly { left } => Heard::TooEarly(*left),
        StepReply::Unwritten { item } => Heard::Unwritten(*item),
        StepReply::Full { room: _ } => Heard::Full,
        StepReply::Blocked { by: _, ceiling: _ } => Heard::Nothing,
        StepReply::Done {
            outcome: _,
            over: _,
        } => Heard::Nothing,
    }
}

// The present job's operations are asked for in a turn of several steps. The body is asked once for each.
impl<Y: Body, G: Gate> Asker<G> for Task<Y> {
    ghost asks = { Asks Y.gives Y.stands };

    ghost hears = { Hears Y.gives Y.stands };

    fn ask(&self, gate: &G, tx: TxId) -> Op {
        if let Some(op) = self.op {
            return op;
        }
        gate.asked(tx);
        let op = self.body.next();
        gate.answered(tx);
        op
    }

    #[inline(always)]
    fn done(&mut self, outcome: Outcome) {
        self.op = None;
        self.body.told(outcome);
    }

    #[inline(always)]
    fn ended(&mut self, outcome: Outcome) {
        self.op = None;
        self.body.told(outcome);
        self.go_on();
    }

    fn blocked(&mut self, op: Op) {
        self.op = Some(op);
    }

    fn hear(&mut self, op: Op, reply: &StepReply) {
        self.op = Some(op);
        self.heard = kept_of(reply);
        self.answered(reply);
    }
}
