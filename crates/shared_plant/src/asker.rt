//! Who asks for the steps of a job, one after another.
ghost use Rattle.std.specs.Prelude.{ℕ, None, Some};
ghost use Rattle.rt_base.specs.declared.operation.End.{End as JobEnd};
ghost use Rattle.rt_base.specs.declared.ids.JobId.{JobId as Holder};
ghost use Rattle.rt_base.specs.declared.operation.Op.{Op as Asked};
ghost use Rattle.board.specs.declared.replies.StepReply.{StepReply as Replied};
ghost use Rattle.board.specs.declared.replies.StepReply.TheVariants.{Blocked, Done};

use board::StepReply;
use rt_base::{Op, Outcome, TxId};

/// Who asks for the steps of a job in a turn of several. Each call hands it what the caller gave along, of type `C`.
pub trait Asker<C> {
    // it asks for this operation
    ghost asks: { Self → Asked → Type 0 };

    // it is so after this answer to the operation
    ghost hears: { Self → Asked → Replied → Self → Type 0 };

    /// What the pending job of the transaction asks for. It changes nothing.
    fn ask(&self, with: &C, tx: TxId) -> Op
        ensures { asks self.now result };

    /// Hears that the operation was done, and that the job has not ended by it.
    fn done(&mut self, outcome: Outcome)
        ensures { (op : Asked) → asks self.old op → hears self.old op (Done outcome None) self.new };

    /// Hears that the operation was done, and that the job has ended by it.
    fn ended(&mut self, outcome: Outcome)
        ensures { (op : Asked) (end : JobEnd) → asks self.old op → hears self.old op (Done outcome (Some end)) self.new };

    /// Hears that the job waits for a lock.
    fn blocked(&mut self, op: Op)
        requires { asks self.old op }
        ensures { (by : Holder) (ceiling : ℕ) → hears self.old op (Blocked by ceiling) self.new };

    /// Hears any answer to the operation.
    fn hear(&mut self, op: Op, reply: &StepReply)
        requires { asks self.old op }
        ensures { hears self.old op reply.now self.new };
}
