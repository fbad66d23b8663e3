//! What the calls of a board promise, for every history that it stands for.
ghost use Rattle.std.specs.Prelude.{◌≡◌, ℕ, ◌+◌, ◌-◌, ◌<◌, ◌++◌, ◌∷◌, IsTrue, false, None, List, [], drop, take, min, length, slice_get, Some, vec_len, vec_capacity};
ghost use Rattle.txn_set.specs.Set.{Set};
ghost use Rattle.step_journal.specs.History.{state_of};
ghost use Rattle.step_journal.specs.declared.entry.Entry.{Entry as Noted};
ghost use Rattle.step_journal.specs.declared.entry.Entry.TheVariants.{Step};
ghost use Rattle.board.specs.Answers.{IsAsking, told_by};
ghost use Rattle.board.specs.Histories.{IsHistory, IsRefusal, noted, plan_entry, plan_next_entry, step_entry, idle_entry, plan_answer, plan_next_answer, step_answer, idle_answer, now_of, running_of, pending_of, ended_of, planned_of};

use crate::replies::{IdleReply, StepReply};
use item_model::Items;
use rt_base::{ItemId, JobId, Op, Outcome, PlanRefused, Tick, TxId, Value};
use step_journal::Entry;
use txn_set::CompiledSet;

/// A board keeps one legal history of its set. No call changes its set or its room, and none takes memory. Each answer is
/// that of the history's state, and after a refusal other than `Blocked` the same history stands. A board of which
/// entries were drained may stand for several histories; then each clause holds of each.
pub trait Board {
    // The board stands for this history.
    ghost stands: { Self → List Noted → Type 0 };

    ghost set: { Self → Set };

    ghost room: { Self → ℕ };

    // How many entries of its history the board no longer keeps, and those that it keeps.
    ghost first: { Self → ℕ };

    ghost kept: { Self → List Noted };

    /// Plans the transaction's next job for a tick. A job planned for the present tick is pending at once.
    fn plan(&mut self, tx: TxId, tick: Tick) -> Result<JobId, PlanRefused>
        requires { tx.0 < length (set self.old).txns }
        ensures fixed { (set self.new ≡ set self.old) × (room self.new ≡ room self.old) × (first self.new ≡ first self.old) }
        ensures answer { (history : List Noted) → stands self.old history → result ≡ plan_answer (set self.old) history (length (kept self.old)) (room self.old) tx.0 tick }
        ensures after { (history : List Noted) → stands self.old history → stands self.new (noted history (plan_entry tx tick result)) };

    /// Plans the transaction's next job for the earliest tick at which it may be planned, and answers that tick too.
    fn plan_next(&mut self, tx: TxId) -> Result<(JobId, Tick), PlanRefused>
        requires { tx.0 < length (set self.old).txns }
        ensures fixed { (set self.new ≡ set self.old) × (room self.new ≡ room self.old) × (first self.new ≡ first self.old) }
        ensures answer { (history : List Noted) → stands self.old history → result ≡ plan_next_answer (set self.old) history (length (kept self.old)) (room self.old) tx.0 }
        ensures after { (history : List Noted) → stands self.old history → stands self.new (noted history (plan_next_entry tx result)) };

    /// A job asks for an operation. A granted one takes one tick. The item may be any: one that is no item of the set is
    /// Undeclared. A refusal other than Blocked changes nothing.
    fn step(&mut self, job: JobId, op: Op) -> StepReply
        requires { job.tx.0 < length (set self.old).txns }
        ensures fixed { (set self.new ≡ set self.old) × (room self.new ≡ room self.old) × (first self.new ≡ first self.old) }
        ensures answer { (history : List Noted) → stands self.old history → result ≡ step_answer (set self.old) history (length (kept self.old)) (room self.old) job op }
        ensures after { (history : List Noted) → stands self.old history → stands self.new (noted history (step_entry (now_of (set self.old) history) job op result)) }
        ensures refused { IsRefusal result → self.new ≡ self.old };

    /// The same as `step`, for a caller that knows that this job runs, that it may ask for the operation, and that there is
    /// room for the entry: what the job is told, or None where it is blocked. It is spared the tests of all this.
    fn ask(&mut self, job: JobId, op: Op) -> Option<Outcome>
        requires in_set { job.tx.0 < length (set self.old).txns }
        requires asks { (history : List Noted) × stands self.old history × IsAsking (set self.old) (state_of (set self.old) history) job op }
        requires room { length (kept self.old) < room self.old }
        ensures fixed { (set self.new ≡ set self.old) × (room self.new ≡ room self.old) × (first self.new ≡ first self.old) }
        ensures answer { (history : List Noted) → stands self.old history → result ≡ told_by (step_answer (set self.old) history (length (kept self.old)) (room self.old) job op) }
        ensures after { (history : List Noted) → stands self.old history → stands self.new (noted history (step_entry (now_of (set self.old) history) job op (step_answer (set self.old) history (length (kept self.old)) (room self.old) job op))) };

    /// The job computes for a tick, if it runs, there is room for the entry, and it is known that no job ends and none is
    /// released by that: whether it did. It is then what `step` does. Else nothing changes; a board may always say so.
    fn compute(&mut self, job: JobId) -> bool
        requires { job.tx.0 < length (set self.old).txns }
        ensures fixed { (set self.new ≡ set self.old) × (room self.new ≡ room self.old) × (first self.new ≡ first self.old) }
        ensures answer { IsTrue result → (history : List Noted) → stands self.old history → step_answer (set self.old) history (length (kept self.old)) (room self.old) job Op.Compute ≡ StepReply.Done Outcome.Computed None }
        ensures after { IsTrue result → (history : List Noted) → stands self.old history → stands self.new (history ++ Step job Op.Compute Outcome.Computed None (now_of (set self.old) history) ∷ []) }
        ensures unchanged { result ≡ false → self.new ≡ self.old };

    /// With nothing pending, the time goes on to the least planned tick.
    fn idle(&mut self) -> IdleReply
        ensures fixed { (set self.new ≡ set self.old) × (room self.new ≡ room self.old) × (first self.new ≡ first self.old) }
        ensures answer { (history : List Noted) → stands self.old history → result ≡ idle_answer (set self.old) history (length (kept self.old)) (room self.old) }
        ensures after { (history : List Noted) → stands self.old history → stands self.new (noted history (idle_entry (now_of (set self.old) history) result)) };

    /// An item's installed value and stamp.
    fn peek(&self, item: ItemId) -> (Value, Tick)
        requires { item.0 < length (set self.now).items }
        ensures { (history : List Noted) → stands self.now history → slice_get (state_of (set self.now) history).items item.0 ≡ Some (record { value = result.0; stamp = result.1 }) };

    /// The present tick.
    fn now(&self) -> Tick
        ensures { (history : List Noted) → stands self.now history → result ≡ now_of (set self.now) history };

    /// The running job; None exactly where nothing is pending.
    fn running(&self) -> Option<JobId>
        ensures { (history : List Noted) → stands self.now history → result ≡ running_of (set self.now) history };

    /// The transaction's pending job.
    fn pending(&self, tx: TxId) -> Option<JobId>
        requires { tx.0 < length (set self.now).txns }
        ensures { (history : List Noted) → stands self.now history → result ≡ pending_of (set self.now) history tx.0 };

    /// How many jobs of the transaction have ended.
    fn ended(&self, tx: TxId) -> u32
        requires { tx.0 < length (set self.now).txns }
        ensures { (history : List Noted) → stands self.now history → result ≡ ended_of (set self.now) history tx.0 };

    /// How many releases are planned and did not take place yet.
    fn planned(&self) -> usize
        ensures { (history : List Noted) → stands self.now history → result ≡ planned_of (set self.now) history };

    /// How many entries can be kept at once.
    fn room(&self) -> usize
        ensures { result ≡ room self.now };

    /// The kept entries: those that were not drained.
    fn entries(&self) -> &[Entry]
        ensures { result.now ≡ kept self.now };

    /// The set of the history.
    fn set(&self) -> &CompiledSet
        ensures { result.now ≡ set self.now };

    /// Moves the oldest kept entries to the end of `into`, as many as it has places for and no more than `most`.
    fn drain(&mut self, most: usize, into: &mut Vec<Entry>) -> usize
        ensures count { result ≡ min most (min (length (kept self.old)) (vec_capacity into.old - vec_len into.old)) }
        ensures moved { into.new.items ≡ into.old.items ++ take result (kept self.old) }
        ensures left { kept self.new ≡ drop result (kept self.old) }
        ensures places { vec_capacity into.new ≡ vec_capacity into.old }
        ensures fixed { (set self.new ≡ set self.old) × (room self.new ≡ room self.old) × (first self.new ≡ first self.old + result) }
        ensures after { (history : List Noted) → stands self.old history → stands self.new history };

    /// Lets go of all kept entries. It takes no memory.
    fn discard(&mut self)
        ensures left { kept self.new ≡ [] }
        ensures fixed { (set self.new ≡ set self.old) × (room self.new ≡ room self.old) × (first self.new ≡ first self.old + length (kept self.old)) }
        ensures after { (history : List Noted) → stands self.old history → stands self.new history };

    /// How many entries were drained in all.
    fn first(&self) -> u64
        ensures { result ≡ first self.now };

    /// How many entries the history has, the drained ones too.
    fn count(&self) -> u64
        ensures { (history : List Noted) → stands self.now history → length history ≡ result };

    /// The items as they are installed, and the kept entries.
    fn into_parts(self) -> (Items, Vec<Entry>)
        ensures entries { result.1.items ≡ kept self }
        ensures items { (history : List Noted) → stands self history → result.0 ≡ (state_of (set self) history).items };

    // What a board stands for is legal for a compiled set, and its kept entries are the history from first on.
    ghost is_history: { (b : Self) (history : List Noted) → stands b history → IsHistory (set b) (room b) (first b) (kept b) history };
}
