//! An out takes the entries of a run, in order.
ghost use Rattle.std.specs.Prelude.{ℕ, ◌++◌, [], IfOk, OnErr};
ghost use Rattle.std.specs.Prelude.{List as Many};
ghost use Rattle.io_edge.specs.Causes.{HasCause};
ghost use Rattle.step_journal.specs.declared.entry.Entry.{Entry as Noted};

use step_journal::Entry;

/// An out has stopped: it takes no more.
#[derive(Clone, Copy, Debug, PartialEq, Eq)]
pub struct Stopped;

/// What the entries of a run are handed to, a piece at a time. Its meanings are relations, so that an out need not keep
/// what it took: `got`, all entries that it has taken; `lost`, those of the piece that it refused, and else none; `good`,
/// the lists of entries that it can take in all, which no call changes; and `stops`, a count that never falls.
pub trait EntryOut {
    ghost got: { Self → Many Noted → Type 0 };

    ghost lost: { Self → Many Noted → Type 0 };

    ghost good: { Self → Many Noted → Type 0 };

    ghost stops: { Self → ℕ };

    /// Takes the entries, after those that it got. Err comes only where `stops` rose in this call; they are lost then, and
    /// what it got is as before. It takes no memory.
    fn put(&mut self, entries: &[Entry]) -> Result<(), Stopped>
        requires nothing_lost { lost self.old [] }
        requires fine { (history : Many Noted) × got self.old history × good self.old (history ++ entries.now) }
        ensures taken { IfOk result (λ _. (history : Many Noted) → got self.old history → got self.new (history ++ entries.now)) }
        ensures none_lost { IfOk result (λ _. lost self.new []) }
        ensures kept { OnErr result ((history : Many Noted) → got self.old history → got self.new history) }
        ensures lost { OnErr result (lost self.new entries.now) }
        ensures cause { HasCause (stops self.old) (stops self.new) result }
        ensures same { (history : Many Noted) → good self.old history → good self.new history }
        ensures no_more { (history : Many Noted) → good self.new history → good self.old history };
}
