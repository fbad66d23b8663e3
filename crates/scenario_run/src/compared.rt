//! The entries of a journal beside those of a history.
ghost use Rattle.std.specs.Prelude.{◌≡◌, ◌≤◌, take, ◌↔◌, drop, length, IsTrue, MatchOption};
ghost use Rattle.scenario_run.specs.Compared.{Begins, IsFirstOther};

use step_journal::Entry;

fn are_same(a: Entry, b: Entry) -> bool
    ensures { IsTrue result ↔ (a ≡ b) }
{
    Some(a) == Some(b)
}

/// The first place where a journal has an entry that is not the one of the history there, counted from 0. None where the
/// history begins with the journal's entries.
pub fn first_other(there: &[Entry], history: &[Entry]) -> Option<usize>
    ensures { MatchOption result (Begins there.now history.now) (IsFirstOther there.now history.now) }
{
    for i in 0..there.len() {
        if i >= history.len() {
            return Some(i);
        }
        if !are_same(there[i], history[i]) {
            return Some(i);
        }
    }
    None
}

/// At most so many of the entries from a place on.
pub(crate) fn some_from(entries: &[Entry], place: usize, most: usize) -> &[Entry]
    ensures { result.now ≡ take most (drop place entries.now) }
{
    let rest = &entries[place.min(entries.len())..];
    &rest[..most.min(rest.len())]
}
