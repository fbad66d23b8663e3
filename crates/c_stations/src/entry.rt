//! The entries that records say, and whether each names what there is.
ghost use Rattle.std.specs.Prelude.{◌≡◌, ◌≤◌, ◌↔◌, ◌<◌, [], length, map, IsTrue, true, false, vec_capacity};
ghost use Rattle.std.specs.List.{All};
ghost use Rattle.journal_text.specs.Lines.{Answers, IsWritable, KnownEnd, KnownOp, KnownOver};
ghost use Rattle.c_forms.specs.Back.{entry_of as entry_of_form};

use c_forms::{EntryForm, entry_of};
use rt_base::{End, ItemId, Names, Op, Outcome, TxId};
use step_journal::Entry;

/// The entries of records, put into a place that has room for them.
pub(crate) fn put_entries_of(forms: &[EntryForm], into: &mut Vec<Entry>)
    requires { (into.old.items ≡ []) × (length forms.now ≤ vec_capacity into.old) }
    ensures items { into.new.items ≡ map entry_of_form forms.now }
    ensures capacity { vec_capacity into.old ≤ vec_capacity into.new }
{
    for form in forms {
        into.push_reserved(entry_of(form));
    }
}

fn is_item(names: &Names, item: ItemId) -> bool
    ensures { IsTrue result ↔ item.0 < length names.now.items }
{
    (item.0 as usize) < names.items.as_slice().len()
}

fn is_txn(names: &Names, tx: TxId) -> bool
    ensures { IsTrue result ↔ tx.0 < length names.now.txns }
{
    (tx.0 as usize) < names.txns.as_slice().len()
}

fn is_known_op(names: &Names, op: Op) -> bool
    ensures { IsTrue result ↔ KnownOp names.now op }
{
    match op {
        Op::Read(item) => is_item(names, item),
        Op::Write(item, _) => is_item(names, item),
        Op::Compute => true,
        Op::Commit => true,
        Op::Quit => true,
    }
}

// Whether the outcome answers the operation.
fn answers(op: Op, outcome: Outcome) -> bool
    ensures { IsTrue result ↔ Answers op outcome }
{
    match (op, outcome) {
        (Op::Read(_), Outcome::Got { .. }) => true,
        (Op::Write(..), Outcome::Put) => true,
        (Op::Compute, Outcome::Computed) => true,
        (Op::Commit, Outcome::Closed) => true,
        (Op::Quit, Outcome::Closed) => true,
        _ => false,
    }
}

fn is_known_end(names: &Names, end: End) -> bool
    ensures { IsTrue result ↔ KnownEnd names.now end }
{
    if let End::Stale { item, .. } = end {
        return is_item(names, item);
    }
    if let End::Apart { a, b } = end {
        return is_item(names, a) && is_item(names, b);
    }
    true
}

fn is_known_over(names: &Names, over: Option<End>) -> bool
    ensures { IsTrue result ↔ KnownOver names.now over }
{
    match over {
        Some(end) => is_known_end(names, end),
        None => true,
    }
}

// Whether an entry names what there is, and its outcome answers its operation.
fn is_writable(names: &Names, entry: Entry) -> bool
    ensures { IsTrue result ↔ IsWritable names.now entry }
{
    match entry {
        Entry::Planned { tx, .. } => is_txn(names, tx),
        Entry::Step {
            job,
            op,
            outcome,
            over,
            ..
        } => {
            is_txn(names, job.tx)
                && is_known_op(names, op)
                && answers(op, outcome)
                && is_known_over(names, over)
        }
        Entry::Blocked { job, op, by, .. } => {
            is_txn(names, job.tx) && is_known_op(names, op) && is_txn(names, by.tx)
        }
        Entry::Idle { .. } => true,
    }
}

/// Whether each entry names what there is, and its outcome answers its operation.
pub(crate) fn are_writable(names: &Names, entries: &[Entry]) -> bool
    ensures all { result ≡ true → All (IsWritable names.now) entries.now }
    ensures not_all { result ≡ false → All (IsWritable names.now) entries.now → ⊥ }
{
    for entry in entries {
        if !is_writable(names, *entry) {
            return false;
        }
    }
    true
}
