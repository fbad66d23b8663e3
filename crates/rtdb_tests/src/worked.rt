//! Histories that reports tell.
ghost use Rattle.std.specs.Prelude.{◌≡◌, true, IfSome};
ghost use Rattle.step_journal.specs.History.{IsLegal, state_of};
ghost use Rattle.report_text.specs.Texts.{NamesSet};

use item_model::Items;
use report_text::read_document;
use rt_base::{List, Names};
use run_report::compile_head;
use serial_replay::replay;
use std::alloc::Global;
use step_journal::Entry;
use txn_set::CompiledSet;

/// A history that is known to be legal, with its names and last items.
#[derive(Drop)]
pub struct Worked {
    pub names: Names,
    pub set: CompiledSet,
    pub entries: List<Entry>,
    pub items: Items,
}

// Whether there is one name for each item and each transaction.
fn are_named(names: &Names, set: &CompiledSet) -> bool
    ensures { result ≡ true → NamesSet names.now set.now }
{
    names.items.as_slice().len() == set.items().len()
        && names.txns.as_slice().len() == set.txns().len()
}

/// The history that a report tells. None where it is no report of a legal history.
pub fn worked_history(alloc: Global, bytes: &[u8]) -> Option<Worked>
    ensures named { IfSome result (λ w. NamesSet w.names w.set) }
    ensures legal { IfSome result (λ w. IsLegal w.set w.entries) }
    ensures last { IfSome result (λ w. w.items ≡ (state_of w.set w.entries).items) }
{
    if bytes.len() >= 1 << 32 {
        return None;
    }
    let document = read_document(alloc, bytes).ok()?;
    let (names, set) = compile_head(alloc, document.head).ok()?;
    let names = names.into_names();
    if !are_named(&names, &set) {
        return None;
    }
    let entries = document.entries;
    match replay(alloc, &set, entries.as_slice()) {
        Ok(replayed) => Some(Worked {
            names,
            set,
            entries,
            items: replayed.items,
        }),
        Err(_) => None,
    }
}
