//! A legal report by its parts, or another verdict.
ghost use Rattle.std.specs.Prelude.{◌≡◌};
ghost use Rattle.run_report.specs.Judged.{set_in, found_by};

use crate::verdict::Verdict;
use item_model::Items;
use name_table::NameTables;
use rt_base::List;
use set_admission::AdmittedSet;
use step_journal::Entry;
use txn_set::CompiledSet;

/// The set of a report: admitted where its mode says so.
#[derive(Drop)]
pub enum ReportedSet {
    Trial(CompiledSet),
    Admitted(AdmittedSet),
}

impl ReportedSet {
    /// The set, whether or not it was admitted.
    pub fn set(&self) -> &CompiledSet
        ensures { result.now ≡ set_in self.now }
    {
        match self {
            ReportedSet::Trial(set) => set,
            ReportedSet::Admitted(set) => set.set(),
        }
    }
}

/// What a legal report says: its names, its set, its entries, which are a legal history of the set, and the items after them.
#[derive(Drop)]
pub struct LegalReport {
    pub names: NameTables,
    pub set: ReportedSet,
    pub entries: List<Entry>,
    pub items: Items,
}

/// What a document is found to be: a legal report, or what another verdict says.
#[derive(Drop)]
pub enum Judged {
    Legal(LegalReport),
    /// Not Legal.
    Other(Verdict),
}

/// What the entries and the lines around them are found to be: those of a legal report, with the items after the entries.
#[derive(Drop)]
pub(crate) enum Found {
    Legal(Items),
    Other(Verdict),
}

/// By the verdict on the lines around entries that are a legal history.
pub(crate) fn found_of(verdict: Verdict, items: Items) -> Found
    ensures { result ≡ found_by verdict items }
{
    match verdict {
        Verdict::Legal => Found::Legal(items),
        verdict => Found::Other(verdict),
    }
}
