//! Names that are no item's.
ghost use Rattle.std.specs.Prelude.{◌≡◌, map};
ghost use Rattle.std.specs.List.{position};
ghost use Rattle.scenario_forms.specs.Txns.{txn_view};
ghost use Rattle.scenario_forms.specs.Sets.{set_view};
ghost use Rattle.scenario_forms.specs.Root.{forms_view};
ghost use Rattle.scenario_reader.specs.Unknown.{is_unknown, is_unknown_read, unknown_in, unknown_from, unknown_set_from, unknown_name as unknown_name_of};

use rt_base::ItemId;
use scenario_forms::{Forms, Place, ReadOp, ReadSet, ReadTxn, TxnMember};

fn first_unknown(names: &[Option<ItemId>]) -> Option<usize>
    ensures { result ≡ position is_unknown names.now }
{
    names.iter().position(|n| n.is_none())
}

fn first_unknown_op(ops: &[ReadOp]) -> Option<usize>
    ensures { result ≡ position is_unknown_read ops.now }
{
    ops.iter().position(|o| !o.known)
}

// The first unknown name of a transaction.
#[tactic(auto, using(crate::proofs::Positions::position_ops))]
fn in_txn(i: usize, txn: &ReadTxn) -> Option<Place>
    ensures { result ≡ unknown_in i (txn_view txn.now) }
{
    if let Some(j) = first_unknown(&txn.reads) {
        return Some(Place::Element {
            i,
            member: TxnMember::Reads,
            j,
        });
    }
    if let Some(j) = first_unknown(&txn.writes) {
        return Some(Place::Element {
            i,
            member: TxnMember::Writes,
            j,
        });
    }
    match first_unknown_op(&txn.script) {
        Some(j) => Some(Place::Element {
            i,
            member: TxnMember::Script,
            j,
        }),
        None => None,
    }
}

// The first unknown name of the transactions.
fn in_txns(txns: &[ReadTxn]) -> Option<Place>
    ensures { result ≡ unknown_from 0 (map txn_view txns.now) }
{
    for (i, txn) in txns.iter().enumerate() {
        if let Some(place) = in_txn(i, txn) {
            return Some(place);
        }
    }
    None
}

// The first unknown name of the relative sets.
fn in_sets(sets: &[ReadSet]) -> Option<Place>
    ensures { result ≡ unknown_set_from 0 (map set_view sets.now) }
{
    for (i, set) in sets.iter().enumerate() {
        if let Some(j) = first_unknown(&set.items) {
            return Some(Place::SetElement { i, j });
        }
    }
    None
}

/// The place of the first name that is no item's. A step for each name and operation.
pub(crate) fn unknown_name(forms: &Forms) -> Option<Place>
    ensures { result ≡ unknown_name_of (forms_view forms.now) }
{
    match in_txns(&forms.txns.txns) {
        Some(place) => Some(place),
        None => in_sets(&forms.sets),
    }
}
