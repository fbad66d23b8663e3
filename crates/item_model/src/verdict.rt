//! The rules of a commit over what a job read: the staleness rule and the relative rule, after Ramamritham (1993).
ghost use Rattle.std.specs.Prelude.{◌≡◌, ◌-◌};
ghost use Rattle.std.specs.List.{find};
ghost use Rattle.item_model.specs.Work.{of_reads, reads_of, is_above, is_expired, is_older, is_newer, older, oldest, newer, newest, parted, apart_in, first_apart};

use crate::decl::ItemDecl;
use crate::kinds::validity;
use crate::notes::find_read;
use crate::stored::OutsideRead;
use rt_base::{ItemId, Tick, TogetherDecl};

/// Whether an age is above a validity, both in ticks; never where there is none.
pub fn is_above(age: Tick, validity: Option<Tick>) -> bool
    ensures { result ≡ is_above age validity }
{
    match validity {
        None => false,
        Some(validity) => validity < age,
    }
}

fn is_expired(decls: &[ItemDecl], tick: Tick, read: OutsideRead) -> bool
    ensures { result ≡ is_expired decls.now tick read }
{
    is_above(tick.saturating_sub(read.stamp), validity(decls, read.item))
}

/// The read of the first of these items that is past its validity at a tick; items that were not read are passed over. A
/// scan of the reads for each item.
pub fn first_expired(
    decls: &[ItemDecl],
    tick: Tick,
    items: &[ItemId],
    reads: &[OutsideRead],
) -> Option<OutsideRead>
    ensures { result ≡ find (is_expired decls.now tick) (reads_of (of_reads reads.now) items.now) }
{
    for item in items {
        if let Some(read) = find_read(reads, *item) {
            if is_expired(decls, tick, read) {
                return Some(read);
            }
        }
    }
    None
}

#[tactic(auto, unfolding(crate::specs::Work::is_older))]
fn is_older(read: OutsideRead, other: OutsideRead) -> bool
    ensures { result ≡ is_older read other }
{
    read.stamp < other.stamp || read.stamp == other.stamp && read.item.0 < other.item.0
}

#[tactic(auto, unfolding(crate::specs::Work::is_newer))]
fn is_newer(read: OutsideRead, other: OutsideRead) -> bool
    ensures { result ≡ is_newer read other }
{
    other.stamp < read.stamp || read.stamp == other.stamp && read.item.0 < other.item.0
}

/// The older of two reads, and of equally old ones the first in item order.
pub(crate) fn older(read: OutsideRead, best: Option<OutsideRead>) -> OutsideRead
    ensures { result ≡ older read best }
{
    match best {
        Some(other) if is_older(other, read) => other,
        _ => read,
    }
}

fn newer(read: OutsideRead, best: Option<OutsideRead>) -> OutsideRead
    ensures { result ≡ newer read best }
{
    match best {
        Some(other) if is_newer(other, read) => other,
        _ => read,
    }
}

fn oldest_of(reads: &[OutsideRead], items: &[ItemId]) -> Option<OutsideRead>
    ensures { result ≡ oldest (reads_of (of_reads reads.now) items.now) }
{
    let mut best: Option<OutsideRead> = None;
    for i in (0..items.len()).rev() {
        if let Some(read) = find_read(reads, items[i]) {
            best = Some(older(read, best));
        }
    }
    best
}

fn newest_of(reads: &[OutsideRead], items: &[ItemId]) -> Option<OutsideRead>
    ensures { result ≡ newest (reads_of (of_reads reads.now) items.now) }
{
    let mut best: Option<OutsideRead> = None;
    for i in (0..items.len()).rev() {
        if let Some(read) = find_read(reads, items[i]) {
            best = Some(newer(read, best));
        }
    }
    best
}

fn parted(
    within: Tick,
    old: Option<OutsideRead>,
    new: Option<OutsideRead>,
) -> Option<(OutsideRead, OutsideRead)>
    ensures { result ≡ parted within old new }
{
    match (old, new) {
        (Some(a), Some(b)) => {
            if within < b.stamp.saturating_sub(a.stamp) {
                Some((a, b))
            } else {
                None
            }
        }
        (Some(_), None) => None,
        (None, _) => None,
    }
}

fn apart_in(reads: &[OutsideRead], group: &TogetherDecl) -> Option<(OutsideRead, OutsideRead)>
    ensures { result ≡ apart_in (of_reads reads.now) group.now }
{
    let items = group.items.as_slice();
    parted(
        group.within,
        oldest_of(reads, items),
        newest_of(reads, items),
    )
}

/// The oldest and the newest read of the first relative set whose reads lie more than its interval apart, each the first in
/// item order among equally old ones, whatever order the set's items have. Two scans of the reads for each item of a set.
pub fn first_apart(
    together: &[TogetherDecl],
    reads: &[OutsideRead],
) -> Option<(OutsideRead, OutsideRead)>
    ensures { result ≡ first_apart (of_reads reads.now) together.now }
{
    for group in together {
        if let Some(pair) = apart_in(reads, group) {
            return Some(pair);
        }
    }
    None
}
