//! The verdict of a commit, by the staleness rule and the relative rule after Ramamritham (1993).
ghost use Rattle.std.specs.Prelude.{◌≡◌, IfErr};
ghost use Rattle.std.specs.List.{find};
ghost use Rattle.item_model.specs.Work.{reads_of, is_expired, first_apart, verdict};
ghost use Rattle.strict_commit.specs.Ends.{end_of, NamesFirst};

use crate::work::Work;
use item_model::{ItemDecl, OutsideRead, first_apart, first_expired};
use rt_base::{ItemId, Tick, TogetherDecl};

/// A read that was past its validity: the item, and the stamp that was read.
#[derive(Clone, Copy, PartialEq, Eq, Debug)]
pub struct StaleRead {
    pub item: ItemId,
    pub stamp: Tick,
}

/// Two items of a relative set that were read too far apart: the one with the least stamp and the one with the greatest.
#[derive(Clone, Copy, PartialEq, Eq, Debug)]
pub struct ApartRead {
    pub a: ItemId,
    pub b: ItemId,
}

/// Why a commit installs nothing.
#[derive(Clone, Copy, PartialEq, Eq, Debug)]
pub enum CommitRefused {
    /// The staleness rule fails.
    Stale(StaleRead),
    /// The staleness rule does not fail, and the relative rule does.
    Apart(ApartRead),
}

// The first declared read, read from outside, that is past its validity.
fn expired_read(decls: &[ItemDecl], tick: Tick, work: &Work) -> Option<OutsideRead>
    ensures { result ≡ find (is_expired decls.now tick) (reads_of work.now.work work.now.may_read) }
{
    first_expired(decls, tick, work.may_read(), work.reads())
}

// The oldest and the newest read of the first relative set whose reads lie too far apart.
fn apart_reads(together: &[TogetherDecl], work: &Work) -> Option<(OutsideRead, OutsideRead)>
    ensures { result ≡ first_apart work.now.work together.now }
{
    if together.is_empty() {
        return None;
    }
    first_apart(together, work.reads())
}

/// The verdict of a commit that ends at a tick.
#[tactic(auto, unfolding(item_model::specs::Work::verdict))]
pub fn judge(
    decls: &[ItemDecl],
    together: &[TogetherDecl],
    work: &Work,
    tick: Tick,
) -> Result<(), CommitRefused>
    ensures rule { end_of result ≡ verdict decls.now together.now work.now.may_read work.now.work tick }
    ensures first { IfErr result (NamesFirst decls.now work.now.may_read work.now.work tick) }
{
    work.keeps_order();
    if let Some(read) = expired_read(decls, tick, work) {
        return Err(CommitRefused::Stale(StaleRead {
            item: read.item,
            stamp: read.stamp,
        }));
    }
    match apart_reads(together, work) {
        Some((old, new)) => Err(CommitRefused::Apart(ApartRead {
            a: old.item,
            b: new.item,
        })),
        None => Ok(()),
    }
}
