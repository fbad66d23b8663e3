//! The refusals that an operation can meet before the room is looked at.
ghost use Rattle.std.specs.Prelude.{◌≡◌, ◌<◌, ◌&&◌, not, ℕ, length, is_some};
ghost use Rattle.item_model.specs.Kinds.{is_dated, validity_of_kind};
ghost use Rattle.item_model.specs.Work.{has_written};
ghost use Rattle.board.specs.Answers.{unwritten, unwritten_or, is_missed};
ghost use Rattle.plain_core.specs.Checks.{early_by, checked_by};

use crate::work::Work;
use board::StepReply;
use item_model::is_dated;
use rt_base::{ItemId, Op};
use txn_set::{CompiledSet, TxnDecl, names_item};

fn early(quiet: u64, used: u64, rest: StepReply) -> StepReply
    ensures { result ≡ early_by quiet used rest }
{
    if used < quiet {
        StepReply::TooEarly { left: quiet - used }
    } else {
        rest
    }
}

/// The first declared write that a commit misses.
fn first_missed(set: &CompiledSet, writes: &[ItemId], work: &Work) -> Option<ItemId>
    ensures { result ≡ unwritten set.now writes.now work.now }
{
    for item in writes {
        if is_dated(set.items(), *item) && work.write_of(*item).is_none() {
            return Some(*item);
        }
    }
    None
}

fn missed(item: Option<ItemId>, rest: StepReply) -> StepReply
    ensures { result ≡ unwritten_or item rest }
{
    match item {
        None => rest,
        Some(item) => StepReply::Unwritten { item },
    }
}

/// The refusal that an operation meets, and else the rest.
pub fn checked(
    set: &CompiledSet,
    txn: &TxnDecl,
    used: u64,
    work: &Work,
    op: Op,
    rest: StepReply,
) -> StepReply
    ensures { result ≡ checked_by set.now txn.now used work.now op rest }
{
    match op {
        Op::Read(item) => {
            if names_item(txn.reads.as_slice(), item) {
                early(txn.quiet, used, rest)
            } else {
                StepReply::Undeclared { item }
            }
        }
        Op::Write(item, _) => {
            if names_item(txn.writes.as_slice(), item) {
                early(txn.quiet, used, rest)
            } else {
                StepReply::Undeclared { item }
            }
        }
        Op::Compute => rest,
        Op::Commit => missed(first_missed(set, txn.writes.as_slice(), work), rest),
        Op::Quit => rest,
    }
}
