//! How a step ends a job: the verdict of a commit by the staleness rule and the relative rule, a quit, or an overrun.
ghost use Rattle.std.specs.Prelude.{◌≡◌};
ghost use Rattle.item_model.specs.Work.{first_apart, judged, verdict as verdict_of};
ghost use Rattle.plain_core.specs.Effects.{end_here, overrun_at};

use crate::work::Work;
use item_model::{ItemDecl, OutsideRead, first_apart, first_expired};
use rt_base::{End, ItemId, Op, Tick, TogetherDecl};
use txn_set::{CompiledSet, TxnDecl};

fn apart_reads(together: &[TogetherDecl], work: &Work) -> Option<(OutsideRead, OutsideRead)>
    ensures { result ≡ first_apart work.now together.now }
{
    first_apart(together, work.reads())
}

fn judged(expired: Option<OutsideRead>, apart: Option<(OutsideRead, OutsideRead)>) -> End
    ensures { result ≡ judged expired apart }
{
    match (expired, apart) {
        (Some(read), _) => End::Stale {
            item: read.item,
            stamp: read.stamp,
        },
        (None, Some((a, b))) => End::Apart {
            a: a.item,
            b: b.item,
        },
        (None, None) => End::Committed,
    }
}

/// The verdict of a commit that ends at a tick.
#[tactic(auto, unfolding(item_model::specs::Work::verdict))]
fn verdict(
    decls: &[ItemDecl],
    together: &[TogetherDecl],
    reads: &[ItemId],
    work: &Work,
    tick: Tick,
) -> End
    ensures { result ≡ verdict_of decls.now together.now reads.now work.now tick }
{
    judged(
        first_expired(decls, tick, reads, work.reads()),
        apart_reads(together, work),
    )
}

fn overrun(txn: &TxnDecl, used: u64) -> Option<End>
    ensures { result ≡ overrun_at txn.now used }
{
    if used == txn.steps {
        Some(End::Overrun)
    } else {
        None
    }
}

/// How the step that ends at this tick ends a job that has used so many steps with it, if it does. A commit costs a
/// scan of the job's reads for each declared read and each item of a relative set.
pub fn end_of_step(
    set: &CompiledSet,
    txn: &TxnDecl,
    work: &Work,
    used: u64,
    tick: Tick,
    op: Op,
) -> Option<End>
    ensures { result ≡ end_here set.now.items set.now.together txn.now work.now used tick op }
{
    match op {
        Op::Read(_) => overrun(txn, used),
        Op::Write(_, _) => overrun(txn, used),
        Op::Compute => overrun(txn, used),
        Op::Commit => {
            let reads = txn.reads.as_slice();
            Some(verdict(set.items(), set.together(), reads, work, tick))
        }
        Op::Quit => Some(End::Quit),
    }
}
