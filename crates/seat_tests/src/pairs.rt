//! Two threads that plan.
ghost use Rattle.std.specs.Prelude.{◌≡◌, ◌<◌, length};
ghost use Rattle.shared_plant.specs.Seats.{IsOf};

use crate::house::{House, closed};
use board::Board;
use rt_base::TxId;
use shared_plant::{Plant, Seat, Tried};
use std::alloc::Global;
use std::thread;
use std::thread::{Threads, join};
use step_journal::Entry;

// Whether the plan was granted, by as many tries as the turn takes, up to a million.
fn plan_until_said<B: Board>(plant: &Plant<B>, seat: &mut Seat<B>, tx: TxId) -> bool
    requires { IsOf plant.now seat.old × (tx.0 < length plant.now.set.txns) }
    ensures { (seat.new.plant ≡ seat.old.plant) × (seat.new.tx ≡ seat.old.tx) }
{
    for _ in 0..1_000_000 {
        match plant.try_plan(seat, tx, 0) {
            Tried::Said(reply) => return reply.is_ok(),
            Tried::Busy => thread::yield_now(),
        }
    }
    false
}

fn plan_as<B: Board>(plant: &Plant<B>, mut seat: Seat<B>, tx: TxId) -> (Seat<B>, bool)
    requires { IsOf plant.now seat × (tx.0 < length plant.now.set.txns) }
    ensures { IsOf plant.now result.0 }
{
    let granted = plan_until_said(plant, &mut seat, tx);
    (seat, granted)
}

/// Two threads plan a job each at the present tick: what each was told, and whether both plans stand at distinct places,
/// whichever came first.
pub fn planned_by_two<R: Threads, B: Board + Send + Drop>(
    rt: &R,
    alloc: Global,
    house: House<B>,
) -> Option<(bool, bool, bool)> {
    let House {
        plant,
        operator,
        sample: one,
        control: two,
        logger,
    } = house;
    let ((sample, a), (control, b)) = join(
        rt,
        || -> (Seat<B>, bool)
            requires { IsOf plant one × (2 < length plant.set.txns) }
            ensures { IsOf plant result.0 }
        { plan_as(&plant, one, TxId(0)) },
        || -> (Seat<B>, bool)
            requires { IsOf plant two × (2 < length plant.set.txns) }
            ensures { IsOf plant result.0 }
        { plan_as(&plant, two, TxId(1)) },
    );
    let house = House {
        plant,
        operator,
        sample,
        control,
        logger,
    };
    let (_, _, board) = closed(alloc, house)?;
    let (first, second) = (planned(0), planned(1));
    let kept = board.entries();
    let both = kept == [first, second].as_slice() || kept == [second, first].as_slice();
    Some((a, b, both))
}

fn planned(tx: u32) -> Entry {
    Entry::Planned {
        tx: TxId(tx),
        tick: 0,
    }
}
