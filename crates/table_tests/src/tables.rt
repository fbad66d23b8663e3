//! What no clause says: worked answers of the tables at the start.
ghost use Rattle.std.specs.Prelude.{◌≡◌, length, IfOk};
ghost use Rattle.core_tables.specs.Legal.{Stand};

use crate::trio::trio;
use board::{IdleReply, StepReply};
use core_tables::{CoreTables, Tally};
use rt_base::{ItemId, JobId, Op, OutOfMemory, PlanRefused, Tick, TxId, Value};
use std::alloc::Global;
use txn_set::CompiledSet;

const LOW: TxId = TxId(2);

const JOB: JobId = JobId { tx: LOW, serial: 0 };

// The set, and its tables at the start.
fn opened(alloc: Global) -> Result<(CompiledSet, CoreTables), OutOfMemory>
    ensures stand { IfOk result (λ p. Stand p.0 p.1) }
    ensures txns { IfOk result (λ p. length p.0.txns ≡ 3) }
    ensures items { IfOk result (λ p. length p.1.items ≡ 1) }
    ensures periods { IfOk result (λ p. length p.1.calendar.periods ≡ 3) }
    ensures rows { IfOk result (λ p. length p.1.pending.rows ≡ 3) }
    ensures tallies { IfOk result (λ p. length p.1.tallies ≡ 3) }
{
    let set = trio(alloc)?;
    let tables = CoreTables::new(alloc, &set)?;
    Ok((set, tables))
}

// What a plan of the low transaction is answered by a board that keeps so many entries, with room for 4.
fn plan(tables: &CoreTables, tick: Tick, kept: usize) -> Result<JobId, PlanRefused>
    requires { length tables.now.calendar.periods ≡ 3 }
{
    tables.plan_check(LOW, tick, kept, 4)
}

// Each refusal is answered where no earlier one holds.
#[test]
fn plans(rt: HostRuntime) -> Result<(), OutOfMemory> {
    let (set, tables) = opened(rt.alloc())?;
    drop(set);
    for (tick, kept, want) in [
        (0, 0, Ok(JOB)),
        (5, 3, Ok(JOB)),
        (5, 4, Err(PlanRefused::Full { room: 4 })),
        (
            (1 << 40) + 1,
            4,
            Err(PlanRefused::TooFar { limit: 1 << 40 }),
        ),
    ] {
        assert!(rt; plan(&tables, tick, kept) == want);
    }
    drop(tables);
    Ok(())
}

// The present tick, the item, and the next tick of the low transaction.
fn state(tables: &CoreTables) -> (Tick, (Value, Tick), Tick)
    requires { (length tables.now.items ≡ 1) × (length tables.now.calendar.periods ≡ 3) }
{
    (tables.now(), tables.item(ItemId(0)), tables.next_for(LOW))
}

// How many releases are planned and the first of them, the low transaction's pending job, and the running one.
fn jobs(tables: &CoreTables) -> (usize, Option<Tick>, Option<JobId>, Option<JobId>)
    requires { length tables.now.pending.rows ≡ 3 }
{
    (
        tables.planned(),
        tables.next_tick(),
        tables.pending(LOW),
        tables.running(),
    )
}

#[test]
fn opens(rt: HostRuntime) -> Result<(), OutOfMemory> {
    let (set, tables) = opened(rt.alloc())?;
    drop(set);
    assert!(rt; state(&tables) == (0, (7, 0), 0));
    assert!(rt; jobs(&tables) == (0, None, None, None));
    drop(tables);
    Ok(())
}

#[test]
fn answers_when_new(rt: HostRuntime) -> Result<(), OutOfMemory> {
    let (set, mut tables) = opened(rt.alloc())?;
    assert!(rt;
        tables.tally(LOW)
            == Tally {
                number: 0,
                last: None
            }
    );
    assert!(rt; tables.idle_check(0, 4) == IdleReply::Nothing);
    let refused = tables.refusal(&set, JOB, Op::Compute, 0, 4);
    drop(set);
    assert!(rt;
        refused
            == Some(StepReply::NoJob {
                ended: 0,
                last: None
            })
    );
    assert!(rt; tables.plan(LOW, 0, 0, 4) == Ok(JOB));
    let items = tables.into_items();
    assert!(rt; items.len() == 1);
    drop(items);
    Ok(())
}
