//! The set: a sampler that writes the level of a tank, and a controller that reads it and sets a valve.
ghost use Rattle.std.specs.Prelude.{◌≡◌, ◌≤◌, ◌^◌, [], length, IfOk};
ghost use Rattle.embedded_plant.specs.Named.{AreNamed, IsNamed};
ghost use Rattle.lock_core.specs.Stands.{Stands};

use crate::faults::Fault;
use admitted_core::AdmittedCore;
use item_model::{ItemDecl, ItemKind};
use rt_base::{ItemId, List, OutOfMemory, Prio, Tick, TxId};
use set_admission::{AdmittedSet, admit};
use std::alloc::Global;
use txn_compiler::compile;
use txn_set::TxnDecl;

/// A sensor item, valid for 20 ticks.
pub const LEVEL: ItemId = ItemId(0);

/// A state item.
pub const VALVE: ItemId = ItemId(1);

/// Writes the level every 10 ticks.
pub const SAMPLER: TxId = TxId(0);

/// Reads the level and writes the valve every 20 ticks, from tick 8 on.
pub const CONTROLLER: TxId = TxId(1);

fn list(alloc: Global, items: &[ItemId]) -> Result<List<ItemId>, OutOfMemory>
    ensures { IfOk result (λ l. l ≡ items.now) }
{
    let mut list = Vec::new(alloc);
    list.extend_from_slice(items)?;
    Ok(List::of(list))
}

/// The numbers of a transaction.
#[derive(Clone, Copy)]
struct Times {
    prio: Prio,
    period: Tick,
    offset: Tick,
    steps: u64,
}

// A transaction with its deadline at its period. Its items are two of the set's, as `compile` asks for.
fn txn(
    alloc: Global,
    times: Times,
    reads: &[ItemId],
    writes: &[ItemId],
) -> Result<TxnDecl, OutOfMemory>
    requires { AreNamed 2 reads.now × AreNamed 2 writes.now }
    ensures { IfOk result (IsNamed 2) }
{
    let reads = list(alloc, reads)?;
    let writes = list(alloc, writes)?;
    Ok(TxnDecl {
        prio: times.prio,
        period: times.period,
        offset: times.offset,
        deadline: times.period,
        steps: times.steps,
        quiet: 0,
        reads,
        writes,
    })
}

/// The set, compiled and admitted: from here on no job of it can be late.
pub fn admitted(alloc: Global) -> Result<AdmittedSet, Fault>
    ensures { IfOk result (λ set. (length set.items ≡ 2) × (length set.txns ≡ 2)) }
{
    let level = ItemDecl {
        kind: ItemKind::Sensor { validity: 20 },
        initial: 0,
    };
    let valve = ItemDecl {
        kind: ItemKind::State,
        initial: 0,
    };
    let items = vec![in alloc; level, valve]?;
    let fast = Times {
        prio: 2,
        period: 10,
        offset: 0,
        steps: 2,
    };
    let slow = Times {
        prio: 1,
        period: 20,
        offset: 8,
        steps: 4,
    };
    let sampler = txn(alloc, fast, &[], &[LEVEL])?;
    let controller = txn(alloc, slow, &[LEVEL], &[VALVE])?;
    let txns = vec![in alloc; sampler, controller]?;
    match compile(alloc, items, txns, Vec::new(alloc)) {
        Ok(set) => match admit(alloc, set) {
            Ok(set) => Ok(set),
            Err((_, refusal)) => Err(Fault::NotAdmitted(refusal)),
        },
        Err(refusal) => Err(Fault::NotCompiled(refusal)),
    }
}

/// A core over the set, with room for so many entries.
pub fn core_of(alloc: Global, room: usize) -> Result<AdmittedCore, Fault>
    requires { room ≤ 2 ^ 20 }
    ensures size { IfOk result (λ c. (length c.board.set.items ≡ 2) × (length c.board.set.txns ≡ 2)) }
    ensures journal { IfOk result (λ c. c.board.journal ≡ record { room = room; first = 0; kept = [] }) }
    ensures stands { IfOk result (λ c. Stands c.board []) }
{
    let set = admitted(alloc)?;
    match AdmittedCore::new(alloc, set, room) {
        Ok(core) => Ok(core),
        Err((set, refusal)) => {
            drop(set);
            Err(refusal.into())
        }
    }
}
