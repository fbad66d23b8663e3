//! A plant over tables.
ghost use Rattle.std.specs.Prelude.{◌≡◌, [], IfOk, IfErr, Some};
ghost use Rattle.lock_core.specs.Stands.{Stands};
ghost use Rattle.c_forms.specs.Refusals.{WhyNotOpened};
ghost use Rattle.c_stations.specs.Seats.{IsStarted, PlantOpened};

use crate::seat_station::SeatStation;
use admitted_core::AdmittedCore;
use board::Board;
use c_core::{CheckedCore, places};
use c_forms::{Refused, Tables};
use rt_base::OutOfMemory;
use shared_plant::Plant;
use std::alloc::Global;
use std::sync::Arc;
use step_journal::Entry;
use turn_cell::Past;

// The history of a new core.
struct NoEntry;

impl Past<Entry> for NoEntry {
    ghost past = { [] };
}

// The core of a set that was admitted.
fn admitted_core(core: CheckedCore) -> AdmittedCore
    requires { core.admitted ≡ Some core.board.set }
    ensures core { result.board ≡ core.board }
    ensures same { result.admitted ≡ result.board.set }
{
    match core.into_admitted() {
        Some(core) => core,
        None => unreachable!(),
    }
}

// The operator's seat of a plant on a new core, with all other seats.
fn started(alloc: Global, core: AdmittedCore) -> Result<SeatStation, OutOfMemory>
    requires new { Stands core.board [] × (core.board.journal.first ≡ 0) × (core.admitted ≡ core.board.set) }
    ensures { IfOk result (IsStarted core) }
{
    core.admitted().is_admitted();
    let txns = core.set().txns().len();
    let items = core.set().items().len();
    let spare = places(alloc)?;
    match Plant::start::<NoEntry>(alloc, core) {
        Ok((plant, mut others)) => {
            let seat = others.pop().unwrap();
            let plant = Arc::new(alloc, plant)?;
            Ok(SeatStation {
                plant,
                seat,
                others,
                spare,
                txns,
                items,
            })
        }
        Err((_, error)) => Err(error),
    }
}

fn boxed(alloc: Global, core: AdmittedCore) -> Result<Box<SeatStation>, OutOfMemory>
    requires new { Stands core.board [] × (core.board.journal.first ≡ 0) × (core.admitted ≡ core.board.set) }
    ensures { IfOk result (λ b. IsStarted core b.value) }
{
    Ok(Box::new(alloc, started(alloc, core)?)?)
}

/// The operator's seat of a plant over the admitted set of these tables, whose journal has room for so many entries, with
/// the seats of all transactions. All memory that its calls need is taken here, but that of the seats which `open_next`
/// hands out. Else the first cause for which there is none; OutOfMemory may come in place of each.
pub fn plant_over(alloc: Global, tables: &Tables, room: usize) -> Result<Box<SeatStation>, Refused>
    ensures opened { IfOk result (λ b. PlantOpened tables.now room b.value) }
    ensures refused { IfErr result (WhyNotOpened tables.now room) }
{
    let core = CheckedCore::open(alloc, tables, room)?;
    match boxed(alloc, admitted_core(core)) {
        Ok(station) => Ok(station),
        Err(_) => Err(Refused::OutOfMemory),
    }
}
