//! Starting a plant.
ghost use Rattle.std.specs.Prelude.{◌≡◌, [], length, Some, IfOk, IfErr};
ghost use Rattle.lock_core.specs.Stands.{Stands};
ghost use Rattle.shared_plant.specs.Seats.{IsOf, tx_of};

use crate::calls::{peeked, replied};
use crate::growths::answers::{done, first_of, is_new};
use crate::growths::fault::Fault;
use crate::growths::known::{SAMPLE, TEMP, is_known_admitted};
use crate::growths::said::{Before, failed, judged, refused};
use crate::house::NoEntry;
use admitted_core::AdmittedCore;
use board::{Board, StepReply};
use rt_base::{Op, Outcome};
use set_admission::{AdmittedSet, admit};
use shared_plant::{Plant, Seat, Tried};
use std::alloc::Global;
use txn_set::CompiledSet;

const NAME: &str = "Plant::start";

const ROOM: usize = 16;

type Tank = Plant<AdmittedCore>;

type TankSeat = Seat<AdmittedCore>;

// A plant with its four seats.
#[derive(Drop)]
struct Callers {
    plant: Tank,
    sample: TankSeat,
    average: TankSeat,
    control: TankSeat,
    operator: TankSeat,
}

// A new core over the known set. A refused growth is the program's own here.
fn core(alloc: Global, set: CompiledSet) -> Result<AdmittedCore, Fault>
    ensures { IfOk result (λ c. Stands c.board [] × (length c.board.set.txns ≡ 3) × (length c.board.set.items ≡ 3)) }
{
    if set.txns().len() != 3 || set.items().len() != 3 {
        drop(set);
        return Err(Fault::NotKnown);
    }
    match admit(alloc, set) {
        Ok(set) => core_of(alloc, set),
        Err((set, _)) => {
            drop(set);
            Err(Fault::OutOfMemory)
        }
    }
}

// A new core over an admitted set.
fn core_of(alloc: Global, set: AdmittedSet) -> Result<AdmittedCore, Fault>
    requires { (length set.txns ≡ 3) × (length set.items ≡ 3) }
    ensures { IfOk result (λ c. Stands c.board [] × (length c.board.set.txns ≡ 3) × (length c.board.set.items ≡ 3)) }
{
    match AdmittedCore::new(alloc, set, ROOM) {
        Ok(core) => Ok(core),
        Err((set, _)) => {
            drop(set);
            Err(Fault::OutOfMemory)
        }
    }
}

// A started plant with its seats, or the core as it is handed back.
fn started(alloc: Global, core: AdmittedCore) -> Result<Callers, AdmittedCore>
    requires { Stands core.board [] × (length core.board.set.txns ≡ 3) × (length core.board.set.items ≡ 3) }
    ensures sizes { IfOk result (λ r. (length r.plant.set.txns ≡ 3) × (length r.plant.set.items ≡ 3)) }
    ensures sample { IfOk result (λ r. IsOf r.plant r.sample × (r.sample.tx ≡ Some (tx_of 0))) }
    ensures average { IfOk result (λ r. IsOf r.plant r.average) }
    ensures control { IfOk result (λ r. IsOf r.plant r.control × (r.control.tx ≡ Some (tx_of 2))) }
    ensures operator { IfOk result (λ r. IsOf r.plant r.operator) }
    ensures back { IfErr result (λ c. c ≡ core) }
{
    match Plant::start::<NoEntry>(alloc, core) {
        Ok((plant, mut seats)) => {
            let operator = seats.pop().unwrap();
            let control = seats.pop().unwrap();
            let average = seats.pop().unwrap();
            let sample = seats.pop().unwrap();
            Ok(Callers {
                plant,
                sample,
                average,
                control,
                operator,
            })
        }
        Err((core, _)) => Err(core),
    }
}

// Whether the first job of the sampler is planned for tick 0.
fn is_planned(plant: &Tank, seat: &mut TankSeat) -> bool
    requires { IsOf plant.now seat.old × (length plant.now.set.txns ≡ 3) }
{
    match plant.try_plan(seat, SAMPLE, 0) {
        Tried::Said(Ok(job)) => job == first_of(SAMPLE),
        _ => false,
    }
}

// Whether the seats are answered as is known: a plan, a step, a look at an item, and a step of no job.
fn has_known_answers(callers: Callers) -> bool
    requires sizes { (length callers.plant.set.txns ≡ 3) × (length callers.plant.set.items ≡ 3) }
    requires sample { IsOf callers.plant callers.sample × (callers.sample.tx ≡ Some (tx_of 0)) }
    requires average { IsOf callers.plant callers.average }
    requires control { IsOf callers.plant callers.control × (callers.control.tx ≡ Some (tx_of 2)) }
    requires operator { IsOf callers.plant callers.operator }
{
    let Callers {
        plant,
        mut sample,
        mut average,
        mut control,
        mut operator,
    } = callers;
    let none = StepReply::NoJob {
        ended: 0,
        last: None,
    };
    let job = is_planned(&plant, &mut operator);
    let put = replied(&plant, &mut sample, 0, Op::Write(TEMP, 5)) == Some(done(Outcome::Put));
    let stored = peeked(&plant, &mut average) == Some((0, 0));
    let refused = replied(&plant, &mut control, 0, Op::Compute) == Some(none);
    drop(sample);
    drop(average);
    drop(control);
    drop(operator);
    drop(plant);
    job && put && stored && refused
}

// Whether a core is new and over the known set with its bounds.
fn is_as_made(core: &AdmittedCore) -> bool {
    is_new(core) && is_known_admitted(core.admitted())
}

/// Starts a plant over a new core of the set; its seats have to be answered as is known.
pub fn plant<R: Print>(rt: &R, alloc: Global, set: CompiledSet) -> Result<(), Fault> {
    let core = core(alloc, set)?;
    match started(alloc, core) {
        Ok(callers) => judged(rt, NAME, Before::First, has_known_answers(callers)),
        Err(core) => plant_again(rt, alloc, core),
    }
}

// The plant once more, after a growth was refused.
fn plant_again<R: Print>(rt: &R, alloc: Global, core: AdmittedCore) -> Result<(), Fault>
    requires { Stands core.board [] × (length core.board.set.txns ≡ 3) × (length core.board.set.items ≡ 3) }
{
    let before = match refused(rt, NAME, is_as_made(&core)) {
        Ok(before) => before,
        Err(fault) => {
            drop(core);
            return Err(fault);
        }
    };
    match started(alloc, core) {
        Ok(callers) => judged(rt, NAME, before, has_known_answers(callers)),
        Err(core) => {
            drop(core);
            Err(failed(rt, NAME))
        }
    }
}
