//! Making boards.
ghost use Rattle.std.specs.Prelude.{◌≡◌, [], IfOk};
ghost use Rattle.lock_core.specs.Stands.{Stands};

use crate::growths::answers::has_known_answers;
use crate::growths::fault::Fault;
use crate::growths::known::{is_known_admitted, is_known_set};
use crate::growths::said::{Before, failed, judged, refused};
use admitted_core::AdmittedCore;
use lock_core::Core;
use set_admission::AdmittedSet;
use std::alloc::Global;
use txn_set::CompiledSet;

const CORE: &str = "Core::new";

const ADMITTED_CORE: &str = "AdmittedCore::new";

// The entries of the answers that are known, and more.
const ROOM: usize = 16;

// A core, and whether a growth was refused at first.
fn core_twice<R: Print>(rt: &R, alloc: Global, set: CompiledSet) -> Result<(Core, Before), Fault> {
    match Core::new(alloc, set, ROOM) {
        Ok(core) => Ok((core, Before::First)),
        Err((set, _)) => core_again(rt, alloc, set),
    }
}

// A core, once a growth was refused.
fn core_again<R: Print>(rt: &R, alloc: Global, set: CompiledSet) -> Result<(Core, Before), Fault> {
    let before = match refused(rt, CORE, is_known_set(&set)) {
        Ok(before) => before,
        Err(fault) => {
            drop(set);
            return Err(fault);
        }
    };
    match Core::new(alloc, set, ROOM) {
        Ok(core) => Ok((core, before)),
        Err((set, _)) => {
            drop(set);
            Err(failed(rt, CORE))
        }
    }
}

/// Makes a core, which has to answer as is known.
pub fn core<R: Print>(rt: &R, alloc: Global, set: CompiledSet) -> Result<(), Fault> {
    let (mut core, before) = core_twice(rt, alloc, set)?;
    let is_known = has_known_answers(&mut core);
    drop(core);
    judged(rt, CORE, before, is_known)
}

// A core over an admitted set, and whether a growth was refused at first.
fn admitted_core_twice<R: Print>(
    rt: &R,
    alloc: Global,
    set: AdmittedSet,
) -> Result<(AdmittedCore, Before), Fault> {
    match AdmittedCore::new(alloc, set, ROOM) {
        Ok(core) => Ok((core, Before::First)),
        Err((set, _)) => admitted_core_again(rt, alloc, set),
    }
}

// A core over an admitted set, once a growth was refused.
fn admitted_core_again<R: Print>(
    rt: &R,
    alloc: Global,
    set: AdmittedSet,
) -> Result<(AdmittedCore, Before), Fault> {
    let before = match refused(rt, ADMITTED_CORE, is_known_admitted(&set)) {
        Ok(before) => before,
        Err(fault) => {
            drop(set);
            return Err(fault);
        }
    };
    match AdmittedCore::new(alloc, set, ROOM) {
        Ok(core) => Ok((core, before)),
        Err((set, _)) => {
            drop(set);
            Err(failed(rt, ADMITTED_CORE))
        }
    }
}

/// Makes a core over the admitted set, which has to answer as is known.
pub fn admitted_core<R: Print>(rt: &R, alloc: Global, set: AdmittedSet) -> Result<(), Fault> {
    let (mut core, before) = admitted_core_twice(rt, alloc, set)?;
    let is_known = has_known_answers(&mut core);
    drop(core);
    judged(rt, ADMITTED_CORE, before, is_known)
}
