//! Compiling the declarations, and admitting the set.
use crate::growths::fault::Fault;
use crate::growths::known::{is_known_admitted, is_known_set};
use crate::growths::said::{Before, failed, judged, refused};
use crate::growths::texts::read_anew;
use rt_base::OutOfMemory;
use set_admission::{AdmitError, AdmittedSet, admit};
use std::alloc::Global;
use step_script::Scenario;
use test_sets::compile_in_range;
use txn_compiler::CompileError;
use txn_set::CompiledSet;

const COMPILE: &str = "compile";

const ADMIT: &str = "admit";

// What compiling the declarations gives. None where an item is out of range.
fn compiled_once(alloc: Global, scenario: Scenario) -> Option<Result<CompiledSet, CompileError>> {
    let Scenario {
        names,
        items,
        txns,
        together,
        scripts,
        releases,
        room: _,
    } = scenario;
    drop(names);
    drop(scripts);
    drop(releases);
    compile_in_range(
        alloc,
        items.into_vec(),
        txns.into_vec(),
        together.into_vec(),
    )
}

// The set of a scenario; the inner error is want of memory, the outer one any other refusal.
fn set_of<R: Print>(
    rt: &R,
    alloc: Global,
    scenario: Scenario,
) -> Result<Result<CompiledSet, OutOfMemory>, Fault> {
    match compiled_once(alloc, scenario) {
        Some(Ok(set)) => Ok(Ok(set)),
        Some(Err(CompileError::OutOfMemory)) => Ok(Err(OutOfMemory)),
        _ => Err(failed(rt, COMPILE)),
    }
}

// The set, once a growth was refused. What `compile` was given is not handed back, so the text is read again.
fn compiled_again<R: Print>(
    rt: &R,
    alloc: Global,
    text: &[u8],
) -> Result<(CompiledSet, Before), Fault> {
    let before = refused(rt, COMPILE, true)?;
    let anew = read_anew(rt, alloc, text)?;
    let set = set_of(rt, alloc, anew)??;
    Ok((set, before))
}

/// The known set.
pub fn compiled<R: Print>(
    rt: &R,
    alloc: Global,
    text: &[u8],
    scenario: Scenario,
) -> Result<CompiledSet, Fault> {
    let (set, before) = match set_of(rt, alloc, scenario)? {
        Ok(set) => (set, Before::First),
        Err(_) => compiled_again(rt, alloc, text)?,
    };
    match judged(rt, COMPILE, before, is_known_set(&set)) {
        Ok(()) => Ok(set),
        Err(fault) => {
            drop(set);
            Err(fault)
        }
    }
}

// The set with its bounds, and whether a growth was refused at first.
fn admitted_twice<R: Print>(
    rt: &R,
    alloc: Global,
    set: CompiledSet,
) -> Result<(AdmittedSet, Before), Fault> {
    match admit(alloc, set) {
        Ok(admitted) => Ok((admitted, Before::First)),
        Err((set, AdmitError::OutOfMemory)) => admitted_again(rt, alloc, set),
        Err((set, _)) => {
            drop(set);
            Err(failed(rt, ADMIT))
        }
    }
}

// The set with its bounds, once a growth was refused.
fn admitted_again<R: Print>(
    rt: &R,
    alloc: Global,
    set: CompiledSet,
) -> Result<(AdmittedSet, Before), Fault> {
    let before = match refused(rt, ADMIT, is_known_set(&set)) {
        Ok(before) => before,
        Err(fault) => {
            drop(set);
            return Err(fault);
        }
    };
    match admit(alloc, set) {
        Ok(admitted) => Ok((admitted, before)),
        Err((set, _)) => {
            drop(set);
            Err(failed(rt, ADMIT))
        }
    }
}

/// The known set with its known bounds.
pub fn admitted<R: Print>(rt: &R, alloc: Global, set: CompiledSet) -> Result<AdmittedSet, Fault> {
    let (admitted, before) = admitted_twice(rt, alloc, set)?;
    match judged(rt, ADMIT, before, is_known_admitted(&admitted)) {
        Ok(()) => Ok(admitted),
        Err(fault) => {
            drop(admitted);
            Err(fault)
        }
    }
}
