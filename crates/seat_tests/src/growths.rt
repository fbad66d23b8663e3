//! Each call that takes memory, on the scenario of a text. Where a growth was refused it is said so, it is looked whether what
//! the call was given is as before, and the call is made again. What a call answers is compared with what is known of the
//! scenario. A refused growth of this program's own is `program: refused`.
mod answers;
mod boards;
mod fault;
mod known;
mod plants;
mod said;
mod sets;
mod texts;

use crate::growths::boards::{admitted_core, core};
use crate::growths::fault::Fault;
use crate::growths::plants::plant;
use crate::growths::sets::{admitted, compiled};
use crate::growths::texts::scenario;
use std::alloc::Global;
use std::io;
use txn_set::CompiledSet;

// The boards and the plant of a set that is not admitted yet.
fn run_copies<R: Print>(rt: &R, alloc: Global, set: &CompiledSet) -> Result<(), Fault> {
    core(rt, alloc, set.copy(alloc)?)?;
    plant(rt, alloc, set.copy(alloc)?)
}

fn run_set<R: Print>(rt: &R, alloc: Global, set: CompiledSet) -> Result<(), Fault> {
    if let Err(fault) = run_copies(rt, alloc, &set) {
        drop(set);
        return Err(fault);
    }
    admitted_core(rt, alloc, admitted(rt, alloc, set)?)
}

fn run<R: Print>(rt: &R, alloc: Global, text: &[u8]) -> Result<(), Fault> {
    let read = scenario(rt, alloc, text)?;
    run_set(rt, alloc, compiled(rt, alloc, text, read)?)
}

/// Makes each call on the scenario of a text, and prints how each went.
pub fn try_growths<R: Print>(rt: &R, alloc: Global, text: &[u8]) -> io::Result<()> {
    match run(rt, alloc, text) {
        Ok(()) => Ok(()),
        Err(Fault::OutOfMemory) => println!(rt; "program: refused"),
        Err(Fault::NotKnown) => println!(rt; "program: ended"),
        Err(Fault::NotWritten(error)) => Err(error),
    }
}
