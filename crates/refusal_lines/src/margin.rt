//! The margin of a set.
ghost use Rattle.std.specs.Prelude.{◌≡◌, ◌++◌, IfOk, OnOk};
ghost use Rattle.refusal_lines.specs.Lines.{barrier_cause, barrier_text, margin_of};

use crate::causes::{put_admit_cause, put_compile_cause};
use crate::words::put_number;
use rt_base::{Names, OutOfMemory};
use scale_margin::{Barrier, Margin};
use std::alloc::Global;

fn put_barrier(out: &mut Vec<u8>, names: &Names, barrier: Barrier) -> Result<(), OutOfMemory>
    ensures { OnOk result (out.new.items ≡ out.old.items ++ barrier_cause names.now barrier) }
{
    match barrier {
        Barrier::Compile(error) => put_compile_cause(out, names, error),
        Barrier::Admit(error) => put_admit_cause(out, names, error),
    }
}

fn put_barrier_text(
    out: &mut Vec<u8>,
    names: &Names,
    barrier: Option<Barrier>,
) -> Result<(), OutOfMemory>
    ensures { OnOk result (out.new.items ≡ out.old.items ++ barrier_text names.now barrier) }
{
    match barrier {
        Some(barrier) => put_barrier(out, names, barrier),
        None => {
            out.extend_from_slice(b"-")?;
            Ok(())
        }
    }
}

/// The greatest accepted percentage, a line, and in the next what bars the one above it, `-` where nothing does. The names
/// are those of the set's items and transactions.
pub fn margin_text(alloc: Global, names: &Names, margin: Margin) -> Result<Vec<u8>, OutOfMemory>
    ensures { IfOk result (λ text. text.items ≡ margin_of names.now margin) }
{
    let mut text = Vec::from_slice(alloc, b"margin")?;
    put_number(&mut text, margin.percent as u64)?;
    text.extend_from_slice(b"\nbarrier ")?;
    put_barrier_text(&mut text, names, margin.barrier)?;
    text.extend_from_slice(b"\n")?;
    Ok(text)
}
