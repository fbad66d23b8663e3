//! The declared set of a report.
ghost use Rattle.std.specs.Prelude.{◌≡◌, IfOk, IfErr, None};
ghost use Rattle.txn_compiler.specs.Refusal.{Refuses, compile_refusal};
ghost use Rattle.report_text.specs.IsHead.{IsHead, set_of};

use name_table::NameTables;
use report_text::Head;
use std::alloc::Global;
use txn_compiler::{CompileError, compile, kept_as_declared};
use txn_set::CompiledSet;

/// The declarations at the head of a report, compiled, with their names. An error other than OutOfMemory is the refusal
/// of the first rule of sets that they break, with the first place that breaks it.
pub fn compile_head(alloc: Global, head: Head) -> Result<(NameTables, CompiledSet), CompileError>
    requires { IsHead head }
    ensures names { IfOk result (λ r. r.0 ≡ head.names) }
    ensures set { IfOk result (λ r. r.1 ≡ set_of head) }
    ensures passed { IfOk result (λ r. compile_refusal r.1 ≡ None) }
    ensures refused { IfErr result (Refuses (compile_refusal (set_of head))) }
{
    kept_as_declared();
    let Head {
        names,
        items,
        txns,
        together,
        admitted: _,
        lines: _,
    } = head;
    match compile(
        alloc,
        items.into_vec(),
        txns.into_vec(),
        together.into_vec(),
    ) {
        Ok(set) => Ok((names, set)),
        Err(error) => Err(error),
    }
}
