//! The journal on a disk, made or opened.
ghost use Rattle.std.specs.Prelude.{◌≡◌, ◌+◌, ◌≤◌, ◌↔◌, [], length, false, IfOk, IfErr, IfSome, IsSome, IsTrue};
ghost use Rattle.io_edge.specs.Causes.{HasCause, Rose};
ghost use Rattle.rt_base.specs.Names.{AreNames};
ghost use Rattle.report_text.specs.Texts.{NamesSet};
ghost use Rattle.durable_journal.specs.Log.{StandsFor};
ghost use Rattle.durable_journal.specs.Opened.{IfFull, Passes};
ghost use Rattle.scenario_run.specs.JournalLeft.{HasMade, HasRefused};
ghost use Rattle.scenario_run.specs.Found.{IsFound, RefusedAt};

use durable_disk::Disk;
use durable_journal::{Log, LogError};
use io_edge::Failed;
use rt_base::Names;
use std::alloc::Global;
use step_journal::Entry;
use txn_set::CompiledSet;

// Whether the disk reads as empty: a read of one byte gives none.
fn is_empty<D: Disk>(disk: &mut D) -> Result<bool, Failed>
    ensures empty { IfOk result (λ is. IfSome (D.seen disk.old) (λ file. IsTrue is ↔ (file ≡ []))) }
    ensures passes { Passes D.seen D.may_leave D.moment D.left_since disk.old disk.new }
    ensures cause { HasCause (D.faults disk.old) (D.faults disk.new) result }
{
    let mut byte = [0];
    let count = disk.read_at(0, &mut byte)?;
    Ok(count == 0)
}

/// The log of a journal, with room for so many entries, and the entries that it has. A disk that reads as empty gets a new
/// one. After an error the disk is handed back.
pub(crate) fn opened<D: Disk>(
    alloc: Global,
    disk: D,
    names: &Names,
    set: &CompiledSet,
    room: usize,
) -> Result<(Log<D>, Vec<Entry>), (D, LogError)>
    requires names { AreNames names.now.items × AreNames names.now.txns }
    requires same { NamesSet names.now set.now }
    ensures found { IfOk result (λ r. IfSome (D.seen disk) (λ file. IsFound names.now set.now room file r.1.items)) }
    ensures refused { IfErr result (λ e. IfSome (D.seen disk) (λ file. RefusedAt names.now set.now room file e.1)) }
    // What is done to the disk, at each moment of the call.
    ensures made { IfOk result (λ r. IfSome (D.seen disk) (λ file. HasMade D.seen D.may_leave D.moment D.left_since names.now set.now room file disk r.0.disk)) }
    ensures made_err { IfErr result (λ e. IfSome (D.seen disk) (λ file. HasRefused D.seen D.may_leave D.moment D.left_since names.now set.now room file e.1 disk e.0)) }
    ensures stands { IfOk result (λ r. StandsFor D.seen D.may_leave names.now set.now r.0 r.1.items) }
    ensures goes { IfOk result (λ r. r.0.stopped ≡ false) }
    ensures told { IfOk result (λ r. IsSome (D.seen disk) ↔ IsSome (D.seen r.0.disk)) }
    ensures told_err { IfErr result (λ e. IsSome (D.seen disk) ↔ IsSome (D.seen e.0)) }
    ensures later { IfOk result (λ r. D.faults disk ≤ D.faults r.0.disk) }
    ensures full { IfErr result (λ e. IfFull e.1 (λ first. length first ≡ room)) }
    ensures goes_err { IfErr result (λ e. e.1 ≡ LogError.Stopped → ⊥) }
    ensures cause { IfErr result (λ e. e.1 ≡ LogError.DiskFault → Rose (D.faults disk) (D.faults e.0)) }
{
    let mut disk = disk;
    match is_empty(&mut disk) {
        Err(_) => Err((disk, LogError::DiskFault)),
        Ok(true) => match Log::create(alloc, disk) {
            Ok(log) => Ok((log, Vec::new(alloc))),
            Err(error) => Err(error),
        },
        Ok(false) => Log::open(alloc, disk, names, set, room),
    }
}
