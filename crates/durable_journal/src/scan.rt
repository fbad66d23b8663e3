//! Reading the entries of a journal from its disk.
ghost use Rattle.std.specs.Prelude.{◌≡◌, ◌+◌, ◌-◌, ◌<◌, ◌≤◌, ◌^◌, [], length, IfOk, IfSome, IsErrOf, OnOk};
ghost use Rattle.io_edge.specs.Causes.{Rose};
ghost use Rattle.rt_base.specs.Names.{AreNames};
ghost use Rattle.durable_disk.specs.Device.{LeavesOnly, NoMore, Only};
ghost use Rattle.durable_disk.specs.Records.{slot_at};
ghost use Rattle.durable_journal.specs.Texts.{IsHeader, texts_from};
ghost use Rattle.durable_journal.specs.Opened.{AreRead, Passes, Scanned, texts_by};

use crate::place::{Place, read_head, read_place};
use durable_disk::Disk;
use name_table::{NameTable, NameTables};
use rt_base::{Names, OutOfMemory};
use std::alloc::Global;
use step_journal::Entry;

// No memory holds more entries.
const MOST: usize = 1 << 47;

/// How reading entries ended.
#[derive(Clone, Copy, Debug, PartialEq, Eq)]
pub enum Stop {
    /// At a closed gate.
    Ended,
    /// At a gate that is missing.
    Unended,
    /// At an open gate that is of no record of an entry.
    Broken,
    /// At an open gate behind as many records as there is room for.
    More,
}

/// Why entries were not read.
#[derive(Clone, Copy, Debug, PartialEq, Eq)]
pub enum ScanFault {
    /// A call of the disk failed, and was counted.
    DiskFault,
    /// The header does not stand in its place behind an open gate.
    NoHeader,
    /// A growth was refused for want of memory.
    OutOfMemory,
}

// The tables of these names.
fn tables_of(alloc: Global, names: &Names) -> Result<NameTables, OutOfMemory>
    requires items { AreNames names.now.items }
    requires txns { AreNames names.now.txns }
    requires few_items { length names.now.items < 2 ^ 32 }
    requires few_txns { length names.now.txns < 2 ^ 32 }
    ensures { IfOk result (λ tables. tables ≡ names.now) }
{
    let items = NameTable::of(alloc, names.items.as_slice())?;
    let txns = NameTable::of(alloc, names.txns.as_slice())?;
    Ok(NameTables::of(items, txns))
}

fn read_entries<D: Disk>(
    alloc: Global,
    disk: &mut D,
    names: &NameTables,
    room: usize,
) -> Result<(Vec<Entry>, Stop), ScanFault>
    ensures texts { IfOk result (λ r. IfSome (D.seen disk.old) (λ file. texts_by r.1 r.0.items ≡ texts_from names.now 1 room [] file)) }
    ensures read { IfOk result (λ r. AreRead names.now room r.1 r.0.items) }
    ensures passes { Passes D.seen D.may_leave D.moment D.left_since disk.old disk.new }
    ensures headed { IsErrOf result ScanFault.NoHeader → ⊥ }
    ensures cause { IsErrOf result ScanFault.DiskFault → Rose (D.faults disk.old) (D.faults disk.new) }
    ensures later { D.faults disk.old ≤ D.faults disk.new }
{
    let mut entries = Vec::new(alloc);
    while entries.len() < room {
        if entries.len() >= MOST {
            return Err(ScanFault::OutOfMemory);
        }
        let k = entries.len() as u64 + 1;
        match read_place(disk, names, k) {
            Err(_) => return Err(ScanFault::DiskFault),
            Ok(Place::Missing) => return Ok((entries, Stop::Unended)),
            Ok(Place::Closed) => return Ok((entries, Stop::Ended)),
            Ok(Place::Bad) => return Ok((entries, Stop::Broken)),
            Ok(Place::Taken(entry)) => {
                if entries.push(entry).is_err() {
                    return Err(ScanFault::OutOfMemory);
                }
            }
        }
    }
    match read_place(disk, names, room as u64 + 1) {
        Err(_) => Err(ScanFault::DiskFault),
        Ok(Place::Missing) => Ok((entries, Stop::Unended)),
        Ok(Place::Closed) => Ok((entries, Stop::Ended)),
        Ok(Place::Bad) => Ok((entries, Stop::More)),
        Ok(Place::Taken(_)) => Ok((entries, Stop::More)),
    }
}

/// The entries of a journal, at most `room` of them, and how reading them ended. It syncs first, so that nothing is
/// pending. It takes memory for a table of the names and for the entries.
pub fn scan_disk<D: Disk>(
    alloc: Global,
    disk: &mut D,
    names: &Names,
    room: usize,
) -> Result<(Vec<Entry>, Stop), ScanFault>
    requires names { AreNames names.now.items × AreNames names.now.txns }
    requires few_items { length names.now.items < 2 ^ 32 }
    requires few_txns { length names.now.txns < 2 ^ 32 }
    ensures scanned { IfOk result (λ r. IfSome (D.seen disk.old) (λ file. Scanned names.now room file r.1 r.0.items)) }
    ensures read { IfOk result (λ r. AreRead names.now room r.1 r.0.items) }
    ensures settled { OnOk result (Only (D.seen disk.new) (D.may_leave disk.new)) }
    ensures passes { Passes D.seen D.may_leave D.moment D.left_since disk.old disk.new }
    ensures no_header { IsErrOf result ScanFault.NoHeader → IfSome (D.seen disk.old) (λ file. IsHeader (slot_at 0 file) → ⊥) }
    ensures cause { IsErrOf result ScanFault.DiskFault → Rose (D.faults disk.old) (D.faults disk.new) }
    ensures later { D.faults disk.old ≤ D.faults disk.new }
{
    let Ok(()) = disk.sync() else {
        return Err(ScanFault::DiskFault);
    };
    match read_head(disk) {
        Err(_) => Err(ScanFault::DiskFault),
        Ok(false) => Err(ScanFault::NoHeader),
        Ok(true) => match tables_of(alloc, names) {
            Ok(tables) => read_entries(alloc, disk, &tables, room),
            Err(OutOfMemory) => Err(ScanFault::OutOfMemory),
        },
    }
}
