//! A piece of entries, put to the calls that are to be made on a file.
ghost use Rattle.std.specs.Prelude.{◌≡◌, ℕ, ◌+◌, ◌<◌, ◌^◌, ◌++◌, [], List as Many, length, reverse, IfErr, OnErr, OnOk};
ghost use Rattle.std.specs.List.{All};
ghost use Rattle.rt_base.specs.Names.{AreNames};
ghost use Rattle.txn_set.specs.Set.{Set};
ghost use Rattle.step_journal.specs.declared.entry.Entry.{Entry as Noted};
ghost use Rattle.step_journal.specs.History.{IsLegal};
ghost use Rattle.journal_text.specs.Lines.{IsWritable};
ghost use Rattle.durable_journal.specs.Log.{HasSome};
ghost use Rattle.c_stations.specs.Appending.{IsUnknownOr};
ghost use Rattle.c_stations.specs.Calls.{LeftSince};
ghost use Rattle.c_stations.specs.Kept.{Holds};

use crate::device::{Based, CallDisk};
use crate::entry::are_writable;
use crate::lines::Lines;
use crate::piece::add_piece;
use crate::queue::Queue;
use crate::refused::AppendRefused;
use durable_disk::{RecordFault, Records};
use rt_base::Names;
use std::alloc::Global;
use std::marker::Brand;
use std::mem;
use step_journal::Entry;

// A piece on a file that held these bytes.
fn piece_on<T: Based>(
    alloc: Global,
    queue: &mut Queue,
    count: u64,
    lines: &mut Lines,
    names: &Names,
    entries: &[Entry],
) -> Result<(), RecordFault>
    requires base { queue.old.base ≡ T.base }
    requires calls { queue.old.calls ≡ [] }
    requires names { AreNames names.now.items × AreNames names.now.txns }
    requires writable { All (IsWritable names.now) entries.now }
    requires room { count + length entries.now < 2 ^ 48 }
    ensures base { queue.new.base ≡ T.base }
    ensures failed { OnErr result (queue.new.calls ≡ []) }
    ensures holds { OnOk result ((set : Set) (before : Many Noted) → IsLegal set (before ++ entries.now) → Holds names.now set queue.old count before
        → Holds names.now set queue.new (count + length entries.now) (before ++ entries.now)) }
    ensures left { OnOk result ((set : Set) (before : Many Noted) → IsLegal set (before ++ entries.now) → Holds names.now set queue.old count before
        → (c : Many ℕ) → LeftSince queue.new.base (reverse queue.new.calls) 0 c → HasSome names.now set before entries.now c) }
{
    let disk: CallDisk<T> = CallDisk::over(mem::replace(queue, Queue::none(alloc)));
    let mut records = Records::over(disk, count);
    let answer = add_piece(&mut records, lines, names, entries);
    *queue = records.into_disk().into_queue();
    if answer.is_err() {
        queue.forget();
    }
    answer
}

/// Puts entries as one piece to the calls on the file of a log of so many records, of which no call is left. After an error no
/// call is put.
pub(crate) fn put_piece(
    alloc: Global,
    queue: &mut Queue,
    count: u64,
    lines: &mut Lines,
    names: &Names,
    entries: &[Entry],
) -> Result<(), RecordFault>
    requires calls { queue.old.calls ≡ [] }
    requires names { AreNames names.now.items × AreNames names.now.txns }
    requires writable { All (IsWritable names.now) entries.now }
    requires room { count + length entries.now < 2 ^ 48 }
    ensures base { queue.new.base ≡ queue.old.base }
    ensures failed { OnErr result (queue.new.calls ≡ []) }
    ensures holds { OnOk result ((set : Set) (before : Many Noted) → IsLegal set (before ++ entries.now) → Holds names.now set queue.old count before
        → Holds names.now set queue.new (count + length entries.now) (before ++ entries.now)) }
    ensures left { OnOk result ((set : Set) (before : Many Noted) → IsLegal set (before ++ entries.now) → Holds names.now set queue.old count before
        → (c : Many ℕ) → LeftSince queue.new.base (reverse queue.new.calls) 0 c → HasSome names.now set before entries.now c) }
{
    piece_on::<Brand>(alloc, queue, count, lines, names, entries)
}

/// Puts the calls that append these entries, where each can be written with these names; else the refusal, and no call.
pub(crate) fn put_known(
    alloc: Global,
    queue: &mut Queue,
    count: u64,
    lines: &mut Lines,
    names: &Names,
    entries: &[Entry],
) -> Result<(), AppendRefused>
    requires calls { queue.old.calls ≡ [] }
    requires names { AreNames names.now.items × AreNames names.now.txns }
    requires room { count + length entries.now < 2 ^ 48 }
    ensures base { queue.new.base ≡ queue.old.base }
    ensures failed { OnErr result (queue.new.calls ≡ []) }
    ensures known { OnOk result (All (IsWritable names.now) entries.now) }
    ensures refused { IfErr result (IsUnknownOr (All (IsWritable names.now) entries.now)) }
    ensures holds { OnOk result ((set : Set) (before : Many Noted) → IsLegal set (before ++ entries.now) → Holds names.now set queue.old count before
        → Holds names.now set queue.new (count + length entries.now) (before ++ entries.now)) }
    ensures left { OnOk result ((set : Set) (before : Many Noted) → IsLegal set (before ++ entries.now) → Holds names.now set queue.old count before
        → (c : Many ℕ) → LeftSince queue.new.base (reverse queue.new.calls) 0 c → HasSome names.now set before entries.now c) }
{
    if !are_writable(names, entries) {
        return Err(AppendRefused::Unknown);
    }
    match put_piece(alloc, queue, count, lines, names, entries) {
        Ok(()) => Ok(()),
        Err(_) => Err(AppendRefused::OutOfMemory),
    }
}
