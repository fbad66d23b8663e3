//! A piece of entries, added to the records of a disk by the calls that a log makes for it.
ghost use Rattle.std.specs.Prelude.{◌≡◌, ℕ, ◌+◌, ◌<◌, ◌≤◌, ◌^◌, ◌++◌, ◌↔◌, [], ◌∷◌, List as Many, length, false, IsSome, OnOk};
ghost use Rattle.std.specs.List.{All, AllByRecursion};
ghost use Rattle.rt_base.specs.Names.{AreNames};
ghost use Rattle.txn_set.specs.Set.{Set};
ghost use Rattle.step_journal.specs.declared.entry.Entry.{Entry as Noted};
ghost use Rattle.step_journal.specs.History.{IsLegal};
ghost use Rattle.journal_text.specs.Lines.{IsWritable, entry_line};
ghost use Rattle.durable_disk.specs.Device.{LeavesOnly};
ghost use Rattle.durable_disk.specs.Records.{Reads};
ghost use Rattle.durable_disk.specs.Standing.{EachLeft, IsStaging};
ghost use Rattle.durable_journal.specs.Format.{body_of as body_of_text, entry_bodies};
ghost use Rattle.durable_journal.specs.Log.{Fits, HasSome, StandsFor};

use crate::body::body_in;
use crate::lines::Lines;
use durable_disk::{Disk, RecordFault, Records, found_as_read};
use journal_text::lines_both_ways;
use rt_base::Names;
use step_journal::Entry;

// Writes the body of an entry's record behind so many others that were written so, and does not sync.
fn stage_entry<D: Disk>(
    records: &mut Records<D>,
    lines: &mut Lines,
    names: &Names,
    ahead: u64,
    entry: &Entry,
) -> Result<(), RecordFault>
    requires writable { IsWritable names.now entry.now }
    requires room { records.old.count + ahead < 2 ^ 48 }
    ensures staged { OnOk result ((bodies more : Many (Many ℕ)) → records.old.count ≡ length bodies → ahead ≡ length more → IsStaging (D.seen records.old.disk) (D.may_leave records.old.disk) bodies more
        → IsStaging (D.seen records.new.disk) (D.may_leave records.new.disk) bodies (more ++ body_of_text (entry_line names.now entry.now) ∷ [])) }
    ensures any_moment { (bodies : Many (Many ℕ)) → records.old.count ≡ length bodies → EachLeft (D.seen records.old.disk) (D.may_leave records.old.disk) (λ c. Reads c bodies) → IsSome (D.seen records.old.disk)
        → LeavesOnly D.moment D.left_since records.old.disk records.new.disk (λ c. Reads c bodies) }
    ensures fits { Fits names.now entry.now }
    ensures count { records.new.count ≡ records.old.count }
    ensures goes { OnOk result (records.new.stopped ≡ false) }
    ensures told { IsSome (D.seen records.old.disk) ↔ IsSome (D.seen records.new.disk) }
{
    let body = body_in(lines, names, entry);
    records.stage_next(ahead, &body)
}

// Writes the bodies of entries' records behind those of the disk, and does not sync.
#[tactic(auto, using(durable_journal::proofs::Pieces::staged_next, durable_journal::proofs::Crash::fit_push, durable_journal::proofs::Runs::run_on))]
fn stage_all<D: Disk>(
    records: &mut Records<D>,
    lines: &mut Lines,
    names: &Names,
    entries: &[Entry],
) -> Result<(), RecordFault>
    requires writable { All (IsWritable names.now) entries.now }
    requires room { records.old.count + length entries.now ≤ 2 ^ 48 }
    ensures staged { OnOk result ((bodies : Many (Many ℕ)) → records.old.count ≡ length bodies → IsStaging (D.seen records.old.disk) (D.may_leave records.old.disk) bodies []
        → IsStaging (D.seen records.new.disk) (D.may_leave records.new.disk) bodies (entry_bodies names.now entries.now)) }
    ensures any_moment { (bodies : Many (Many ℕ)) → records.old.count ≡ length bodies → IsStaging (D.seen records.old.disk) (D.may_leave records.old.disk) bodies [] → IsSome (D.seen records.old.disk)
        → LeavesOnly D.moment D.left_since records.old.disk records.new.disk (λ c. Reads c bodies) }
    ensures fit { OnOk result (AllByRecursion (Fits names.now) entries.now) }
    ensures count { records.new.count ≡ records.old.count }
    ensures told { IsSome (D.seen records.old.disk) ↔ IsSome (D.seen records.new.disk) }
{
    for (i, entry) in entries.iter().enumerate() {
        stage_entry(records, lines, names, i as u64, entry)?;
    }
    Ok(())
}

/// Adds entries as one piece, as `Log::append_all` does: their records' bodies in order, each with a closed gate behind it, by
/// a call of the disk each; a sync; their gates in order, by a call each; a sync. After an error the records have stopped.
pub(crate) fn add_piece<D: Disk>(
    records: &mut Records<D>,
    lines: &mut Lines,
    names: &Names,
    entries: &[Entry],
) -> Result<(), RecordFault>
    requires names { AreNames names.now.items × AreNames names.now.txns }
    requires writable { All (IsWritable names.now) entries.now }
    requires room { records.old.count + length entries.now < 2 ^ 48 }
    requires goes { records.old.stopped ≡ false }
    ensures stands { OnOk result ((set : Set) (before : Many Noted) → IsLegal set (before ++ entries.now)
        → StandsFor D.seen D.may_leave names.now set records.old before
        → StandsFor D.seen D.may_leave names.now set records.new (before ++ entries.now)) }
    // A crash at any moment leaves a disk that is read as the entries before, with some of these in order.
    ensures any_moment { (set : Set) (before : Many Noted) → IsLegal set (before ++ entries.now)
        → StandsFor D.seen D.may_leave names.now set records.old before → IsSome (D.seen records.old.disk)
        → LeavesOnly D.moment D.left_since records.old.disk records.new.disk (HasSome names.now set before entries.now) }
    ensures goes { OnOk result (records.new.stopped ≡ false) }
    ensures count { OnOk result (records.new.count ≡ records.old.count + length entries.now) }
{
    found_as_read();
    lines_both_ways();
    stage_all(records, lines, names, entries)?;
    records.open_staged(entries.len() as u64)
}
