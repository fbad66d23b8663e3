//! A log of entries on a disk.
ghost use Rattle.std.specs.Prelude.{◌≡◌, ℕ, ◌+◌, ◌*◌, ◌<◌, ◌≤◌, ◌^◌, ◌++◌, ◌↔◌, [], ◌∷◌, List as Many, length, true, false, IfOk, IfErr, IfSome, IsOk, IsErrOf, IsSome, OnErr, OnOk, vec_capacity};
ghost use Rattle.std.specs.List.{All, AllByRecursion};
ghost use Rattle.io_edge.specs.Causes.{HasCause};
ghost use Rattle.rt_base.specs.Names.{AreNames};
ghost use Rattle.rt_base.specs.declared.name.Names.{Names as Noting};
ghost use Rattle.txn_set.specs.Set.{Set};
ghost use Rattle.step_journal.specs.declared.entry.Entry.{Entry as Noted};
ghost use Rattle.step_journal.specs.History.{IsLegal};
ghost use Rattle.journal_text.specs.Lines.{IsWritable, entry_line};
ghost use Rattle.report_text.specs.Texts.{NamesSet};
ghost use Rattle.durable_disk.specs.Device.{LeavesOnly, WritesWithin};
ghost use Rattle.durable_disk.specs.Records.{HasFirst, Reads};
ghost use Rattle.durable_disk.specs.Standing.{EachLeft, IsStaging, Stands, StopsAtFault, TellsFaults};
ghost use Rattle.durable_journal.specs.Format.{body_of as body_of_text, entry_bodies};
ghost use Rattle.durable_journal.specs.Log.{Fits, GoesOn, HasSome, IsBeforeOrAfter, IsLeft, IsMemoryOrFault, IsOkOrFault, StandsFor};
ghost use Rattle.durable_journal.specs.Opened.{ClosesAt, HandsBack, IfFull, IsEnd, IsJudged, IsOpened, IsRefused, KeepsDisk, Touches, TouchesAt, with_gate};

use crate::format::body_of;
use crate::place::HEADER;
use crate::scan::{ScanFault, Stop, scan_disk};
use durable_disk::{Disk, RecordFault, Records, WIDTH, found_as_read};
use io_edge::Failed;
use journal_text::{Numerals, lines_both_ways, write_entry};
use law_histories::counting;
use rt_base::{List, Names};
use run_report::legal_has_lines;
use serial_replay::{ReplayError, last_items};
use std::alloc::Global;
use std::marker::Model;
use step_journal::Entry;
use txn_set::CompiledSet;

/// The most bytes of a line with its line end.
const LINE: usize = 256;

/// Why a journal was not made, opened or added to.
#[derive(Drop)]
pub enum LogError {
    /// A call of the disk failed, and was counted.
    DiskFault,
    /// This record is not the header with an open gate, is none of an entry's line, or its entry is no legal step.
    BadRecord { number: u64 },
    /// More than `room` entries' records stand before the journal's end; `first` is those that have room.
    Full { room: usize, first: List<Entry> },
    /// An earlier call answered `DiskFault`.
    Stopped,
    /// A growth was refused for want of memory.
    OutOfMemory,
}

/// A log of entries on a disk. It keeps no entry. Contracts see its disk, the number of its records, which is one more than
/// that of its entries, and whether it has stopped.
#[derive(Drop)]
pub struct Log<D: Disk> {
    records: Records<D>,
    line: Vec<u8>,
    numerals: Numerals,
}

impl<D: Disk> Model for Log<D> {
    ghost use Rattle.std.specs.Prelude.{◌≤◌, vec_capacity};
    ghost use Rattle.durable_disk.specs.Standing.{RecordsSeen};

    ghost Value = { RecordsSeen D };

    ghost view = { λ s. s.records };

    ghost invariant = { λ s. (256 ≤ vec_capacity s.line) × (1 ≤ s.records.count) };
}

impl<D: Disk> Log<D> {
    /// Makes a journal with no entry on a disk that reads as empty. After an error the disk is handed back, and a later
    /// `open` of it may find no header. At each moment a crash leaves what it might have left before, with other bytes among
    /// the first 257 at most.
    pub fn create(alloc: Global, disk: D) -> Result<Log<D>, (D, LogError)>
        requires { IfSome (D.seen disk) (λ file. file ≡ []) }
        ensures stands { IfOk result (λ log. (names : Noting) (set : Set) → StandsFor D.seen D.may_leave names set log []) }
        ensures goes { IfOk result (λ log. (log.stopped ≡ false) × (log.count ≡ 1)) }
        ensures told { IfOk result (λ log. IsSome (D.seen disk) ↔ IsSome (D.seen log.disk)) }
        // Nothing is written but the header's record and two gates, at each moment of the call.
        ensures within { IfOk result (λ log. WritesWithin D.seen D.may_leave D.moment D.left_since 0 257 disk log.disk) }
        ensures within_err { IfErr result (λ e. WritesWithin D.seen D.may_leave D.moment D.left_since 0 257 disk e.0) }
        ensures later { IfOk result (λ log. D.faults disk ≤ D.faults log.disk) }
        ensures cause { IfErr result (λ e. IsMemoryOrFault (D.faults disk) (D.faults e.0) e.1) }
    {
        let Ok(line) = Vec::with_capacity(alloc, LINE) else {
            return Err((disk, LogError::OutOfMemory));
        };
        match Records::create(disk, &body_of(&HEADER)) {
            Ok(records) => Ok(Log {
                records,
                line,
                numerals: Numerals::new(),
            }),
            Err(disk) => Err((disk, LogError::DiskFault)),
        }
    }

    /// Opens a journal with room for so many entries, and hands out its entries. It syncs first, so that nothing is pending.
    /// After an error the disk is handed back.
    pub fn open(
        alloc: Global,
        disk: D,
        names: &Names,
        set: &CompiledSet,
        room: usize,
    ) -> Result<(Log<D>, Vec<Entry>), (D, LogError)>
        requires names { AreNames names.now.items × AreNames names.now.txns }
        requires same { NamesSet names.now set.now }
        ensures opened { IfOk result (λ r. IfSome (D.seen disk) (λ file. IsOpened names.now set.now room file r.1.items)) }
        ensures refused { IfErr result (λ e. IfSome (D.seen disk) (λ file. IsRefused names.now set.now room file e.1)) }
        // The log stands for the entries that are handed out.
        ensures stands { IfOk result (λ r. StandsFor D.seen D.may_leave names.now set.now r.0 r.1.items) }
        ensures goes { IfOk result (λ r. (r.0.stopped ≡ false) × (r.0.count ≡ length r.1.items + 1)) }
        // Nothing is written but the gate at the end of a good journal that has none there.
        ensures touched { IfOk result (λ r. IfSome (D.seen disk) (λ file. Touches D.seen D.may_leave D.moment D.left_since names.now set.now room file (λ now. now ≡ with_gate file) disk r.0.disk)) }
        ensures touched_err { IfErr result (λ e. IfSome (D.seen disk) (λ file. TouchesAt D.seen D.may_leave D.moment D.left_since names.now set.now room file e.1 disk e.0)) }
        ensures kept { IfOk result (λ r. KeepsDisk D.seen D.may_leave D.moment D.left_since D.faults names.now room r.1.items disk r.0.disk) }
        ensures handed_back { IfErr result (λ e. HandsBack D.seen D.may_leave D.moment D.left_since D.faults names.now room e.1 disk e.0) }
    {
        found_as_read();
        lines_both_ways();
        set.is_compiled();
        let mut disk = disk;
        let Ok(line) = Vec::with_capacity(alloc, LINE) else {
            return Err((disk, LogError::OutOfMemory));
        };
        let (entries, stop) = match scan_disk(alloc, &mut disk, names, room) {
            Ok(found) => found,
            Err(ScanFault::DiskFault) => return Err((disk, LogError::DiskFault)),
            Err(ScanFault::NoHeader) => return Err((disk, LogError::BadRecord { number: 0 })),
            Err(ScanFault::OutOfMemory) => return Err((disk, LogError::OutOfMemory)),
        };
        let entries = match judge(alloc, set, entries, stop, room) {
            Ok(entries) => entries,
            Err(error) => return Err((disk, error)),
        };
        let count = entries.len() as u64 + 1;
        let Ok(()) = close_end(&mut disk, stop, count) else {
            return Err((disk, LogError::DiskFault));
        };
        let records = Records::over(disk, count);
        let log = Log {
            records,
            line,
            numerals: Numerals::new(),
        };
        Ok((log, entries))
    }

    /// Adds an entry, by four calls of the disk. After Ok each crash leaves a disk that is read with it. After `DiskFault`
    /// the log has stopped: a crash leaves the entries before, with this one or without, and no further entry is taken. It
    /// takes no memory.
    pub fn append(&mut self, names: &Names, set: &CompiledSet, entry: Entry) -> Result<(), LogError>
        requires names { AreNames names.now.items × AreNames names.now.txns }
        requires same { NamesSet names.now set.now }
        requires legal { GoesOn D.seen D.may_leave names.now set.now self.old (entry ∷ []) }
        ensures stands { IsOkOrFault result → (entries : Many Noted) → IsLegal set.now (entries ++ entry ∷ [])
            → StandsFor D.seen D.may_leave names.now set.now self.old entries
            → StandsFor D.seen D.may_leave names.now set.now self.new (entries ++ entry ∷ []) }
        // A crash at any moment of the call leaves a disk that is read as the entries before it, with this one or without.
        ensures any_moment { (entries : Many Noted) → IsLegal set.now (entries ++ entry ∷ []) → self.old.stopped ≡ false
            → StandsFor D.seen D.may_leave names.now set.now self.old entries → IsSome (D.seen self.old.disk)
            → LeavesOnly D.moment D.left_since self.old.disk self.new.disk (IsBeforeOrAfter names.now set.now entries entry) }
        ensures count { OnOk result (self.new.count ≡ self.old.count + 1) }
        ensures uncounted { OnErr result (self.new.count ≡ self.old.count) }
        ensures halts { StopsAtFault LogError.DiskFault LogError.Stopped result self.old self.new }
        ensures faults { TellsFaults D.seen D.faults LogError.DiskFault result self.old.disk self.new.disk }
    {
        found_as_read();
        lines_both_ways();
        legal_has_lines();
        counting();
        set.is_compiled();
        let body = body_in(&mut self.line, &mut self.numerals, names, &entry);
        match self.records.append(&body) {
            Ok(()) => Ok(()),
            Err(RecordFault::DiskFault) => Err(LogError::DiskFault),
            Err(RecordFault::Stopped) => Err(LogError::Stopped),
        }
    }

    /// Adds entries as one piece: their records' bodies in order, each with a closed gate behind it, by a call of the disk each;
    /// a sync; their gates in order, by a call each; a sync. After Ok each crash leaves a disk that is read with all of them.
    /// After `DiskFault` the log has stopped, and a crash leaves the entries before, with some of these in order. Of no entries
    /// nothing is done. It takes no memory.
    pub fn append_all(
        &mut self,
        names: &Names,
        set: &CompiledSet,
        entries: &[Entry],
    ) -> Result<(), LogError>
        requires names { AreNames names.now.items × AreNames names.now.txns }
        requires same { NamesSet names.now set.now }
        requires legal { GoesOn D.seen D.may_leave names.now set.now self.old entries.now }
        ensures stands { OnOk result ((before : Many Noted) → IsLegal set.now (before ++ entries.now)
            → StandsFor D.seen D.may_leave names.now set.now self.old before
            → StandsFor D.seen D.may_leave names.now set.now self.new (before ++ entries.now)) }
        // A crash at any moment of the call leaves a disk that is read as the entries before it, with some of these in order.
        ensures any_moment { (before : Many Noted) → IsLegal set.now (before ++ entries.now) → self.old.stopped ≡ false
            → StandsFor D.seen D.may_leave names.now set.now self.old before → IsSome (D.seen self.old.disk)
            → LeavesOnly D.moment D.left_since self.old.disk self.new.disk (HasSome names.now set.now before entries.now) }
        ensures goes { OnOk result (self.old.stopped ≡ false → self.new.stopped ≡ false) }
        ensures count { OnOk result (self.new.count ≡ self.old.count + length entries.now) }
        ensures none { entries.now ≡ [] → IsOk result × (self.new ≡ self.old) }
        ensures stops { IsErrOf result LogError.DiskFault → self.new.stopped ≡ true }
        ensures no_other { self.old.stopped ≡ false → OnErr result (IsErrOf result LogError.DiskFault) }
        ensures faults { TellsFaults D.seen D.faults LogError.DiskFault result self.old.disk self.new.disk }
    {
        found_as_read();
        lines_both_ways();
        legal_has_lines();
        counting();
        set.is_compiled();
        if entries.is_empty() {
            return Ok(());
        }
        self.stage_all(names, entries)?;
        self.open_all(entries.len() as u64)
    }

    // Writes the body of an entry's record behind so many others that were written so, and does not sync.
    fn stage_entry(&mut self, names: &Names, ahead: u64, entry: &Entry) -> Result<(), LogError>
        requires writable { IsWritable names.now entry.now }
        requires room { self.old.count + ahead < 2 ^ 48 }
        ensures staged { OnOk result ((bodies more : Many (Many ℕ)) → self.old.count ≡ length bodies → ahead ≡ length more → IsStaging (D.seen self.old.disk) (D.may_leave self.old.disk) bodies more
            → IsStaging (D.seen self.new.disk) (D.may_leave self.new.disk) bodies (more ++ body_of_text (entry_line names.now entry.now) ∷ [])) }
        ensures any_moment { (bodies : Many (Many ℕ)) → self.old.count ≡ length bodies → EachLeft (D.seen self.old.disk) (D.may_leave self.old.disk) (λ c. Reads c bodies) → IsSome (D.seen self.old.disk)
            → LeavesOnly D.moment D.left_since self.old.disk self.new.disk (λ c. Reads c bodies) }
        ensures fits { Fits names.now entry.now }
        ensures count { self.new.count ≡ self.old.count }
        ensures halts { StopsAtFault LogError.DiskFault LogError.Stopped result self.old self.new }
        ensures faults { TellsFaults D.seen D.faults LogError.DiskFault result self.old.disk self.new.disk }
    {
        let body = body_in(&mut self.line, &mut self.numerals, names, entry);
        match self.records.stage_next(ahead, &body) {
            Ok(()) => Ok(()),
            Err(RecordFault::DiskFault) => Err(LogError::DiskFault),
            Err(RecordFault::Stopped) => Err(LogError::Stopped),
        }
    }

    // Writes the bodies of entries' records behind the log's, and does not sync.
    fn stage_all(&mut self, names: &Names, entries: &[Entry]) -> Result<(), LogError>
        requires writable { All (IsWritable names.now) entries.now }
        requires room { self.old.count + length entries.now ≤ 2 ^ 48 }
        ensures staged { OnOk result ((bodies : Many (Many ℕ)) → self.old.count ≡ length bodies → IsStaging (D.seen self.old.disk) (D.may_leave self.old.disk) bodies []
            → IsStaging (D.seen self.new.disk) (D.may_leave self.new.disk) bodies (entry_bodies names.now entries.now)) }
        ensures any_moment { (bodies : Many (Many ℕ)) → self.old.count ≡ length bodies → IsStaging (D.seen self.old.disk) (D.may_leave self.old.disk) bodies [] → IsSome (D.seen self.old.disk)
            → LeavesOnly D.moment D.left_since self.old.disk self.new.disk (λ c. Reads c bodies) }
        ensures fit { OnOk result (AllByRecursion (Fits names.now) entries.now) }
        ensures count { self.new.count ≡ self.old.count }
        ensures same { OnOk result (self.new.stopped ≡ self.old.stopped) }
        ensures stops { IsErrOf result LogError.DiskFault → self.new.stopped ≡ true }
        ensures no_other { self.old.stopped ≡ false → OnErr result (IsErrOf result LogError.DiskFault) }
        ensures faults { TellsFaults D.seen D.faults LogError.DiskFault result self.old.disk self.new.disk }
    {
        for (i, entry) in entries.iter().enumerate() {
            self.stage_entry(names, i as u64, entry)?;
        }
        Ok(())
    }

    // Adds the n entries whose records' bodies were written behind the log's.
    fn open_all(&mut self, n: u64) -> Result<(), LogError>
        requires { self.old.count + n < 2 ^ 48 }
        ensures stands { OnOk result ((bodies more : Many (Many ℕ)) → self.old.count ≡ length bodies → n ≡ length more → IsStaging (D.seen self.old.disk) (D.may_leave self.old.disk) bodies more
            → Stands (D.seen self.new.disk) (D.may_leave self.new.disk) self.new.count self.new.stopped (bodies ++ more)) }
        ensures any_moment { (bodies more : Many (Many ℕ)) → self.old.count ≡ length bodies → n ≡ length more → IsStaging (D.seen self.old.disk) (D.may_leave self.old.disk) bodies more → IsSome (D.seen self.old.disk)
            → LeavesOnly D.moment D.left_since self.old.disk self.new.disk (HasFirst bodies more) }
        ensures count { OnOk result (self.new.count ≡ self.old.count + n) }
        ensures halts { StopsAtFault LogError.DiskFault LogError.Stopped result self.old self.new }
        ensures faults { TellsFaults D.seen D.faults LogError.DiskFault result self.old.disk self.new.disk }
    {
        match self.records.open_staged(n) {
            Ok(()) => Ok(()),
            Err(RecordFault::DiskFault) => Err(LogError::DiskFault),
            Err(RecordFault::Stopped) => Err(LogError::Stopped),
        }
    }

    /// What a crash now leaves: the entries that the log stands for, and where it has stopped maybe all of them but the last.
    pub fn after_crash(&self)
        ensures { (names : Noting) (set : Set) (entries : Many Noted) → AreNames names.items → AreNames names.txns
            → StandsFor D.seen D.may_leave names set self.now entries
            → EachLeft (D.seen self.now.disk) (D.may_leave self.now.disk) (IsLeft names set self.now.stopped entries) }
    {
        found_as_read();
        lines_both_ways();
    }

    /// How many entries were taken since there was none.
    pub fn len(&self) -> u64
        ensures { result + 1 ≡ self.now.count }
    {
        self.records.len() - 1
    }

    /// The disk, handed back.
    pub fn into_disk(self) -> D
        ensures { result ≡ self.disk }
    {
        self.records.into_disk()
    }
}

// The body of an entry's record, by way of its line.
fn body_in(line: &mut Vec<u8>, numerals: &mut Numerals, names: &Names, entry: &Entry) -> [u8; 255]
    requires writable { IsWritable names.now entry.now }
    requires room { 256 ≤ vec_capacity line.old }
    ensures body { result ≡ body_of_text (entry_line names.now entry.now) }
    ensures fits { Fits names.now entry.now }
    ensures room { 256 ≤ vec_capacity line.new }
{
    line.clear();
    write_entry(names, entry, numerals, line);
    let len = line.len() - 1;
    body_of(&line[..len])
}

// The entries, where they are a legal history that was read to its end.
fn judge(
    alloc: Global,
    set: &CompiledSet,
    entries: Vec<Entry>,
    stop: Stop,
    room: usize,
) -> Result<Vec<Entry>, LogError>
    ensures good { IfOk result (λ v. (v.items ≡ entries.items) × IsLegal set.now entries.items × IsEnd stop) }
    ensures bad { IfErr result (λ e. IsJudged set.now room stop entries.items e) }
    ensures full { (stop ≡ Stop.More → length entries.items ≡ room) → IfErr result (λ e. IfFull e (λ first. length first ≡ room)) }
{
    match last_items(alloc, set, &entries) {
        Err(ReplayError::NotLegal { index }) => {
            return Err(LogError::BadRecord {
                number: index as u64 + 1,
            });
        }
        Err(ReplayError::OutOfMemory) => return Err(LogError::OutOfMemory),
        Ok(_) => {}
    }
    match stop {
        Stop::Ended => Ok(entries),
        Stop::Unended => Ok(entries),
        Stop::Broken => Err(LogError::BadRecord {
            number: entries.len() as u64 + 1,
        }),
        Stop::More => Err(LogError::Full {
            room,
            first: List::of(entries),
        }),
    }
}

// Where reading ended at a gate that is missing, in the place of record k, writes it as a closed one.
fn close_end<D: Disk>(disk: &mut D, stop: Stop, k: u64) -> Result<(), Failed>
    requires { k < 2 ^ 48 }
    ensures told { IsSome (D.seen disk.old) ↔ IsSome (D.seen disk.new) }
    ensures closed { stop ≡ Stop.Unended → OnOk result (ClosesAt (D.seen disk.old) (D.seen disk.new) (D.may_leave disk.new) k) }
    ensures same { (stop ≡ Stop.Unended → ⊥) → IsOk result × (disk.new ≡ disk.old) }
    ensures within { WritesWithin D.seen D.may_leave D.moment D.left_since (256 * k) 1 disk.old disk.new }
    ensures cause { HasCause (D.faults disk.old) (D.faults disk.new) result }
{
    match stop {
        Stop::Unended => {
            disk.write_at(WIDTH as u64 * k, &[0])?;
            disk.sync()
        }
        _ => Ok(()),
    }
}
