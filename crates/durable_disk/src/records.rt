//! A log of records. A record's gate stands closed on the disk before anything is written behind it, and is opened by a
//! write of its own.
ghost use Rattle.std.specs.Prelude.{◌≡◌, ℕ, ◌+◌, ◌*◌, ◌<◌, ◌≤◌, ◌^◌, ◌++◌, ◌↔◌, [], ◌∷◌, List, Some, length, false, IfOk, IfErr, IfSome, IsSome, IsTrue, OnErr, OnOk};
ghost use Rattle.io_edge.specs.Causes.{Rose, HasCause};
ghost use Rattle.durable_disk.specs.Device.{Elapses, LeavesOnly, NoMore, WritesWithin};
ghost use Rattle.durable_disk.specs.Records.{HasBodies, HasFirst, IsBeforeOrAfter, Reads, slot_at, slot_of};
ghost use Rattle.durable_disk.specs.Standing.{EachLeft, IsOkOrFault, IsSettled, IsStaged, IsStaging, Stands, StopsAtFault, TellsFaults};
ghost use Rattle.durable_disk.specs.Found.{Finds};

use crate::device::Disk;
use io_edge::Failed;
use std::marker::Model;

/// The bytes of a record with its gate.
pub const WIDTH: usize = 256;

/// The bytes of a record without its gate.
pub const BODY: usize = 255;

const OPEN: u8 = 1;

const CLOSED: u8 = 0;

/// Why a record was not appended.
#[derive(Clone, Copy, Debug, PartialEq, Eq)]
pub enum RecordFault {
    /// A call of the disk failed, and was counted. The log has stopped.
    DiskFault,
    /// The log has stopped before.
    Stopped,
}

/// A log of records on a disk. Contracts see its disk, the number of its records, and whether it has stopped.
#[derive(Drop)]
pub struct Records<D: Disk> {
    disk: D,
    count: u64,
    stopped: bool,
}

impl<D: Disk> Model for Records<D> {
    ghost use Rattle.std.specs.Prelude.{◌-◌, ◌^◌, ◌≤◌};
    ghost use Rattle.durable_disk.specs.Standing.{RecordsSeen};

    ghost Value = { RecordsSeen D };

    ghost view = { λ s. record { disk = s.disk; count = s.count; stopped = s.stopped } };

    ghost invariant = { λ s. s.count ≤ 2 ^ 64 - 1 };
}

// A record's bytes, and a closed gate behind them.
fn before_gate(body: &[u8; BODY]) -> [u8; WIDTH]
    ensures { result ≡ body.now ++ 0 ∷ [] }
{
    let mut bytes = [CLOSED; WIDTH];
    bytes[..BODY].copy_from_slice(body);
    bytes
}

// Writes the body of record k, and behind it a closed gate, to the disk.
fn stage<D: Disk>(disk: &mut D, k: u64, body: &[u8; BODY]) -> Result<(), Failed>
    requires { k < 2 ^ 48 }
    ensures staged { OnOk result ((bodies : List (List ℕ)) → k ≡ length bodies → IsSettled (D.seen disk.old) (D.may_leave disk.old) bodies → IsStaged (D.seen disk.new) (D.may_leave disk.new) bodies body.now) }
    ensures any_moment { (bodies : List (List ℕ)) → k ≡ length bodies → IsSettled (D.seen disk.old) (D.may_leave disk.old) bodies → IsSome (D.seen disk.old)
        → LeavesOnly D.moment D.left_since disk.old disk.new (λ c. Reads c bodies) }
    ensures now { (bodies : List (List ℕ)) → k ≡ length bodies → IsSettled (D.seen disk.old) (D.may_leave disk.old) bodies → EachLeft (D.seen disk.new) (D.may_leave disk.new) (λ c. Reads c bodies) }
    ensures told { IsSome (D.seen disk.old) ↔ IsSome (D.seen disk.new) }
    ensures cause { HasCause (D.faults disk.old) (D.faults disk.new) result }
    ensures within { WritesWithin D.seen D.may_leave D.moment D.left_since (256 * k + 1) 256 disk.old disk.new }
{
    let bytes = before_gate(body);
    disk.write_at(WIDTH as u64 * k + 1, &bytes)?;
    disk.sync()
}

// Opens the gate of record k.
fn open_gate<D: Disk>(disk: &mut D, k: u64) -> Result<(), Failed>
    requires { k < 2 ^ 48 }
    ensures settled { OnOk result ((bodies : List (List ℕ)) (body : List ℕ) → k ≡ length bodies → IsStaged (D.seen disk.old) (D.may_leave disk.old) bodies body → IsSettled (D.seen disk.new) (D.may_leave disk.new) (bodies ++ body ∷ [])) }
    ensures any_moment { (bodies : List (List ℕ)) (body : List ℕ) → k ≡ length bodies → IsStaged (D.seen disk.old) (D.may_leave disk.old) bodies body → IsSome (D.seen disk.old)
        → LeavesOnly D.moment D.left_since disk.old disk.new (IsBeforeOrAfter bodies body) }
    ensures now { (bodies : List (List ℕ)) (body : List ℕ) → k ≡ length bodies → IsStaged (D.seen disk.old) (D.may_leave disk.old) bodies body → EachLeft (D.seen disk.new) (D.may_leave disk.new) (IsBeforeOrAfter bodies body) }
    ensures told { IsSome (D.seen disk.old) ↔ IsSome (D.seen disk.new) }
    ensures cause { HasCause (D.faults disk.old) (D.faults disk.new) result }
    ensures within { WritesWithin D.seen D.may_leave D.moment D.left_since (256 * k) 1 disk.old disk.new }
{
    disk.write_at(WIDTH as u64 * k, &[OPEN])?;
    disk.sync()
}

// Writes the body of record k, and behind it a closed gate, and does not sync.
fn put_body<D: Disk>(disk: &mut D, k: u64, body: &[u8; BODY]) -> Result<(), Failed>
    requires { k < 2 ^ 48 }
    ensures put { (all : List (List ℕ)) (opened : ℕ) → k ≡ length all → opened ≤ k → IfSome (D.seen disk.old) (λ file. HasBodies file all opened)
        → OnOk result (IfSome (D.seen disk.new) (λ file. HasBodies file (all ++ body.now ∷ []) opened)) }
    ensures any_moment { (bodies : List (List ℕ)) → length bodies ≤ k → EachLeft (D.seen disk.old) (D.may_leave disk.old) (λ c. Reads c bodies) → IsSome (D.seen disk.old)
        → LeavesOnly D.moment D.left_since disk.old disk.new (λ c. Reads c bodies) }
    ensures now { (bodies : List (List ℕ)) → length bodies ≤ k → EachLeft (D.seen disk.old) (D.may_leave disk.old) (λ c. Reads c bodies) → EachLeft (D.seen disk.new) (D.may_leave disk.new) (λ c. Reads c bodies) }
    ensures told { IsSome (D.seen disk.old) ↔ IsSome (D.seen disk.new) }
    ensures cause { HasCause (D.faults disk.old) (D.faults disk.new) result }
{
    let record = before_gate(body);
    disk.write_at(WIDTH as u64 * k + 1, &record)
}

// Writes the open gates of n records from record k on, in order, and does not sync.
fn write_gates<D: Disk>(disk: &mut D, k: u64, n: u64) -> Result<(), Failed>
    requires { k + n < 2 ^ 48 }
    ensures opened { OnOk result ((all : List (List ℕ)) → k + n ≡ length all → IfSome (D.seen disk.old) (λ file. HasBodies file all k) → IfSome (D.seen disk.new) (λ file. HasBodies file all (k + n))) }
    ensures any_moment { (all : List (List ℕ)) → k + n ≡ length all → EachLeft (D.seen disk.old) (D.may_leave disk.old) (λ c. HasBodies c all k) → IsSome (D.seen disk.old)
        → LeavesOnly D.moment D.left_since disk.old disk.new (λ c. HasBodies c all k) }
    ensures now { (all : List (List ℕ)) → k + n ≡ length all → EachLeft (D.seen disk.old) (D.may_leave disk.old) (λ c. HasBodies c all k) → EachLeft (D.seen disk.new) (D.may_leave disk.new) (λ c. HasBodies c all k) }
    ensures told { IsSome (D.seen disk.old) ↔ IsSome (D.seen disk.new) }
    ensures cause { HasCause (D.faults disk.old) (D.faults disk.new) result }
{
    for i in 0..n {
        disk.write_at(WIDTH as u64 * (k + i), &[OPEN])?;
    }
    Ok(())
}

// Makes durable the bodies of n records from record k on, which were written, and then their open gates.
fn open_gates<D: Disk>(disk: &mut D, k: u64, n: u64) -> Result<(), Failed>
    requires { k + n < 2 ^ 48 }
    ensures settled { OnOk result ((bodies more : List (List ℕ)) → k ≡ length bodies → n ≡ length more → IsStaging (D.seen disk.old) (D.may_leave disk.old) bodies more
        → IsSettled (D.seen disk.new) (D.may_leave disk.new) (bodies ++ more)) }
    ensures any_moment { (bodies more : List (List ℕ)) → k ≡ length bodies → n ≡ length more → IsStaging (D.seen disk.old) (D.may_leave disk.old) bodies more → IsSome (D.seen disk.old)
        → LeavesOnly D.moment D.left_since disk.old disk.new (HasFirst bodies more) }
    ensures told { IsSome (D.seen disk.old) ↔ IsSome (D.seen disk.new) }
    ensures cause { HasCause (D.faults disk.old) (D.faults disk.new) result }
{
    disk.sync()?;
    write_gates(disk, k, n)?;
    disk.sync()
}

// Writes a closed gate at the front, so that the disk has no record.
fn blank<D: Disk>(disk: &mut D) -> Result<(), Failed>
    ensures settled { OnOk result (IsSettled (D.seen disk.new) (D.may_leave disk.new) []) }
    ensures within { WritesWithin D.seen D.may_leave D.moment D.left_since 0 1 disk.old disk.new }
    ensures told { IsSome (D.seen disk.old) ↔ IsSome (D.seen disk.new) }
    ensures cause { HasCause (D.faults disk.old) (D.faults disk.new) result }
{
    disk.write_at(0, &[CLOSED])?;
    disk.sync()
}

impl<D: Disk> Records<D> {
    /// The log of the first so many records that a disk has.
    pub fn over(disk: D, count: u64) -> Records<D>
        ensures { result ≡ record { disk = disk; count = count; stopped = false } }
    {
        Records {
            disk,
            count,
            stopped: false,
        }
    }

    /// How many records it has.
    pub fn len(&self) -> u64
        ensures { result ≡ self.now.count }
    {
        self.count
    }

    /// The disk, handed back.
    pub fn into_disk(self) -> D
        ensures { result ≡ self.disk }
    {
        self.disk
    }

    /// Makes a log of one record, whatever the disk had. After an error the disk is handed back, and may hold anything in
    /// the places of the first two gates and of the record.
    pub fn create(disk: D, body: &[u8; BODY]) -> Result<Records<D>, D>
        ensures stands { IfOk result (λ log. Stands (D.seen log.disk) (D.may_leave log.disk) log.count log.stopped (body.now ∷ [])) }
        ensures goes { IfOk result (λ log. log.stopped ≡ false) }
        ensures count { IfOk result (λ log. log.count ≡ 1) }
        ensures told { IfOk result (λ log. IsSome (D.seen disk) ↔ IsSome (D.seen log.disk)) }
        // Nothing is written but the two gates and the record, at each moment of the call.
        ensures within { IfOk result (λ log. WritesWithin D.seen D.may_leave D.moment D.left_since 0 257 disk log.disk) }
        ensures within_err { IfErr result (λ back. WritesWithin D.seen D.may_leave D.moment D.left_since 0 257 disk back) }
        ensures later { IfOk result (λ log. D.faults disk ≤ D.faults log.disk) }
        ensures cause { IfErr result (λ back. Rose (D.faults disk) (D.faults back)) }
    {
        let mut log = Records {
            disk,
            count: 0,
            stopped: false,
        };
        let Ok(()) = blank(&mut log.disk) else {
            return Err(log.disk);
        };
        let Ok(()) = log.append(body) else {
            return Err(log.disk);
        };
        Ok(log)
    }

    /// Adds a record, by four calls of the disk. After Ok each crash leaves a disk that has it. After `DiskFault` the log
    /// has stopped: a crash leaves the records before, with this one or without, and no further record is taken.
    pub fn append(&mut self, body: &[u8; BODY]) -> Result<(), RecordFault>
        requires { self.old.count < 2 ^ 48 }
        ensures stands { IsOkOrFault result → (bodies : List (List ℕ)) → Stands (D.seen self.old.disk) (D.may_leave self.old.disk) self.old.count self.old.stopped bodies
            → Stands (D.seen self.new.disk) (D.may_leave self.new.disk) self.new.count self.new.stopped (bodies ++ body.now ∷ []) }
        // A crash at any moment of the call leaves the records from before it, with the new one or without.
        ensures any_moment { (bodies : List (List ℕ)) → self.old.stopped ≡ false → Stands (D.seen self.old.disk) (D.may_leave self.old.disk) self.old.count self.old.stopped bodies
            → IsSome (D.seen self.old.disk) → LeavesOnly D.moment D.left_since self.old.disk self.new.disk (IsBeforeOrAfter bodies body.now) }
        // Nothing is written but the record with its gate and the gate behind it, at each moment of the call.
        ensures within { WritesWithin D.seen D.may_leave D.moment D.left_since (256 * self.old.count) 257 self.old.disk self.new.disk }
        ensures count { OnOk result (self.new.count ≡ self.old.count + 1) }
        ensures same { OnErr result (self.new.count ≡ self.old.count) }
        ensures halts { StopsAtFault RecordFault.DiskFault RecordFault.Stopped result self.old self.new }
        ensures faults { TellsFaults D.seen D.faults RecordFault.DiskFault result self.old.disk self.new.disk }
    {
        if self.stopped {
            return Err(RecordFault::Stopped);
        }
        let Ok(()) = stage(&mut self.disk, self.count, body) else {
            self.stopped = true;
            return Err(RecordFault::DiskFault);
        };
        let Ok(()) = open_gate(&mut self.disk, self.count) else {
            self.stopped = true;
            return Err(RecordFault::DiskFault);
        };
        self.count += 1;
        Ok(())
    }

    /// Writes the body of a record behind those that were staged before it, which are `ahead`, and behind it a closed gate, by
    /// one call of the disk. It does not sync, and the record is none of the log's before `open_staged`: a crash leaves the
    /// log's records. After `DiskFault` the log has stopped.
    pub fn stage_next(&mut self, ahead: u64, body: &[u8; BODY]) -> Result<(), RecordFault>
        requires { self.old.count + ahead < 2 ^ 48 }
        ensures staged { OnOk result ((bodies more : List (List ℕ)) → self.old.count ≡ length bodies → ahead ≡ length more → IsStaging (D.seen self.old.disk) (D.may_leave self.old.disk) bodies more
            → IsStaging (D.seen self.new.disk) (D.may_leave self.new.disk) bodies (more ++ body.now ∷ [])) }
        // A crash at any moment of the call leaves the log's records.
        ensures any_moment { (bodies : List (List ℕ)) → self.old.count ≡ length bodies → EachLeft (D.seen self.old.disk) (D.may_leave self.old.disk) (λ c. Reads c bodies) → IsSome (D.seen self.old.disk)
            → LeavesOnly D.moment D.left_since self.old.disk self.new.disk (λ c. Reads c bodies) }
        ensures count { self.new.count ≡ self.old.count }
        ensures halts { StopsAtFault RecordFault.DiskFault RecordFault.Stopped result self.old self.new }
        ensures faults { TellsFaults D.seen D.faults RecordFault.DiskFault result self.old.disk self.new.disk }
    {
        if self.stopped {
            return Err(RecordFault::Stopped);
        }
        let Ok(()) = put_body(&mut self.disk, self.count + ahead, body) else {
            self.stopped = true;
            return Err(RecordFault::DiskFault);
        };
        Ok(())
    }

    /// Adds the n records that were staged: a sync, the gates in order, by a call of the disk each, and a sync. After Ok each
    /// crash leaves a disk that has them. After `DiskFault` the log has stopped.
    pub fn open_staged(&mut self, n: u64) -> Result<(), RecordFault>
        requires { self.old.count + n < 2 ^ 48 }
        ensures stands { OnOk result ((bodies more : List (List ℕ)) → self.old.count ≡ length bodies → n ≡ length more → IsStaging (D.seen self.old.disk) (D.may_leave self.old.disk) bodies more
            → Stands (D.seen self.new.disk) (D.may_leave self.new.disk) self.new.count self.new.stopped (bodies ++ more)) }
        // A crash at any moment of the call leaves the log's records, and the first of those that were staged, in order.
        ensures any_moment { (bodies more : List (List ℕ)) → self.old.count ≡ length bodies → n ≡ length more → IsStaging (D.seen self.old.disk) (D.may_leave self.old.disk) bodies more → IsSome (D.seen self.old.disk)
            → LeavesOnly D.moment D.left_since self.old.disk self.new.disk (HasFirst bodies more) }
        ensures count { OnOk result (self.new.count ≡ self.old.count + n) }
        ensures same { OnErr result (self.new.count ≡ self.old.count) }
        ensures halts { StopsAtFault RecordFault.DiskFault RecordFault.Stopped result self.old self.new }
        ensures faults { TellsFaults D.seen D.faults RecordFault.DiskFault result self.old.disk self.new.disk }
    {
        if self.stopped {
            return Err(RecordFault::Stopped);
        }
        let Ok(()) = open_gates(&mut self.disk, self.count, n) else {
            self.stopped = true;
            return Err(RecordFault::DiskFault);
        };
        self.count += n;
        Ok(())
    }
}

/// What stands in a record's place.
#[derive(Clone, Copy, Debug, PartialEq, Eq)]
pub enum Slot {
    /// No byte, so a closed gate that is missing.
    Missing,
    /// A closed gate.
    Closed,
    /// An open gate, and too few bytes behind it.
    Short,
    /// A record.
    Whole,
}

fn found_in(bytes: &[u8]) -> Slot
    ensures found { Finds result bytes.now (slot_of bytes.now) }
    ensures short { length bytes.now < 256 → result ≡ Slot.Whole → ⊥ }
{
    match bytes {
        [] => Slot::Missing,
        [OPEN, body @ ..] if body.len() == BODY => Slot::Whole,
        [OPEN, ..] => Slot::Short,
        _ => Slot::Closed,
    }
}

/// Reads what stands in the place of record k into the bytes: of a whole one its gate and its body.
pub fn read_slot<D: Disk>(disk: &mut D, k: u64, into: &mut [u8; WIDTH]) -> Result<Slot, Failed>
    requires { k < 2 ^ 48 }
    ensures found { IfOk result (λ slot. IfSome (D.seen disk.old) (λ file. Finds slot into.new (slot_at k file))) }
    ensures seen { D.seen disk.new ≡ D.seen disk.old }
    ensures crash { NoMore (D.may_leave disk.old) (D.may_leave disk.new) }
    ensures time { Elapses (D.moment disk.old) (D.moment disk.new) (D.left_since disk.old) (D.left_since disk.new) (D.may_leave disk.new) }
    ensures cause { HasCause (D.faults disk.old) (D.faults disk.new) result }
{
    let count = disk.read_at(WIDTH as u64 * k, into)?;
    if count < WIDTH {
        Ok(found_in(&into[..count]))
    } else {
        Ok(found_in(into))
    }
}
