//! A history, and how it comes to a disk.
ghost use Rattle.std.specs.Prelude.{◌≡◌, ◌++◌, [], IfOk, IfSome, IsTrue, OnOk};
ghost use Rattle.step_journal.specs.History.{IsLegal};
ghost use Rattle.durable_journal.specs.Log.{StandsFor};
ghost use Rattle.durable_tests.specs.History.{IsHistory};
ghost use Rattle.report_text.specs.Texts.{NamesSet};
ghost use Rattle.rt_base.specs.Names.{AreNames};

use durable_disk::{Disk, MemDisk};
use durable_journal::{Log, LogError};
use journal_text::read_entry;
use line_fields::cut;
use name_table::NameTables;
use report_text::read_head;
use rt_base::{Names, OutOfMemory};
use run_report::compile_head;
use serial_replay::replay;
use std::alloc::Global;
use std::test::Fail;
use step_journal::Entry;
use txn_set::CompiledSet;

/// The declarations of a scenario, and the first entries of its run.
pub const RUN: &str = "rtdb report 1
item temp sensor 20 0
item valve state - 0
txn sample 3 10 0 10 2 reads - writes temp
txn control 2 20 0 20 4 reads temp writes valve
txn logger 1 40 0 40 6 reads temp,valve writes -
mode trial
plan sample 0
plan sample 10
plan sample 20
plan sample 30
plan control 0
plan control 20
plan logger 0
step sample/0 0 write temp 5
step sample/0 1 commit end committed
step control/0 2 read temp 5 0
";

/// Names, a set of them, and entries.
#[derive(Drop)]
pub struct History {
    pub names: Names,
    pub set: CompiledSet,
    pub entries: Vec<Entry>,
}

// The first entries among the lines of a report.
fn entries_in(
    alloc: Global,
    names: &NameTables,
    text: &str,
    most: usize,
) -> Result<Vec<Entry>, Fail> {
    let mut entries = Vec::new(alloc);
    let mut rest = text.as_bytes();
    for _ in 0..100 {
        let Some((line, more)) = cut(b'\n', rest) else {
            return Ok(entries);
        };
        if let Some(entry) = read_entry(names, line) {
            if entries.len() < most {
                entries.push(entry)?;
            }
        }
        rest = more;
    }
    Ok(entries)
}

// At most so many of the entries among the lines of a report, which are a history of the set.
fn legal_entries(
    alloc: Global,
    names: &NameTables,
    set: &CompiledSet,
    text: &str,
    most: usize,
) -> Result<Vec<Entry>, Fail>
    ensures { IfOk result (λ es. IsLegal set.now es.items) }
{
    let entries = entries_in(alloc, names, text, most)?;
    match replay(alloc, set, &entries) {
        Ok(replayed) => {
            drop(replayed);
            Ok(entries)
        }
        Err(_) => {
            drop(entries);
            Err("entries".into())
        }
    }
}

// The history of these names and this set, with at most so many of the entries of a text.
fn history_with(
    alloc: Global,
    names: NameTables,
    set: CompiledSet,
    text: &str,
    most: usize,
) -> Result<History, Fail>
    requires names { AreNames names.items × AreNames names.txns }
    requires same { NamesSet names set }
    ensures { IfOk result (λ g. IsHistory g.names g.set g.entries.items) }
{
    match legal_entries(alloc, &names, &set, text, most) {
        Ok(entries) => Ok(History {
            names: names.into_names(),
            set,
            entries,
        }),
        Err(fail) => {
            drop(names);
            drop(set);
            Err(fail)
        }
    }
}

/// What a text declares, and at most so many of its entries.
pub fn history_of(alloc: Global, text: &str, most: usize) -> Result<History, Fail>
    ensures { IfOk result (λ g. IsHistory g.names g.set g.entries.items) }
{
    if text.len() >= 1 << 32 {
        return Err("long".into());
    }
    let Ok(head) = read_head(alloc, text.as_bytes()) else {
        return Err("head".into());
    };
    match compile_head(alloc, head) {
        Ok((names, set)) => history_with(alloc, names, set, text, most),
        Err(_) => Err("set".into()),
    }
}

/// What a run of a journal came to: its disk, how many entries it found and has at its end, and why it stopped.
#[derive(Drop)]
pub struct Ran {
    pub disk: MemDisk,
    pub found: usize,
    pub taken: u64,
    pub error: Option<LogError>,
}

// The history that goes on with these, where it is one.
fn longer(
    alloc: Global,
    set: &CompiledSet,
    found: &[Entry],
    rest: &[Entry],
) -> Result<(), OutOfMemory>
    ensures { OnOk result (IsLegal set.now (found.now ++ rest.now)) }
{
    let mut all = found.to_vec(alloc)?;
    all.extend_from_slice(rest)?;
    match replay(alloc, set, &all) {
        Ok(replayed) => {
            drop(replayed);
            Ok(())
        }
        Err(_) => Err(OutOfMemory),
    }
}

/// How entries are handed to a log: each by an `append`, or all as one piece.
#[derive(Clone, Copy)]
pub enum Handed {
    Each,
    Piece,
}

// Adds entries, each by an append, up to the first that is not taken.
fn append_each<D: Disk>(
    log: &mut Log<D>,
    names: &Names,
    set: &CompiledSet,
    found: &[Entry],
    rest: &[Entry],
) -> Result<(), LogError>
    requires names { AreNames names.now.items × AreNames names.now.txns }
    requires same { NamesSet names.now set.now }
    requires legal { IsLegal set.now (found.now ++ rest.now) }
    requires stands { StandsFor D.seen D.may_leave names.now set.now log.old found.now }
{
    for entry in rest {
        log.append(names, set, *entry)?;
    }
    Ok(())
}

// Adds entries behind those that were found.
fn add<D: Disk>(
    log: &mut Log<D>,
    history: &History,
    found: &[Entry],
    rest: &[Entry],
    handed: Handed,
) -> Result<(), LogError>
    requires history { IsHistory history.now.names history.now.set history.now.entries.items }
    requires legal { IsLegal history.now.set (found.now ++ rest.now) }
    requires stands { StandsFor D.seen D.may_leave history.now.names history.now.set log.old found.now }
{
    match handed {
        Handed::Each => append_each(log, &history.names, &history.set, found, rest),
        Handed::Piece => log.append_all(&history.names, &history.set, rest),
    }
}

// Adds the entries behind as many as were found.
fn add_rest<D: Disk>(
    alloc: Global,
    history: &History,
    log: Log<D>,
    found: &[Entry],
    handed: Handed,
) -> (D, usize, u64, Option<LogError>)
    requires history { IsHistory history.now.names history.now.set history.now.entries.items }
    requires found { StandsFor D.seen D.may_leave history.now.names history.now.set log found.now }
{
    let mut log = log;
    let known = found.len().min(history.entries.len());
    let rest = &history.entries[known..];
    let error = match longer(alloc, &history.set, found, rest) {
        Ok(()) => add(&mut log, history, found, rest, handed).err(),
        Err(_) => Some(LogError::OutOfMemory),
    };
    let taken = log.len();
    (log.into_disk(), found.len(), taken, error)
}

// Takes up the journal on a disk, or makes it on a new one, and adds the entries that are not there yet.
fn run_on<D: Disk>(
    alloc: Global,
    history: &History,
    disk: D,
    is_new: bool,
    handed: Handed,
) -> (D, usize, u64, Option<LogError>)
    requires history { IsHistory history.now.names history.now.set history.now.entries.items }
    requires new { IsTrue is_new → IfSome (D.seen disk) (λ file. file ≡ []) }
{
    if is_new {
        return match Log::create(alloc, disk) {
            Ok(log) => add_rest(alloc, history, log, &[], handed),
            Err((disk, error)) => (disk, 0, 0, Some(error)),
        };
    }
    let room = history.entries.len();
    match Log::open(alloc, disk, &history.names, &history.set, room) {
        Ok((log, found)) => add_rest(alloc, history, log, &found, handed),
        Err((disk, error)) => (disk, 0, 0, Some(error)),
    }
}

/// A run of the journal on a disk.
pub fn run(alloc: Global, history: &History, disk: MemDisk, handed: Handed) -> Ran
    requires { IsHistory history.now.names history.now.set history.now.entries.items }
{
    let is_new = disk.bytes().is_empty();
    let (disk, found, taken, error) = run_on(alloc, history, disk, is_new, handed);
    Ran {
        disk,
        found,
        taken,
        error,
    }
}

/// A disk with room for so many bytes and calls, some of which fail.
pub fn disk(alloc: Global, room: usize, calls: usize, failing: &[u64]) -> Result<MemDisk, Fail> {
    let failing = failing.to_vec(alloc)?;
    match MemDisk::new(alloc, room, calls, failing) {
        Ok(disk) => Ok(disk),
        Err(_) => Err("memory".into()),
    }
}

/// The bytes of a journal of these lines: for each an open gate, its length, its text and zeros, and a closed gate.
pub fn bytes_of(alloc: Global, lines: &[&str]) -> Result<Vec<u8>, Fail> {
    let mut bytes = Vec::new(alloc);
    for line in lines {
        let text = line.as_bytes();
        let mut record = [0; 256];
        if text.len() > 254 {
            return Err("long".into());
        }
        record[0] = 1;
        record[1] = text.len() as u8;
        record[2..2 + text.len()].copy_from_slice(text);
        bytes.extend_from_slice(&record)?;
    }
    bytes.push(0)?;
    Ok(bytes)
}

/// The texts of the records of the first five entries, the header's first.
pub const LINES: [&str; 6] = [
    "rtdb journal 1",
    "plan sample 0",
    "plan sample 10",
    "plan sample 20",
    "plan sample 30",
    "plan control 0",
];

/// Whether a call of the disk failed.
pub fn is_fault(error: &Option<LogError>) -> bool {
    matches!(error, Some(LogError::DiskFault))
}

/// Whether the journal has all five entries, and its disk these bytes.
pub fn is_whole(ran: &Ran, bytes: &[u8]) -> bool {
    ran.error.is_none() && ran.taken == 5 && ran.disk.bytes() == bytes
}
