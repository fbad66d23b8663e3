//! The log of a file, made or opened.
ghost use Rattle.std.specs.Prelude.{◌≡◌, ℕ, ◌+◌, ◌<◌, ◌≤◌, ◌^◌, [], List as Many, length, IfOk, IfErr};
ghost use Rattle.rt_base.specs.Names.{AreNames};
ghost use Rattle.rt_base.specs.declared.name.Names.{Names as Named};
ghost use Rattle.txn_set.specs.Set.{Set};
ghost use Rattle.report_text.specs.Texts.{NamesSet};
ghost use Rattle.durable_journal.specs.Log.{IsMemoryOrFault};
ghost use Rattle.durable_journal.specs.Opened.{IsOpened, IsRefused};
ghost use Rattle.c_stations.specs.Kept.{Holds};
ghost use Rattle.c_stations.specs.Opening.{AreFoundIn, Declares, IsOpenedBy, WhyNotOpened, WhyUnread};

use crate::device::{Based, CallDisk};
use crate::queue::Queue;
use crate::refused::LogRefused;
use durable_journal::{Log, LogError};
use name_table::NameTables;
use report_text::{HeadError, read_head};
use rt_base::Names;
use run_report::compile_head;
use std::alloc::Global;
use std::marker::Brand;
use step_journal::Entry;
use txn_set::CompiledSet;

/// A log on a file: the calls that are to be made on it, how many records it has then, and the entries that were found.
#[derive(Drop)]
pub(crate) struct Found {
    pub(crate) queue: Queue,
    pub(crate) count: u64,
    pub(crate) entries: Vec<Entry>,
}

// How a log's error is told.
fn refused_by(error: LogError) -> LogRefused
    ensures read { (names : Named) (set : Set) (room : ℕ) (bytes : Many ℕ) → (bytes ≡ [] → ⊥) → IsRefused names set room bytes error → WhyUnread names set room bytes result }
    ensures made { (before now : ℕ) → IsMemoryOrFault before now error → result ≡ LogRefused.OutOfMemory }
{
    match error {
        LogError::BadRecord { number } => LogRefused::BadRecord { number },
        LogError::Full { room: _, first: _ } => LogRefused::Full,
        LogError::DiskFault => LogRefused::OutOfMemory,
        LogError::Stopped => LogRefused::OutOfMemory,
        LogError::OutOfMemory => LogRefused::OutOfMemory,
    }
}

// A new log on an empty file.
fn created_on<T: Based>(alloc: Global, queue: Queue) -> Result<Found, LogRefused>
    requires base { (queue ≡ record { base = T.base; calls = [] }) × (T.base ≡ []) }
    ensures base { IfOk result (λ f. f.queue.base ≡ T.base) }
    ensures found { IfOk result (λ f. f.entries.items ≡ []) }
    ensures holds { IfOk result (λ f. (names : Named) (set : Set) → Holds names set f.queue f.count []) }
    ensures count { IfOk result (λ f. f.count ≡ 1) }
    ensures refused { IfErr result (λ e. e ≡ LogRefused.OutOfMemory) }
{
    let disk: CallDisk<T> = CallDisk::over(queue);
    match Log::create(alloc, disk) {
        Ok(log) => {
            let count = log.len() + 1;
            Ok(Found {
                queue: log.into_disk().into_queue(),
                count,
                entries: Vec::new(alloc),
            })
        }
        Err((disk, error)) => {
            drop(disk);
            Err(refused_by(error))
        }
    }
}

// The log of a file of these bytes, which are some.
fn opened_on<T: Based>(
    alloc: Global,
    queue: Queue,
    names: &Names,
    set: &CompiledSet,
    room: usize,
) -> Result<Found, LogRefused>
    requires base { queue ≡ record { base = T.base; calls = [] } }
    requires some { T.base ≡ [] → ⊥ }
    requires names { AreNames names.now.items × AreNames names.now.txns }
    requires same { NamesSet names.now set.now }
    ensures base { IfOk result (λ f. f.queue.base ≡ T.base) }
    ensures found { IfOk result (λ f. IsOpened names.now set.now room T.base f.entries.items) }
    ensures holds { IfOk result (λ f. Holds names.now set.now f.queue f.count f.entries.items) }
    ensures count { IfOk result (λ f. f.count ≡ length f.entries.items + 1) }
    ensures refused { IfErr result (WhyUnread names.now set.now room T.base) }
{
    let disk: CallDisk<T> = CallDisk::over(queue);
    match Log::open(alloc, disk, names, set, room) {
        Ok((log, entries)) => {
            let count = log.len() + 1;
            Ok(Found {
                queue: log.into_disk().into_queue(),
                count,
                entries,
            })
        }
        Err((disk, error)) => {
            drop(disk);
            Err(refused_by(error))
        }
    }
}

// The calls that make a new file, which holds no entries yet.
fn created(alloc: Global, queue: Queue) -> Result<Found, LogRefused>
    requires { queue ≡ record { base = []; calls = [] } }
    ensures base { IfOk result (λ f. f.queue.base ≡ []) }
    ensures found { IfOk result (λ f. f.entries.items ≡ []) }
    ensures holds { IfOk result (λ f. (names : Named) (set : Set) → Holds names set f.queue f.count []) }
    ensures count { IfOk result (λ f. f.count ≡ 1) }
    ensures refused { IfErr result (λ e. e ≡ LogRefused.OutOfMemory) }
{
    created_on::<Brand>(alloc, queue)
}

fn opened(
    alloc: Global,
    queue: Queue,
    names: &Names,
    set: &CompiledSet,
    room: usize,
) -> Result<Found, LogRefused>
    requires base { queue.calls ≡ [] }
    requires some { queue.base ≡ [] → ⊥ }
    requires names { AreNames names.now.items × AreNames names.now.txns }
    requires same { NamesSet names.now set.now }
    ensures base { IfOk result (λ f. f.queue.base ≡ queue.base) }
    ensures found { IfOk result (λ f. IsOpened names.now set.now room queue.base f.entries.items) }
    ensures holds { IfOk result (λ f. Holds names.now set.now f.queue f.count f.entries.items) }
    ensures count { IfOk result (λ f. f.count ≡ length f.entries.items + 1) }
    ensures refused { IfErr result (WhyUnread names.now set.now room queue.base) }
{
    opened_on::<Brand>(alloc, queue, names, set, room)
}

// The most entries that a log has room for.
const MOST_ROOM: usize = 1 << 20;

// The calls of the longest piece, of 64 entries: two writes for each, and two syncs.
const PLACES: usize = 130;

// The log of a file of these bytes, made where there are none.
fn found_in(
    alloc: Global,
    bytes: &[u8],
    names: &Names,
    set: &CompiledSet,
    room: usize,
) -> Result<Found, LogRefused>
    requires room { room ≤ 2 ^ 20 }
    requires names { AreNames names.now.items × AreNames names.now.txns }
    requires same { NamesSet names.now set.now }
    ensures base { IfOk result (λ f. f.queue.base ≡ bytes.now) }
    ensures found { IfOk result (λ f. AreFoundIn names.now set.now room bytes.now f.entries.items) }
    ensures holds { IfOk result (λ f. Holds names.now set.now f.queue f.count f.entries.items) }
    ensures count { IfOk result (λ f. f.count ≡ length f.entries.items + 1) }
    ensures refused { IfErr result (WhyUnread names.now set.now room bytes.now) }
{
    let most = (room + 1) * 256 + 1;
    let Ok(queue) = Queue::new(alloc, bytes, most, PLACES) else {
        return Err(LogRefused::OutOfMemory);
    };
    if bytes.is_empty() {
        created(alloc, queue)
    } else {
        opened(alloc, queue, names, set, room)
    }
}

// The names and the set of the head of a report.
fn declared(alloc: Global, text: &[u8]) -> Result<(NameTables, CompiledSet), LogRefused>
    requires { length text.now < 2 ^ 32 }
    ensures declares { IfOk result (λ r. Declares text.now r.0 r.1) }
    ensures same { IfOk result (λ r. NamesSet r.0 r.1) }
    ensures refused { (room : ℕ) (bytes : Many ℕ) → IfErr result (WhyNotOpened text.now room bytes) }
{
    let head = match read_head(alloc, text) {
        Ok(head) => head,
        Err(HeadError::BadLine { n }) => return Err(LogRefused::BadLine { line: n }),
        Err(HeadError::Unfinished) => return Err(LogRefused::Unfinished),
        Err(HeadError::OutOfMemory) => return Err(LogRefused::OutOfMemory),
    };
    match compile_head(alloc, head) {
        Ok(made) => Ok(made),
        Err(error) => Err(LogRefused::NotCompiled(error)),
    }
}

/// The log of a file of these bytes, and the names of the set that the text declares as the head of a report.
pub(crate) fn open_file(
    alloc: Global,
    text: &[u8],
    bytes: &[u8],
    room: usize,
) -> Result<(NameTables, Found), LogRefused>
    ensures opened { IfOk result (λ r. IsOpenedBy text.now room bytes.now r.0 r.1.queue r.1.count r.1.entries.items) }
    ensures refused { IfErr result (WhyNotOpened text.now room bytes.now) }
{
    if text.len() >= 1 << 32 || room > MOST_ROOM {
        return Err(LogRefused::TooLong);
    }
    let (names, set) = declared(alloc, text)?;
    match found_in(alloc, bytes, names.names(), &set, room) {
        Ok(found) => Ok((names, found)),
        Err(error) => {
            drop(names);
            Err(error)
        }
    }
}
