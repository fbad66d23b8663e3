//! The log of a database for programs in C: the functions of the last section of embed/rtdb.h.
ghost use Rattle.std.specs.Prelude.{◌≡◌, ◌≢◌, ◌<◌, drop, map, None, MatchOption, IfOk, IfErr, IfSome, IsSomeAnd};
ghost use Rattle.c_forms.specs.Back.{entry_of};
ghost use Rattle.c_stations.specs.Opening.{WhyNotOpened};
ghost use Rattle.c_stations.specs.declared.refused.LogRefused.TheVariants.{OutOfMemory as WantOfMemory};
ghost use Rattle.rtdb_c.specs.Logged.{LogCalled, LogOpened, LogToldWhy, LogAppended, LogNext, LogAnswered, LogCounted, LogFound, append_status, told_log, form_of_call};

use crate::{OPEN, told_why};
use c_core::{CLOSED, NOTHING};
use c_forms::{EntryForm, NO_MEMORY, NO_ROOM, OK, RefusalForm, Refused, put_entry};
use c_stations::{AppendRefused, Call, LogHandle, LogRefused, LogStation};
use std::alloc::Global;

/// A call of a log failed.
pub const STOPPED: u32 = 20;

/// Calls of a log are still to be made.
pub const UNANSWERED: u32 = 21;

/// An entry names what the set has not, or tells what its operation does not.
pub const UNKNOWN: u32 = 22;

/// The text is no head of a report.
pub const BAD_TEXT: u32 = 23;

/// A record of the file is bad.
pub const BAD_RECORD: u32 = 24;

/// The file has more entries than there is room for.
pub const FULL: u32 = 25;

/// A call that is to be made on the file of a log: `kind` is 0 for a write of `count` bytes at `offset`, 1 for a sync.
#[repr(C)]
#[derive(Clone, Copy)]
pub struct CallForm {
    pub kind: u32,
    pub offset: u64,
    pub count: u64,
}

fn bare_refusal(a: u64) -> RefusalForm
    ensures { result ≡ record { rule = 0; which = 0; a = a; b = 0; c = 0 } }
{
    RefusalForm {
        rule: 0,
        which: 0,
        a,
        b: 0,
        c: 0,
    }
}

// How it is told why no log is opened.
fn told(refused: LogRefused) -> (u32, RefusalForm)
    ensures { result ≡ told_log refused }
{
    match refused {
        LogRefused::TooLong => (NO_ROOM, bare_refusal(0)),
        LogRefused::BadLine { line } => (BAD_TEXT, bare_refusal(line as u64)),
        LogRefused::Unfinished => (BAD_TEXT, bare_refusal(0)),
        LogRefused::NotCompiled(error) => told_why(Refused::NotCompiled(error)),
        LogRefused::BadRecord { number } => (BAD_RECORD, bare_refusal(number)),
        LogRefused::Full => (FULL, bare_refusal(0)),
        LogRefused::OutOfMemory => (NO_MEMORY, bare_refusal(0)),
    }
}

// A station in a box.
fn boxed(alloc: Global, station: LogStation) -> Result<Box<LogStation>, LogRefused>
    ensures boxed { IfOk result (λ b. b.value ≡ station) }
    ensures refused { IfErr result (λ e. e ≡ WantOfMemory) }
{
    match Box::new(alloc, station) {
        Ok(station) => Ok(station),
        Err(unboxed) => {
            drop(unboxed);
            Err(LogRefused::OutOfMemory)
        }
    }
}

// The log of a file, in a box.
fn opened(
    alloc: Global,
    text: &[u8],
    file: &[u8],
    room: usize,
) -> Result<Box<LogStation>, LogRefused>
    ensures opened { IfOk result (λ b. LogOpened text.now room file.now b.value) }
    ensures refused { IfErr result (WhyNotOpened text.now room file.now) }
{
    boxed(alloc, LogStation::open(alloc, text, file, room)?)
}

/// Opens the log of a file of these bytes, with room for so many entries, whose set and names a text declares. OPEN where the
/// handle is open already. Else status and record are those of the first cause, and the handle stays closed; NO_MEMORY may
/// come in place of each. All memory that the log needs is taken here.
#[unsafe(no_mangle)]
pub extern "C" fn rtdb_log_open(
    alloc: Global,
    log: &mut LogHandle,
    text: &[u8],
    file: &[u8],
    room: usize,
    refusal: &mut RefusalForm,
) -> u32
    ensures opened { result ≡ 0 → (log.old.station ≡ None) × (refusal.new ≡ refusal.old) × IsSomeAnd log.new.station (LogOpened text.now room file.now) }
    ensures refused { result ≢ 0 → log.new.station ≡ log.old.station }
    ensures open { IfSome log.old.station (λ s. (result ≡ 2) × (refusal.new ≡ refusal.old)) }
    ensures why { log.old.station ≡ None → result ≢ 0 → LogToldWhy text.now room file.now result refusal.new }
{
    if let Some(station) = log.take(alloc) {
        log.put(station);
        return OPEN;
    }
    match opened(alloc, text, file, room) {
        Ok(station) => {
            log.put(station);
            OK
        }
        Err(refused) => {
            let (status, form) = told(refused);
            *refusal = form;
            status
        }
    }
}

/// Frees what the handle has, and closes it. It answers whether it was open.
#[unsafe(no_mangle)]
pub extern "C" fn rtdb_log_close(alloc: Global, log: &mut LogHandle) -> u32
    ensures closed { log.new.station ≡ None }
    ensures status { MatchOption log.old.station (result ≡ 1) (λ _. result ≡ 0) }
{
    if let Some(station) = log.take(alloc) {
        drop(station);
        return OK;
    }
    CLOSED
}

/// How many entries the log keeps: those whose calls were all made.
#[unsafe(no_mangle)]
pub extern "C" fn rtdb_log_count(alloc: Global, log: &mut LogHandle, count: &mut u64) -> u32
    ensures { LogCalled log.old.station log.new.station ((result ≡ 1) × (count.new ≡ count.old)) (LogCounted result count.new) }
{
    match log.take(alloc) {
        Some(station) => {
            *count = station.kept();
            log.put(station);
            OK
        }
        None => CLOSED,
    }
}

// As the station's entries, in one clause.
fn found(station: &LogStation, place: usize, entry: &mut EntryForm) -> u32
    ensures { LogFound place result entry.old entry.new station.now station.now }
{
    match station.found().get(place) {
        Some(found) => {
            put_entry(*found, entry);
            OK
        }
        None => NOTHING,
    }
}

/// The entry at a place, from 0, of those that were found in the file. NOTHING behind the last.
#[unsafe(no_mangle)]
pub extern "C" fn rtdb_log_entry(
    alloc: Global,
    log: &mut LogHandle,
    place: usize,
    entry: &mut EntryForm,
) -> u32
    ensures { LogCalled log.old.station log.new.station ((result ≡ 1) × (entry.new ≡ entry.old)) (LogFound place result entry.old entry.new) }
{
    match log.take(alloc) {
        Some(station) => {
            let status = found(&station, place, entry);
            log.put(station);
            status
        }
        None => CLOSED,
    }
}

fn append_status(refused: AppendRefused) -> u32
    ensures { result ≡ append_status refused }
{
    match refused {
        AppendRefused::Stopped => STOPPED,
        AppendRefused::Unanswered => UNANSWERED,
        AppendRefused::NoRoom => NO_ROOM,
        AppendRefused::Unknown => UNKNOWN,
        AppendRefused::OutOfMemory => NO_MEMORY,
    }
}

// As the station's call, in one clause.
fn appended(alloc: Global, station: &mut LogStation, entries: &[EntryForm]) -> u32
    ensures { LogAppended (map entry_of entries.now) result station.old station.new }
{
    match station.append(alloc, entries) {
        Ok(()) => OK,
        Err(refused) => append_status(refused),
    }
}

/// Adds entries as one piece. They are kept when the calls for it were made. STOPPED, else UNANSWERED, NO_ROOM, UNKNOWN;
/// NO_MEMORY may come in place of OK.
#[unsafe(no_mangle)]
pub extern "C" fn rtdb_log_append(alloc: Global, log: &mut LogHandle, entries: &[EntryForm]) -> u32
    ensures { LogCalled log.old.station log.new.station (result ≡ 1) (LogAppended (map entry_of entries.now) result) }
{
    match log.take(alloc) {
        Some(mut station) => {
            let status = appended(alloc, &mut station, entries);
            log.put(station);
            status
        }
        None => CLOSED,
    }
}

// The record of a call.
fn call_form(call: &Call) -> CallForm
    ensures { result ≡ form_of_call call.now }
{
    match call {
        Call::Sync => CallForm {
            kind: 1,
            offset: 0,
            count: 0,
        },
        Call::Write(piece) => CallForm {
            kind: 0,
            offset: piece.at,
            count: piece.as_slice().len() as u64,
        },
    }
}

// As the station's next call, in one clause.
fn next(station: &LogStation, call: &mut CallForm, bytes: &mut [u8]) -> u32
    ensures { LogNext result call.old call.new bytes.old bytes.new station.now station.now }
{
    let Some(next) = station.next_call() else {
        return NOTHING;
    };
    let written = next.bytes();
    if bytes.len() < written.len() {
        return NO_ROOM;
    }
    bytes[..written.len()].copy_from_slice(written);
    *call = call_form(next);
    OK
}

/// The call that is to be made next on the file, and its bytes. NOTHING where there is none, or where one failed; NO_ROOM where
/// there are fewer places than bytes.
#[unsafe(no_mangle)]
pub extern "C" fn rtdb_log_call(
    alloc: Global,
    log: &mut LogHandle,
    call: &mut CallForm,
    bytes: &mut [u8],
) -> u32
    ensures { LogCalled log.old.station log.new.station ((result ≡ 1) × (call.new ≡ call.old) × (bytes.new ≡ bytes.old)) (LogNext result call.old call.new bytes.old bytes.new) }
{
    match log.take(alloc) {
        Some(station) => {
            let status = next(&station, call, bytes);
            log.put(station);
            status
        }
        None => CLOSED,
    }
}

// As the station's calls, in one clause.
fn answered(station: &mut LogStation, made: u32) -> u32
    ensures { LogAnswered made result station.old station.new }
{
    if station.next_call().is_none() {
        return NOTHING;
    }
    if made == 1 {
        station.call_made();
    } else {
        station.call_failed();
    }
    OK
}

/// The call that was to be made next was made, where `made` is 1; else it failed. NOTHING where there was none.
#[unsafe(no_mangle)]
pub extern "C" fn rtdb_log_answer(alloc: Global, log: &mut LogHandle, made: u32) -> u32
    ensures { LogCalled log.old.station log.new.station (result ≡ 1) (LogAnswered made result) }
{
    match log.take(alloc) {
        Some(mut station) => {
            let status = answered(&mut station, made);
            log.put(station);
            status
        }
        None => CLOSED,
    }
}
