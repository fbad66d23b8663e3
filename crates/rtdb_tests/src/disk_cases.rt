//! The cases.
use crate::over_disk::{BODIES_END, Base, CALLS, MAKING, Ran};
use durable_disk::MemDisk;
use rtdb_command::Status;
use std::alloc::Global;
use std::slice::from_ref;

/// A case of a run over a journal.
#[derive(Clone, Copy)]
pub enum Case {
    New,
    Again,
    Crash,
    CrashTwice,
    Changed,
    Fault,
    Longer,
    Other,
    NoHeader,
    Full,
    Eager,
    Usage,
}

/// All cases, in the order in which they are run.
pub const CASES: [Case; 12] = [
    Case::New,
    Case::Again,
    Case::Crash,
    Case::CrashTwice,
    Case::Changed,
    Case::Fault,
    Case::Longer,
    Case::Other,
    Case::NoHeader,
    Case::Full,
    Case::Eager,
    Case::Usage,
];

impl Case {
    /// What the case is.
    pub fn name(self) -> &'static str {
        match self {
            Case::New => "a new journal has the whole run",
            Case::Again => "the same again adds nothing",
            Case::Crash => "stopped at each call, torn anywhere, and run again",
            Case::CrashTwice =>
                "stopped within a piece, and again at each call of the next run, and run a third time",
            Case::Changed => "a changed record is named",
            Case::Fault => "a fault at the first call is told",
            Case::Longer => "entries behind those of the run are named",
            Case::Other => "another entry of a legal history is named",
            Case::NoHeader => "a file that is no journal is named",
            Case::Full => "more records than there is room for are judged by the first other one",
            Case::Eager => "an eager transaction is refused",
            Case::Usage => "other words are usage",
        }
    }

    /// Whether the case holds.
    pub fn holds(self, base: &Base) -> bool {
        let held = match self {
            Case::New => new(base),
            Case::Again => again(base),
            Case::Crash => crash(base),
            Case::CrashTwice => crash_twice(base),
            Case::Changed => changed(base),
            Case::Fault => fault(base),
            Case::Longer => longer(base),
            Case::Other => other(base),
            Case::NoHeader => no_header(base),
            Case::Full => full(base),
            Case::Eager => eager(base),
            Case::Usage => usage(base),
        };
        held == Some(true)
    }
}

// Whether a run over a disk writes the whole report and leaves the whole journal.
fn is_whole(base: &Base, disk: MemDisk) -> Option<bool> {
    let ran = base.run(disk)?;
    let whole = ran.is_whole(base);
    drop(ran);
    Some(whole)
}

fn new(base: &Base) -> Option<bool> {
    is_whole(base, base.disk(&[])?)
}

// A run over a disk, and whether it changes nothing of what a read gives.
fn run_beside(base: &Base, disk: MemDisk) -> Option<(Ran, bool)> {
    let Ok(bytes) = disk.bytes().to_vec(base.alloc) else {
        drop(disk);
        return None;
    };
    match base.run(disk) {
        Some(ran) => {
            let same = ran.disk.bytes() == bytes.as_slice();
            drop(bytes);
            Some((ran, same))
        }
        None => {
            drop(bytes);
            None
        }
    }
}

// A second run leaves what a read gives as it was.
fn again(base: &Base) -> Option<bool> {
    let (ran, same) = run_beside(base, base.after_run()?)?;
    let whole = ran.is_whole(base);
    drop(ran);
    Some(whole && same)
}

// Whether a run over what a crash leaves is whole, or names the header of a journal that was left half made.
fn is_taken_up(base: &Base, call: u64, disk: MemDisk) -> Option<bool> {
    if MAKING <= call || disk.bytes().is_empty() {
        return is_whole(base, disk);
    }
    let ran = base.run(disk)?;
    let taken_up = ran.is_whole(base) || is_named(base, &ran, 0)?;
    drop(ran);
    Some(taken_up)
}

// Whether this call of a run fails, and what a crash leaves then, with so much of what was not synced, is taken up.
fn recovers(base: &Base, call: u64, kept: usize) -> Option<bool> {
    let Ran {
        status,
        text,
        mut disk,
    } = base.run(base.disk(&[call])?)?;
    let told = status == Status::DiskFault && text.is_empty();
    drop(text);
    if !told {
        drop(disk);
        return Some(false);
    }
    disk.crash(kept);
    is_taken_up(base, call, disk)
}

// How much of what was written and not synced is kept, from the first byte of the record on that a call may write: nothing, a part
// of its length, of its text, of its zeros, all of it, and the next gate.
const TEARS: [usize; 10] = [0, 1, 2, 3, 7, 16, 40, 255, 256, 257];

// The byte at which the record stands that a call of a run writes: the header's, or that of an entry, whose body or gate it is.
fn record_of(call: u64) -> usize {
    let entry = if call <= BODIES_END {
        call.saturating_sub(MAKING)
    } else {
        call.saturating_sub(BODIES_END + 1)
    };
    if call < MAKING {
        0
    } else {
        (entry as usize).saturating_add(1).saturating_mul(256)
    }
}

// Each call of a run fails in turn, and the crash leaves more or less of what was not synced. There is no call behind these.
fn crash(base: &Base) -> Option<bool> {
    for call in 0..CALLS {
        for tear in TEARS {
            if !recovers(base, call, record_of(call).saturating_add(tear))? {
                return Some(false);
            }
        }
    }
    is_whole(base, base.disk(&[CALLS])?)
}

// What a run leaves that was stopped by the disk, after a crash; None where it was not stopped.
fn stopped(ran: Ran, kept: usize) -> Option<MemDisk> {
    let Ran {
        status,
        text,
        mut disk,
    } = ran;
    drop(text);
    if status != Status::DiskFault {
        drop(disk);
        return None;
    }
    disk.crash(kept);
    Some(disk)
}

// Whether these calls stop a run and then the next one, and a third one is whole.
fn recovers_twice(base: &Base, first: u64, second: u64, kept: usize) -> Option<bool> {
    let disk = stopped(base.run(base.disk(&[first, second])?)?, kept)?;
    let disk = stopped(base.run(disk)?, kept)?;
    is_whole(base, disk)
}

// Where a run is stopped the first time, and the calls that the next one makes at least: at the third body, at the sync behind the
// bodies, where it has all entries to add; at the third gate, and at the last sync, where it has to read them at least.
const STOPS: [(u64, u64); 4] = [
    (MAKING + 2, 70),
    (BODIES_END, 70),
    (BODIES_END + 3, 36),
    (CALLS - 1, 36),
];

// Stopped within a piece, and then at each call that the second run makes at least.
fn crash_twice(base: &Base) -> Option<bool> {
    for (first, calls) in STOPS {
        for behind in 0..calls {
            let second = first.saturating_add(behind).saturating_add(1);
            for kept in [0, 769, 770, 773, 800, 1_024, 1_025, 10_000] {
                if !recovers_twice(base, first, second, kept)? {
                    return Some(false);
                }
            }
        }
    }
    Some(true)
}

// Whether a run was answered by this record.
fn is_named(base: &Base, ran: &Ran, number: usize) -> Option<bool> {
    let line = format!(in base.alloc; "bad journal record {number}\n").ok()?;
    Some(ran.status == Status::BadJournal && ran.text.as_slice() == line.as_bytes())
}

// Whether a run over the disk names this record, and changes nothing of what a read gives.
fn names(base: &Base, disk: MemDisk, number: usize) -> Option<bool> {
    let (ran, same) = run_beside(base, disk)?;
    let named = is_named(base, &ran, number);
    drop(ran);
    Some(named? && same)
}

fn changed(base: &Base) -> Option<bool> {
    names(base, base.changed(256 * 3 + 2, b'x')?, 3)
}

fn fault(base: &Base) -> Option<bool> {
    let ran = base.run(base.disk(&[0])?)?;
    let told = ran.is_fault();
    drop(ran);
    Some(told)
}

// A disk with one entry more.
fn with_one_more(base: &Base, disk: &MemDisk) -> Option<MemDisk> {
    let whole = disk.bytes();
    let front = &whole[..whole.len().saturating_sub(1)];
    let line = String::from_str(base.alloc, "plan sample 40").ok()?;
    base.with_lines(front, from_ref(&line))
}

fn longer(base: &Base) -> Option<bool> {
    let disk = base.after_run()?;
    let more = with_one_more(base, &disk);
    drop(disk);
    names(base, more?, 33)
}

// Adds the lines of a header and of plans of `sample`, one period after another.
fn add_plans(alloc: Global, lines: &mut Vec<String>, from: u64, count: u64) -> Option<()> {
    lines
        .push(String::from_str(alloc, "rtdb journal 1").ok()?)
        .ok()?;
    for k in 0..count {
        let tick = from.saturating_add(k.saturating_mul(10));
        lines
            .push(format!(in alloc; "plan sample {tick}").ok()?)
            .ok()?;
    }
    Some(())
}

// The records of a header and of plans of `sample`.
fn plans(base: &Base, from: u64, count: u64) -> Option<MemDisk> {
    let mut lines = Vec::new(base.alloc);
    let disk = match add_plans(base.alloc, &mut lines, from, count) {
        Some(()) => base.with_lines(&[], &lines),
        None => None,
    };
    drop(lines);
    disk
}

fn other(base: &Base) -> Option<bool> {
    let first = names(base, plans(base, 3, 1)?, 1)?;
    let fifth = names(base, plans(base, 0, 5)?, 5)?;
    Some(first && fifth)
}

fn no_header(base: &Base) -> Option<bool> {
    names(base, base.holding(b"no journal")?, 0)
}

// BASE has room for 45 entries.
fn full(base: &Base) -> Option<bool> {
    let just = names(base, plans(base, 0, 45)?, 5)?;
    let over = names(base, plans(base, 0, 46)?, 5)?;
    Some(just && over)
}

// BASE, with its last transaction eager.
fn eager_text(base: &Base) -> Option<String> {
    let text = str::from_utf8(&base.scenario).ok()?;
    let (front, rest) = text.split_once(
        "\"releases\":[0],\"script\":[{\"read\":\"temp\"},{\"read\":\"valve\"}",
    )?;
    format!(in base.alloc;
        "{front}\"eager\":1,\"script\":[{{\"read\":\"temp\"}},{{\"read\":\"valve\"}}{rest}"
    ).ok()
}

// Whether a run was refused for an eager transaction, and left the disk empty.
fn is_refused(ran: &Ran) -> bool {
    ran.status == Status::Refused
        && ran.text.as_slice() == b"refused EagerJournal logger\n".as_slice()
        && ran.disk.bytes().is_empty()
}

fn eager(base: &Base) -> Option<bool> {
    let disk = base.disk(&[])?;
    let Some(changed) = eager_text(base) else {
        drop(disk);
        return None;
    };
    let answered = base.answer(&["journal", "p"], changed.as_bytes(), disk);
    drop(changed);
    let ran = answered?;
    let refused = is_refused(&ran);
    drop(ran);
    Some(refused)
}

// Whether these words are answered by the usage, and leave the disk empty.
fn is_usage(base: &Base, words: &[&str]) -> Option<bool> {
    let ran = base.answer(words, &base.scenario, base.disk(&[])?)?;
    let told = ran.status == Status::Usage
        && ran.text.starts_with(b"usage: rtdb ceilings")
        && ran.disk.bytes().is_empty();
    drop(ran);
    Some(told)
}

fn usage(base: &Base) -> Option<bool> {
    let wrong: [&[&str]; 6] = [
        &[],
        &["journal"],
        &["journal", ""],
        &["journal", "-p"],
        &["journal", "p", "p"],
        &["run"],
    ];
    for words in wrong {
        if !is_usage(base, words)? {
            return Some(false);
        }
    }
    Some(true)
}
