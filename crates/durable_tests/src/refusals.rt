//! Journals that are refused, and a log that has stopped.
ghost use Rattle.durable_tests.specs.History.{IsHistory};

use crate::base::{Handed, History, RUN, Ran, disk, history_of, run};
use durable_disk::{Disk, MemDisk};
use durable_journal::{Log, LogError};
use std::alloc::Global;
use std::test::Fail;

// What opening a journal answers.
#[derive(Clone, Copy, Debug, PartialEq, Eq)]
enum Answer {
    Opened(usize),
    Bad(u64),
    Full(usize),
    Other,
}

use Answer::{Bad, Full, Opened};

// The record of entry 3, which is "plan sample 20".
const THIRD: u64 = 256 * 3;

// A byte of a journal of five entries, what is written there, the room, and the answer.
const CHANGES: [(u64, u8, usize, Answer); 24] = [
    (2, b'x', 5, Bad(0)),
    (256 + 2, b'x', 5, Bad(1)),
    (256 * 2 + 2, b'x', 5, Bad(2)),
    (THIRD + 2, b'x', 5, Bad(3)),
    (256 * 4 + 2, b'x', 5, Bad(4)),
    (256 * 5 + 2, b'x', 5, Bad(5)),
    // The gate.
    (0, 0, 5, Bad(0)),
    (THIRD, 0, 5, Opened(2)),
    (THIRD, 2, 5, Opened(2)),
    // The length.
    (1, 15, 5, Bad(0)),
    (THIRD + 1, 0, 5, Bad(3)),
    (THIRD + 1, 13, 5, Bad(3)),
    (THIRD + 1, 15, 5, Bad(3)),
    (THIRD + 1, 255, 5, Bad(3)),
    // The text, its end and the zeros behind it.
    (THIRD + 15, b'x', 5, Bad(3)),
    (THIRD + 16, 1, 5, Bad(3)),
    (THIRD + 255, 1, 5, Bad(3)),
    // A plan that is too near to the next one.
    (256 + 14, b'9', 5, Bad(2)),
    // A byte behind the end, and the gate there.
    (256 * 6 + 1, 7, 5, Opened(5)),
    (256 * 6, 1, 5, Full(5)),
    (256 * 6, 1, 6, Bad(6)),
    // Less room, and more.
    (THIRD, 1, 0, Full(0)),
    (THIRD, 1, 4, Full(4)),
    (THIRD, 1, 6, Opened(5)),
];

fn refusal_of(error: LogError) -> Answer {
    match error {
        LogError::BadRecord { number } => Bad(number),
        LogError::Full { room, first } => {
            if first.as_slice().len() == room {
                Full(room)
            } else {
                Answer::Other
            }
        }
        _ => Answer::Other,
    }
}

fn answer_of(alloc: Global, history: &History, room: usize, disk: MemDisk) -> Answer
    requires { IsHistory history.now.names history.now.set history.now.entries.items }
{
    match Log::open(alloc, disk, &history.names, &history.set, room) {
        Ok((log, found)) => {
            let count = found.len();
            drop(log);
            drop(found);
            Opened(count)
        }
        Err((disk, error)) => {
            drop(disk);
            refusal_of(error)
        }
    }
}

// The disk of a run that meets no fault.
fn disk_of(alloc: Global, history: &History) -> Result<MemDisk, Fail>
    requires { IsHistory history.now.names history.now.set history.now.entries.items }
{
    let Ran { disk, error, .. } = run(alloc, history, disk(alloc, 2000, 100, &[])?, Handed::Piece);
    drop(error);
    Ok(disk)
}

// What a journal answers after a byte of it was changed.
fn answer_after(
    alloc: Global,
    history: &History,
    at: u64,
    byte: u8,
    room: usize,
) -> Result<Answer, Fail>
    requires { IsHistory history.now.names history.now.set history.now.entries.items }
{
    let mut disk = disk_of(alloc, history)?;
    if disk.write_at(at, &[byte]).is_err() {
        drop(disk);
        return Err("not written".into());
    }
    Ok(answer_of(alloc, history, room, disk))
}

// The first byte whose change is not answered as it is to be, if there is one.
fn first_unlike(alloc: Global, history: &History) -> Result<Option<(u64, u8)>, Fail>
    requires { IsHistory history.now.names history.now.set history.now.entries.items }
{
    for (at, byte, room, wanted) in CHANGES {
        if answer_after(alloc, history, at, byte, room)? != wanted {
            return Ok(Some((at, byte)));
        }
    }
    Ok(None)
}

#[test]
fn changed(rt: HostRuntime) -> Result<(), Fail> {
    let alloc = rt.alloc();
    let history = history_of(alloc, RUN, 5)?;
    let unlike = first_unlike(alloc, &history);
    drop(history);
    assert_eq!(rt; unlike?, None);
    Ok(())
}

// The same journal for a scenario of other names, and for one of another period.
const OTHERS: [(&str, Answer); 2] = [
    (
        "rtdb report 1
item temp sensor 20 0
txn sampler 3 10 0 10 2 reads - writes temp
mode trial
",
        Bad(1),
    ),
    (
        "rtdb report 1
item temp sensor 40 0
txn sample 3 20 0 20 2 reads - writes temp
mode trial
",
        Bad(2),
    ),
];

// What the journal of a run answers for the history of another text.
fn answer_for(alloc: Global, own: &History, text: &str) -> Result<Answer, Fail>
    requires { IsHistory own.now.names own.now.set own.now.entries.items }
{
    let disk = disk_of(alloc, own)?;
    match history_of(alloc, text, 0) {
        Ok(other) => {
            let answer = answer_of(alloc, &other, 5, disk);
            drop(other);
            Ok(answer)
        }
        Err(fail) => {
            drop(disk);
            Err(fail)
        }
    }
}

// What an empty disk answers.
fn answer_of_empty(alloc: Global, own: &History) -> Result<Answer, Fail>
    requires { IsHistory own.now.names own.now.set own.now.entries.items }
{
    let empty = disk(alloc, 2000, 100, &[])?;
    Ok(answer_of(alloc, own, 5, empty))
}

// A disk with the header alone.
fn header(alloc: Global) -> Result<MemDisk, Fail> {
    let mut header = disk(alloc, 2000, 100, &[])?;
    let mut record = [0; 256];
    record[0] = 1;
    record[1] = 14;
    record[2..16].copy_from_slice(b"rtdb journal 1");
    let text = header.write_at(0, &record[..255]).is_ok();
    let gate = header.write_at(255, &[0]).is_ok();
    if !text || !gate {
        drop(header);
        return Err("not written".into());
    }
    Ok(header)
}

// How many entries are found on that disk, and how many bytes it has when its next gate is written.
fn opened_header(alloc: Global, own: &History) -> Result<(usize, usize), Fail>
    requires { IsHistory own.now.names own.now.set own.now.entries.items }
{
    let header = header(alloc)?;
    match Log::open(alloc, header, &own.names, &own.set, 5) {
        Ok((log, found)) => {
            let count = found.len();
            drop(found);
            let disk = log.into_disk();
            let size = disk.bytes().len();
            drop(disk);
            Ok((count, size))
        }
        Err((disk, error)) => {
            drop(disk);
            drop(error);
            Err("not opened".into())
        }
    }
}

// What is answered for each of the other histories and on an empty disk, and what is found on one with the header alone.
fn answers(alloc: Global, own: &History) -> Result<([Answer; 3], (usize, usize)), Fail>
    requires { IsHistory own.now.names own.now.set own.now.entries.items }
{
    let [(names, _), (period, _)] = OTHERS;
    let others = [
        answer_for(alloc, own, names)?,
        answer_for(alloc, own, period)?,
        answer_of_empty(alloc, own)?,
    ];
    Ok((others, opened_header(alloc, own)?))
}

#[test]
fn others(rt: HostRuntime) -> Result<(), Fail> {
    let alloc = rt.alloc();
    let own = history_of(alloc, RUN, 5)?;
    let answers = answers(alloc, &own);
    drop(own);
    let [(_, names), (_, period)] = OTHERS;
    assert_eq!(rt; answers?, ([names, period, Bad(0)], (0, 257)));
    Ok(())
}
