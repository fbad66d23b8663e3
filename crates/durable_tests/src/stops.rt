//! Runs whose disk fails at a call, with a crash behind each: stopped once, at each call.
ghost use Rattle.durable_tests.specs.History.{IsHistory};

use crate::base::{
    Handed, History, LINES, RUN, Ran, bytes_of, disk, history_of, is_fault, is_whole, run,
};
use durable_disk::MemDisk;
use std::alloc::Global;
use std::test::Fail;

/// How a run ended: whether something stopped it, and whether that was a call of the disk; how many entries it found, how many
/// its journal had, and whether it was the whole journal.
#[derive(Clone, Copy)]
pub struct Stop {
    pub is_stopped: bool,
    pub is_fault: bool,
    pub found: u64,
    pub taken: u64,
    pub is_whole: bool,
}

// A run on a disk, and that disk after a crash that keeps so many bytes.
fn run_and_crash(
    alloc: Global,
    history: &History,
    bytes: &[u8],
    handed: Handed,
    disk: MemDisk,
    kept: usize,
) -> (Stop, MemDisk)
    requires { IsHistory history.now.names history.now.set history.now.entries.items }
{
    let ran = run(alloc, history, disk, handed);
    let stop = Stop {
        is_stopped: ran.error.is_some(),
        is_fault: is_fault(&ran.error),
        found: ran.found as u64,
        taken: ran.taken,
        is_whole: is_whole(&ran, bytes),
    };
    let Ran {
        mut disk,
        found: _,
        taken: _,
        error,
    } = ran;
    drop(error);
    disk.crash(kept);
    (stop, disk)
}

/// Three runs on one disk, of which these calls fail, with crashes between them that keep so many bytes.
pub fn stops(
    alloc: Global,
    history: &History,
    bytes: &[u8],
    handed: Handed,
    failing: &[u64],
    kept: [usize; 2],
) -> Result<[Stop; 3], Fail>
    requires { IsHistory history.now.names history.now.set history.now.entries.items }
{
    let [once, twice] = kept;
    let disk = disk(alloc, 2000, 200, failing)?;
    let (first, disk) = run_and_crash(alloc, history, bytes, handed, disk, once);
    let (second, disk) = run_and_crash(alloc, history, bytes, handed, disk, twice);
    let (third, disk) = run_and_crash(alloc, history, bytes, handed, disk, 0);
    drop(disk);
    Ok([first, second, third])
}

/// The call behind those that make the journal: the first for an entry, or of a piece.
pub const FIRST: u64 = 6;

/// The call behind a piece of five entries: five for the bodies, a sync, five for the gates and a sync.
pub const END: u64 = 18;

const FIRST_GATE: u64 = 12;

// The call behind five entries that are appended, by four calls each.
const END_OF_EACH: u64 = 26;

/// How many entries a crash leaves of a piece that was stopped at this call, with so many bytes of what a read gave: those of
/// the gates that were written and kept, and gate k is byte 256 k.
pub fn left_of(call: u64, kept: usize) -> u64 {
    let written = call.saturating_sub(FIRST_GATE).min(5);
    let kept = kept.saturating_sub(1) as u64 / 256;
    written.min(kept)
}

// Whether a run that was stopped at this call, and then crashed, left as many entries as it should, and the next one makes
// them whole.
fn is_made_whole(handed: Handed, call: u64, kept: usize, first: Stop, again: Stop) -> bool {
    let left = match handed {
        Handed::Each => {
            let more = again.found.saturating_sub(first.taken);
            first.taken == call.saturating_sub(FIRST) / 4 && again.found >= first.taken && more <= 1
        }
        Handed::Piece => first.taken == 0 && again.found == left_of(call, kept),
    };
    first.is_fault && left && again.is_whole
}

// The first call, and how many bytes are kept, with which it does not come out so, if there is one.
fn first_not_whole(
    alloc: Global,
    history: &History,
    bytes: &[u8],
    handed: Handed,
) -> Result<Option<(u64, usize)>, Fail>
    requires { IsHistory history.now.names history.now.set history.now.entries.items }
{
    let end = match handed {
        Handed::Each => END_OF_EACH,
        Handed::Piece => END,
    };
    for call in FIRST..end {
        for kept in (0usize..1600).step_by(37) {
            let [first, again, _] = stops(alloc, history, bytes, handed, &[call], [kept, 0])?;
            if !is_made_whole(handed, call, kept, first, again) {
                return Ok(Some((call, kept)));
            }
        }
    }
    Ok(None)
}

// The first stop in a journal of the first five entries of the run after which it is not whole again.
fn not_whole(alloc: Global, handed: Handed) -> Result<Option<(u64, usize)>, Fail> {
    let bytes = bytes_of(alloc, &LINES)?;
    let history = history_of(alloc, RUN, 5)?;
    let not_whole = first_not_whole(alloc, &history, &bytes, handed);
    drop(history);
    not_whole
}

#[test]
fn append_stopped_once(rt: HostRuntime) -> Result<(), Fail> {
    assert_eq!(rt; not_whole(rt.alloc(), Handed::Each)?, None);
    Ok(())
}

#[test]
fn piece_stopped_once(rt: HostRuntime) -> Result<(), Fail> {
    assert_eq!(rt; not_whole(rt.alloc(), Handed::Piece)?, None);
    Ok(())
}
