//! A journal that is stopped within an append by a call of its disk that fails, and taken up again.
ghost use Rattle.durable_tests.specs.History.{IsHistory};

use crate::base::{Handed, History, LINES, RUN, Ran, bytes_of, disk, history_of, is_fault, run};
use crate::stops::stops;
use std::alloc::Global;
use std::test::Fail;

// How often the second run was stopped and the journal made whole, and how often it was not made whole. They are stopped
// within the third append, and then at each call of the second run, its `open` included. That run makes 17 calls, or 14 where
// the third entry is there: a sync, the header and a place more than it finds entries, and four calls an entry.
fn count_stops(alloc: Global, history: &History, bytes: &[u8]) -> Result<(u64, u64), Fail>
    requires { IsHistory history.now.names history.now.set history.now.entries.items }
{
    let (mut whole, mut not_whole) = (0u64, 0u64);
    for first in 14u64..18 {
        for second in first + 1..first + 20 {
            for kept in [0usize, 769, 770, 800, 1024, 1025, 1030, 2000] {
                let calls = [first, second];
                let crashes = [2000usize.saturating_sub(kept), kept];
                let [_, next, last] = stops(alloc, history, bytes, Handed::Each, &calls, crashes)?;
                if next.is_stopped && last.is_whole && last.found >= next.taken.max(2) {
                    whole = whole.saturating_add(1);
                } else if next.is_stopped {
                    not_whole = not_whole.saturating_add(1);
                }
            }
        }
    }
    Ok((whole, not_whole))
}

#[test]
fn stopped_twice(rt: HostRuntime) -> Result<(), Fail> {
    let alloc = rt.alloc();
    let bytes = bytes_of(alloc, &LINES)?;
    let history = history_of(alloc, RUN, 5)?;
    let counts = count_stops(alloc, &history, &bytes);
    drop(history);
    let (whole, not_whole) = counts?;
    assert_eq!(rt; not_whole, 0);
    assert_eq!(rt; whole, 3 * 8 * 17 + 7 * 14 + 17);
    Ok(())
}

// Whether a run on a new disk met a fault, and how many entries its journal has then.
fn told_on(
    alloc: Global,
    history: &History,
    room: usize,
    places: usize,
    failing: &[u64],
) -> Result<(bool, u64), Fail>
    requires { IsHistory history.now.names history.now.set history.now.entries.items }
{
    let ran = run(
        alloc,
        history,
        disk(alloc, room, places, failing)?,
        Handed::Each,
    );
    let told = (is_fault(&ran.error), ran.taken);
    drop(ran);
    Ok(told)
}

// Whether a second run meets the fault of this call.
fn is_fault_again(alloc: Global, history: &History, call: u64) -> Result<bool, Fail>
    requires { IsHistory history.now.names history.now.set history.now.entries.items }
{
    let Ran { disk, error, .. } = run(
        alloc,
        history,
        disk(alloc, 2000, 100, &[call])?,
        Handed::Each,
    );
    drop(error);
    let ran = run(alloc, history, disk, Handed::Each);
    let told = is_fault(&ran.error);
    drop(ran);
    Ok(told)
}

// The first call that fails and is not told, of making the journal, of adding entries, and of opening it again, if there is
// one.
fn first_untold(alloc: Global, history: &History) -> Result<Option<u64>, Fail>
    requires { IsHistory history.now.names history.now.set history.now.entries.items }
{
    for call in 0u64..26 {
        let told = told_on(alloc, history, 2000, 100, &[call])?;
        if told != (true, call.saturating_sub(6) / 4) {
            return Ok(Some(call));
        }
    }
    // A sync, the header and six places.
    for call in 26u64..35 {
        if is_fault_again(alloc, history, call)? != (call < 34) {
            return Ok(Some(call));
        }
    }
    Ok(None)
}

// The first room that is too small and is not told, if there is one: it is for one entry, or for seven writes and syncs.
fn first_unfilled(alloc: Global, history: &History) -> Result<Option<usize>, Fail>
    requires { IsHistory history.now.names history.now.set history.now.entries.items }
{
    for (room, places, taken) in [(600, 100, 1), (2000, 7, 0), (2000, 10, 1)] {
        if told_on(alloc, history, room, places, &[])? != (true, taken) {
            return Ok(Some(room));
        }
    }
    Ok(None)
}

// The first call and the first room that are not told.
fn all_untold(alloc: Global, history: &History) -> Result<(Option<u64>, Option<usize>), Fail>
    requires { IsHistory history.now.names history.now.set history.now.entries.items }
{
    Ok((
        first_untold(alloc, history)?,
        first_unfilled(alloc, history)?,
    ))
}

#[test]
fn fails(rt: HostRuntime) -> Result<(), Fail> {
    let alloc = rt.alloc();
    let history = history_of(alloc, RUN, 5)?;
    let untold = all_untold(alloc, &history);
    drop(history);
    assert_eq!(rt; untold?, (None, None));
    Ok(())
}
