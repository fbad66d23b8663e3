//! A journal that is stopped within a piece by a call of its disk that fails, and taken up again.
ghost use Rattle.durable_tests.specs.History.{IsHistory};

use crate::base::{Handed, History, LINES, RUN, bytes_of, history_of};
use crate::stops::{END, FIRST, left_of, stops};
use std::alloc::Global;
use std::test::Fail;

// How many calls a run makes that finds so many entries: a sync, the header and a place more than it finds, and then for n
// entries, if there are some, 2 n + 2.
fn calls_behind(found: u64) -> u64 {
    let rest = 5u64.saturating_sub(found);
    let piece = if rest == 0 {
        0
    } else {
        rest.saturating_mul(2).saturating_add(2)
    };
    found.saturating_add(3).saturating_add(piece)
}

// Whether after a run that is stopped at the first of these calls the second run is stopped at the second, and the third one
// makes the journal whole; where the second run does not come to that call, whether it makes it whole itself.
fn stops_twice(
    alloc: Global,
    history: &History,
    bytes: &[u8],
    calls: [u64; 2],
    kept: usize,
) -> Result<bool, Fail>
    requires { IsHistory history.now.names history.now.set history.now.entries.items }
{
    let [first, second] = calls;
    let kept_first = 2000usize.saturating_sub(kept);
    let crashes = [kept_first, kept];
    let [_, next, last] = stops(alloc, history, bytes, Handed::Piece, &calls, crashes)?;
    let behind = calls_behind(left_of(first, kept_first));
    if second.saturating_sub(first) > behind {
        return Ok(next.is_whole);
    }
    Ok(next.is_fault && last.is_whole && last.found >= next.found)
}

// The first two calls, and how many bytes are kept, with which it does not come out so, if there are such.
fn first_not_whole_twice(
    alloc: Global,
    history: &History,
    bytes: &[u8],
) -> Result<Option<([u64; 2], usize)>, Fail>
    requires { IsHistory history.now.names history.now.set history.now.entries.items }
{
    for first in FIRST..END {
        for second in first + 1..first + 20 {
            for kept in [0usize, 256, 257, 800, 1281, 2000] {
                if !stops_twice(alloc, history, bytes, [first, second], kept)? {
                    return Ok(Some(([first, second], kept)));
                }
            }
        }
    }
    Ok(None)
}

#[test]
fn stopped_twice(rt: HostRuntime) -> Result<(), Fail> {
    let alloc = rt.alloc();
    let bytes = bytes_of(alloc, &LINES)?;
    let history = history_of(alloc, RUN, 5)?;
    let not_whole = first_not_whole_twice(alloc, &history, &bytes);
    drop(history);
    assert_eq!(rt; not_whole?, None);
    Ok(())
}
