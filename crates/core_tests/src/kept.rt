//! Items, a journal, an out and releases.
ghost use Rattle.std.specs.Prelude.{◌≡◌};

use crate::words::tell;
use item_model::{ItemDecl, ItemKind, Items};
use rt_base::{ItemId, List, OutOfMemory, Tick, TxId, Value};
use sim_run::{EntryOut, KeptEntries, Stopped};
use std::alloc::Global;
use step_journal::{Entry, Journal};
use step_script::Releases;
use test_sets::{from_tick, plain_txn};

// How many items of two there are, the second at the start, and both after an install of -3 with the stamp 25 in the second.
fn items(alloc: Global) -> Result<(usize, [(Value, Tick); 3]), OutOfMemory> {
    let decls = [
        ItemDecl {
            kind: ItemKind::Sensor { validity: 20 },
            initial: 0,
        },
        ItemDecl {
            kind: ItemKind::State,
            initial: 7,
        },
    ];
    let mut items = Items::new(alloc, &decls)?;
    let second = items.get(ItemId(1));
    items.install(ItemId(1), -3, 25);
    let (one, other) = (items.get(ItemId(0)), items.get(ItemId(1)));
    Ok((items.len(), [second, one, other]))
}

fn planned(tick: Tick) -> Entry {
    Entry::Planned { tx: TxId(0), tick }
}

// What two drains of a journal of three entries tell: how many were drained, the first that is left and how many are left;
// and all that was drained.
fn journal(alloc: Global) -> Result<([(usize, u64, usize); 2], Vec<Entry>), OutOfMemory> {
    let mut journal = Journal::with_room(alloc, 3)?;
    journal.push(planned(0));
    journal.push(planned(1));
    journal.push(planned(2));
    let mut into = Vec::new(alloc);
    into.reserve(8)?;
    let two = journal.drain_into(2, &mut into);
    let first = (two, journal.first(), journal.len());
    let one = journal.drain_into(100, &mut into);
    let second = (one, journal.first(), journal.into_entries().len());
    Ok(([first, second], into))
}

// What an out that keeps answers to two pieces, and what it has then.
fn kept(
    alloc: Global,
) -> Result<(Result<(), Stopped>, Result<(), Stopped>, KeptEntries), OutOfMemory> {
    let mut out = KeptEntries::with_room(alloc, 3)?;
    let first = out.put([planned(0), planned(4)].as_slice());
    let second = out.put([planned(8)].as_slice());
    Ok((first, second, out))
}

// How many jobs there are of each kind of releases, whether they are eager, and the ticks of some, of a transaction with the
// period 20 that is first released at 5.
fn releases(alloc: Global) -> Result<([(u32, bool); 3], [Tick; 5]), OutOfMemory> {
    let listed = List::of(vec![in alloc; 3, 30, 99]?);
    let (reads, writes) = (List::of(Vec::new(alloc)), List::of(Vec::new(alloc)));
    let txn = from_tick(plain_txn(1, 20, 2, reads, writes), 5);
    let (at, jobs, eager) = (Releases::At(listed), Releases::Jobs(4), Releases::Eager(9));
    let counts = [
        (at.jobs(), at.is_eager()),
        (jobs.jobs(), jobs.is_eager()),
        (eager.jobs(), eager.is_eager()),
    ];
    let (first, last) = (at.tick(&txn, 0), at.tick(&txn, 2));
    let spaced = [jobs.tick(&txn, 0), jobs.tick(&txn, 1), jobs.tick(&txn, 3)];
    drop(at);
    drop(txn);
    Ok((counts, [first, last, spaced[0], spaced[1], spaced[2]]))
}

// Writes what an out that keeps answers.
fn write_kept(alloc: Global, said: &mut String) -> Option<()> {
    let (first, second, out) = kept(alloc).ok()?;
    let written = write!(said, "{first:?} {second:?} {:?}", out.as_slice());
    drop(out);
    written.ok()
}

/// Writes what comes of a line.
pub fn try_kept(alloc: Global, word: &str, said: &mut String) -> Option<()> {
    match word {
        "items" => tell(said, items(alloc)),
        "journal" => tell(said, journal(alloc)),
        "releases" => tell(said, releases(alloc)),
        _ => write_kept(alloc, said),
    }
}
