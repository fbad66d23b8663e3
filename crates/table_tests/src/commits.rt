//! A job's reads, writes and commit: worked commits, and many beside a plain scan.
ghost use Rattle.std.specs.Prelude.{◌≡◌, ◌<◌, [], ◌∷◌, IfOk};

use item_model::{ItemDecl, ItemKind, Items, Stored};
use rand::RngExt;
use rand_pcg::Pcg32;
use rt_base::{ItemId, List, OutOfMemory, Tick, TogetherDecl, Value};
use std::alloc::Global;
use std::slice;
use strict_commit::{ApartRead, CommitRefused, StaleRead, Work};

const TEMP: ItemId = ItemId(0);

const FLOW: ItemId = ItemId(1);

const MEAN: ItemId = ItemId(2);

const VALVE: ItemId = ItemId(3);

const SENSOR: ItemDecl = ItemDecl {
    kind: ItemKind::Sensor { validity: 20 },
    initial: 0,
};

const DECLS: [ItemDecl; 4] = [
    SENSOR,
    SENSOR,
    ItemDecl {
        kind: ItemKind::Derived { validity: 20 },
        initial: 0,
    },
    ItemDecl {
        kind: ItemKind::State,
        initial: 9,
    },
];

// A relative set of two items.
fn group(
    alloc: Global,
    first: ItemId,
    second: ItemId,
    within: Tick,
) -> Result<TogetherDecl, OutOfMemory> {
    let items = List::of(Vec::from_array(alloc, [first, second])?);
    Ok(TogetherDecl { items, within })
}

// A job that may read the temperature, the flow and the mean, and write the mean and the valve, and has done neither.
fn fresh(alloc: Global) -> Result<Work, OutOfMemory>
    ensures reads { IfOk result (λ w. w.may_read ≡ TEMP ∷ FLOW ∷ MEAN ∷ []) }
    ensures writes { IfOk result (λ w. w.may_write ≡ MEAN ∷ VALVE ∷ []) }
{
    let reads = Vec::from_array(alloc, [TEMP, FLOW, MEAN])?;
    let writes = Vec::from_array(alloc, [MEAN, VALVE])?;
    Work::new(alloc, reads, writes)
}

// How a job that was released at 10 ends by its commit at a tick, and the mean after it.
fn end_of(
    alloc: Global,
    work: &Work,
    at: Tick,
) -> Result<(Result<(), CommitRefused>, Option<Stored>), OutOfMemory>
    requires { work.now.may_write ≡ MEAN ∷ VALVE ∷ [] }
{
    let mut items = Items::new(alloc, &DECLS)?;
    match group(alloc, TEMP, FLOW, 5) {
        Ok(pair) => {
            let together = slice::from_ref(&pair);
            let ended = work.commit(&DECLS, together, &mut items, 10, at);
            let mean = items.as_slice().get(2).copied();
            drop(pair);
            drop(items);
            Ok((ended, mean))
        }
        Err(error) => {
            drop(items);
            Err(error)
        }
    }
}

// A job that was released at 10 reads the temperature and the flow with these stamps, writes their mean, and commits at a
// tick: how it ended, and the mean after it.
fn ended(
    alloc: Global,
    temp: Tick,
    flow: Tick,
    at: Tick,
) -> Result<(Result<(), CommitRefused>, Option<Stored>), OutOfMemory> {
    let mut work = fresh(alloc)?;
    work.note_read(TEMP, temp);
    work.note_read(FLOW, flow);
    work.put(MEAN, 4);
    let told = end_of(alloc, &work, at);
    drop(work);
    told
}

fn stale_at(item: ItemId, stamp: Tick) -> Result<(), CommitRefused> {
    Err(CommitRefused::Stale(StaleRead { item, stamp }))
}

#[test]
fn commits(rt: HostRuntime) -> Result<(), OutOfMemory> {
    let alloc = rt.alloc();
    let apart = Err(CommitRefused::Apart(ApartRead { a: FLOW, b: TEMP }));
    for (temp, flow, at, want) in [
        (7, 5, 28, stale_at(TEMP, 7)),
        (9, 5, 26, stale_at(FLOW, 5)),
        (12, 5, 20, apart),
        (12, 5, 33, stale_at(TEMP, 12)),
    ] {
        let before = Stored { value: 0, stamp: 0 };
        assert!(rt; ended(alloc, temp, flow, at)? == (want, Some(before)));
    }
    let after = Stored { value: 4, stamp: 5 };
    assert!(rt; ended(alloc, 7, 5, 20)? == (Ok(()), Some(after)));
    Ok(())
}

// How a job that was released at 10 ends by its commit at 15, where all that it may read is one relative set, whose items
// stand in falling order.
fn end_of_falling(alloc: Global, work: &Work) -> Result<Result<(), CommitRefused>, OutOfMemory>
    requires { work.now.may_write ≡ MEAN ∷ VALVE ∷ [] }
{
    let mut items = Items::new(alloc, &DECLS)?;
    let Ok(falling) = Vec::from_array(alloc, [MEAN, FLOW, TEMP]) else {
        drop(items);
        return Err(OutOfMemory);
    };
    let group = TogetherDecl {
        items: List::of(falling),
        within: 5,
    };
    let ended = work.commit(&DECLS, slice::from_ref(&group), &mut items, 10, 15);
    drop(group);
    drop(items);
    Ok(ended)
}

// Of equally old reads the first in item order is named, and not the first of the relative set.
#[test]
fn falling_items(rt: HostRuntime) -> Result<(), OutOfMemory> {
    for (flow, mean, a, b) in [(5, 12, TEMP, MEAN), (12, 12, TEMP, FLOW)] {
        let mut work = fresh(rt.alloc())?;
        work.note_read(TEMP, 5);
        work.note_read(FLOW, flow);
        work.note_read(MEAN, mean);
        work.put(MEAN, 4);
        let told = end_of_falling(rt.alloc(), &work);
        drop(work);
        assert!(rt; told? == Err(CommitRefused::Apart(ApartRead { a, b })));
    }
    Ok(())
}

#[test]
fn notes(rt: HostRuntime) -> Result<(), OutOfMemory> {
    let mut work = fresh(rt.alloc())?;
    assert!(rt; work.unwritten(&DECLS) == Some(MEAN));
    work.put(MEAN, 4);
    work.put(VALVE, 1);
    work.put(MEAN, 5);
    assert!(rt; work.value_of(MEAN) == Some(5));
    assert!(rt; work.unwritten(&DECLS) == None);
    work.clear();
    assert!(rt; work.value_of(VALVE) == None);
    drop(work);
    Ok(())
}

// A job of the plain scan may read the temperature, the flow and the mean, and write the mean and the valve: the stamps of
// its reads, and the values of its writes.
#[derive(Clone, Copy)]
struct Plain {
    reads: [Option<Tick>; 3],
    writes: [Option<Value>; 2],
}

// No read is older than 20 ticks, in the order of the declared reads.
fn stale(plain: &Plain, at: Tick) -> Option<CommitRefused> {
    for place in 0..3 {
        if let Some(stamp) = plain.reads[place as usize] {
            if at.saturating_sub(stamp) > 20 {
                let item = ItemId(place);
                return Some(CommitRefused::Stale(StaleRead { item, stamp }));
            }
        }
    }
    None
}

// Temperature and flow lie within 6, and flow and mean within 8.
fn apart(plain: &Plain) -> Option<CommitRefused> {
    for (place, within) in [6, 8].iter().enumerate() {
        let (first, second) = (plain.reads[place], plain.reads[place + 1]);
        if let (Some(one), Some(other)) = (first, second) {
            let (a, b) = (ItemId(place as u32), ItemId(place as u32 + 1));
            if other.saturating_sub(one) > *within {
                return Some(CommitRefused::Apart(ApartRead { a, b }));
            }
            if one.saturating_sub(other) > *within {
                return Some(CommitRefused::Apart(ApartRead { a: b, b: a }));
            }
        }
    }
    None
}

fn committed(
    plain: &Plain,
    items: &mut [Stored; 4],
    release: Tick,
    at: Tick,
) -> Result<(), CommitRefused> {
    if let Some(refused) = stale(plain, at).or(apart(plain)) {
        return Err(refused);
    }
    let mut oldest = None;
    for read in 0..3 {
        if let Some(stamp) = plain.reads[read] {
            oldest = Some(stamp.min(oldest.unwrap_or(stamp)));
        }
    }
    if let Some(value) = plain.writes[0] {
        let stamp = oldest.unwrap_or(release);
        items[2] = Stored { value, stamp };
    }
    if let Some(value) = plain.writes[1] {
        let stamp = release;
        items[3] = Stored { value, stamp };
    }
    Ok(())
}

// A note of both.
fn note(work: &mut Work, plain: &mut Plain, what: usize, stamp: Tick, value: Value)
    requires what { what < 5 }
    requires reads { work.old.may_read ≡ TEMP ∷ FLOW ∷ MEAN ∷ [] }
    requires writes { work.old.may_write ≡ MEAN ∷ VALVE ∷ [] }
    ensures reads { work.new.may_read ≡ work.old.may_read }
    ensures writes { work.new.may_write ≡ work.old.may_write }
{
    match what {
        0 => work.note_read(TEMP, stamp),
        1 => work.note_read(FLOW, stamp),
        2 => work.note_read(MEAN, stamp),
        3 => work.put(MEAN, value),
        _ => work.put(VALVE, value),
    }
    if what < 3 {
        plain.reads[what] = plain.reads[what].or(Some(stamp));
    } else {
        plain.writes[what - 3] = Some(value);
    }
}

// Some notes of a job, on both: whether they tell the same after each.
fn noted(work: &mut Work, plain: &mut Plain, rng: &mut Pcg32, release: Tick) -> bool
    requires reads { work.old.may_read ≡ TEMP ∷ FLOW ∷ MEAN ∷ [] }
    requires writes { work.old.may_write ≡ MEAN ∷ VALVE ∷ [] }
    ensures reads { work.new.may_read ≡ work.old.may_read }
    ensures writes { work.new.may_write ≡ work.old.may_write }
{
    let mut same = true;
    for value in 0..rng.random_range(0..8u64) {
        let what = rng.random_range(0..5usize);
        let stamp = release.saturating_sub(rng.random_range(0..12u64));
        note(work, plain, what, stamp, value as Value);
        same = same
            && work.value_of(MEAN) == plain.writes[0]
            && work.value_of(VALVE) == plain.writes[1]
            && work.unwritten(&DECLS).is_none() == plain.writes[0].is_some();
    }
    same
}

// Whether a job that is released at a tick notes, and ends at another, as the plain one does.
fn alike(
    work: &mut Work,
    items: &mut Items,
    together: &[TogetherDecl],
    stored: &mut [Stored; 4],
    rng: &mut Pcg32,
    release: Tick,
) -> bool
    requires reads { work.old.may_read ≡ TEMP ∷ FLOW ∷ MEAN ∷ [] }
    requires writes { work.old.may_write ≡ MEAN ∷ VALVE ∷ [] }
    ensures reads { work.new.may_read ≡ work.old.may_read }
    ensures writes { work.new.may_write ≡ work.old.may_write }
{
    work.clear();
    let mut plain = Plain {
        reads: [None; 3],
        writes: [None; 2],
    };
    let told = noted(work, &mut plain, rng, release);
    let at = release.saturating_add(rng.random_range(0..16u64));
    let ended = work.commit(&DECLS, together, items, release, at);
    let wanted = committed(&plain, stored, release, at);
    told && ended == wanted && items.as_slice() == stored.as_slice()
}

// The call of 300 at which they are not alike, if there is one.
fn first_unlike(work: &mut Work, items: &mut Items, together: &[TogetherDecl]) -> Option<u32>
    requires reads { work.old.may_read ≡ TEMP ∷ FLOW ∷ MEAN ∷ [] }
    requires writes { work.old.may_write ≡ MEAN ∷ VALVE ∷ [] }
{
    let mut stored = [Stored { value: 0, stamp: 0 }; 4];
    stored[3].value = 9;
    let mut rng = Pcg32::new(1, 1);
    let mut release = 30;
    for call in 0..300 {
        if !alike(work, items, together, &mut stored, &mut rng, release) {
            return Some(call);
        }
        release = release.saturating_add(rng.random_range(0..9u64));
    }
    None
}

// Temperature and flow lie within 6, and flow and mean within 8.
fn groups(alloc: Global) -> Result<Vec<TogetherDecl>, OutOfMemory> {
    let mut groups = Vec::new(alloc);
    groups.push(group(alloc, TEMP, FLOW, 6)?)?;
    groups.push(group(alloc, FLOW, MEAN, 8)?)?;
    Ok(groups)
}

// The first call over new items and two relative sets on which the two differ.
fn unlike_over_items(alloc: Global, work: &mut Work) -> Result<Option<u32>, OutOfMemory>
    requires reads { work.old.may_read ≡ TEMP ∷ FLOW ∷ MEAN ∷ [] }
    requires writes { work.old.may_write ≡ MEAN ∷ VALVE ∷ [] }
{
    let mut items = Items::new(alloc, &DECLS)?;
    match groups(alloc) {
        Ok(together) => {
            let unlike = first_unlike(work, &mut items, &together);
            drop(together);
            drop(items);
            Ok(unlike)
        }
        Err(error) => {
            drop(items);
            Err(error)
        }
    }
}

#[test]
fn beside_a_plain_scan(rt: HostRuntime) -> Result<(), OutOfMemory> {
    let mut work = fresh(rt.alloc())?;
    let unlike = unlike_over_items(rt.alloc(), &mut work);
    drop(work);
    assert!(rt; unlike? == None);
    Ok(())
}
