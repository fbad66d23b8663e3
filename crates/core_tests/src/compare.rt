//! Two boards are driven by the same calls, from a seed, and compared after each.
use board::Board;
use rand::RngExt;
use rand_pcg::Pcg32;
use rt_base::{ItemId, JobId, Op, Tick, TxId, Value};
use std::alloc::Global;
use std::collections::BTreeSet;
use step_journal::Entry;
use test_sets::{Call, Said, make, write_look};

// A place in a list of `count`, or 0 where it has none.
fn place(dice: &mut Pcg32, count: usize) -> usize {
    if count == 0 {
        0
    } else {
        dice.random_range(0..count)
    }
}

fn one_of(items: &[ItemId], dice: &mut Pcg32) -> ItemId {
    let at = place(dice, items.len());
    if at < items.len() {
        items[at]
    } else {
        ItemId(dice.random_range(0..300u32))
    }
}

// A tick near the present one, or now and then too far.
fn some_tick(now: Tick, dice: &mut Pcg32) -> Tick {
    if dice.random_range(0..12u64) == 0 {
        return 0x100_0000_0001;
    }
    now.saturating_add(dice.random_range(0..50u64))
        .saturating_sub(3)
}

// An operation that the job's transaction declares, more often than another.
fn some_op<B: Board>(board: &B, job: JobId, dice: &mut Pcg32) -> Op {
    let at = job.tx.0 as usize;
    let txns = board.set().txns();
    let kind = dice.random_range(0..32u64);
    if kind == 0 || at >= txns.len() {
        return Op::Read(ItemId(dice.random_range(0..300u32)));
    }
    let value = dice.random_range(0..1000u32) as Value;
    match kind {
        1 => Op::Quit,
        2 => Op::Write(ItemId(dice.random_range(0..300u32)), value),
        3..=12 => Op::Read(one_of(txns[at].reads.as_slice(), dice)),
        13..=20 => Op::Write(one_of(txns[at].writes.as_slice(), dice), value),
        21..=25 => Op::Compute,
        _ => Op::Commit,
    }
}

fn pending<B: Board>(board: &B, tx: TxId) -> Option<JobId> {
    if (tx.0 as usize) < board.set().txns().len() {
        board.pending(tx)
    } else {
        None
    }
}

fn some_call<B: Board>(board: &B, dice: &mut Pcg32) -> Call {
    let count = board.set().txns().len();
    let tx = TxId((place(dice, count) & 0xffff_ffff) as u32);
    let any = JobId {
        tx,
        serial: dice.random_range(0..4u32),
    };
    match dice.random_range(0..20u64) {
        0..=2 => Call::PlanNext(tx),
        3 => Call::Plan(tx, some_tick(board.now(), dice)),
        4 | 5 => Call::Idle,
        6 => Call::Step(pending(board, tx).unwrap_or(any), Op::Compute),
        _ => {
            let job = board.running().unwrap_or(any);
            Call::Step(job, some_op(board, job, dice))
        }
    }
}

/// The kinds of answers: what was said, without numbers.
pub type Kinds = BTreeSet<String>;

// Places for what two boards tell, and for what they hand out.
#[derive(Drop)]
struct Places {
    one: String,
    other: String,
    drained: Vec<Entry>,
    others: Vec<Entry>,
}

impl Places {
    fn new(alloc: Global) -> Option<Places> {
        let drained = Vec::with_capacity(alloc, 16).ok()?;
        let others = Vec::with_capacity(alloc, 16).ok()?;
        Some(Places {
            one: String::new(alloc),
            other: String::new(alloc),
            drained,
            others,
        })
    }

    // Whether the accessors of two boards answer alike.
    fn are_alike<A: Board, B: Board>(&mut self, a: &A, b: &B) -> Option<bool> {
        self.one.clear();
        self.other.clear();
        write_look(&mut self.one, a).ok()?;
        write_look(&mut self.other, b).ok()?;
        Some(a.entries() == b.entries() && self.one.as_str() == self.other.as_str())
    }

    // Whether both boards hand the same entries out, and are alike then.
    fn drain_alike<A: Board, B: Board>(
        &mut self,
        a: &mut A,
        b: &mut B,
        most: usize,
    ) -> Option<bool> {
        self.drained.clear();
        self.others.clear();
        let same = a.drain(most, &mut self.drained) == b.drain(most, &mut self.others);
        let same = same && self.drained.as_slice() == self.others.as_slice();
        Some(same && self.are_alike(a, b)?)
    }

    // Now and then both boards hand out entries, or let go of all: whether they are alike then.
    fn sometimes_drain<A: Board, B: Board>(
        &mut self,
        a: &mut A,
        b: &mut B,
        dice: &mut Pcg32,
    ) -> Option<bool> {
        if dice.random_range(0..12u64) != 0 {
            return Some(true);
        }
        match dice.random_range(0..16usize) {
            0 => {
                a.discard();
                b.discard();
                self.are_alike(a, b)
            }
            most => self.drain_alike(a, b, most),
        }
    }

    // Notes what was said, without its numbers.
    fn note_kind(&mut self, alloc: Global, said: Said, kinds: &mut Kinds) -> Option<()> {
        self.one.clear();
        write!(self.one, "{said:?}").ok()?;
        let letters = self.one.as_str().chars().filter(|c| !c.is_ascii_digit());
        let kind: String = letters.collect(alloc).ok()?;
        let _ = kinds.insert(kind).ok()?;
        Some(())
    }

    // One call on both boards: whether they answer alike, and are alike then.
    fn turn<A: Board, B: Board>(
        &mut self,
        alloc: Global,
        a: &mut A,
        b: &mut B,
        dice: &mut Pcg32,
        kinds: &mut Kinds,
    ) -> Option<bool> {
        let call = some_call(a, dice);
        let said = make(a, call);
        let same = make(b, call) == said;
        self.note_kind(alloc, said, kinds)?;
        Some(same && self.are_alike(a, b)?)
    }

    // So many turns of both boards at most. How many were alike.
    fn turns<A: Board, B: Board>(
        &mut self,
        alloc: Global,
        a: &mut A,
        b: &mut B,
        seed: u64,
        kinds: &mut Kinds,
    ) -> Option<u32> {
        let mut dice = Pcg32::new(seed, 1);
        for i in 0..3000 {
            if !self.sometimes_drain(a, b, &mut dice)?
                || !self.turn(alloc, a, b, &mut dice, kinds)?
            {
                return Some(i);
            }
        }
        Some(3000)
    }
}

// How many turns of two boards were alike.
fn alike<A: Board, B: Board>(
    alloc: Global,
    a: &mut A,
    b: &mut B,
    seed: u64,
    kinds: &mut Kinds,
) -> Option<u32> {
    let mut places = Places::new(alloc)?;
    let count = places.turns(alloc, a, b, seed, kinds);
    drop(places);
    count
}

// Whether two boards come to the same items and hand out the same entries.
fn end_alike<A: Board, B: Board>(a: A, b: B) -> bool {
    let (items, entries) = a.into_parts();
    let (other_items, other_entries) = b.into_parts();
    let same = items.as_slice() == other_items.as_slice();
    drop(items);
    drop(other_items);
    same && entries.as_slice() == other_entries.as_slice()
}

/// Drives two boards up to 3,000 turns, takes them apart, and writes how many turns were alike, and whether they came to the
/// same items and hand out the same entries.
pub fn compared<A: Board + Drop, B: Board + Drop>(
    alloc: Global,
    mut a: A,
    mut b: B,
    seed: u64,
    kinds: &mut Kinds,
    said: &mut String,
) -> Option<()> {
    let count = alike(alloc, &mut a, &mut b, seed, kinds);
    let same = end_alike(a, b);
    let count = count?;
    write!(said, "{count} turns alike, the parts {same}").ok()
}
