//! Waits and the running job: worked calls at a concrete ledger, and many calls beside a plain scan.
ghost use Rattle.std.specs.Prelude.{◌≡◌, ◌≢◌, ℕ, ◌<◌, ◌≤◌, true, length, None, Some, IfOk};
ghost use Rattle.rt_base.specs.Ranks.{has_rank};
ghost use Rattle.inherit_prio.specs.Waits.{on_of};

use dispatch_core::dispatched;
use inherit_prio::Waits;
use rand::RngExt;
use rand_pcg::Pcg32;
use rt_base::{OutOfMemory, Prio, RankSet, Steps, TxId};
use std::alloc::Global;
use std::marker::Brand;
use std::sync::ledger::{Blank, Ledger};

// On whom a transaction waits, what priority it has, who has its rank, and whose job runs where these ranks are pending.
fn asked<L: Ledger>(
    waits: &Waits,
    pending: RankSet,
    tx: TxId,
    blank: Blank,
) -> (Option<TxId>, Prio, TxId, Option<TxId>)
    requires name { blank.name ≡ L.name }
    requires parts { blank.parts ≡ L.parts }
    requires one_part { blank.parts ≡ 1 }
    requires tx { tx.0 < length waits.now.prios }
    requires ranks { (rank : ℕ) → has_rank pending rank ≡ true → rank < length waits.now.prios }
{
    let mut steps = Steps::<L>::start(blank);
    let on = waits.waits_on(tx, &mut steps);
    let prio = waits.effective(tx, &mut steps);
    let rank = waits.rank(tx);
    let at = waits.tx_at(rank, &mut steps);
    (on, prio, at, dispatched(pending, waits, &mut steps))
}

const LOW: TxId = TxId(0);

const HIGH: TxId = TxId(1);

const MIDDLE: TxId = TxId(2);

// A call on three transactions, or what is told at one of them where these have pending jobs: on whom it waits, what priority
// it has, who has its rank, and whose job runs.
#[derive(Clone, Copy)]
enum Row {
    Block(TxId, TxId),
    Free(TxId),
    Ask([bool; 3], TxId, (Option<TxId>, Prio, TxId, Option<TxId>)),
}

use Row::{Ask, Block, Free};

// The low transaction blocks the high one, and runs before the middle one, which stands by.
const BYSTANDER: [Row; 4] = [
    Ask([false, false, false], LOW, (None, 1, LOW, None)),
    Ask([true, false, true], LOW, (None, 1, LOW, Some(MIDDLE))),
    Block(HIGH, LOW),
    Ask([true, true, true], LOW, (None, 3, LOW, Some(LOW))),
];

const TWO_WAIT: [Row; 8] = [
    Block(HIGH, LOW),
    Block(MIDDLE, LOW),
    Ask([false, false, false], LOW, (None, 3, LOW, None)),
    Ask([false, false, false], HIGH, (Some(LOW), 3, HIGH, None)),
    Ask([false, false, false], MIDDLE, (Some(LOW), 2, MIDDLE, None)),
    Free(LOW),
    Ask([false, false, false], LOW, (None, 1, LOW, None)),
    Ask([false, false, false], HIGH, (None, 3, HIGH, None)),
];

// The set of the ranks of the pending ones.
fn ranks_of(waits: &Waits, pending: [bool; 3]) -> RankSet
    requires { length waits.now.prios ≡ 3 }
    ensures { (rank : ℕ) → has_rank result rank ≡ true → rank < 3 }
{
    let mut ranks = RankSet::empty();
    for tx in 0..3 {
        if pending[tx as usize] {
            ranks = ranks.with(waits.rank(TxId(tx)));
        }
    }
    ranks
}

// Blocks one transaction on another, where the table allows it.
fn blocks(waits: &mut Waits, count: u32, tx: TxId, on: TxId) -> bool
    requires size { length waits.old.prios ≡ count }
    requires beyond { (t : ℕ) → count ≤ t → on_of waits.old.on t ≡ None }
    requires tx { tx.0 < count }
    requires on { on.0 < count }
    ensures prios { waits.new.prios ≡ waits.old.prios }
    ensures beyond { (t : ℕ) → count ≤ t → on_of waits.new.on t ≡ None }
{
    if !may_block::<Brand>(waits, count, tx, on, Blank::new(1)) {
        return false;
    }
    waits.block(tx, on);
    true
}

// Whether a call is made, or what is told is as it stands in the row.
fn holds(waits: &mut Waits, row: Row) -> bool
    requires size { length waits.old.prios ≡ 3 }
    requires beyond { (t : ℕ) → 3 ≤ t → on_of waits.old.on t ≡ None }
    ensures prios { waits.new.prios ≡ waits.old.prios }
    ensures beyond { (t : ℕ) → 3 ≤ t → on_of waits.new.on t ≡ None }
{
    match row {
        Block(tx, on) => tx.0 < 3 && on.0 < 3 && blocks(waits, 3, tx, on),
        Free(tx) => {
            if tx.0 < 3 {
                waits.free(tx);
            }
            tx.0 < 3
        }
        Ask(pending, tx, want) => {
            let ranks = ranks_of(waits, pending);
            tx.0 < 3 && asked::<Brand>(waits, ranks, tx, Blank::new(1)) == want
        }
    }
}

fn three(alloc: Global) -> Result<Waits, OutOfMemory>
    ensures size { IfOk result (λ w. length w.prios ≡ 3) }
    ensures nobody { IfOk result (λ w. (t : ℕ) → on_of w.on t ≡ None) }
{
    let prios = Vec::from_array(alloc, [1, 3, 2])?;
    Waits::new(alloc, prios)
}

#[test]
fn bystander(rt: HostRuntime) -> Result<(), OutOfMemory> {
    let mut waits = three(rt.alloc())?;
    for row in BYSTANDER {
        assert!(rt; holds(&mut waits, row));
    }
    drop(waits);
    Ok(())
}

#[test]
fn two_wait(rt: HostRuntime) -> Result<(), OutOfMemory> {
    let mut waits = three(rt.alloc())?;
    for row in TWO_WAIT {
        assert!(rt; holds(&mut waits, row));
    }
    drop(waits);
    Ok(())
}

const PRIOS: [Prio; 5] = [4, 9, 2, 7, 5];

// Whether one may wait on the other: neither waits, and nobody waits on the first.
fn may_wait(ons: &[Option<TxId>; 5], tx: TxId, on: TxId) -> bool
    requires { (tx.0 < 5) × (on.0 < 5) }
{
    let mut may = tx != on && ons[tx.0 as usize].is_none() && ons[on.0 as usize].is_none();
    for t in 0..5 {
        may = may && ons[t] != Some(tx);
    }
    may
}

// The greatest priority of a transaction and of those that wait on it.
fn effective(ons: &[Option<TxId>; 5], tx: TxId) -> Prio
    requires { tx.0 < 5 }
{
    let mut greatest = PRIOS[tx.0 as usize];
    for t in 0..5 {
        if ons[t] == Some(tx) {
            greatest = greatest.max(PRIOS[t]);
        }
    }
    greatest
}

// The highest pending one, or the one on which that waits.
fn running(ons: &[Option<TxId>; 5], pending: &[bool; 5]) -> Option<TxId> {
    let mut highest = 0;
    let mut runs = None;
    for tx in 0..5 {
        if pending[tx as usize] && PRIOS[tx as usize] >= highest {
            highest = PRIOS[tx as usize];
            runs = ons[tx as usize].or(Some(TxId(tx)));
        }
    }
    runs
}

// Whether the table of so many transactions tells that one may wait on the other.
fn may_block<L: Ledger>(waits: &Waits, count: u32, tx: TxId, on: TxId, blank: Blank) -> bool
    requires name { blank.name ≡ L.name }
    requires parts { blank.parts ≡ L.parts }
    requires one_part { blank.parts ≡ 1 }
    requires size { length waits.now.prios ≡ count }
    requires beyond { (t : ℕ) → count ≤ t → on_of waits.now.on t ≡ None }
    requires tx { tx.0 < count }
    requires on { on.0 < count }
    ensures differ { result ≡ true → tx.0 ≢ on.0 }
    ensures free { result ≡ true → on_of waits.now.on tx.0 ≡ None }
    ensures on_free { result ≡ true → on_of waits.now.on on.0 ≡ None }
    ensures no_waiters { result ≡ true → (t : ℕ) → on_of waits.now.on t ≢ Some tx }
{
    let mut steps = Steps::<L>::start(blank);
    if tx.0 == on.0 {
        return false;
    }
    if let Some(_) = waits.waits_on(tx, &mut steps) {
        return false;
    }
    if let Some(_) = waits.waits_on(on, &mut steps) {
        return false;
    }
    for t in 0..count {
        if let Some(other) = waits.waits_on(TxId(t), &mut steps) {
            if other.0 == tx.0 {
                return false;
            }
        }
    }
    true
}

// One call on both, where they allow it, and whether both allow it.
fn change(waits: &mut Waits, ons: &mut [Option<TxId>; 5], frees: bool, tx: TxId, on: TxId) -> bool
    requires size { length waits.old.prios ≡ 5 }
    requires beyond { (t : ℕ) → 5 ≤ t → on_of waits.old.on t ≡ None }
    requires tx { tx.0 < 5 }
    requires on { on.0 < 5 }
    ensures prios { waits.new.prios ≡ waits.old.prios }
    ensures beyond { (t : ℕ) → 5 ≤ t → on_of waits.new.on t ≡ None }
{
    if frees {
        waits.free(tx);
        for t in 0..5 {
            if t == tx.0 as usize || ons[t] == Some(tx) {
                ons[t] = None;
            }
        }
        return true;
    }
    let both = may_wait(ons, tx, on);
    if !blocks(waits, 5, tx, on) {
        return !both;
    }
    ons[tx.0 as usize] = Some(on);
    both
}

// Some of the transactions by lot, and the set of their ranks.
fn some(waits: &Waits, rng: &mut Pcg32) -> (RankSet, [bool; 5])
    requires { length waits.now.prios ≡ 5 }
    ensures { (rank : ℕ) → has_rank result.0 rank ≡ true → rank < 5 }
{
    let mut ranks = RankSet::empty();
    let mut chosen = [false; 5];
    for tx in 0..5 {
        if rng.random_range(0..2u64) == 0 {
            chosen[tx as usize] = true;
            ranks = ranks.with(waits.rank(TxId(tx)));
        }
    }
    (ranks, chosen)
}

#[test]
fn beside_a_plain_scan(rt: HostRuntime) -> Result<(), OutOfMemory> {
    let mut waits = five(rt.alloc())?;
    let mut ons = [None; 5];
    let mut rng = Pcg32::new(1, 1);
    for call in 0..400 {
        let frees = rng.random_range(0..4u64) == 0;
        let tx = TxId(rng.random_range(0..5u32));
        let on = TxId(rng.random_range(0..5u32));
        assert!(rt; change(&mut waits, &mut ons, frees, tx, on), "call {call}");
        let (ranks, pending) = some(&waits, &mut rng);
        let runs = running(&ons, &pending);
        for t in 0..5 {
            let want = (ons[t as usize], effective(&ons, TxId(t)), TxId(t), runs);
            let told = asked::<Brand>(&waits, ranks, TxId(t), Blank::new(1));
            assert!(rt; told == want, "call {call}");
        }
    }
    drop(waits);
    Ok(())
}

fn five(alloc: Global) -> Result<Waits, OutOfMemory>
    ensures size { IfOk result (λ w. length w.prios ≡ 5) }
    ensures nobody { IfOk result (λ w. (t : ℕ) → on_of w.on t ≡ None) }
{
    let prios = Vec::from_array(alloc, PRIOS)?;
    Waits::new(alloc, prios)
}
