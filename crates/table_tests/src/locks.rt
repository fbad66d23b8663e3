//! Locks: worked runs at a concrete ledger, and many calls beside a plain scan.
ghost use Rattle.std.specs.Prelude.{◌≡◌, ℕ, ◌+◌, ◌<◌, length, slice_index_or, IfOk};

use ceiling_table::{Above, CeilRow, Held, LockKind};
use rand::RngExt;
use rand_pcg::Pcg32;
use rt_base::{ItemId, Op, OutOfMemory, Prio, Steps, TxId};
use std::alloc::Global;
use std::marker::Brand;
use std::sync::ledger::{Blank, Ledger};

fn asked<L: Ledger>(held: &Held, tx: TxId, blank: Blank) -> Result<(), Above>
    requires name { blank.name ≡ L.name }
    requires parts { blank.parts ≡ L.parts }
    requires one_part { blank.parts ≡ 1 }
    requires tx { tx.0 < length held.now.prios }
{
    let mut steps = Steps::<L>::start(blank);
    held.grantable(tx, &mut steps)
}

const ITEMS: [CeilRow; 4] = [
    CeilRow {
        write: 3,
        absolute: 3,
    },
    CeilRow {
        write: 2,
        absolute: 2,
    },
    CeilRow {
        write: 1,
        absolute: 3,
    },
    CeilRow {
        write: 0,
        absolute: 2,
    },
];

const PRIOS: [Prio; 3] = [3, 2, 1];

// Nothing is locked, of these items and of transactions with these priorities.
fn unlocked(alloc: Global) -> Result<Held, OutOfMemory>
    ensures items { IfOk result (λ h. length h.ceilings ≡ 4) }
    ensures txns { IfOk result (λ h. length h.prios ≡ 3) }
{
    let items = Vec::from_array(alloc, ITEMS)?;
    let prios = Vec::from_array(alloc, PRIOS)?;
    Held::new(alloc, items, prios)
}

// A lock that is added, or the end of a job for Free.
fn act(held: &mut Held, what: LockKind, tx: u32, item: u32)
    requires txns { length held.old.prios ≡ 3 }
    requires items { length held.old.ceilings ≡ 4 }
    requires given { (tx < 3) × (item < 4) }
    ensures prios { held.new.prios ≡ held.old.prios }
    ensures ceilings { held.new.ceilings ≡ held.old.ceilings }
{
    match what {
        LockKind::Read => held.lock_read(TxId(tx), ItemId(item)),
        LockKind::Write => held.lock_write(TxId(tx), ItemId(item)),
        LockKind::Free => held.release_all(TxId(tx)),
    }
}

// A transaction, a lock that it asks for or Free where its job ends, the item, and whether the lock is granted.
type Row = (u32, LockKind, u32, bool);

use LockKind::{Free, Read, Write};

// The locks of three runs, in their order; each is asked for, and added where it is granted. The first is of a sampler, a
// controller and a logger, which write the temperature (item 0); read it and write the valve (item 1); and read both, whose
// second lock raises the only row. In the others the first and the second read an item (item 2) that the third may write,
// and then that the third has written.
// Own locks do not count; an equal ceiling and a write lock refuse, and readers share.
const RUNS: [Row; 26] = [
    (0, Write, 0, true),
    (0, Free, 0, true),
    (1, Read, 0, true),
    (1, Write, 1, true),
    (1, Free, 0, true),
    (2, Read, 1, true),
    (2, Read, 0, true),
    (0, Write, 0, false),
    (2, Free, 0, true),
    (0, Write, 0, true),
    (0, Free, 0, true),
    (0, Write, 0, true),
    (0, Free, 0, true),
    (1, Read, 0, true),
    (1, Write, 1, true),
    (1, Free, 0, true),
    (0, Write, 0, true),
    (0, Free, 0, true),
    (1, Read, 2, true),
    (0, Read, 2, true),
    (0, Free, 0, true),
    (1, Free, 0, true),
    (2, Write, 2, true),
    (0, Read, 2, false),
    (2, Free, 0, true),
    (0, Read, 2, true),
];

// Whether a lock is answered as it stands in the row. A lock that is granted is added, and a refusal is by the third
// transaction's lock, of ceiling 3.
fn holds(held: &mut Held, row: Row) -> bool
    requires txns { length held.old.prios ≡ 3 }
    requires items { length held.old.ceilings ≡ 4 }
    ensures prios { held.new.prios ≡ held.old.prios }
    ensures ceilings { held.new.ceilings ≡ held.old.ceilings }
{
    let (tx, what, item, granted) = row;
    if tx >= 3 || item >= 4 {
        return false;
    }
    let answer = if what == Free {
        Ok(())
    } else {
        asked::<Brand>(held, TxId(tx), Blank::new(1))
    };
    if answer.is_ok() {
        act(held, what, tx, item);
        return granted;
    }
    let above = Above {
        holder: TxId(2),
        ceiling: 3,
    };
    !granted && answer == Err(above)
}

#[test]
fn runs(rt: HostRuntime) -> Result<(), OutOfMemory> {
    let mut held = unlocked(rt.alloc())?;
    for row in RUNS {
        assert!(rt; holds(&mut held, row));
    }
    drop(held);
    Ok(())
}

// The ceiling of a lock of this kind on the item.
fn ceiling(kind: LockKind, item: usize) -> Option<Prio>
    requires { item < 4 }
{
    match kind {
        LockKind::Free => None,
        LockKind::Read => Some(ITEMS[item].write),
        LockKind::Write => Some(ITEMS[item].absolute),
    }
}

// The greatest ceiling of a transaction's locks.
fn greatest(locks: &[[LockKind; 4]; 3], tx: usize) -> Option<Prio>
    requires { tx < 3 }
{
    let mut top = None;
    for item in 0..4 {
        top = top.max(ceiling(locks[tx][item], item));
    }
    top
}

// The greatest ceiling of a lock of another, with the highest holder of a lock with it: the holders stand in falling priority.
fn refusal(locks: &[[LockKind; 4]; 3], tx: usize) -> Result<(), Above>
    requires { tx < 3 }
{
    let mut top = None;
    let mut holder = 0;
    for other in 0..3 {
        let of_other = greatest(locks, other as usize);
        if other as usize != tx && of_other > top {
            top = of_other;
            holder = other;
        }
    }
    match top {
        Some(ceiling) if ceiling >= PRIOS[tx] => Err(Above {
            holder: TxId(holder),
            ceiling,
        }),
        _ => Ok(()),
    }
}

// Whether both answer alike what one may ask of a transaction and an item.
fn alike(held: &Held, locks: &[[LockKind; 4]; 3], tx: u32, item: u32) -> bool
    requires txns { length held.now.prios ≡ 3 }
    requires items { length held.now.ceilings ≡ 4 }
    requires asked { (tx < 3) × (item < 4) }
{
    let id = TxId(tx);
    let kind = locks[tx as usize][item as usize];
    asked::<Brand>(held, id, Blank::new(1)) == refusal(locks, tx as usize)
        && held.ceiling_of(id) == greatest(locks, tx as usize).unwrap_or(0)
        && held.needs(id, Op::Read(ItemId(item))) == (kind == LockKind::Free)
        && held.needs(id, Op::Write(ItemId(item), 1)) == (kind != LockKind::Write)
}

#[test]
fn beside_a_plain_scan(rt: HostRuntime) -> Result<(), OutOfMemory> {
    let mut held = unlocked(rt.alloc())?;
    let mut locks = [[LockKind::Free; 4]; 3];
    let mut rng = Pcg32::new(1, 1);
    for call in 0..400 {
        let what = rng.random_range(0..4u64);
        let tx = rng.random_range(0..3u32);
        let item = rng.random_range(0..4u32);
        let was = locks[tx as usize][item as usize];
        let kind = if what == 0 {
            LockKind::Write
        } else if what == 1 {
            LockKind::Free
        } else {
            LockKind::Read
        };
        act(&mut held, kind, tx, item);
        if kind == LockKind::Free {
            locks[tx as usize] = [LockKind::Free; 4];
        } else if was != LockKind::Write {
            locks[tx as usize][item as usize] = kind;
        }
        for other in 0..3 {
            assert!(rt; alike(&held, &locks, other, item), "call {call}");
        }
    }
    drop(held);
    Ok(())
}

fn sixty_four(alloc: Global) -> Result<Vec<Prio>, OutOfMemory>
    ensures size { IfOk result (λ prios. length prios.items ≡ 64) }
    ensures prios { IfOk result (λ prios. (i : ℕ) → i < 64 → slice_index_or prios.items i 0 ≡ i + 1) }
{
    let mut prios = Vec::new(alloc);
    for tx in 0..64 {
        prios.push(tx + 1)?;
    }
    Ok(prios)
}

// Nothing is locked, of one item that is only read and of as many transactions as there may be.
fn most_unlocked(alloc: Global) -> Result<Held, OutOfMemory>
    ensures items { IfOk result (λ h. length h.ceilings ≡ 1) }
    ensures txns { IfOk result (λ h. length h.prios ≡ 64) }
{
    let only_read = CeilRow {
        write: 0,
        absolute: 64,
    };
    let prios = sixty_four(alloc)?;
    let items = Vec::from_array(alloc, [only_read])?;
    Held::new(alloc, items, prios)
}

// Read locks of all of them have the ceiling 0.
#[test]
fn ranks(rt: HostRuntime) -> Result<(), OutOfMemory> {
    let mut held = most_unlocked(rt.alloc())?;
    for tx in 0..64 {
        held.lock_read(TxId(tx), ItemId(0));
    }
    assert!(rt; asked::<Brand>(&held, TxId(0), Blank::new(1)) == Ok(()));
    assert_eq!(rt; held.ceiling_of(TxId(63)), 0);
    drop(held);
    Ok(())
}
