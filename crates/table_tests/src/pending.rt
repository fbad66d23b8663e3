//! Worked steps of two readers and a writer of one state item.
ghost use Rattle.std.specs.Prelude.{◌≡◌, IfOk};
ghost use Rattle.core_tables.specs.Rows.{AreRows};
ghost use Rattle.table_tests.specs.Trio.{trio as trio_of, trio_stored, no_rows, written_rows, read_rows, last_rows};

use crate::trio::trio;
use core_tables::{Blocker, Pending};
use item_model::{Items, Stored};
use rt_base::{ItemId, JobId, Op, OutOfMemory, TxId, Value};
use std::alloc::Global;

const HIGH: TxId = TxId(0);

const MIDDLE: TxId = TxId(1);

const LOW: TxId = TxId(2);

const X: ItemId = ItemId(0);

fn first_of(tx: TxId) -> JobId
    ensures { result ≡ record { tx = tx; serial = 0 } }
{
    JobId { tx, serial: 0 }
}

fn stored(alloc: Global) -> Result<Items, OutOfMemory>
    ensures { IfOk result (λ i. i ≡ trio_stored) }
{
    let mut items = Vec::new(alloc);
    items.push(Stored { value: 0, stamp: 0 })?;
    Ok(Items::of(items))
}

fn none_pending(alloc: Global) -> Result<Pending, OutOfMemory>
    ensures { IfOk result (λ p. AreRows trio_of p no_rows) }
{
    let set = trio(alloc)?;
    Pending::new(alloc, &set)
}

// The low job writes, and the high one is released.
fn low_wrote(alloc: Global) -> Result<Pending, OutOfMemory>
    ensures { IfOk result (λ p. AreRows trio_of p written_rows) }
{
    let items = stored(alloc)?;
    let mut pending = none_pending(alloc)?;
    pending.release(first_of(LOW), 0);
    pending.step(LOW, Op::Write(X, 9), &items);
    pending.release(first_of(HIGH), 1);
    Ok(pending)
}

// The middle job reads, and the high one is released.
fn middle_read(alloc: Global) -> Result<Pending, OutOfMemory>
    ensures { IfOk result (λ p. AreRows trio_of p read_rows) }
{
    let items = stored(alloc)?;
    let mut pending = none_pending(alloc)?;
    pending.release(first_of(MIDDLE), 0);
    pending.step(MIDDLE, Op::Read(X), &items);
    pending.release(first_of(HIGH), 1);
    Ok(pending)
}

// The low job blocks the high one, and runs before the middle one, which stands by.
#[test]
fn bystander(rt: HostRuntime) -> Result<(), OutOfMemory> {
    let mut pending = low_wrote(rt.alloc())?;
    let blocker = Blocker {
        holder: first_of(LOW),
        ceiling: 3,
    };
    assert!(rt; pending.running() == Some(first_of(HIGH)));
    assert!(rt; pending.lock_refusal(HIGH, Op::Read(X)) == Some(blocker));
    assert!(rt; pending.next_deadline() == Some(21));
    assert!(rt; pending.due(21) == Some(first_of(HIGH)));
    pending.wait(HIGH, first_of(LOW));
    assert!(rt; pending.running() == Some(first_of(LOW)));
    pending.release(first_of(MIDDLE), 2);
    assert!(rt; pending.running() == Some(first_of(LOW)));
    pending.end(LOW);
    assert!(rt; pending.running() == Some(first_of(HIGH)));
    assert!(rt; pending.lock_refusal(HIGH, Op::Read(X)) == None);
    assert!(rt; !pending.is_pending(first_of(LOW)));
    drop(pending);
    Ok(())
}

// The high job reads too, and the low one is released.
fn both_read(pending: &mut Pending, items: &Items)
    requires rows { AreRows trio_of pending.old read_rows }
    requires items { items.now ≡ trio_stored }
    ensures { AreRows trio_of pending.new last_rows }
{
    pending.step(HIGH, Op::Read(X), items);
    pending.release(first_of(LOW), 2);
}

// How many steps the high job has used, and what it wrote.
fn used_and_written(pending: &Pending) -> (Option<u64>, Option<Value>)
    requires { AreRows trio_of pending.now last_rows }
{
    let written = pending.work(HIGH).value_of(X);
    match pending.head(HIGH) {
        Some(head) => (Some(head.used), written),
        None => (None, written),
    }
}

// Two readers share an item; its writer waits on the higher of them.
#[test]
fn shared_readers(rt: HostRuntime) -> Result<(), OutOfMemory> {
    let items = stored(rt.alloc())?;
    let mut pending = middle_read(rt.alloc())?;
    let blocker = Blocker {
        holder: first_of(HIGH),
        ceiling: 1,
    };
    assert!(rt; pending.lock_refusal(HIGH, Op::Read(X)) == None);
    both_read(&mut pending, &items);
    assert!(rt; pending.lock_refusal(LOW, Op::Write(X, 1)) == Some(blocker));
    assert!(rt; pending.next_deadline() == Some(20));
    assert!(rt; pending.due(20) == Some(first_of(MIDDLE)));
    assert!(rt; used_and_written(&pending) == (Some(1), None));
    drop(pending);
    drop(items);
    Ok(())
}
