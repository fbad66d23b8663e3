//! The tables of nothing pending.
ghost use Rattle.std.specs.Prelude.{◌≡◌, ◌≤◌, ◌<◌, ℕ, map, length, None, Some, IfOk, slice_index_or, replicate};
ghost use Rattle.ceiling_table.specs.Held.{lock_at, no_ceilings};
ghost use Rattle.ceiling_table.specs.declared.LockKind.TheVariants.{Free};
ghost use Rattle.inherit_prio.specs.Waits.{IsOrder, on_of};
ghost use Rattle.std.specs.List.{All};
ghost use Rattle.strict_commit.specs.Jobs.{AreInItemOrder};
ghost use Rattle.txn_set.specs.Set.{IsCompiled};
ghost use Rattle.core_tables.specs.Rows.{HasCeilings};
ghost use Rattle.core_tables.specs.PendingTables.{opening_job};

use crate::head::Head;
use ceiling_table::{CeilRow, Held};
use inherit_prio::Waits;
use rt_base::{ItemId, OutOfMemory, Prio, Tick};
use std::alloc::Global;
use strict_commit::Work;
use txn_set::{CompiledSet, TxnDecl};

// The priorities of the transactions.
fn prios_of(alloc: Global, txns: &[TxnDecl]) -> Result<Vec<Prio>, OutOfMemory>
    ensures { IfOk result (λ v. v.items ≡ map (λ t. t.prio) txns.now) }
{
    let mut prios = Vec::new(alloc);
    for txn in txns {
        prios.push(txn.prio)?;
    }
    Ok(prios)
}

/// The relative deadlines of the transactions.
pub fn deadlines_of(alloc: Global, txns: &[TxnDecl]) -> Result<Vec<Tick>, OutOfMemory>
    ensures { IfOk result (λ v. v.items ≡ map (λ t. t.deadline) txns.now) }
{
    let mut deadlines = Vec::new(alloc);
    for txn in txns {
        deadlines.push(txn.deadline)?;
    }
    Ok(deadlines)
}

// No pending job of any transaction.
fn no_heads(alloc: Global, txns: &[TxnDecl]) -> Result<Vec<Option<Head>>, OutOfMemory>
    ensures { IfOk result (λ v. v.items ≡ map (λ t. None) txns.now) }
{
    let mut heads = Vec::new(alloc);
    for txn in txns {
        let _txn = txn;
        heads.push(None)?;
    }
    Ok(heads)
}

/// These items, copied.
fn copied(alloc: Global, items: &[ItemId]) -> Result<Vec<ItemId>, OutOfMemory>
    ensures { IfOk result (λ v. v.items ≡ items.now) }
{
    let mut copies = Vec::new(alloc);
    for item in items {
        copies.push(*item)?;
    }
    Ok(copies)
}

/// Nothing read and nothing written by a job of a transaction.
fn work_of(alloc: Global, txn: &TxnDecl) -> Result<Work, OutOfMemory>
    requires reads { AreInItemOrder txn.now.reads }
    requires writes { AreInItemOrder txn.now.writes }
    ensures { IfOk result (λ w. w ≡ opening_job txn.now) }
{
    let reads = copied(alloc, txn.reads.as_slice())?;
    let writes = copied(alloc, txn.writes.as_slice())?;
    Work::new(alloc, reads, writes)
}

// The places for the work of each transaction's jobs. What each declares stands in item order.
fn works_of(alloc: Global, txns: &[TxnDecl]) -> Result<Vec<Work>, OutOfMemory>
    requires reads { All (λ t. AreInItemOrder t.reads) txns.now }
    requires writes { All (λ t. AreInItemOrder t.writes) txns.now }
    ensures { IfOk result (λ v. v.items ≡ map opening_job txns.now) }
{
    let mut works = Vec::new(alloc);
    for txn in txns {
        let work = work_of(alloc, txn)?;
        works.push(work)?;
    }
    Ok(works)
}

// The ceilings of the items.
fn ceilings_of(alloc: Global, set: &CompiledSet) -> Result<Vec<CeilRow>, OutOfMemory>
    ensures size { IfOk result (λ v. length v.items ≡ length set.now.items) }
    ensures ceilings { IfOk result (λ v. (item : ℕ) → item < length set.now.items → HasCeilings set.now item (slice_index_or v.items item no_ceilings)) }
{
    set.is_compiled();
    let mut ceilings = Vec::new(alloc);
    for item in 0..set.items().len() {
        let id = ItemId(item as u32);
        ceilings.push(CeilRow {
            write: set.write_ceiling(id),
            absolute: set.absolute_ceiling(id),
        })?;
    }
    Ok(ceilings)
}

// The lock table of nothing held.
fn held_of(alloc: Global, set: &CompiledSet) -> Result<Held, OutOfMemory>
    ensures prios { IfOk result (λ h. h.prios ≡ map (λ t. t.prio) set.now.txns) }
    ensures size { IfOk result (λ h. length h.ceilings ≡ length set.now.items) }
    ensures ceilings { IfOk result (λ h. (item : ℕ) → item < length set.now.items → HasCeilings set.now item (slice_index_or h.ceilings item no_ceilings)) }
    ensures free { IfOk result (λ h. (tx item : ℕ) → lock_at h tx item ≡ Free) }
{
    set.is_compiled();
    let ceilings = ceilings_of(alloc, set)?;
    let prios = prios_of(alloc, set.txns())?;
    Held::new(alloc, ceilings, prios)
}

// Nobody waits.
fn waits_of(alloc: Global, set: &CompiledSet) -> Result<Waits, OutOfMemory>
    ensures prios { IfOk result (λ w. w.prios ≡ map (λ t. t.prio) set.now.txns) }
    ensures order { IfOk result (λ w. IsOrder (map (λ t. t.prio) set.now.txns) w.order) }
    ensures nobody { IfOk result (λ w. (t : ℕ) → on_of w.on t ≡ None) }
{
    set.is_compiled();
    let prios = prios_of(alloc, set.txns())?;
    Waits::new(alloc, prios)
}

/// Nothing held, and nobody who waits.
pub fn locks_of(alloc: Global, set: &CompiledSet) -> Result<(Held, Waits), OutOfMemory>
    ensures prios { IfOk result (λ p. p.0.prios ≡ map (λ t. t.prio) set.now.txns) }
    ensures size { IfOk result (λ p. length p.0.ceilings ≡ length set.now.items) }
    ensures ceilings { IfOk result (λ p. (item : ℕ) → item < length set.now.items → HasCeilings set.now item (slice_index_or p.0.ceilings item no_ceilings)) }
    ensures free { IfOk result (λ p. (tx item : ℕ) → lock_at p.0 tx item ≡ Free) }
    ensures waits { IfOk result (λ p. p.1.prios ≡ map (λ t. t.prio) set.now.txns) }
    ensures order { IfOk result (λ p. IsOrder (map (λ t. t.prio) set.now.txns) p.1.order) }
    ensures nobody { IfOk result (λ p. (t : ℕ) → on_of p.1.on t ≡ None) }
{
    let held = held_of(alloc, set)?;
    let waits = waits_of(alloc, set)?;
    Ok((held, waits))
}

/// No pending job, and the places for the work of each transaction's jobs.
pub fn rows_of(
    alloc: Global,
    set: &CompiledSet,
) -> Result<(Vec<Option<Head>>, Vec<Work>), OutOfMemory>
    ensures heads { IfOk result (λ p. p.0.items ≡ map (λ t. None) set.now.txns) }
    ensures works { IfOk result (λ p. p.1.items ≡ map opening_job set.now.txns) }
{
    set.is_compiled();
    let heads = no_heads(alloc, set.txns())?;
    let works = works_of(alloc, set.txns())?;
    Ok((heads, works))
}
