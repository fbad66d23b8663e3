//! Replay: whether entries are a legal history, and what its jobs come to.
ghost use Rattle.std.specs.Prelude.{◌≡◌, [], IfOk, IfErr};
ghost use Rattle.step_journal.specs.History.{IsLegal, state_of};
ghost use Rattle.lock_core.specs.Stands.{Stands};
ghost use Rattle.serial_replay.specs.Replays.{IsReplayed, Explains};

use crate::again::again;
use board::Board;
use item_model::Items;
use job_rows::{JobRow, rows_of};
use law_histories::{one_delay, pending_replies, serial_replies};
use law_times::freshness;
use lock_core::Core;
use rt_base::{List, OutOfMemory};
use std::alloc::Global;
use step_journal::Entry;
use txn_set::CompiledSet;

/// What a legal history comes to: its last items, which are those of its ended jobs run alone in order of ending, and the
/// rows of its jobs: the ended ones in order of ending, those late at one instant in falling priority, and then the pending
/// ones in falling priority.
#[derive(Drop)]
pub struct SerialResult {
    pub items: Items,
    pub jobs: List<JobRow>,
}

/// Why entries are not replayed.
#[derive(Clone, Copy, PartialEq, Eq, Debug)]
pub enum ReplayError {
    /// The entry at this index is no legal step after those before it, the first such.
    NotLegal { index: usize },
    /// A growth was refused for want of memory.
    OutOfMemory,
}

impl From<OutOfMemory> for ReplayError {
    ghost use Rattle.serial_replay.specs.declared.serial.ReplayError.TheVariants as error;

    ghost from_gives = { λ _ e. e ≡ error.OutOfMemory };

    fn from(_e: OutOfMemory) -> ReplayError {
        ReplayError::OutOfMemory
    }
}

/// The items after entries, any, which are those of the ended jobs run alone in order of ending: it makes each call again on a
/// board of its own, so that it costs what the run did. Ok comes exactly where the entries are a legal history of the set, but
/// for want of memory.
pub fn last_items(alloc: Global, set: &CompiledSet, entries: &[Entry]) -> Result<Items, ReplayError>
    ensures legal { IfOk result (λ _. IsLegal set.now entries.now) }
    ensures items { IfOk result (λ items. items ≡ (state_of set.now entries.now).items) }
    ensures err { IfErr result (Explains set.now entries.now) }
{
    let mut board = new_board(alloc, set)?;
    match again(&mut board, entries) {
        Some(index) => {
            drop(board);
            Err(ReplayError::NotLegal { index })
        }
        None => {
            let (items, set) = board.into_parts();
            drop(set);
            Ok(items)
        }
    }
}

/// Replays entries, any: what `last_items` does, and then the rows of the jobs. Ok comes exactly where the entries are a legal
/// history of the set, but for want of memory.
pub fn replay(
    alloc: Global,
    set: &CompiledSet,
    entries: &[Entry],
) -> Result<SerialResult, ReplayError>
    ensures ok { IfOk result (λ r. IsReplayed set.now entries.now r.items r.jobs) }
    ensures err { IfErr result (Explains set.now entries.now) }
{
    set.is_compiled();
    serial_replies();
    pending_replies();
    one_delay();
    freshness();
    let items = last_items(alloc, set, entries)?;
    let jobs = rows_of(alloc, set, entries)?;
    Ok(SerialResult { items, jobs })
}

// How many entries the board keeps at once.
const AT_ONCE: usize = 256;

// A board of the set at the opening state.
fn new_board(alloc: Global, set: &CompiledSet) -> Result<Core, OutOfMemory>
    ensures { IfOk result (λ b. (b.set ≡ set.now) × (b.journal.room ≡ 256) × Stands b []) }
{
    let set = set.copy(alloc)?;
    match Core::new(alloc, set, AT_ONCE) {
        Ok(board) => Ok(board),
        Err((_, e)) => Err(e),
    }
}
