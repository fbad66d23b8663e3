//! What happens at an instant: the jobs whose deadline it is end Late in falling priority, then the releases take place.
ghost use Rattle.std.specs.Prelude.{◌≡◌, ◌<◌, ◌^◌, List, [], length, IsTrue};
ghost use Rattle.rt_base.specs.declared.release.Release.{Release as Planned};
ghost use Rattle.std.specs.List.{fold};
ghost use Rattle.txn_set.specs.Set.{Set};
ghost use Rattle.release_calendar.specs.Agenda.{Holds, SamePlans};
ghost use Rattle.step_journal.specs.Instant.{with_row};
ghost use Rattle.core_tables.specs.Rows.{AreFactsOf};
ghost use Rattle.core_tables.specs.Seen.{tally_of, tallies_after};
ghost use Rattle.core_tables.specs.Changes.{late_jobs, rows_cancelled, tallies_cancelled, due_jobs, later};
ghost use Rattle.core_tables.specs.Arriving.{CanCancel, CanCancelSome, CanRelease, CanReleaseSome};

use crate::pending::Pending;
use crate::tally::Tally;
use release_calendar::Calendar;
use rt_base::{End, Tick, TxId};

/// One more job of a transaction has ended, and so.
pub fn count_end(tallies: &mut [Tally], tx: TxId, end: End)
    requires tx { tx.0 < length tallies.old }
    requires few { (tally_of tallies.old tx.0).number < 2 ^ 63 }
    ensures { tallies.new ≡ tallies_after tallies.old tx.0 end }
{
    let at = tx.0 as usize;
    let number = tallies[at].number;
    tallies[at] = Tally {
        number: number + 1,
        last: Some(end),
    };
}

/// Each pending job whose deadline is this tick ends Late, in falling priority. One look where the least deadline is a later
/// one.
#[inline(always)]
pub fn cancel(pending: &mut Pending, tallies: &mut [Tally], tick: Tick)
    requires { CanCancelSome pending.old tallies.old }
    ensures pending { (set : Set) → AreFactsOf set pending.old.facts → CanCancel set pending.old.rows tallies.old → pending.new ≡ record pending.old { rows = rows_cancelled set tick pending.old.rows } }
    ensures tallies { (set : Set) → AreFactsOf set pending.old.facts → CanCancel set pending.old.rows tallies.old → tallies.new ≡ tallies_cancelled set tick pending.old.rows tallies.old }
{
    if has_time(pending, tick) {
        return;
    }
    while let Some(job) = pending.due(tick) {
        pending.end(job.tx);
        count_end(tallies, job.tx, End::Late);
    }
}

/// Whether each pending job has time beyond this tick.
#[inline(always)]
pub fn has_time(pending: &Pending, tick: Tick) -> bool
    ensures { IsTrue result → (set : Set) → AreFactsOf set pending.now.facts → late_jobs set tick pending.now.rows ≡ [] }
{
    match pending.next_deadline() {
        None => true,
        Some(least) => tick < least,
    }
}

/// Each release planned for this tick takes place. One look where none is.
#[inline(always)]
pub fn release(pending: &mut Pending, calendar: &mut Calendar, tick: Tick)
    requires low { tick < 2 ^ 63 }
    requires can { CanReleaseSome tick pending.old.rows calendar.old }
    ensures facts { pending.new.facts ≡ pending.old.facts }
    ensures rows { (planned : List Planned) → Holds calendar.old planned → CanRelease tick pending.old.rows planned → pending.new.rows ≡ fold (with_row tick) pending.old.rows (due_jobs tick planned) }
    ensures planned { (planned : List Planned) → Holds calendar.old planned → CanRelease tick pending.old.rows planned → Holds calendar.new (later tick planned) }
    ensures rest { SamePlans calendar.old calendar.new }
{
    while calendar.may_be_due(tick) {
        let Some(job) = calendar.due(tick) else {
            return;
        };
        pending.release(job, tick);
    }
}
