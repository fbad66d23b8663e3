//! What a summary counts.
ghost use Rattle.std.specs.Prelude.{◌≡◌, ◌<◌, ◌^◌, map};
ghost use Rattle.std.specs.List.{count_by};
ghost use Rattle.txn_set.specs.Ceilings.{greatest};
ghost use Rattle.step_journal.specs.History.{IsLegal, state_of};
ghost use Rattle.run_report.specs.Counts.{with_close, with_entry, row_is, AreEnds, AreKinds, FewEnds, FewKinds, instant_of, instant_after};

use job_rows::JobRow;
use law_histories::counting;
use rt_base::{End, Tick};
use step_journal::Entry;
use txn_set::CompiledSet;

/// How many jobs ended, in all and by their ends.
#[derive(Clone, Copy)]
pub(crate) struct Ends {
    pub all: u64,
    pub committed: u64,
    pub overrun: u64,
    pub late: u64,
    pub stale: u64,
    pub quit: u64,
}

/// How many entries of each kind there are.
#[derive(Clone, Copy)]
pub(crate) struct Kinds {
    pub plans: u64,
    pub steps: u64,
    pub blocks: u64,
    pub idles: u64,
}

fn count_row(ends: &mut Ends, row: &JobRow)
    requires { FewEnds ends.old }
    ensures { ends.new ≡ with_close row.now.end ends.old }
{
    if let Some((end, _)) = row.end {
        ends.all += 1;
        match end {
            End::Committed => ends.committed += 1,
            End::Overrun => ends.overrun += 1,
            End::Late => ends.late += 1,
            End::Stale { .. } => ends.stale += 1,
            End::Apart { .. } => ends.stale += 1,
            End::Quit => ends.quit += 1,
        }
    }
}

/// The ends of the rows of ended jobs.
pub(crate) fn count_ends(rows: &[JobRow]) -> Ends
    ensures { AreEnds result (λ test. count_by (row_is test) rows.now) }
{
    let mut ends = Ends {
        all: 0,
        committed: 0,
        overrun: 0,
        late: 0,
        stale: 0,
        quit: 0,
    };
    for i in 0..rows.len() {
        count_row(&mut ends, &rows[i]);
    }
    ends
}

fn count_entry(kinds: &mut Kinds, entry: Entry)
    requires { FewKinds kinds.old }
    ensures { kinds.new ≡ with_entry entry kinds.old }
{
    match entry {
        Entry::Planned { .. } => kinds.plans += 1,
        Entry::Step { .. } => kinds.steps += 1,
        Entry::Blocked { .. } => kinds.blocks += 1,
        Entry::Idle { .. } => kinds.idles += 1,
    }
}

/// The kinds of entries.
pub(crate) fn count_kinds(entries: &[Entry]) -> Kinds
    ensures { AreKinds result (λ test. count_by test entries.now) }
{
    let mut kinds = Kinds {
        plans: 0,
        steps: 0,
        blocks: 0,
        idles: 0,
    };
    for i in 0..entries.len() {
        count_entry(&mut kinds, entries[i]);
    }
    kinds
}

/// The greatest delay of a row, and 0 where there is none.
pub(crate) fn longest_delay(rows: &[JobRow]) -> Tick
    ensures { result ≡ greatest (map (λ row. row.delay) rows.now) }
{
    let mut longest = 0;
    for row in rows {
        longest = longest.max(row.delay);
    }
    longest
}

// The instant after an entry by which the time goes on.
fn instant(entry: &Entry) -> Option<Tick>
    requires { instant_after 0 entry.now < 2 ^ 64 }
    ensures { result ≡ instant_of entry.now }
{
    match entry {
        Entry::Planned { .. } => None,
        Entry::Step { tick, .. } => Some(*tick + 1),
        Entry::Blocked { .. } => None,
        Entry::Idle { to, .. } => Some(*to),
    }
}

/// The last instant of a legal history of the set. It goes from the end back to an entry by which the time goes on.
pub(crate) fn last_instant(set: &CompiledSet, entries: &[Entry]) -> Tick
    requires { IsLegal set.now entries.now }
    ensures { result ≡ (state_of set.now entries.now).now }
{
    set.is_compiled();
    counting();
    let mut left = entries.len();
    while 0 < left {
        left -= 1;
        match instant(&entries[left]) {
            Some(now) => return now,
            None => {}
        }
    }
    0
}
