//! How the jobs of each transaction ended, with their worst response and delay.
ghost use Rattle.std.specs.Prelude.{◌≡◌, ◌<◌, length, replicate, IfOk};
ghost use Rattle.std.specs.List.{All};
ghost use Rattle.report_export.specs.Worsts.{at_least, place_of};
ghost use Rattle.report_export.specs.Tallies.{no_jobs, with_end, with_close, with_row, tally_at, with_job, tallied, FewJobs};

use job_rows::JobRow;
use rt_base::{End, OutOfMemory, Tick};
use std::alloc::Global;

/// What is kept of the jobs of a transaction: how many ended, and how, by the places of ends, how many are pending, the greatest
/// response of the ended ones and the greatest delay, None where there is none.
#[derive(Clone, Copy)]
pub(crate) struct Tally {
    pub ended: u64,
    pub ends: [u64; 6],
    pub pending: u64,
    pub response: Option<Tick>,
    pub delay: Option<Tick>,
}

/// The greater of a number and the greatest so far.
pub(crate) fn at_least(next: Tick, greatest: Option<Tick>) -> Tick
    ensures { result ≡ at_least next greatest }
{
    match greatest {
        Some(greatest) => next.max(greatest),
        None => next,
    }
}

fn place(end: End) -> usize
    ensures value { result ≡ place_of end }
    ensures few { result < 6 }
{
    match end {
        End::Committed => 0,
        End::Stale { .. } => 1,
        End::Apart { .. } => 2,
        End::Overrun => 3,
        End::Late => 4,
        End::Quit => 5,
    }
}

fn count_end(tally: &mut Tally, end: End)
    requires { FewJobs tally.old }
    ensures { tally.new ≡ with_end end tally.old }
{
    tally.ended += 1;
    tally.ends[place(end)] += 1;
}

fn count_close(tally: &mut Tally, release: Tick, end: Option<(End, Tick)>)
    requires { FewJobs tally.old }
    ensures { tally.new ≡ with_close release end tally.old }
{
    match end {
        Some((end, tick)) => {
            let response = at_least(tick.saturating_sub(release), tally.response);
            count_end(tally, end);
            tally.response = Some(response);
        }
        None => tally.pending += 1,
    }
}

fn count_row(tally: &mut Tally, row: &JobRow)
    requires { FewJobs tally.old }
    ensures { tally.new ≡ with_row row.now tally.old }
{
    let delay = at_least(row.delay, tally.delay);
    count_close(tally, row.release, row.end);
    tally.delay = Some(delay);
}

fn count_job(tallies: &mut [Tally], row: &JobRow)
    requires tx { row.now.job.tx.0 < length tallies.old }
    requires few { FewJobs (tally_at tallies.old row.now.job.tx.0) }
    ensures { tallies.new ≡ with_job tallies.old row.now }
{
    count_row(&mut tallies[row.job.tx.0 as usize], row);
}

fn no_tallies(alloc: Global, txns: usize) -> Result<Vec<Tally>, OutOfMemory>
    ensures { IfOk result (λ tallies. tallies.items ≡ replicate txns no_jobs) }
{
    let mut tallies = Vec::new(alloc);
    tallies.resize(
        txns,
        Tally {
            ended: 0,
            ends: [0; 6],
            pending: 0,
            response: None,
            delay: None,
        },
    )?;
    Ok(tallies)
}

/// A tally of each of so many transactions, by the rows of their jobs, each of which is gone through once.
pub(crate) fn tallies(
    alloc: Global,
    txns: usize,
    rows: &[JobRow],
) -> Result<Vec<Tally>, OutOfMemory>
    requires { All (λ row. row.job.tx.0 < txns) rows.now }
    ensures { IfOk result (λ tallies. tallies.items ≡ tallied txns rows.now) }
{
    let mut tallies = no_tallies(alloc, txns)?;
    for i in (0..rows.len()).rev() {
        count_job(tallies.as_mut_slice(), &rows[i]);
    }
    Ok(tallies)
}
