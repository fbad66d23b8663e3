//! Members dealt out to workers.
ghost use Rattle.std.specs.Prelude.{◌≡◌, ℕ, ◌<◌, ◌≤◌, ◌^◌, [], nat_lt, length, map, All, IfOk, vec_len, vec_capacity, reverse};
ghost use Rattle.std.specs.Prelude.{List as Many};
ghost use Rattle.step_journal.specs.declared.entry.Entry.{Entry as Noted};
ghost use Rattle.shared_plant.specs.Seats.{TableId, newcomers};
ghost use Rattle.plant_run.specs.Deals.{AreDealt, HavePlaces, IsReserved, jobs_at, team_of};
ghost use Rattle.plant_run.specs.Runs.{eager_jobs_at};

use board::Board;
use rt_base::{List, OutOfMemory, Tick};
use shared_plant::Seat;
use sim_run::Workers;
use std::alloc::Global;
use step_script::Body;
use txn_threads::{Member, Worker};

// Places for the members of all transactions, a list for each worker, and places for the workers.
#[derive(Drop)]
pub(crate) struct Crew<B: Board, Y: Body> {
    lists: Vec<Vec<Member<B, Y>>>,
    workers: Vec<Worker<B, Y>>,
}

impl<B: Board, Y: Body + Drop> Crew<B, Y> {
    // All memory that dealing takes, for so many transactions and workers.
    pub(crate) fn reserve(
        alloc: Global,
        txs: usize,
        workers: Workers,
    ) -> Result<Crew<B, Y>, OutOfMemory>
        requires few { txs < 2 ^ 32 }
        ensures { IfOk result (λ c. IsReserved txs c) }
    {
        let number = workers.get();
        let lists = empty_lists(alloc, txs, number)?;
        let workers = Vec::with_capacity(alloc, number as usize)?;
        Ok(Crew { lists, workers })
    }

    // The workers, with a member for each transaction: that of transaction i is with those of the transactions that are
    // the same modulo the number of workers. The seats are those of the transactions, in order.
    pub(crate) fn hire(
        self,
        seats: &mut Vec<Seat<B>>,
        bodies: Vec<Y>,
        releases: &[List<Tick>],
        eager_jobs: &[u32],
    ) -> Vec<Worker<B, Y>>
        requires reserved { IsReserved (length releases.now) self }
        requires each { (length bodies.items ≡ length releases.now) × (vec_len seats.old ≡ length releases.now) × (length eager_jobs.now ≡ length releases.now) }
        requires few { All (λ ticks. length ticks < 2 ^ 32) releases.now }
        ensures dealt { (id : TableId) (past : Many Noted) (first : ℕ) → seats.old.items ≡ newcomers id past first (length releases.now) →
            AreDealt Y.gives (map Y.gives bodies.items) releases.now (eager_jobs_at eager_jobs.now) id past first 0 (map (λ w. team_of w) result.items) }
        ensures seats { (seats.new.items ≡ []) × (vec_capacity seats.new ≡ vec_capacity seats.old) }
    {
        let Crew {
            mut lists,
            mut workers,
        } = self;
        deal(seats, bodies, releases, eager_jobs, lists.as_mut_slice());
        staff(lists, &mut workers);
        workers
    }
}

// Empty lists, one for each worker, with places for the members of so many transactions.
fn empty_lists<B: Board, Y: Body + Drop>(
    alloc: Global,
    txs: usize,
    workers: u32,
) -> Result<Vec<Vec<Member<B, Y>>>, OutOfMemory>
    requires workers { 0 < workers }
    requires few { txs < 2 ^ 32 }
    ensures number { IfOk result (λ v. vec_len v ≡ workers) }
    ensures places { IfOk result (λ v. HavePlaces txs v.items) }
    ensures empty { IfOk result (λ v. All (λ l. l.items ≡ []) v.items) }
{
    let places = txs / workers as usize + 1;
    let mut lists = Vec::with_capacity(alloc, workers as usize)?;
    for _ in 0..workers {
        let list = Vec::with_capacity(alloc, places)?;
        lists.push_reserved(list);
    }
    Ok(lists)
}

// How many jobs the member of a transaction is to have, and whether it plans them itself.
fn jobs_of(releases: &[List<Tick>], eager_jobs: &[u32], tx: usize) -> (u32, bool)
    requires within { (tx < length releases.now) × (length eager_jobs.now ≡ length releases.now) }
    requires few { All (λ ticks. length ticks < 2 ^ 32) releases.now }
    ensures jobs { result.0 ≡ jobs_at (eager_jobs_at eager_jobs.now) releases.now tx }
    ensures eager { result.1 ≡ nat_lt 0 (eager_jobs_at eager_jobs.now tx) }
{
    let count = eager_jobs[tx];
    if 0 < count {
        return (count, true);
    }
    (releases[tx].as_slice().len() as u32, false)
}

// A member for each transaction: that of transaction i goes to the list i modulo their number. The seats are those of
// the transactions, in order.
fn deal<B: Board, Y: Body + Drop>(
    seats: &mut Vec<Seat<B>>,
    bodies: Vec<Y>,
    releases: &[List<Tick>],
    eager_jobs: &[u32],
    lists: &mut [Vec<Member<B, Y>>],
)
    requires each { (length bodies.items ≡ length releases.now) × (vec_len seats.old ≡ length releases.now) × (length eager_jobs.now ≡ length releases.now) }
    requires few { All (λ ticks. length ticks < 2 ^ 32) releases.now }
    requires some { 0 < length lists.old }
    requires places { HavePlaces (length releases.now) lists.old }
    requires empty { All (λ l. l.items ≡ []) lists.old }
    ensures dealt { (id : TableId) (past : Many Noted) (first : ℕ) → seats.old.items ≡ newcomers id past first (length releases.now) →
        AreDealt Y.gives (map Y.gives bodies.items) releases.now (eager_jobs_at eager_jobs.now) id past first 0 (map (λ l. l.items) lists.new) }
    ensures seats { (seats.new.items ≡ []) × (vec_capacity seats.new ≡ vec_capacity seats.old) }
{
    let mut bodies = bodies;
    let txs = releases.len();
    for dealt in 0..txs {
        let tx = txs - 1 - dealt;
        let seat = seats.pop().unwrap();
        let body = bodies.pop().unwrap();
        let (jobs, eager) = jobs_of(releases, eager_jobs, tx);
        let at = tx % lists.len();
        let list = &mut lists[at];
        list.push_reserved(Member::new(seat, body, jobs, eager));
    }
}

// A worker for each list, the last first. The members of each are turned round: dealing put the last transaction first.
fn staff<B: Board, Y: Body + Drop>(lists: Vec<Vec<Member<B, Y>>>, workers: &mut Vec<Worker<B, Y>>)
    requires empty { workers.old.items ≡ [] }
    requires places { vec_len lists ≤ vec_capacity workers.old }
    ensures { map (λ w. team_of w) workers.new.items ≡ reverse (map (λ l. reverse l.items) lists.items) }
{
    let mut lists = lists;
    for _ in 0..lists.len() {
        let mut members = lists.pop().unwrap();
        members.reverse();
        workers.push_reserved(Worker::new(members));
    }
}
