//! The planned releases: a queue for each transaction, and the ticks at which the queues begin.
ghost use Rattle.std.specs.Prelude.{◌≡◌, ℕ, ◌+◌, ◌-◌, ◌^◌, ◌<◌, ◌≤◌, [], ◌∷◌, ◌++◌, List, false, length, replicate, slice_set, slice_index_or, MatchOption, IfOk, IfSome};
ghost use Rattle.std.specs.List.{All, remove};
ghost use Rattle.std.specs.VecDeque.{deque_capacity};
ghost use Rattle.release_calendar.specs.Heads.{no_tick, tick_at};
ghost use Rattle.release_calendar.specs.Queues.{IsFirstTick, IsPlace, NoneAt, head_tick, queue_of, queued};

use crate::heads::{Heads, NO_TICK};
use crate::planned::Planned;
use rt_base::{OutOfMemory, Tick};
use std::alloc::Global;
use std::collections::VecDeque;
use std::marker::Model;

/// Where a release stands: in whose queue, and how many stand before it there.
#[derive(Clone, Copy)]
pub struct Place {
    pub tx: usize,
    pub index: usize,
}

/// The planned releases of each transaction by rising tick, the ticks at which these queues begin with the least of them at
/// hand, and how many releases there are in all. Each queue has places for `room` releases, so that no call after `new` takes
/// memory.
#[derive(Drop)]
pub struct Queues {
    queues: Vec<VecDeque<Planned>>,
    heads: Heads,
    waiting: usize,
    room: usize,
}

impl Model for Queues {
    ghost use Rattle.std.specs.Prelude.{◌≤◌, map};
    ghost use Rattle.std.specs.VecDeque.{deque_items, deque_capacity};
    ghost use Rattle.std.specs.List.{All};
    ghost use Rattle.release_calendar.specs.Queues.{QueueFacts, AreQueues};

    ghost Value = { QueueFacts };

    ghost view = { λ c. record { queues = map deque_items c.queues.items; room = c.room } };

    ghost invariant = { λ c. AreQueues (map deque_items c.queues.items) c.heads c.waiting × All (λ q. c.room ≤ deque_capacity q) c.queues.items };
}

impl Queues {
    /// Empty queues, one for each of so many transactions, each with places for `room` releases.
    pub fn new(alloc: Global, transactions: usize, room: usize) -> Result<Queues, OutOfMemory>
        ensures queues { IfOk result (λ q. q.queues ≡ replicate transactions []) }
        ensures room { IfOk result (λ q. q.room ≡ room) }
    {
        let mut queues = Vec::with_capacity(alloc, transactions)?;
        for _ in 0..transactions {
            queues.push(VecDeque::with_capacity(alloc, room)?)?;
        }
        let heads = Heads::new(alloc, transactions)?;
        Ok(Queues {
            queues,
            heads,
            waiting: 0,
            room,
        })
    }

    /// How many releases there are.
    pub fn waiting(&self) -> usize
        ensures { result ≡ length (queued self.now.queues) }
    {
        self.waiting
    }

    /// How many releases there may be.
    pub fn room(&self) -> usize
        ensures { result ≡ self.now.room }
    {
        self.room
    }

    /// The tick of the release that takes place first, by one look.
    pub fn first(&self) -> Option<Tick>
        ensures { MatchOption result (queued self.now.queues ≡ []) (λ tick. IsFirstTick tick self.now.queues) }
    {
        if self.waiting == 0 {
            None
        } else {
            Some(self.heads.least())
        }
    }

    /// Puts a release last into the queue of its transaction. It costs a few comparisons, however many there are.
    pub fn put(&mut self, next: Planned)
        requires tx { next.tx < length self.old.queues }
        requires tick { next.tick < no_tick }
        requires rising { All (λ p. p.tick ≤ next.tick) (queue_of self.old.queues next.tx) }
        requires room { length (queued self.old.queues) < self.old.room }
        ensures queues { self.new.queues ≡ slice_set self.old.queues next.tx (queue_of self.old.queues next.tx ++ next ∷ []) }
        ensures room { self.new.room ≡ self.old.room }
    {
        let queue = &mut self.queues[next.tx as usize];
        come(&mut self.heads, queue, next);
        queue.push_back_reserved(next);
        self.waiting += 1;
    }

    /// Whether there may be a release for a tick. One comparison tells that there is none where nothing is planned up to that
    /// tick.
    pub fn may_have(&self, tick: Tick) -> bool
        ensures { result ≡ false → NoneAt tick (queued self.now.queues) }
    {
        self.heads.least() <= tick
    }

    /// Where the first release of all stands, if it is for a tick: at the head of the first queue that begins then. It costs two
    /// comparisons.
    #[inline(always)]
    pub fn first_at(&self, tick: Tick) -> Option<Place>
        ensures { IfSome result (λ place. IsPlace tick self.now.queues place.tx place.index) }
    {
        let tx = self.heads.first_at(tick)?;
        Some(Place { tx, index: 0 })
    }

    /// Where the release for a tick of the least transaction stands. One comparison tells that there is none where nothing is
    /// planned up to that tick; else it goes over the queues.
    pub fn place_at(&self, tick: Tick) -> Option<Place>
        ensures { MatchOption result (NoneAt tick (queued self.now.queues)) (λ place. IsPlace tick self.now.queues place.tx place.index) }
    {
        if tick < self.heads.least() {
            return None;
        }
        self.search(tick)
    }

    fn search(&self, tick: Tick) -> Option<Place>
        ensures { MatchOption result (NoneAt tick (queued self.now.queues)) (λ place. IsPlace tick self.now.queues place.tx place.index) }
    {
        for tx in 0..self.queues.len() {
            if let Some(index) = index_at(&self.queues[tx], tick) {
                return Some(Place { tx, index });
            }
        }
        None
    }

    /// Takes out the release at a place. It costs a look at 16 of the ticks at which the queues begin, for up to 64 transactions,
    /// and at 8 more for each 64 further ones; where the release is not the first of its queue, it goes over the queue too.
    #[inline(always)]
    pub fn take(&mut self, place: Place) -> Planned
        requires tx { place.tx < length self.old.queues }
        requires index { place.index < length (queue_of self.old.queues place.tx) }
        ensures value { (d : Planned) → result ≡ slice_index_or (queue_of self.old.queues place.tx) place.index d }
        ensures own { result.tx ≡ place.tx }
        ensures queues { self.new.queues ≡ slice_set self.old.queues place.tx (remove (queue_of self.old.queues place.tx) place.index) }
        ensures room { self.new.room ≡ self.old.room }
    {
        let queue = &mut self.queues[place.tx];
        let taken = out_of(queue, place.index);
        self.heads.set(place.tx, begins(queue));
        self.waiting -= 1;
        taken
    }
}

/// The tick at which a queue begins, or none where it is empty.
fn begins(queue: &VecDeque<Planned>) -> Tick
    ensures { result ≡ head_tick queue.now.items }
{
    match queue.front() {
        Some(next) => next.tick,
        None => NO_TICK,
    }
}

/// A release comes last into a queue: where that is empty, the queue begins with it.
fn come(heads: &mut Heads, queue: &VecDeque<Planned>, next: Planned)
    requires tx { next.tx < length heads.old }
    requires begins { tick_at heads.old next.tx ≡ head_tick queue.now.items }
    requires tick { next.tick < no_tick }
    ensures { heads.new ≡ slice_set heads.old next.tx (head_tick (queue.now.items ++ next ∷ [])) }
{
    if queue.is_empty() {
        heads.put(next.tx as usize, next.tick);
    }
}

/// Takes the release at a place out of a queue. The first one is taken without a move of the others.
#[inline(always)]
fn out_of(queue: &mut VecDeque<Planned>, index: usize) -> Planned
    requires { index < length queue.old.items }
    ensures value { (d : Planned) → result ≡ slice_index_or queue.old.items index d }
    ensures items { queue.new.items ≡ remove queue.old.items index }
    ensures capacity { deque_capacity queue.new ≡ deque_capacity queue.old }
{
    if index == 0 {
        queue.pop_front().unwrap()
    } else {
        out_of_middle(queue, index)
    }
}

#[inline(never)]
fn out_of_middle(queue: &mut VecDeque<Planned>, index: usize) -> Planned
    requires { index < length queue.old.items }
    ensures value { (d : Planned) → result ≡ slice_index_or queue.old.items index d }
    ensures items { queue.new.items ≡ remove queue.old.items index }
    ensures capacity { deque_capacity queue.new ≡ deque_capacity queue.old }
{
    queue.remove(index).unwrap()
}

/// Where the first release for a tick stands in a queue.
fn index_at(queue: &VecDeque<Planned>, tick: Tick) -> Option<usize>
    ensures { MatchOption result (NoneAt tick queue.now.items) (λ index. (index < length queue.now.items) × ((d : Planned) → (slice_index_or queue.now.items index d).tick ≡ tick)) }
{
    queue.iter().position(|p| p.tick == tick)
}
