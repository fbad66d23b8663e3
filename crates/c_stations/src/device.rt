//! A disk that makes no call itself, and keeps those that are to be made.
ghost use Rattle.std.specs.Prelude.{◌≡◌, ℕ, ◌-◌, ◌^◌, ◌≤◌, [], List, Some, length, refl, reverse, IfOk, OnOk};
ghost use Rattle.std.proofs.Common.{inl};
ghost use Rattle.std.specs.Io.{ReadsAtMost};
ghost use Rattle.io_edge.specs.Causes.{HasCause, counted};
ghost use Rattle.durable_disk.specs.Images.{Torn};
ghost use Rattle.durable_disk.specs.Device.{AfterWrite, Elapses, Follows, IsRead, NoMore, Only};
ghost use Rattle.c_stations.specs.Calls.{LeftSince, MayLeave, held, left_now, only_now};

use crate::queue::Queue;
use durable_disk::Disk;
use io_edge::Failed;
use std::marker::{Brand, Model, PhantomData};

/// What a file held when all earlier calls had been made. A call of the program picks it.
pub trait Based {
    ghost base: { List ℕ };
}

impl Based for Brand {
    ghost base = { [] };
}

/// A disk over a queue on a file that held these bytes. It tells what the file holds after the calls of the queue. A read gives
/// the bytes of the file while no write is to be made, and fails afterwards; a write or a sync that has no place fails.
/// Contracts see the calls, and how many failed.
#[derive(Drop)]
pub struct CallDisk<T: Based> {
    queue: Queue,
    faults: u64,
    of: PhantomData<T>,
}

impl<T: Based> Model for CallDisk<T> {
    ghost use Rattle.std.specs.Prelude.{◌≡◌};
    ghost use Rattle.c_stations.specs.Device.{Device};

    ghost Value = { Device };

    ghost view = { λ s. record { calls = s.queue.calls; faults = s.faults } };

    ghost invariant = { λ s. s.queue.base ≡ T.base };
}

// A failed call, added to the count of those that failed.
fn counted_in(faults: &mut u64) -> Failed
    ensures { faults.new ≡ counted faults.old }
{
    *faults = faults.saturating_add(1);
    Failed
}

impl<T: Based> CallDisk<T> {
    /// The disk of a queue.
    pub fn over(queue: Queue) -> CallDisk<T>
        requires { queue.base ≡ T.base }
        ensures { result ≡ record { calls = queue.calls; faults = 0 } }
    {
        CallDisk {
            queue,
            faults: 0,
            of: PhantomData,
        }
    }

    /// The queue, handed back.
    pub fn into_queue(self) -> Queue
        ensures { result ≡ record { base = T.base; calls = self.calls } }
    {
        let CallDisk {
            queue,
            faults: _,
            of: _,
        } = self;
        queue
    }
}

impl<T: Based> Disk for CallDisk<T> {
    ghost seen = { λ d. Some (held T.base (reverse d.calls)) };

    ghost may_leave = { λ d. MayLeave T.base (reverse d.calls) };

    ghost moment = { λ d. length d.calls };

    ghost left_since = { λ d. LeftSince T.base (reverse d.calls) };

    ghost faults = { λ d. d.faults };

    ghost seen_may_stay = { λ d. inl refl };

    ghost counts_now = { λ d t c le now. left_now T.base (reverse d.calls) t c now };

    ghost only_now = { λ d c left. only_now T.base d.calls c left };

    fn read_at(&mut self, at: u64, into: &mut [u8]) -> Result<usize, Failed>
        ensures bound { ReadsAtMost result into.new }
        ensures bytes { IfOk result (λ n. IsRead (held T.base (reverse self.old.calls)) at n into.new) }
        ensures seen { Some (held T.base (reverse self.new.calls)) ≡ Some (held T.base (reverse self.old.calls)) }
        ensures crash { NoMore (MayLeave T.base (reverse self.old.calls)) (MayLeave T.base (reverse self.new.calls)) }
        ensures time { Elapses (length self.old.calls) (length self.new.calls) (LeftSince T.base (reverse self.old.calls)) (LeftSince T.base (reverse self.new.calls)) (MayLeave T.base (reverse self.new.calls)) }
        ensures cause { HasCause self.old.faults self.new.faults result }
        ensures count { self.new.faults ≤ 2 ^ 64 - 1 }
    {
        match self.queue.read(at, into) {
            Ok(count) => Ok(count),
            Err(_) => Err(counted_in(&mut self.faults)),
        }
    }

    fn write_at(&mut self, at: u64, bytes: &[u8]) -> Result<(), Failed>
        ensures seen { AfterWrite result at bytes.now (held T.base (reverse self.old.calls)) (held T.base (reverse self.new.calls)) }
        ensures crash { Follows (Torn at (length bytes.now)) (MayLeave T.base (reverse self.old.calls)) (MayLeave T.base (reverse self.new.calls)) }
        ensures time { Elapses (length self.old.calls) (length self.new.calls) (LeftSince T.base (reverse self.old.calls)) (LeftSince T.base (reverse self.new.calls)) (MayLeave T.base (reverse self.new.calls)) }
        ensures cause { HasCause self.old.faults self.new.faults result }
        ensures count { self.new.faults ≤ 2 ^ 64 - 1 }
    {
        match self.queue.write(at, bytes) {
            Ok(()) => Ok(()),
            Err(_) => Err(counted_in(&mut self.faults)),
        }
    }

    fn sync(&mut self) -> Result<(), Failed>
        ensures durable { OnOk result (Only (Some (held T.base (reverse self.new.calls))) (MayLeave T.base (reverse self.new.calls))) }
        ensures seen { Some (held T.base (reverse self.new.calls)) ≡ Some (held T.base (reverse self.old.calls)) }
        ensures crash { NoMore (MayLeave T.base (reverse self.old.calls)) (MayLeave T.base (reverse self.new.calls)) }
        ensures time { Elapses (length self.old.calls) (length self.new.calls) (LeftSince T.base (reverse self.old.calls)) (LeftSince T.base (reverse self.new.calls)) (MayLeave T.base (reverse self.new.calls)) }
        ensures cause { HasCause self.old.faults self.new.faults result }
        ensures count { self.new.faults ≤ 2 ^ 64 - 1 }
    {
        match self.queue.sync() {
            Ok(()) => Ok(()),
            Err(_) => Err(counted_in(&mut self.faults)),
        }
    }
}
