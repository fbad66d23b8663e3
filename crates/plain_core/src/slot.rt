//! The place of a transaction's pending job.
ghost use Rattle.std.specs.Prelude.{◌≡◌, ◌<◌, ◌^◌, ℕ, None, Some, IfOk, IsSome};
ghost use Rattle.std.specs.Option.{option_map};
ghost use Rattle.step_journal.specs.State.{Row as RowSeen, new_row};
ghost use Rattle.step_journal.specs.Instant.{freed, freed_from};
ghost use Rattle.plain_core.specs.Slots.{head_of};
ghost use Rattle.plain_core.specs.Waits.{waiting};
ghost use Rattle.plain_core.specs.Effects.{IsLow, stepped};

use crate::work::Work;
use item_model::Stored;
use rt_base::{JobId, Op, OutOfMemory, Tick};
use std::alloc::Global;
use std::marker::Model;

/// A pending job without its work.
#[derive(Clone, Copy, PartialEq, Eq, Debug)]
pub struct Head {
    pub job: JobId,
    pub release: Tick,
    pub used: u64,
    pub waits_on: Option<JobId>,
}

/// A pending job, or none. Its lists stay where they are when it ends.
#[derive(Drop)]
pub struct Slot {
    head: Option<Head>,
    work: Work,
}

impl Model for Slot {
    ghost use Rattle.std.specs.Prelude.{Option as Maybe};
    ghost use Rattle.step_journal.specs.State.{Row};
    ghost use Rattle.plain_core.specs.Slots.{slot_row};

    ghost Value = { Maybe Row };

    ghost view = { λ s. slot_row s.head s.work };
}

impl Slot {
    /// An empty place, with room for the work of a job.
    pub fn new(alloc: Global) -> Result<Slot, OutOfMemory>
        ensures { IfOk result (λ s. s ≡ None) }
    {
        let work = Work::new(alloc)?;
        Ok(Slot { head: None, work })
    }

    /// The pending job, without its work.
    pub fn head(&self) -> Option<Head>
        ensures { result ≡ option_map head_of self.now }
    {
        self.head
    }

    /// The name of the pending job.
    pub fn job(&self) -> Option<JobId>
        ensures { result ≡ option_map (λ r. r.job) self.now }
    {
        match self.head {
            Some(h) => Some(h.job),
            None => None,
        }
    }

    /// The work of the pending job.
    pub fn work(&self) -> &Work
        ensures { (row : RowSeen) → self.now ≡ Some row → result.now ≡ row.work }
    {
        &self.work
    }

    /// A job is released.
    pub fn release(&mut self, job: JobId, tick: Tick)
        ensures { self.new ≡ Some (new_row job tick) }
    {
        self.work.clear();
        self.head = Some(Head {
            job,
            release: tick,
            used: 0,
            waits_on: None,
        });
    }

    /// A job ended: the slot's job waits on it no more.
    pub fn free(&mut self, job: JobId)
        ensures { self.new ≡ option_map (freed job) self.old }
    {
        if let Some(h) = self.head {
            self.head = Some(freed_head(h, job));
        }
    }

    /// The slot's job waits on another.
    pub fn wait(&mut self, on: JobId)
        ensures { self.new ≡ waiting on self.old }
    {
        if let Some(h) = self.head {
            self.head = Some(Head {
                waits_on: Some(on),
                ..h
            });
        }
    }

    /// The slot's job takes a step: it is counted, and what it read or wrote is noted.
    pub fn step(&mut self, items: &[Stored], op: Op)
        requires low { IsLow op }
        requires used { (row : RowSeen) → self.old ≡ Some row → row.used < 2 ^ 63 }
        ensures { self.new ≡ stepped items.now op self.old }
    {
        if let Some(h) = self.head {
            self.work.note(items, op);
            self.head = Some(Head {
                used: h.used + 1,
                ..h
            });
        }
    }

    /// The slot's job ends.
    pub fn end(&mut self)
        ensures { self.new ≡ None }
    {
        self.head = None;
    }
}

fn freed_head(head: Head, job: JobId) -> Head
    ensures { result ≡ record head { waits_on = freed_from job head.waits_on } }
{
    match head.waits_on {
        Some(on) if on.tx.0 == job.tx.0 && on.serial == job.serial => Head {
            waits_on: None,
            ..head
        },
        _ => head,
    }
}
