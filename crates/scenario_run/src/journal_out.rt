//! An out over a journal.
ghost use Rattle.std.specs.Prelude.{◌≤◌, vec_capacity};
ghost use Rattle.scenario_run.specs.Outs.{Begun, nothing};

use crate::compared::{first_other, some_from};
use crate::standing::JournalStanding;
use durable_disk::Disk;
use durable_journal::Log;
use rt_base::Names;
use sim_run::{EntryOut, Stopped, append};
use std::marker::{Brand, PhantomData};
use step_journal::Entry;
use txn_set::CompiledSet;

/// What an out over a journal began with.
pub trait Journaled<D> {
    ghost begun: { Begun D };
}

impl<D> Journaled<D> for Brand {
    ghost begun = { nothing };
}

/// The entries of a run, kept, beside a journal: those that stood on its disk are compared, and the others are added to
/// its log.
pub struct JournalOut<'a, D: Disk, T> {
    pub names: &'a Names,
    pub set: &'a CompiledSet,
    pub log: Log<D>,
    /// The entries that stood on the disk.
    pub there: Vec<Entry>,
    /// All entries that it got.
    pub kept: Vec<Entry>,
    /// How many entries it takes in all.
    pub room: usize,
    /// Whether it takes pieces.
    pub standing: JournalStanding,
    pub of: PhantomData<T>,
    ghost places: { room ≤ vec_capacity kept },
}

impl<'a, D: Disk, T: Journaled<D>> JournalOut<'a, D, T> {
    ghost use Rattle.std.specs.Prelude.{◌≡◌, ◌≤◌, ◌<◌, ◌++◌, [], List as Many, None, length, IfSome, IsSome, MatchOption, vec_capacity};
    ghost use Rattle.step_journal.specs.declared.entry.Entry.{Entry as Noted};
    ghost use Rattle.scenario_run.specs.Compared.{Agree, Begins, IsOtherRecord};
    ghost use Rattle.scenario_run.specs.Outs.{LostAt, other_stops};
    ghost use Rattle.scenario_run.specs.declared.standing.JournalStanding.TheVariants.{Going};

    /// An out that has taken nothing yet, over a log and the entries that stood on its disk when it was opened. `kept` is a
    /// place for `room` entries. It takes no memory.
    pub fn new(
        names: &'a Names,
        set: &'a CompiledSet,
        log: Log<D>,
        there: Vec<Entry>,
        kept: Vec<Entry>,
        room: usize,
    ) -> JournalOut<'a, D, T>
        requires empty { kept.items ≡ [] }
        requires places { room ≤ vec_capacity kept }
        ensures names { result.names.now ≡ names.now }
        ensures set { result.set.now ≡ set.now }
        ensures log { result.log ≡ log }
        ensures there { result.there.items ≡ there.items }
        ensures kept { result.kept.items ≡ [] }
        ensures room { result.room ≡ room }
        ensures standing { result.standing ≡ Going }
    {
        JournalOut {
            names,
            set,
            log,
            there,
            kept,
            room,
            standing: JournalStanding::Going,
            of: PhantomData,
        }
    }

    /// Of an out that has stopped: the number of the record that has another entry, entries counted from 1; None where it
    /// did not stop for that.
    pub fn stopped_at(&self) -> Option<u64>
        // It is the first other one of each history that goes on with what was got and what was lost.
        ensures other { (piece rest : Many Noted) → LostAt self.now.standing self.now.there.items self.now.kept.items piece
            → IfSome result (IsOtherRecord self.now.there.items (self.now.kept.items ++ piece ++ rest)) }
        ensures fault { result ≡ None → other_stops self.now.standing ≡ 0 }
        ensures stopped { IsSome result → other_stops self.now.standing ≡ 1 }
    {
        match self.standing {
            JournalStanding::Going => None,
            JournalStanding::Faulted => None,
            JournalStanding::Other { place } => Some((place as u64).saturating_add(1)),
        }
    }

    /// After a whole run: the number of the first record behind those of the run, entries counted from 1; None where the
    /// disk had no more entries than the run.
    pub fn left_over(&self) -> Option<u64>
        ensures first { Agree self.now.there.items self.now.kept.items
            → MatchOption result (Begins self.now.there.items self.now.kept.items) (IsOtherRecord self.now.there.items self.now.kept.items) }
        ensures behind { IsSome result → length self.now.kept.items < length self.now.there.items }
    {
        if self.kept.len() < self.there.len() {
            Some(self.kept.len() as u64 + 1)
        } else {
            None
        }
    }
}

/// What it got is kept, and its log stands for that and for what the disk has beyond it; a crash at each moment leaves a
/// journal that is opened as what the disk had, with some of that behind it. It loses a piece at which the disk failed, of
/// which the log may have the first entries, and one of which the disk has another entry; nothing of that is added, and the
/// disk is as it was. It can take every legal history of its set that has room. It stops where the disk counts a fault, and
/// once for another entry.
impl<'a, D: Disk, T: Journaled<D>> EntryOut for JournalOut<'a, D, T> {
    ghost use Rattle.std.specs.Prelude.{◌≡◌, ◌+◌, ◌≤◌, length};
    ghost use Rattle.step_journal.specs.History.{IsLegal};
    ghost use Rattle.scenario_run.specs.Outs.{IsGoing, IsOf, TakenAt, LeftAt, LostAt, other_stops};

    ghost got = { λ out history. (out.kept.items ≡ history) ×
        IsOf D.seen T.begun out.names.now out.set.now out.there.items out.room out.log.disk ×
        TakenAt out.standing (IsGoing D.seen D.may_leave D.moment D.left_since T.begun.names T.begun.set T.begun.disk out.log T.begun.there history) };

    ghost lost = { λ out history. LostAt out.standing T.begun.there out.kept.items history ×
        LeftAt D.seen D.moment D.left_since T.begun.names T.begun.set T.begun.disk out.log.disk out.standing T.begun.there out.kept.items history };

    ghost good = { λ out history. IsLegal T.begun.set history × (length history ≤ T.begun.room) };

    ghost stops = { λ out. D.faults out.log.disk + other_stops out.standing };

    /// An entry that the disk has costs a comparison, and another one four calls of the disk.
    fn put(&mut self, entries: &[Entry]) -> Result<(), Stopped> {
        if entries.is_empty() {
            return Ok(());
        }
        let place = self.kept.len();
        let known = some_from(&self.there, place, entries.len());
        if let Some(at) = first_other(known, entries) {
            self.standing = JournalStanding::Other { place: place + at };
            return Err(Stopped);
        }
        let count = known.len();
        let rest = &entries[count..];
        let Ok(()) = self.log.append_all(self.names, self.set, rest) else {
            self.standing = JournalStanding::Faulted;
            return Err(Stopped);
        };
        append(&mut self.kept, entries);
        Ok(())
    }
}
