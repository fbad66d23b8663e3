//! A log whose calls another program makes on its file.
ghost use Rattle.std.specs.Prelude.{◌≡◌, ◌+◌, ◌<◌, ◌≤◌, [], length, map, option_map, true, false, None, IfOk, IfErr, OnOk, OnErr, vec_capacity};
ghost use Rattle.c_forms.specs.Back.{entry_of as entry_of_form};
ghost use Rattle.c_stations.specs.Opening.{IsOpenedBy, WhyNotOpened};
ghost use Rattle.c_stations.specs.Appending.{Appended, WhyNotAppended};
ghost use Rattle.c_stations.specs.Answering.{MadeOne, next_of};

use crate::append::put_known;
use crate::call::Call;
use crate::entry::put_entries_of;
use crate::lines::Lines;
use crate::log_opening::open_file;
use crate::queue::Queue;
use crate::refused::{AppendRefused, LogRefused};
use c_forms::EntryForm;
use rt_base::{Names, OutOfMemory};
use std::alloc::Global;
use std::marker::Model;
use step_journal::Entry;

// A piece has no more entries.
const MOST: usize = 64;

/// A log, and the calls that are to be made on its file. Its memory is as long as the file with room for all entries. Contracts
/// see the names, the calls and how many of them were made, how many records the log has when all are, and the entries that
/// were found.
#[derive(Drop)]
pub struct LogStation {
    names: Names,
    queue: Queue,
    made: usize,
    count: u64,
    pending: u64,
    room: usize,
    lines: Lines,
    spare: Vec<Entry>,
    found: Vec<Entry>,
    stopped: bool,
}

impl Model for LogStation {
    ghost use Rattle.std.specs.Prelude.{◌≡◌, ◌+◌, ◌^◌, ◌≤◌, ◌<◌, ◌⊎◌, [], length, vec_capacity};
    ghost use Rattle.rt_base.specs.Names.{AreNames};
    ghost use Rattle.c_stations.specs.Kept.{Station};

    ghost Value = { Station };

    ghost view = { λ s. record {
      names = s.names;
      queue = s.queue;
      made = s.made;
      count = s.count;
      pending = s.pending;
      room = s.room;
      found = s.found.items;
      stopped = s.stopped;
    } };

    ghost invariant = { λ s. AreNames s.names.items × AreNames s.names.txns × (s.spare.items ≡ []) × (64 ≤ vec_capacity s.spare)
        × (s.pending + 1 ≤ s.count) × (s.room ≤ 2 ^ 20) × ((s.queue.calls ≡ []) ⊎ (s.made < length s.queue.calls)) };
}

// Places for the entries of a piece.
fn places(alloc: Global) -> Result<(Lines, Vec<Entry>), OutOfMemory>
    ensures { IfOk result (λ r. (r.1.items ≡ []) × (64 ≤ vec_capacity r.1)) }
{
    let spare = Vec::with_capacity(alloc, MOST)?;
    let lines = Lines::new(alloc)?;
    Ok((lines, spare))
}

impl LogStation {
    /// The log of a file of these bytes, with room for so many entries, whose set and names the text declares as the head of a
    /// report. An empty file gets a new log. The calls that `Log` makes for it are to be made then, of which the first is a sync
    /// if the file is not empty. All memory is taken here: the names, the entries that were found, and 256 bytes for each entry
    /// that there is room for. It costs a replay of the entries. OutOfMemory may come in place of each answer.
    pub fn open(
        alloc: Global,
        text: &[u8],
        bytes: &[u8],
        room: usize,
    ) -> Result<LogStation, LogRefused>
        ensures opened { IfOk result (λ s. IsOpenedBy text.now room bytes.now s.names s.queue s.count s.found) }
        ensures rest { IfOk result (λ s. (s.made ≡ 0) × (s.pending ≡ 0) × (s.room ≡ room) × (s.stopped ≡ false)) }
        ensures refused { IfErr result (WhyNotOpened text.now room bytes.now) }
    {
        let Ok((lines, spare)) = places(alloc) else {
            return Err(LogRefused::OutOfMemory);
        };
        let (names, found) = match open_file(alloc, text, bytes, room) {
            Ok(opened) => opened,
            Err(refused) => {
                drop(lines);
                drop(spare);
                return Err(refused);
            }
        };
        Ok(LogStation {
            names: names.into_names(),
            queue: found.queue,
            made: 0,
            count: found.count,
            pending: 0,
            room,
            lines,
            spare,
            found: found.entries,
            stopped: false,
        })
    }

    /// The entries that were found in the file.
    pub fn found(&self) -> &[Entry]
        ensures { result.now ≡ self.now.found }
    {
        &self.found
    }

    /// How many entries are kept: all whose calls were made.
    pub fn kept(&self) -> u64
        ensures { result + self.now.pending + 1 ≡ self.now.count }
    {
        self.count - 1 - self.pending
    }

    /// The call that is to be made next; None where there is none, or where one failed.
    pub fn next_call(&self) -> Option<&Call>
        ensures { option_map (λ c. c.now) result ≡ next_of self.now }
    {
        if self.stopped {
            None
        } else {
            self.queue.calls().get(self.made)
        }
    }

    /// The call that was to be made next was made. Nothing is done where there was none.
    #[tactic(auto, using(crate::proofs::Settled::settled_holds))]
    pub fn call_made(&mut self)
        ensures { MadeOne self.old self.new }
    {
        if self.stopped || self.queue.calls().is_empty() {
            return;
        }
        self.made += 1;
        if self.made == self.queue.calls().len() {
            self.queue.settle();
            self.made = 0;
            self.pending = 0;
        }
    }

    /// The call that was to be made next failed. No further call is handed out, and no further entry is taken.
    pub fn call_failed(&mut self)
        ensures { self.new ≡ record self.old { stopped = true } }
    {
        self.stopped = true;
    }

    /// Takes the entries of these records as one piece, at most 64: the calls that `Log` makes for it are to be made then. They
    /// are kept when each of them was. It takes no memory; OutOfMemory, which says that there was no place for the calls, may
    /// come in place of Ok.
    pub fn append(&mut self, alloc: Global, forms: &[EntryForm]) -> Result<(), AppendRefused>
        ensures taken { OnOk result (Appended self.old self.new (map entry_of_form forms.now)) }
        ensures refused { IfErr result (WhyNotAppended self.old (map entry_of_form forms.now)) }
        ensures same { OnErr result (self.new ≡ self.old) }
    {
        if self.stopped {
            return Err(AppendRefused::Stopped);
        }
        if !self.queue.calls().is_empty() {
            return Err(AppendRefused::Unanswered);
        }
        let most = self.room as u64 + 1;
        if forms.len() > MOST || self.count > most || forms.len() as u64 > most - self.count {
            return Err(AppendRefused::NoRoom);
        }
        put_entries_of(forms, &mut self.spare);
        let answer = put_known(
            alloc,
            &mut self.queue,
            self.count,
            &mut self.lines,
            &self.names,
            &self.spare,
        );
        self.spare.clear();
        if answer.is_ok() {
            self.made = 0;
            self.pending = forms.len() as u64;
            self.count += forms.len() as u64;
        }
        answer
    }
}
