//! What stands in a journal's places.
ghost use Rattle.std.specs.Prelude.{◌≡◌, ◌+◌, ◌<◌, ◌≤◌, ◌^◌, ◌↔◌, length, Some, IfOk, IfSome, IsTrue};
ghost use Rattle.io_edge.specs.Causes.{HasCause};
ghost use Rattle.durable_disk.specs.Device.{Elapses, NoMore};
ghost use Rattle.durable_disk.specs.Records.{slot_at};
ghost use Rattle.durable_disk.specs.Found.{Finds};
ghost use Rattle.durable_disk.specs.Records.{Slot as Found};
ghost use Rattle.durable_journal.specs.Format.{header, text_of as text_of_body};
ghost use Rattle.durable_journal.specs.Log.{Fits, FitsThere};
ghost use Rattle.durable_journal.specs.Texts.{IsHeader, entry_in, place_of};

use crate::format::text_of;
use durable_disk::{Disk, Slot, WIDTH, read_slot};
use io_edge::Failed;
use journal_text::read_entry;
use name_table::NameTables;
use step_journal::Entry;

/// The text of the first record.
pub const HEADER: [u8; 14] = *b"rtdb journal 1";

/// What stands in the place of a record.
#[derive(Clone, Copy, Debug, PartialEq, Eq)]
pub enum Place {
    /// No byte.
    Missing,
    /// A closed gate.
    Closed,
    /// An open gate, and no record of an entry.
    Bad,
    /// The record of this entry.
    Taken(Entry),
}

fn is_header(body: &[u8]) -> bool
    requires { length body.now ≡ 255 }
    ensures { IsTrue result ↔ (text_of_body body.now ≡ Some header) }
{
    match text_of(body) {
        Some(text) => text == HEADER.as_slice(),
        None => false,
    }
}

/// Whether the header stands in its place.
pub fn read_head<D: Disk>(disk: &mut D) -> Result<bool, Failed>
    ensures head { IfOk result (λ is. IfSome (D.seen disk.old) (λ file. IsTrue is ↔ IsHeader (slot_at 0 file))) }
    ensures seen { D.seen disk.new ≡ D.seen disk.old }
    ensures crash { NoMore (D.may_leave disk.old) (D.may_leave disk.new) }
    ensures time { Elapses (D.moment disk.old) (D.moment disk.new) (D.left_since disk.old) (D.left_since disk.new) (D.may_leave disk.new) }
    ensures cause { HasCause (D.faults disk.old) (D.faults disk.new) result }
{
    let mut bytes = [0; WIDTH];
    match read_slot(disk, 0, &mut bytes)? {
        Slot::Whole => Ok(is_header(&bytes[1..])),
        _ => Ok(false),
    }
}

fn entry_of_body(names: &NameTables, body: &[u8]) -> Option<Entry>
    requires { length body.now ≡ 255 }
    ensures entry { result ≡ entry_in names.now body.now }
    ensures fits { IfSome result (Fits names.now) }
{
    match text_of(body) {
        Some(line) => read_entry(names, line),
        None => None,
    }
}

fn place_in(names: &NameTables, slot: Slot, bytes: &[u8; WIDTH]) -> Place
    ensures place { (found : Found) → Finds slot bytes.now found → result ≡ place_of names.now found }
    ensures fits { FitsThere names.now result }
{
    match slot {
        Slot::Missing => Place::Missing,
        Slot::Closed => Place::Closed,
        Slot::Short => Place::Bad,
        Slot::Whole => match entry_of_body(names, &bytes[1..]) {
            Some(entry) => Place::Taken(entry),
            None => Place::Bad,
        },
    }
}

/// What stands in the place of record k.
pub fn read_place<D: Disk>(disk: &mut D, names: &NameTables, k: u64) -> Result<Place, Failed>
    requires { k < 2 ^ 48 }
    ensures place { IfOk result (λ place. IfSome (D.seen disk.old) (λ file. place ≡ place_of names.now (slot_at k file))) }
    ensures fits { IfOk result (FitsThere names.now) }
    ensures seen { D.seen disk.new ≡ D.seen disk.old }
    ensures crash { NoMore (D.may_leave disk.old) (D.may_leave disk.new) }
    ensures time { Elapses (D.moment disk.old) (D.moment disk.new) (D.left_since disk.old) (D.left_since disk.new) (D.may_leave disk.new) }
    ensures cause { HasCause (D.faults disk.old) (D.faults disk.new) result }
{
    let mut bytes = [0; WIDTH];
    let slot = read_slot(disk, k, &mut bytes)?;
    Ok(place_in(names, slot, &bytes))
}
