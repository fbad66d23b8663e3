//! The parts of a scenario, and the faults of its root and of its relative sets.
use crate::members::Members;
use crate::operation::natural;
use crate::reasons::{Range, Wanted};
use crate::sheet::Sheet;
use crate::tables::{Member, Table, member_of};
use crate::walk::{Owner, Part, Walk};
use rt_base::OutOfMemory;
use scenario_forms::Place;

/// Whether the tables of a scenario are those of version 2.
pub(crate) fn is_second(sheet: Sheet<'_>) -> bool {
    match Members::of(sheet, 0, Table::Root, true).get(Member::Version) {
        Some(version) => sheet.number(version).and_then(natural) == Some(2),
        None => false,
    }
}

// The part that an element of a root's member is; None if no elements of it are looked at.
fn element(member: Member, i: usize, node: usize) -> Option<Part> {
    match member {
        Member::Items => Some(Part::Item { i, node }),
        Member::Transactions => Some(Part::Txn { i, node }),
        Member::Together => Some(Part::Set { i, node }),
        _ => None,
    }
}

impl<'t> Walk<'t> {
    /// The parts, in the order of the text.
    pub fn parts(&self) -> Result<Vec<Part>, OutOfMemory> {
        let mut parts = Vec::new(self.sheet.alloc);
        parts.push(Part::Root)?;
        if self.sheet.is_object(0) {
            for value in &self.sheet.children(0)? {
                self.add_parts(&mut parts, *value)?;
            }
        }
        Ok(parts)
    }

    // The member, and its elements if these are looked at.
    fn add_parts(&self, parts: &mut Vec<Part>, value: usize) -> Result<(), OutOfMemory> {
        parts.push(Part::Member { value })?;
        let Some(member) = member_of(Table::Root, self.second, self.sheet.key(value)) else {
            return Ok(());
        };
        if self.root.get(member) == Some(value) && self.sheet.is_array(value) {
            for (i, node) in self.sheet.children(value)?.iter().enumerate() {
                if let Some(part) = element(member, i, *node) {
                    parts.push(part)?;
                }
            }
        }
        Ok(())
    }

    /// The root without the values of its members.
    pub(crate) fn root_alone(&mut self) -> Result<(), OutOfMemory> {
        let Some(members) = self.object(Place::Root, 0, Table::Root)? else {
            return Ok(());
        };
        self.required(Place::Version, 0, &members, Member::Version)?;
        self.required(Place::Items, 0, &members, Member::Items)?;
        self.required(Place::Txns, 0, &members, Member::Transactions)
    }

    /// A member of the root without its elements.
    pub(crate) fn root_member(&mut self, value: usize) -> Result<(), OutOfMemory> {
        let members = self.root;
        match self.known(Place::Root, Table::Root, &members, value)? {
            Some(Member::Version) => self.whole(Place::Version, value, Range::Version),
            Some(Member::Items) => self.is_array(Place::Items, value),
            Some(Member::Transactions) => self.is_array(Place::Txns, value),
            Some(Member::Together) => self.is_array(Place::Together, value),
            _ => Ok(()),
        }
    }

    // A fault if a value is no array.
    fn is_array(&mut self, place: Place, node: usize) -> Result<(), OutOfMemory> {
        if self.sheet.is_array(node) {
            Ok(())
        } else {
            self.bad(place, node, Wanted::Array)
        }
    }

    /// A relative set.
    pub(crate) fn set(&mut self, i: usize, node: usize) -> Result<(), OutOfMemory> {
        let place = Place::Set { i };
        let Some(members) = self.object(place, node, Table::Set)? else {
            return Ok(());
        };
        self.required(Place::SetItems { i }, node, &members, Member::Items)?;
        self.required(Place::SetWithin { i }, node, &members, Member::Within)?;
        for value in &self.sheet.children(node)? {
            let member = self.known(place, Table::Set, &members, *value)?;
            self.set_member(i, member, *value)?;
        }
        Ok(())
    }

    fn set_member(
        &mut self,
        i: usize,
        member: Option<Member>,
        value: usize,
    ) -> Result<(), OutOfMemory> {
        match member {
            Some(Member::Items) => self.names(Place::SetItems { i }, value, Owner::Set { i }),
            Some(Member::Within) => self.whole(Place::SetWithin { i }, value, Range::Time),
            _ => Ok(()),
        }
    }
}
