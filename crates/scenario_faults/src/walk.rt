//! The faults of form, and the unknown names, of a scenario.
use crate::item_names::ItemNames;
use crate::members::Members;
use crate::operation::{integer, natural};
use crate::reasons::{Range, Wanted, words};
use crate::sheet::Sheet;
use crate::tables::{Member, Table, member_of};
use crate::walk_root::is_second;
use indexmap::IndexSet;
use rt_base::OutOfMemory;
use scenario_forms::{Place, TxnMember};
use scenario_reader::ScenarioError;

/// A fault of a scenario.
#[derive(Clone, Copy)]
pub struct Fault<'t> {
    /// As `run` would tell it, if it were the first.
    pub error: ScenarioError,
    /// The byte where it stands, from 0 on.
    pub at: usize,
    /// The text of which the words speak, as it stands; empty if they speak of none.
    pub token: &'t [u8],
    /// What is wanted there, in words.
    pub reason: &'static [u8],
}

/// A part of a scenario that is looked at by itself.
#[derive(Clone, Copy)]
pub enum Part {
    /// The root without the values of its members.
    Root,
    /// A member of the root without its elements.
    Member { value: usize },
    Item { i: usize, node: usize },
    Txn { i: usize, node: usize },
    Set { i: usize, node: usize },
}

/// A walk over the parts of a scenario, in the order of its text.
#[derive(Drop)]
pub struct Walk<'t> {
    pub(crate) sheet: Sheet<'t>,
    // the members of the root
    pub(crate) root: Members,
    // the tables are those of version 2
    pub(crate) second: bool,
    pub(crate) items: ItemNames<'t>,
    // the names of the transactions so far
    pub(crate) txns: IndexSet<&'t str>,
    // what was found in this part
    pub(crate) faults: Vec<Fault<'t>>,
}

impl<'t> Walk<'t> {
    /// The walk over a scenario, which knows the names of its items. A look-up in a hash map for each item.
    pub fn of(sheet: Sheet<'t>) -> Result<Walk<'t>, OutOfMemory> {
        let second = is_second(sheet);
        let root = Members::of(sheet, 0, Table::Root, second);
        Ok(Walk {
            sheet,
            root,
            second,
            items: ItemNames::of(sheet, &root)?,
            txns: IndexSet::new(sheet.alloc),
            faults: Vec::new(sheet.alloc),
        })
    }

    /// The faults of form and the unknown names of a part, in the order of the text, where the parts before it were looked at. A
    /// look-up in a hash map for each name.
    pub fn faults_of(&mut self, part: Part) -> Result<Vec<Fault<'t>>, OutOfMemory> {
        match part {
            Part::Root => self.root_alone()?,
            Part::Member { value } => self.root_member(value)?,
            Part::Item { i, node } => self.item(i, node)?,
            Part::Txn { i, node } => self.txn(i, node)?,
            Part::Set { i, node } => self.set(i, node)?,
        }
        let none = Vec::new(self.sheet.alloc);
        Ok(std::mem::replace(&mut self.faults, none))
    }

    fn tell(
        &mut self,
        error: ScenarioError,
        at: usize,
        token: &'t [u8],
        wanted: Wanted,
    ) -> Result<(), OutOfMemory> {
        self.faults.push(Fault {
            error,
            at,
            token,
            reason: words(wanted),
        })?;
        Ok(())
    }

    /// A value that is not of its form.
    pub(crate) fn bad(
        &mut self,
        place: Place,
        node: usize,
        wanted: Wanted,
    ) -> Result<(), OutOfMemory> {
        let at = self.sheet.at(node);
        self.tell(ScenarioError::BadField { place }, at, &[], wanted)
    }

    /// A name that an earlier one has.
    pub(crate) fn taken(&mut self, place: Place, node: usize) -> Result<(), OutOfMemory> {
        let (at, token) = (self.sheet.at(node), self.sheet.token(node));
        let error = ScenarioError::BadField { place };
        self.tell(error, at, token, Wanted::OtherName)
    }

    /// A name that is no item's, in the value at the place.
    pub(crate) fn unknown(
        &mut self,
        place: Place,
        node: usize,
        name: usize,
    ) -> Result<(), OutOfMemory> {
        let (at, token) = (self.sheet.at(node), self.sheet.token(name));
        let error = ScenarioError::UnknownName { place };
        self.tell(error, at, token, Wanted::KnownName)
    }

    fn no_member(&mut self, place: Place, value: usize, table: Table) -> Result<(), OutOfMemory> {
        let second = self.second;
        let (at, token) = (self.sheet.key_at(value), self.sheet.key_token(value));
        let error = ScenarioError::BadField { place };
        self.tell(error, at, token, Wanted::MemberOf { table, second })
    }

    /// The members of an object; None, and a fault, if the value is none.
    pub(crate) fn object(
        &mut self,
        place: Place,
        node: usize,
        table: Table,
    ) -> Result<Option<Members>, OutOfMemory> {
        if !self.sheet.is_object(node) {
            self.bad(place, node, Wanted::Object)?;
            return Ok(None);
        }
        Ok(Some(Members::of(self.sheet, node, table, self.second)))
    }

    /// A fault if a required member is missing.
    pub(crate) fn required(
        &mut self,
        place: Place,
        object: usize,
        members: &Members,
        member: Member,
    ) -> Result<(), OutOfMemory> {
        match members.get(member) {
            Some(_) => Ok(()),
            None => self.bad(place, object, Wanted::Member(member)),
        }
    }

    /// The member that a value is; None, and a fault, if its table does not name it, and None if a later one counts.
    pub(crate) fn known(
        &mut self,
        place: Place,
        table: Table,
        members: &Members,
        value: usize,
    ) -> Result<Option<Member>, OutOfMemory> {
        match member_of(table, self.second, self.sheet.key(value)) {
            Some(member) if members.get(member) == Some(value) => Ok(Some(member)),
            Some(_) => Ok(None),
            None => {
                self.no_member(place, value, table)?;
                Ok(None)
            }
        }
    }

    /// The elements of an array; none, and a fault, if the value is none.
    pub(crate) fn array(&mut self, place: Place, node: usize) -> Result<Vec<usize>, OutOfMemory> {
        if !self.sheet.is_array(node) {
            self.bad(place, node, Wanted::Array)?;
            return Ok(Vec::new(self.sheet.alloc));
        }
        self.sheet.children(node)
    }

    /// A whole number in a range; a fault if the value is none.
    pub(crate) fn whole(
        &mut self,
        place: Place,
        node: usize,
        range: Range,
    ) -> Result<(), OutOfMemory> {
        match self.sheet.number(node).and_then(natural) {
            Some(n) if range.has(n) => Ok(()),
            _ => self.bad(place, node, Wanted::Whole(range)),
        }
    }

    /// A whole number of the range of values; a fault if the value is none.
    pub(crate) fn integer(&mut self, place: Place, node: usize) -> Result<(), OutOfMemory> {
        match self.sheet.number(node).and_then(integer) {
            Some(_) => Ok(()),
            None => self.bad(place, node, Wanted::Integer),
        }
    }

    /// An array of texts, each of which is an item's name.
    pub(crate) fn names(
        &mut self,
        place: Place,
        node: usize,
        owner: Owner,
    ) -> Result<(), OutOfMemory> {
        let elements = self.array(place, node)?;
        for (j, element) in elements.iter().enumerate() {
            self.name(owner.at(j), *element)?;
        }
        Ok(())
    }

    fn name(&mut self, place: Place, node: usize) -> Result<(), OutOfMemory> {
        match self.sheet.text(node) {
            Some(name) if self.items.is_unknown(name) => self.unknown(place, node, node),
            Some(_) => Ok(()),
            None => self.bad(place, node, Wanted::Text),
        }
    }
}

/// What has an array of texts.
#[derive(Clone, Copy)]
pub(crate) enum Owner {
    Txn { i: usize, member: TxnMember },
    Set { i: usize },
}

impl Owner {
    /// The place of its element.
    pub(crate) fn at(self, j: usize) -> Place {
        match self {
            Owner::Txn { i, member } => Place::Element { i, member, j },
            Owner::Set { i } => Place::SetElement { i, j },
        }
    }
}
