//! Where a place of a scenario stands in its text.
use crate::members::Members;
use crate::sheet::Sheet;
use crate::tables::{Member, Table, of_item, of_txn};
use crate::walk_root::is_second;
use rt_base::OutOfMemory;
use scenario_forms::{Place, TxnMember};

/// The places of a scenario in its text. A member that is missing stands where its object does, and an element where its
/// array does.
#[derive(Drop)]
pub struct Places<'t> {
    sheet: Sheet<'t>,
    second: bool,
    root: Members,
    items: Vec<usize>,
    txns: Vec<usize>,
    sets: Vec<usize>,
    // the transaction that was looked at last, and its members
    txn: usize,
    members: Members,
    // the array that was looked at last, and its elements
    array: usize,
    elements: Vec<usize>,
}

// The elements of a member of the root; none where it is missing.
fn elements_of(sheet: Sheet<'_>, member: Option<usize>) -> Result<Vec<usize>, OutOfMemory> {
    match member {
        Some(array) => sheet.children(array),
        None => Ok(Vec::new(sheet.alloc)),
    }
}

// An element; the root where it is missing.
fn element(elements: &[usize], i: usize) -> usize {
    match elements.get(i) {
        Some(node) => *node,
        None => 0,
    }
}

impl<'t> Places<'t> {
    /// The places of a text. A step for each of its items, transactions and relative sets.
    pub fn of(sheet: Sheet<'t>) -> Result<Places<'t>, OutOfMemory> {
        let second = is_second(sheet);
        let root = Members::of(sheet, 0, Table::Root, second);
        Ok(Places {
            sheet,
            second,
            root,
            items: elements_of(sheet, root.get(Member::Items))?,
            txns: elements_of(sheet, root.get(Member::Transactions))?,
            sets: elements_of(sheet, root.get(Member::Together))?,
            txn: 0,
            members: Members::none(),
            array: 0,
            elements: Vec::new(sheet.alloc),
        })
    }

    fn of_root(&self, member: Member) -> usize {
        self.root.get(member).unwrap_or(0)
    }

    // A member of an object; the object where it is missing.
    fn member(&self, object: usize, table: Table, member: Member) -> usize {
        Members::of(self.sheet, object, table, self.second)
            .get(member)
            .unwrap_or(object)
    }

    // An element of an array; the array where it is missing. The elements of the last array are kept.
    fn inner(&mut self, array: usize, j: usize) -> Result<usize, OutOfMemory> {
        if self.array != array {
            self.elements = self.sheet.children(array)?;
            self.array = array;
        }
        match self.elements.get(j) {
            Some(node) => Ok(*node),
            None => Ok(array),
        }
    }

    // A member of a transaction, whose members are kept. Where its releases are missing, its jobs count, eager ones too.
    fn of_txn(&mut self, i: usize, member: TxnMember) -> usize {
        let txn = element(&self.txns, i);
        if self.txn != txn {
            self.members = Members::of(self.sheet, txn, Table::Txn, self.second);
            self.txn = txn;
        }
        let found = match member {
            TxnMember::Releases => self
                .members
                .get(Member::Releases)
                .or(self.members.get(Member::Jobs))
                .or(self.members.get(Member::Eager)),
            _ => self.members.get(of_txn(member)),
        };
        found.unwrap_or(txn)
    }

    fn of_set(&self, i: usize, member: Member) -> usize {
        self.member(element(&self.sets, i), Table::Set, member)
    }

    fn node(&mut self, place: Place) -> Result<usize, OutOfMemory> {
        match place {
            Place::Root => Ok(0),
            Place::Version => Ok(self.of_root(Member::Version)),
            Place::Items => Ok(self.of_root(Member::Items)),
            Place::Item { i } => Ok(element(&self.items, i)),
            Place::ItemMember { i, member } => {
                Ok(self.member(element(&self.items, i), Table::Item, of_item(member)))
            }
            Place::Txns => Ok(self.of_root(Member::Transactions)),
            Place::Txn { i } => Ok(element(&self.txns, i)),
            Place::TxnMember { i, member } => Ok(self.of_txn(i, member)),
            Place::Element { i, member, j } => {
                let array = self.of_txn(i, member);
                self.inner(array, j)
            }
            Place::Together => Ok(self.of_root(Member::Together)),
            Place::Set { i } => Ok(element(&self.sets, i)),
            Place::SetItems { i } => Ok(self.of_set(i, Member::Items)),
            Place::SetWithin { i } => Ok(self.of_set(i, Member::Within)),
            Place::SetElement { i, j } => {
                let array = self.of_set(i, Member::Items);
                self.inner(array, j)
            }
        }
    }

    /// The first byte of a place. It costs what its object and its array have, unless they are those of the last call.
    pub fn at(&mut self, place: Place) -> Result<usize, OutOfMemory> {
        let node = self.node(place)?;
        Ok(self.sheet.at(node))
    }
}
