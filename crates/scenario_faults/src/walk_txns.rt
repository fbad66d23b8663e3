//! The faults of the transactions.
use crate::item_names::name_of;
use crate::members::Members;
use crate::operation::{Looked, OpForm};
use crate::reasons::{Range, Wanted};
use crate::tables::{Member, Table};
use crate::walk::{Owner, Walk};
use rt_base::OutOfMemory;
use scenario_forms::{Place, TxnMember};

impl<'t> Walk<'t> {
    /// A transaction.
    pub(crate) fn txn(&mut self, i: usize, node: usize) -> Result<(), OutOfMemory> {
        let place = Place::Txn { i };
        let Some(members) = self.object(place, node, Table::Txn)? else {
            return Ok(());
        };
        self.txn_required(i, node, &members)?;
        for value in &self.sheet.children(node)? {
            if let Some(member) = self.known(place, Table::Txn, &members, *value)? {
                self.txn_member(i, &members, member, *value)?;
            }
        }
        Ok(())
    }

    fn txn_required(
        &mut self,
        i: usize,
        node: usize,
        members: &Members,
    ) -> Result<(), OutOfMemory> {
        self.required(of_txn(i, TxnMember::Name), node, members, Member::Name)?;
        self.required(
            of_txn(i, TxnMember::Priority),
            node,
            members,
            Member::Priority,
        )?;
        self.required(of_txn(i, TxnMember::Period), node, members, Member::Period)?;
        self.required(of_txn(i, TxnMember::Steps), node, members, Member::Steps)
    }

    fn txn_member(
        &mut self,
        i: usize,
        members: &Members,
        member: Member,
        value: usize,
    ) -> Result<(), OutOfMemory> {
        match member {
            Member::Name => self.txn_name(i, value),
            Member::Priority => self.whole(of_txn(i, TxnMember::Priority), value, Range::Count),
            Member::Period => self.whole(of_txn(i, TxnMember::Period), value, Range::Time),
            Member::Offset => self.whole(of_txn(i, TxnMember::Offset), value, Range::Time),
            Member::Deadline => self.whole(of_txn(i, TxnMember::Deadline), value, Range::Time),
            Member::Steps => self.whole(of_txn(i, TxnMember::Steps), value, Range::Time),
            Member::Quiet => self.whole(of_txn(i, TxnMember::Quiet), value, Range::Time),
            Member::Reads => self.txn_names(i, TxnMember::Reads, value),
            Member::Writes => self.txn_names(i, TxnMember::Writes, value),
            Member::Releases => self.ticks(i, value),
            Member::Jobs => self.count(i, TxnMember::Jobs, value, has_releases(members)),
            Member::Eager => self.count(
                i,
                TxnMember::Eager,
                value,
                has_releases(members) || members.get(Member::Jobs).is_some(),
            ),
            Member::Samples => self.samples(i, value),
            Member::Script => self.script(i, value),
            _ => Ok(()),
        }
    }

    fn txn_name(&mut self, i: usize, node: usize) -> Result<(), OutOfMemory> {
        let place = of_txn(i, TxnMember::Name);
        let Some(name) = name_of(self.sheet, node) else {
            return self.bad(place, node, Wanted::Name);
        };
        if !self.txns.insert(name)? {
            self.taken(place, node)?;
        }
        Ok(())
    }

    fn txn_names(&mut self, i: usize, member: TxnMember, node: usize) -> Result<(), OutOfMemory> {
        self.names(of_txn(i, member), node, Owner::Txn { i, member })
    }

    fn count(
        &mut self,
        i: usize,
        member: TxnMember,
        node: usize,
        is_another: bool,
    ) -> Result<(), OutOfMemory> {
        if is_another {
            return self.bad(of_txn(i, member), node, Wanted::OneOfThem);
        }
        self.whole(of_txn(i, member), node, Range::Count)
    }

    fn ticks(&mut self, i: usize, node: usize) -> Result<(), OutOfMemory> {
        let member = TxnMember::Releases;
        let ticks = self.array(of_txn(i, member), node)?;
        for (j, tick) in ticks.iter().enumerate() {
            self.whole(Place::Element { i, member, j }, *tick, Range::Tick)?;
        }
        Ok(())
    }

    fn samples(&mut self, i: usize, node: usize) -> Result<(), OutOfMemory> {
        let member = TxnMember::Samples;
        let samples = self.array(of_txn(i, member), node)?;
        for (j, sample) in samples.iter().enumerate() {
            self.integer(Place::Element { i, member, j }, *sample)?;
        }
        Ok(())
    }

    fn script(&mut self, i: usize, node: usize) -> Result<(), OutOfMemory> {
        let member = TxnMember::Script;
        let operations = self.array(of_txn(i, member), node)?;
        for (j, operation) in operations.iter().enumerate() {
            self.operation(Place::Element { i, member, j }, *operation)?;
        }
        Ok(())
    }

    fn operation(&mut self, place: Place, node: usize) -> Result<(), OutOfMemory> {
        let mut looked = Looked {
            sheet: self.sheet,
            items: &self.items,
            unknown: Vec::new(self.sheet.alloc),
        };
        let form = looked.operation(node)?;
        let unknown = looked.unknown;
        match form {
            OpForm::Good => {}
            OpForm::None => self.bad(place, node, Wanted::Operation)?,
            OpForm::NoValue => self.bad(place, node, Wanted::Value)?,
            OpForm::Deep => self.bad(place, node, Wanted::Shallow)?,
        }
        for name in &unknown {
            self.unknown(place, node, *name)?;
        }
        Ok(())
    }
}

fn has_releases(members: &Members) -> bool {
    members.get(Member::Releases).is_some()
}

fn of_txn(i: usize, member: TxnMember) -> Place {
    Place::TxnMember { i, member }
}
