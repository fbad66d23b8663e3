//! The faults of the items.
use crate::item_names::name_of;
use crate::members::Members;
use crate::reasons::{Range, Wanted};
use crate::sheet::Sheet;
use crate::tables::{Member, Table};
use crate::walk::Walk;
use rt_base::OutOfMemory;
use scenario_forms::{ItemMember, Place};

// What the kind of an item says of its validity.
#[derive(Clone, Copy)]
enum Dating {
    Dated,
    Undated,
}

fn dating_of(sheet: Sheet<'_>, members: &Members) -> Option<Dating> {
    match sheet.text(members.get(Member::Kind)?)? {
        "sensor" | "derived" => Some(Dating::Dated),
        "state" => Some(Dating::Undated),
        _ => None,
    }
}

impl<'t> Walk<'t> {
    /// An item.
    pub(crate) fn item(&mut self, i: usize, node: usize) -> Result<(), OutOfMemory> {
        let place = Place::Item { i };
        let Some(members) = self.object(place, node, Table::Item)? else {
            return Ok(());
        };
        let dating = dating_of(self.sheet, &members);
        self.item_required(i, node, &members, dating)?;
        for value in &self.sheet.children(node)? {
            if let Some(member) = self.known(place, Table::Item, &members, *value)? {
                self.item_member(i, member, *value, dating)?;
            }
        }
        Ok(())
    }

    fn item_required(
        &mut self,
        i: usize,
        node: usize,
        members: &Members,
        dating: Option<Dating>,
    ) -> Result<(), OutOfMemory> {
        self.required(of_item(i, ItemMember::Name), node, members, Member::Name)?;
        self.required(of_item(i, ItemMember::Kind), node, members, Member::Kind)?;
        match dating {
            Some(Dating::Dated) => self.required(
                of_item(i, ItemMember::Validity),
                node,
                members,
                Member::Validity,
            ),
            _ => Ok(()),
        }
    }

    fn item_member(
        &mut self,
        i: usize,
        member: Member,
        value: usize,
        dating: Option<Dating>,
    ) -> Result<(), OutOfMemory> {
        match member {
            Member::Name => self.item_name(i, value),
            Member::Kind => match dating {
                Some(_) => Ok(()),
                None => self.bad(of_item(i, ItemMember::Kind), value, Wanted::Kind),
            },
            Member::Validity => self.validity(of_item(i, ItemMember::Validity), value, dating),
            Member::Value => self.integer(of_item(i, ItemMember::Value), value),
            _ => Ok(()),
        }
    }

    fn item_name(&mut self, i: usize, node: usize) -> Result<(), OutOfMemory> {
        let place = of_item(i, ItemMember::Name);
        match name_of(self.sheet, node) {
            Some(name) if self.items.is_first(name, i) => Ok(()),
            Some(_) => self.taken(place, node),
            None => self.bad(place, node, Wanted::Name),
        }
    }

    fn validity(
        &mut self,
        place: Place,
        node: usize,
        dating: Option<Dating>,
    ) -> Result<(), OutOfMemory> {
        match dating {
            Some(Dating::Dated) => self.whole(place, node, Range::Validity),
            Some(Dating::Undated) => self.bad(place, node, Wanted::NoValidity),
            None => Ok(()),
        }
    }
}

fn of_item(i: usize, member: ItemMember) -> Place {
    Place::ItemMember { i, member }
}
