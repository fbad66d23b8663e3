//! The members of an object.
use crate::sheet::Sheet;
use crate::tables::{MEMBERS, Member, Table, member_of};

/// The members of an object that its table names, by their values: of repeated ones the last.
#[derive(Clone, Copy)]
pub(crate) struct Members {
    values: [Option<usize>; MEMBERS],
}

impl Members {
    /// No members.
    pub(crate) fn none() -> Members {
        Members {
            values: [None; MEMBERS],
        }
    }

    /// The members of a value, none if it is no object. A step for each.
    pub(crate) fn of(sheet: Sheet<'_>, object: usize, table: Table, second: bool) -> Members {
        let mut members = Members::none();
        if !sheet.is_object(object) {
            return members;
        }
        let mut child = sheet.first(object);
        for _ in 0..sheet.len() {
            let Some(value) = child else { break };
            if let Some(member) = member_of(table, second, sheet.key(value)) {
                members.put(member, value);
            }
            child = sheet.next(object, value);
        }
        members
    }

    /// One member more, or another value of it.
    pub(crate) fn put(&mut self, member: Member, value: usize) {
        if let Some(place) = self.values.get_mut(member as usize) {
            *place = Some(value);
        }
    }

    /// The value of a member.
    pub(crate) fn get(&self, member: Member) -> Option<usize> {
        *self.values.get(member as usize)?
    }
}
