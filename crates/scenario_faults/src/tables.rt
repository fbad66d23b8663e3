//! The members that the tables of a scenario name.
use scenario_forms::{ItemMember, TxnMember};

/// A table of members.
#[derive(Clone, Copy)]
pub(crate) enum Table {
    Root,
    Item,
    Txn,
    Set,
}

/// A member of some table.
#[derive(Clone, Copy)]
pub(crate) enum Member {
    Version,
    Items,
    Transactions,
    Together,
    Name,
    Kind,
    Validity,
    Value,
    Priority,
    Period,
    Offset,
    Deadline,
    Steps,
    Quiet,
    Reads,
    Writes,
    Releases,
    Jobs,
    Eager,
    Samples,
    Script,
    Within,
}

/// How many members there are.
pub(crate) const MEMBERS: usize = 22;

/// The member of an item.
pub(crate) fn of_item(member: ItemMember) -> Member {
    match member {
        ItemMember::Name => Member::Name,
        ItemMember::Kind => Member::Kind,
        ItemMember::Validity => Member::Validity,
        ItemMember::Value => Member::Value,
    }
}

/// The member of a transaction.
pub(crate) fn of_txn(member: TxnMember) -> Member {
    match member {
        TxnMember::Name => Member::Name,
        TxnMember::Priority => Member::Priority,
        TxnMember::Period => Member::Period,
        TxnMember::Offset => Member::Offset,
        TxnMember::Deadline => Member::Deadline,
        TxnMember::Steps => Member::Steps,
        TxnMember::Quiet => Member::Quiet,
        TxnMember::Reads => Member::Reads,
        TxnMember::Writes => Member::Writes,
        TxnMember::Releases => Member::Releases,
        TxnMember::Jobs => Member::Jobs,
        TxnMember::Eager => Member::Eager,
        TxnMember::Samples => Member::Samples,
        TxnMember::Script => Member::Script,
    }
}

fn root_member(second: bool, name: &str) -> Option<Member> {
    match name {
        "version" => Some(Member::Version),
        "items" => Some(Member::Items),
        "transactions" => Some(Member::Transactions),
        "together" if second => Some(Member::Together),
        _ => None,
    }
}

fn item_member(name: &str) -> Option<Member> {
    match name {
        "name" => Some(Member::Name),
        "kind" => Some(Member::Kind),
        "validity" => Some(Member::Validity),
        "value" => Some(Member::Value),
        _ => None,
    }
}

fn txn_member(second: bool, name: &str) -> Option<Member> {
    match name {
        "name" => Some(Member::Name),
        "priority" => Some(Member::Priority),
        "period" => Some(Member::Period),
        "offset" => Some(Member::Offset),
        "deadline" => Some(Member::Deadline),
        "steps" => Some(Member::Steps),
        "quiet" if second => Some(Member::Quiet),
        "reads" => Some(Member::Reads),
        "writes" => Some(Member::Writes),
        "releases" => Some(Member::Releases),
        "jobs" => Some(Member::Jobs),
        "eager" => Some(Member::Eager),
        "samples" => Some(Member::Samples),
        "script" => Some(Member::Script),
        _ => None,
    }
}

fn set_member(name: &str) -> Option<Member> {
    match name {
        "items" => Some(Member::Items),
        "within" => Some(Member::Within),
        _ => None,
    }
}

/// The member that a table names so; those of version 2 alone are named where `second` holds.
pub(crate) fn member_of(table: Table, second: bool, name: &str) -> Option<Member> {
    match table {
        Table::Root => root_member(second, name),
        Table::Item => item_member(name),
        Table::Txn => txn_member(second, name),
        Table::Set => set_member(name),
    }
}

/// What is said of a member that a table does not name.
pub(crate) fn no_member(table: Table, second: bool) -> &'static [u8] {
    match table {
        Table::Root => {
            if second {
                b" is no member of a scenario; members are version, items, transactions, together"
            } else {
                b" is no member of a scenario of version 1; members are version, items, transactions"
            }
        }
        Table::Item => b" is no member of an item; members are name, kind, validity, value",
        Table::Txn => {
            if second {
                b" is no member of a transaction; members are name, priority, period, offset, deadline, steps, quiet, reads, writes, releases, jobs, eager, samples, script"
            } else {
                b" is no member of a transaction of version 1; members are name, priority, period, offset, deadline, steps, reads, writes, releases, jobs, eager, samples, script"
            }
        }
        Table::Set => b" is no member of a relative set; members are items, within",
    }
}
