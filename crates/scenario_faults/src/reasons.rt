//! What is wanted at a place, in words.
use crate::tables::{Member, Table, no_member};

/// The ranges of whole numbers.
#[derive(Clone, Copy)]
pub(crate) enum Range {
    Version,
    Validity,
    Time,
    Count,
    Tick,
}

impl Range {
    /// Whether a number is in the range.
    pub(crate) fn has(self, n: u64) -> bool {
        match self {
            Range::Version => n == 1 || n == 2,
            Range::Validity => 1 <= n && n <= 1 << 40,
            Range::Time => n <= 1 << 40,
            Range::Count => n <= 1 << 31,
            Range::Tick => n <= 1 << 53,
        }
    }

    fn words(self) -> &'static [u8] {
        match self {
            Range::Version => b"a whole number 1 to 2 is wanted",
            Range::Validity => b"a whole number 1 to 1099511627776 is wanted",
            Range::Time => b"a whole number 0 to 1099511627776 is wanted",
            Range::Count => b"a whole number 0 to 2147483648 is wanted",
            Range::Tick => b"a whole number 0 to 9007199254740992 is wanted",
        }
    }
}

/// What is wanted at a place.
#[derive(Clone, Copy)]
pub(crate) enum Wanted {
    Object,
    Array,
    Text,
    Name,
    OtherName,
    Kind,
    NoValidity,
    Integer,
    Whole(Range),
    /// One of releases, jobs and eager alone.
    OneOfThem,
    Operation,
    Value,
    Shallow,
    /// A required member.
    Member(Member),
    /// A member of the table.
    MemberOf { table: Table, second: bool },
    KnownName,
}

fn missing(member: Member) -> &'static [u8] {
    match member {
        Member::Version => b"version is missing",
        Member::Items => b"items is missing",
        Member::Transactions => b"transactions is missing",
        Member::Name => b"name is missing",
        Member::Kind => b"kind is missing",
        Member::Validity => b"validity is missing",
        Member::Priority => b"priority is missing",
        Member::Period => b"period is missing",
        Member::Steps => b"steps is missing",
        Member::Within => b"within is missing",
        _ => b"a member is missing",
    }
}

/// What is wanted, in words, behind the text of which they speak if they speak of one.
pub(crate) fn words(wanted: Wanted) -> &'static [u8] {
    match wanted {
        Wanted::Object => b"an object is wanted",
        Wanted::Array => b"an array is wanted",
        Wanted::Text => b"a text is wanted",
        Wanted::Name => b"a name is wanted, 1 to 32 of a to z, 0 to 9 and _ with a letter first",
        Wanted::OtherName => b" is the name of an earlier one",
        Wanted::Kind => b"\"sensor\", \"derived\" or \"state\" is wanted",
        Wanted::NoValidity => b"a state item has no validity",
        Wanted::Integer => {
            b"a whole number -9223372036854775808 to 9223372036854775807 is wanted"
        }
        Wanted::Whole(range) => range.words(),
        Wanted::OneOfThem => b"one of releases, jobs and eager alone may be given",
        Wanted::Operation => {
            b"an operation is wanted: {\"read\":NAME}, {\"write\":NAME,\"value\":VALUE}, {\"compute\":N} with N from 1 to 10000, \"commit\" or \"quit\""
        }
        Wanted::Value => {
            b"the value of a write is a whole number, \"sample\", \"serial\", {\"last\":NAME}, or one of add, sub, mul, div, min and max of two values"
        }
        Wanted::Shallow => b"the value of a write is nested deeper than 32",
        Wanted::Member(member) => missing(member),
        Wanted::MemberOf { table, second } => no_member(table, second),
        Wanted::KnownName => b" is the name of no item",
    }
}
