//! How an out stands.

/// Whether the out of a report takes pieces, and if not, why.
#[derive(Clone, Copy, Debug, PartialEq, Eq)]
pub enum ReportStanding {
    /// It takes pieces.
    Going,
    /// Its sink failed at a piece, of whose lines it may have taken the first bytes.
    Cut,
    /// A piece had more plans than places were left, and nothing of it was written.
    Full,
}

/// Whether an out over a journal takes pieces, and if not, why.
#[derive(Clone, Copy, Debug, PartialEq, Eq)]
pub enum JournalStanding {
    /// It takes pieces.
    Going,
    /// A call of the disk failed, and was counted.
    Faulted,
    /// The disk has another entry in this place, counted from 0.
    Other { place: usize },
}
