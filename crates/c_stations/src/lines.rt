//! Where the line of an entry is written.
ghost use Rattle.std.specs.Prelude.{◌≤◌, vec_capacity};

use journal_text::Numerals;
use rt_base::OutOfMemory;
use std::alloc::Global;

// The most bytes of a line with its line end.
const LINE: usize = 256;

/// Room for the line of an entry, and digits that are kept from line to line.
#[derive(Drop)]
pub struct Lines {
    pub line: Vec<u8>,
    pub numerals: Numerals,
    pub ghost room: { 256 ≤ vec_capacity line },
}

impl Lines {
    /// After `OutOfMemory` there is none.
    pub fn new(alloc: Global) -> Result<Lines, OutOfMemory> {
        Ok(Lines {
            line: Vec::with_capacity(alloc, LINE)?,
            numerals: Numerals::new(),
        })
    }
}
