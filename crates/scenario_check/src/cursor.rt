//! Lines and columns of a text.

/// A byte of a text, with its line and its column.
#[derive(Clone, Copy, Debug, PartialEq, Eq)]
pub(crate) struct Cursor {
    pub at: usize,
    pub line: u64,
    pub column: u64,
}

impl Cursor {
    /// The first byte.
    pub(crate) fn start() -> Cursor {
        Cursor {
            at: 0,
            line: 1,
            column: 1,
        }
    }

    // The cursor behind a byte. A byte that goes on with a character has no column of its own.
    fn past(self, byte: u8) -> Cursor {
        let at = self.at.saturating_add(1);
        if byte == b'\n' {
            Cursor {
                at,
                line: self.line.saturating_add(1),
                column: 1,
            }
        } else if byte & 0xc0 == 0x80 {
            Cursor { at, ..self }
        } else {
            Cursor {
                at,
                line: self.line,
                column: self.column.saturating_add(1),
            }
        }
    }

    /// The cursor at another byte of the text, by a step for each byte from this one on, or from the first on if it is behind
    /// the other.
    pub(crate) fn moved(self, text: &[u8], to: usize) -> Cursor {
        let mut cursor = if self.at <= to { self } else { Cursor::start() };
        let end = to.min(text.len());
        for i in cursor.at..end {
            cursor = cursor.past(text[i]);
        }
        cursor
    }
}
