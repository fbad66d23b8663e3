//! A word of the command line.
ghost use Rattle.std.specs.Prelude.{◌≡◌, IfOk};

use rt_base::OutOfMemory;
use std::alloc::Global;
use std::convert::AsStr;
use std::marker::Model;

/// A word of the command line. Contracts see it as the list of its bytes.
#[derive(Drop)]
pub struct Word {
    text: String,
}

impl Model for Word {
    ghost use Rattle.std.specs.Prelude.{List, ℕ};
    ghost use Rattle.std.specs.String.{string_bytes};

    ghost Value = { List ℕ };

    ghost view = { λ w. string_bytes w.text };
}

impl AsStr for Word {
    ghost text = { λ w. w };

    fn as_str(&self) -> &str {
        self.text.as_str()
    }
}

impl Word {
    /// The word of a text.
    pub fn new(alloc: Global, text: &str) -> Result<Word, OutOfMemory>
        ensures { IfOk result (λ w. w ≡ text.now) }
    {
        Ok(Word {
            text: String::from_str(alloc, text)?,
        })
    }

    /// Its bytes.
    pub fn as_slice(&self) -> &[u8]
        ensures { result.now ≡ self.now }
    {
        self.text.as_bytes()
    }
}
