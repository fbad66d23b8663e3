//! Lines that try the crates below a board.
use crate::edge::try_edge;
use crate::kept::try_kept;
use crate::lines::try_line;
use crate::numbers::try_numbers;
use crate::scripts::try_scripts;
use std::alloc::Global;

/// Writes what comes of a line.
pub fn try_below(alloc: Global, word: &str, rest: &str, said: &mut String) -> Option<()> {
    match word {
        "name" | "ranks" | "looked" => try_numbers(alloc, word, rest, said),
        "items" | "journal" | "releases" | "kept" => try_kept(alloc, word, said),
        "value" | "serial" | "operations" | "script" | "many" => {
            try_scripts(alloc, word, rest, said)
        }
        "read" | "sevens" | "sure" | "text" | "writers" | "readers" => {
            try_edge(alloc, word, rest, said)
        }
        _ => try_line(alloc, word, rest, said),
    }
}
