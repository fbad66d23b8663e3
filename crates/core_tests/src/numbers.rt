//! Names, counted looks and sets of ranks.
ghost use Rattle.std.specs.Prelude.{◌≡◌, ◌<◌, length};

use crate::words::tell;
use rt_base::{Looked, Name, OutOfMemory, RankSet, Steps};
use std::alloc::Global;
use std::marker::Brand;
use std::sync::ledger::{Blank, Ledger};

// Writes the bytes of the name that a text is, as text.
fn try_name(text: &str, said: &mut String) -> Option<()> {
    match Name::new(text.as_bytes()) {
        Some(name) => {
            let bytes = str::from_utf8(name.as_slice()).ok()?;
            write!(said, "the name {bytes}").ok()
        }
        None => said.push_str("no name").ok(),
    }
}

fn at_zero<L: Ledger>(list: &Looked<u8>, blank: Blank) -> u8
    requires name { blank.name ≡ L.name }
    requires parts { blank.parts ≡ L.parts }
    requires one_part { blank.parts ≡ 1 }
    requires some { 0 < length list.now.items }
{
    let mut steps = Steps::<L>::start(blank);
    list.at(0, &mut steps)
}

// The first of three that were each put in front, then of the rest after the new first was set to 7, and how many are left.
fn looked(alloc: Global) -> Result<(u8, u8, usize), OutOfMemory> {
    let mut list = Looked::with_room(alloc, 3)?;
    list.insert(0, 1);
    list.insert(0, 2);
    list.insert(0, 3);
    let first = at_zero::<Brand>(&list, Blank::new(1));
    list.remove(0);
    list.set(0, 7);
    Ok((first, at_zero::<Brand>(&list, Blank::new(1)), list.len()))
}

fn least<L: Ledger>(ranks: RankSet, blank: Blank) -> Option<u32>
    requires name { blank.name ≡ L.name }
    requires parts { blank.parts ≡ L.parts }
    requires one_part { blank.parts ≡ 1 }
{
    let mut steps = Steps::<L>::start(blank);
    ranks.first(&mut steps)
}

// The set to which ranks were added, each a number, or taken from, each a number after `-`.
fn ranks_of(text: &str) -> Option<RankSet> {
    let mut ranks = RankSet::empty();
    for word in text.split_whitespace() {
        let rank = word.trim_start_matches('-').parse::<u32>().ok()?;
        if rank >= 64 {
            return None;
        }
        ranks = if word.starts_with('-') {
            ranks.without(rank)
        } else {
            ranks.with(rank)
        };
    }
    Some(ranks)
}

/// Writes what comes of a line.
pub fn try_numbers(alloc: Global, word: &str, rest: &str, said: &mut String) -> Option<()> {
    match word {
        "name" => try_name(rest, said),
        "ranks" => tell(said, least::<Brand>(ranks_of(rest)?, Blank::new(1))),
        _ => tell(said, looked(alloc)),
    }
}
