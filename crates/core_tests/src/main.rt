//! Does what the lines of standard input say, and prints what came of it. Of the set that they declare: makes calls on a core and
//! on a plain core, replays histories, and drives both cores by the same calls from a seed. Lines that begin with `set` declare
//! further sets, which are compiled, admitted and rated; besides, they ask for responses and ages of plain rows. Others try the crates below: names and counted looks, sources
//! and sinks of bytes, items, scripts, the journal, releases and outs of entries; disks in memory and over files; and what lines of
//! journals and heads of reports are read as, where `⏎` stands for a line end and `␍` for a carriage return. Empty lines and lines
//! that begin with `#` are passed over.
#![tactic(auto)]

mod below;
mod boards;
mod compare;
mod disks;
mod edge;
mod heads;
mod histories;
mod kept;
mod ladders;
mod lines;
mod margins;
mod numbers;
mod priorities;
mod replays;
mod responses;
mod scene;
mod scripts;
mod sets;
mod texts;
mod words;

use disks::{Kept, follow_disk};
use scene::{Scene, follow};
use sets::{Declared, follow_set, nothing};
use std::io;

// What the lines so far made.
#[derive(Drop)]
struct Made<'a> {
    scene: Scene,
    declared: Declared,
    disks: Vec<Kept<'a>>,
}

// Writes what comes of a line, if anything. None where the line is none, cannot be followed, or memory ran out.
fn follow_line<'a>(
    rt: &'a HostRuntime,
    made: &mut Made<'a>,
    line: &'a str,
    said: &mut String,
) -> Option<()> {
    let alloc = rt.alloc();
    let (word, rest) = line.split_once(' ').unwrap_or((line, ""));
    match word {
        "set" => follow_set(alloc, &mut made.declared, rest, said),
        "disk" => follow_disk(rt, &mut made.disks, rest, said),
        _ => follow(alloc, &mut made.scene, line, said),
    }
}

// Prints what comes of each line.
fn follow_lines<'a>(
    rt: &'a HostRuntime,
    made: &mut Made<'a>,
    input: &'a str,
    said: &mut String,
) -> io::Result<()> {
    for line in input.lines() {
        if line.is_empty() || line.starts_with('#') {
            continue;
        }
        said.clear();
        let followed = follow_line(rt, made, line, said);
        let said = said.as_str();
        if followed.is_none() {
            println!(rt; "{line}: not read")?;
        } else if !said.is_empty() {
            println!(rt; "{line}: {said}")?;
        }
    }
    Ok(())
}

// Follows each line of a text, from nothing on, and prints what each says.
fn follow_all(rt: &HostRuntime, input: &str) -> io::Result<()> {
    let alloc = rt.alloc();
    let mut said = String::new(alloc);
    let mut made = Made {
        scene: Scene::new(alloc),
        declared: nothing(alloc),
        disks: Vec::new(alloc),
    };
    let followed = follow_lines(rt, &mut made, input, &mut said);
    drop(made);
    drop(said);
    followed
}

fn main(rt: HostRuntime) -> io::Result<()> {
    let input = io::read_to_string(rt.alloc(), rt.reader())?;
    let followed = follow_all(&rt, input.as_str());
    drop(input);
    followed
}
