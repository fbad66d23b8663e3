//! The lines of a case.
use crate::answer::{answer, answer_faults, answer_prefixes};
use crate::below::{command_text, rewritten};
use crate::case::Case;
use std::alloc::Global;
use std::rt::Files;
use std::sync::Wait;
use std::thread::Threads;
use std::{fs, mem};

// Prints the case's name, with what was said where that is not what is wanted.
fn report<R: Print>(rt: &R, case: &Case, holds: bool) -> Option<()> {
    if holds {
        return println!(rt; "ok {}", case.name).ok();
    }
    match str::from_utf8(&case.said) {
        Ok(said) => println!(rt; "{} differs: {said}", case.name).ok(),
        Err(_) => println!(rt; "{} differs", case.name).ok(),
    }
}

// A text in which the sign of a line end stands for one.
fn text_of(alloc: Global, text: &str) -> Option<Vec<u8>> {
    let text = text.replace(alloc, "⏎", "\n").ok()?;
    Some(text.as_bytes().to_vec(alloc).ok()?)
}

// How many lines of a text begin with this word.
fn lines_of(text: &[u8], word: &str) -> Option<usize> {
    let mut count: usize = 0;
    for line in str::from_utf8(text).ok()?.lines() {
        if line.starts_with(word) {
            count = count.saturating_add(1);
        }
    }
    Some(count)
}

// Does what a line says that sets what a command is run on. None where it says something else.
fn prepare<R: Files + Alloc<A = Global>>(
    rt: &R,
    case: &mut Case,
    key: &str,
    rest: &str,
) -> Option<()> {
    let alloc = rt.alloc();
    match key {
        "case" => case.begin(rest),
        "input" => case.take(&fs::read(rt, rest).ok()?),
        "text" => case.take(&text_of(alloc, rest)?),
        "blanks" => case.take(&vec![in alloc; b' '; rest.parse().ok()?].ok()?),
        "answer" => case.take_answer(),
        "change" => change(alloc, case, rest),
        "words" => case.call(alloc, rest),
        _ => tune(case, key, rest.parse().ok()?),
    }
}

// Replaces what stands before the arrow by what stands after it.
fn change(alloc: Global, case: &mut Case, rest: &str) -> Option<()> {
    let (from, to) = rest.split_once(" →")?;
    let from = from.replace(alloc, "⏎", "\n").ok()?;
    let to = to
        .strip_prefix(' ')
        .unwrap_or(to)
        .replace(alloc, "⏎", "\n")
        .ok()?;
    case.change(alloc, from.as_str(), to.as_str())
}

// Has the call of this number fail, and no other.
fn fail_at(faults: &mut Vec<u64>, number: u32) -> Option<()> {
    faults.clear();
    faults.push(number as u64).ok()
}

// Sets a number of the case.
fn tune(case: &mut Case, key: &str, number: u32) -> Option<()> {
    match key {
        "plain" => case.plain = number == 1,
        "picture" => case.picture = number == 1,
        "tool" => case.tool = number == 1,
        "piece" => case.piece = number as usize,
        "room" => case.room = number as usize,
        "read-fault" => return fail_at(&mut case.read_faults, number),
        "write-fault" => return fail_at(&mut case.write_faults, number),
        _ => return None,
    }
    Some(())
}

// The text that is wanted.
fn wanted<R: Files + Alloc<A = Global>>(
    rt: &R,
    case: &Case,
    key: &str,
    rest: &str,
) -> Option<Vec<u8>> {
    match key {
        "says" | "ends" | "shows" => text_of(rt.alloc(), rest),
        "same" | "part" | "longer" => case.said.to_vec(rt.alloc()).ok(),
        "rewrites" if rest.is_empty() => case.input.to_vec(rt.alloc()).ok(),
        _ => fs::read(rt, rest).ok(),
    }
}

// Whether a part stands somewhere in a text.
fn has_part(text: &[u8], part: &[u8]) -> bool {
    for at in 0..text.len() {
        if text[at..].starts_with(part) {
            return true;
        }
    }
    false
}

// Whether what was said is what is wanted.
fn is_wanted(case: &Case, key: &str, wanted: &[u8]) -> bool {
    let said = case.said.as_slice();
    match key {
        "ends" => said.ends_with(wanted),
        "shows" => has_part(said, wanted),
        "longer" => wanted.len() < said.len(),
        "part" => wanted.starts_with(said) && said.len() == case.room,
        _ => said == wanted,
    }
}

// Whether a call gives what is wanted.
fn holds<R: Threads + Wait + Sync>(
    rt: &R,
    alloc: Global,
    case: &mut Case,
    key: &str,
    status: u8,
    wanted: &[u8],
) -> Option<bool> {
    let right = match key {
        "prefixes" => answer_prefixes(rt, alloc, case, status)?,
        "fronts" => answer_faults(rt, alloc, case, wanted)?,
        "rewrites" => {
            let text = rewritten(alloc, &case.input)?;
            drop(mem::replace(&mut case.said, text));
            true
        }
        _ => answer(rt, alloc, case)? as u8 == status,
    };
    Some(right && is_wanted(case, key, wanted))
}

// Does what a line says that checks something.
fn check<R: Threads + Wait + Sync + Files + Print + Alloc<A = Global>>(
    rt: &R,
    case: &mut Case,
    key: &str,
    rest: &str,
) -> Option<()> {
    let (number, rest) = rest.split_once(' ').unwrap_or((rest, ""));
    let number: u32 = number.parse().ok()?;
    let right = match key {
        "lines" => lines_of(&case.said, rest)? == number as usize,
        "asked" => number as u64 <= case.asked,
        "unasked" => case.asked < number as u64,
        "reads" => command_text(rt.alloc(), &case.words)?.as_str() == rest,
        _ => {
            let text = wanted(rt, case, key, rest)?;
            holds(rt, rt.alloc(), case, key, u8::try_from(number).ok()?, &text)?
        }
    };
    report(rt, case, right)
}

const CHECKS: [&str; 14] = [
    "says", "ends", "shows", "gives", "same", "longer", "part", "prefixes", "fronts", "lines",
    "asked", "unasked", "reads", "rewrites",
];

/// Does what a line says. None where it is no line of a case, or memory or a file is wanting.
pub fn follow<R: Threads + Wait + Sync + Files + Print + Alloc<A = Global>>(
    rt: &R,
    case: &mut Case,
    line: &str,
) -> Option<()> {
    let (key, rest) = line.split_once(' ').unwrap_or((line, ""));
    if CHECKS.contains(&key) {
        check(rt, case, key, rest)
    } else {
        prepare(rt, case, key, rest)
    }
}
