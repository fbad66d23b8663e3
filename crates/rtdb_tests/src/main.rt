//! Runs the cases of the files in `data/`, and prints a line for each: `ok` and its name, or what was answered in place of
//! what is wanted. bench/INPUTS.md says what the lines of a case mean. Then it runs BASE over journals in memory: new ones,
//! such as were there already, such as were stopped at a call of the disk once and twice, and such as are bad. Last it prints
//! summaries of reports, and what becomes of one whose entries are put in pieces.
#![tactic(auto)]

mod answer;
mod below;
mod case;
mod check;
mod disk_cases;
mod meeting;
mod over_disk;
mod pieces;
mod reports;
mod worked;

use case::Case;
use check::follow;
use disk_cases::CASES;
use meeting::meets;
use over_disk::Base;
use reports::print_reports;
use std::alloc::Global;
use std::rt::Files;
use std::sync::Wait;
use std::thread::Threads;
use std::{fs, io};

// The files of cases, in the order in which they are run.
const FILES: [&str; 11] = [
    "words.cases",
    "texts.cases",
    "sets.cases",
    "runs.cases",
    "reports.cases",
    "pictures.cases",
    "tools.cases",
    "check.cases",
    "retold.cases",
    "faults.cases",
    "long.cases",
];

// Does what each line of a text says. None where a line is none of a case, a file is missing, or memory runs out.
fn follow_lines<R: Threads + Wait + Sync + Files + Print + Alloc<A = Global>>(
    rt: &R,
    case: &mut Case,
    text: &str,
) -> Option<()> {
    for line in text.lines() {
        if !line.is_empty() && !line.starts_with('#') {
            follow(rt, case, line)?;
        }
    }
    Some(())
}

// Does what each line of a file says.
fn run_file<R: Threads + Wait + Sync + Files + Print + Alloc<A = Global>>(
    rt: &R,
    file: &str,
) -> Option<()> {
    let text = fs::read_to_string(rt, file).ok()?;
    let mut case = Case::new(rt.alloc());
    let followed = follow_lines(rt, &mut case, text.as_str());
    drop(case);
    drop(text);
    followed
}

// Prints whether each case over a journal holds.
fn print_cases<R: Print>(rt: &R, base: &Base) -> Option<()> {
    for case in CASES {
        let word = if case.holds(base) { "ok" } else { "failed:" };
        let name = case.name();
        println!(rt; "{word} {name}").ok()?;
    }
    Some(())
}

// Runs the cases over a journal. None where a file is missing.
fn run_journals<R: Files + Print + Alloc<A = Global>>(rt: &R) -> Option<()> {
    let base = Base {
        alloc: rt.alloc(),
        scenario: fs::read(rt, "base.scenario").ok()?,
        report: fs::read(rt, "base.report").ok()?,
    };
    let printed = print_cases(rt, &base);
    drop(base);
    printed
}

fn main(rt: HostRuntime) -> io::Result<()> {
    for file in FILES {
        if run_file(&rt, file).is_none() {
            println!(rt; "{file} was not run to its end")?;
        }
    }
    if meets(&rt, rt.alloc()) == Some(true) {
        println!(rt; "ok two threads ask two scripts at once")?;
    }
    if run_journals(&rt).is_none() {
        println!(rt; "the cases over a journal were not run to their end")?;
    }
    if print_reports(&rt).is_none() {
        println!(rt; "not all reports were told")?;
    }
    Ok(())
}
