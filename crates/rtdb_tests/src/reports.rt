//! Summaries of the reports in `data/`, and what becomes of a report whose entries are put in pieces.
ghost use Rattle.std.specs.Prelude.{◌≡◌, IfSome};
ghost use Rattle.step_journal.specs.History.{IsLegal, state_of};
ghost use Rattle.report_text.specs.Texts.{NamesSet};

use crate::pieces::{Pieces, put_row};
use crate::worked::{Worked, worked_history};
use item_model::Stored;
use report_text::add_finals;
use run_report::summary;
use std::alloc::Global;
use std::fs;
use std::rt::Files;

// The history that a file of `data/` tells.
fn worked_in<R: Files + Alloc<A = Global>>(rt: &R, file: &str) -> Option<Worked>
    ensures named { IfSome result (λ w. NamesSet w.names w.set) }
    ensures legal { IfSome result (λ w. IsLegal w.set w.entries) }
    ensures last { IfSome result (λ w. w.items ≡ (state_of w.set w.entries).items) }
{
    let bytes = fs::read(rt, file).ok()?;
    let worked = worked_history(rt.alloc(), &bytes);
    drop(bytes);
    worked
}

// Prints the summary of a report.
fn print_summary<R: Files + Print + Alloc<A = Global>>(rt: &R, file: &str) -> Option<()> {
    let worked = worked_in(rt, file)?;
    let text = summary(rt.alloc(), &worked.set, worked.entries.as_slice());
    drop(worked);
    let text = text.ok()?;
    println!(rt; "{file}").ok()?;
    let text = str::from_utf8(&text).ok()?;
    print!(rt; "{text}").ok()
}

// Prints the lines of last items with a value below 0 and with the last stamp.
fn print_finals<R: Files + Print + Alloc<A = Global>>(rt: &R) -> Option<()> {
    let worked = worked_in(rt, "base.report")?;
    if worked.names.items.as_slice().len() < 2 {
        drop(worked);
        return None;
    }
    let items = [
        Stored {
            value: -11,
            stamp: 30,
        },
        Stored {
            value: 109,
            stamp: u64::MAX,
        },
    ];
    let mut text = Vec::new(rt.alloc());
    let added = add_finals(&mut text, &worked.names, &items);
    drop(worked);
    added.ok()?;
    let text = str::from_utf8(&text).ok()?;
    print!(rt; "{text}").ok()
}

// Prints what becomes of the report of the base in pieces.
fn print_row<R: Files + Print + Alloc<A = Global>>(rt: &R, row: Pieces) -> Option<()> {
    let worked = worked_in(rt, "base-tried.report")?;
    let said = put_row(rt.alloc(), &worked, row);
    drop(worked);
    let said = said?;
    println!(rt;
        "{} jobs, pieces of {}, a place of {} bytes, call {} fails: {said}",
        row.jobs, row.size, row.room, row.failing
    )
    .ok()
}

const NEVER: u64 = 1_000_000;

// The rows: each size of pieces and of the place; a call that fails, where a place for one line sends it alone, in two
// calls; and places for six of the seven plans, so that the piece with the seventh is refused as a whole.
const ROWS: [(usize, usize, usize, usize, u64); 13] = [
    (7, 1, 256, 65_536, NEVER),
    (7, 2, 256, 65_536, NEVER),
    (7, 3, 256, 65_536, NEVER),
    (7, 32, 256, 65_536, NEVER),
    (7, 1, 65_536, 65_536, NEVER),
    (7, 2, 65_536, 65_536, NEVER),
    (7, 3, 65_536, 65_536, NEVER),
    (7, 32, 65_536, 65_536, NEVER),
    (7, 32, 256, 10, 2),
    (7, 32, 65_536, 10, 2),
    (6, 7, 65_536, 10, NEVER),
    (6, 3, 65_536, 10, NEVER),
    (6, 6, 65_536, 10, NEVER),
];

/// Prints the summaries, the lines of last items, and the rows. None where a file is missing, or memory runs out.
pub fn print_reports<R: Files + Print + Alloc<A = Global>>(rt: &R) -> Option<()> {
    for file in ["base.report", "mixed.report", "nothing-ran.report"] {
        print_summary(rt, file)?;
    }
    print_finals(rt)?;
    for (jobs, size, room, most, failing) in ROWS {
        let row = Pieces {
            jobs,
            size,
            room,
            most,
            failing,
        };
        print_row(rt, row)?;
    }
    Some(())
}
