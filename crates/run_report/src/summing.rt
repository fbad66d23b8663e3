//! The summary of a history.
ghost use Rattle.std.specs.Prelude.{◌≡◌, ◌+◌, ◌≤◌, ◌++◌, length, vec_len, vec_capacity, codes, IfOk, OnOk};
ghost use Rattle.step_journal.specs.History.{IsLegal};
ghost use Rattle.run_report.specs.Summary.{counted, jobs_line, entries_line, last_line, summary_of};

use crate::counts::{Ends, Kinds, count_ends, count_kinds, last_instant, longest_delay};
use job_rows::rows_of_jobs;
use journal_text::{put, put_field, put_unsigned};
use rt_base::{OutOfMemory, Tick};
use std::alloc::Global;
use step_journal::Entry;
use txn_set::CompiledSet;

// Adds a word and a number.
fn put_count(into: &mut Vec<u8>, word: &[u8], n: u64)
    requires { vec_len into.old + length word.now + 22 ≤ vec_capacity into.old }
    ensures items { into.new.items ≡ into.old.items ++ counted word.now n }
    ensures len { vec_len into.new ≤ vec_len into.old + length word.now + 22 }
    ensures room { vec_capacity into.old ≤ vec_capacity into.new }
{
    put_field(into, word);
    put_unsigned(into, n);
}

fn add_ends(into: &mut Vec<u8>, ends: Ends) -> Result<(), OutOfMemory>
    ensures { OnOk result (into.new.items ≡ into.old.items ++ jobs_line ends.all ends.committed ends.overrun ends.late ends.stale ends.quit) }
{
    into.reserve(256)?;
    put(into, b"jobs");
    put_unsigned(into, ends.all);
    put_count(into, b"committed", ends.committed);
    put_count(into, b"overrun", ends.overrun);
    put_count(into, b"late", ends.late);
    put_count(into, b"stale", ends.stale);
    put_count(into, b"quit", ends.quit);
    put(into, b"\n");
    Ok(())
}

fn add_kinds(into: &mut Vec<u8>, all: u64, kinds: Kinds) -> Result<(), OutOfMemory>
    ensures { OnOk result (into.new.items ≡ into.old.items ++ entries_line all kinds.plans kinds.steps kinds.blocks kinds.idles) }
{
    into.reserve(256)?;
    put(into, b"entries");
    put_unsigned(into, all);
    put_count(into, b"plans", kinds.plans);
    put_count(into, b"steps", kinds.steps);
    put_count(into, b"blocks", kinds.blocks);
    put_count(into, b"idles", kinds.idles);
    put(into, b"\n");
    Ok(())
}

fn add_last(into: &mut Vec<u8>, now: Tick, longest: Tick) -> Result<(), OutOfMemory>
    ensures { OnOk result (into.new.items ≡ into.old.items ++ last_line now longest) }
{
    into.reserve(256)?;
    put(into, b"now");
    put_unsigned(into, now);
    put_count(into, b"longest-delay", longest);
    put(into, b"\n");
    Ok(())
}

/// The summary of a legal history: how many jobs ended and how, how many entries of each kind there are, the last instant,
/// and the greatest delay of a job. Each entry is gone through a few times.
pub fn summary(alloc: Global, set: &CompiledSet, entries: &[Entry]) -> Result<Vec<u8>, OutOfMemory>
    requires { IsLegal set.now entries.now }
    ensures { IfOk result (λ text. text.items ≡ summary_of set.now entries.now) }
{
    let kinds = count_kinds(entries);
    let rows = rows_of_jobs(alloc, set, entries, kinds.plans as usize)?;
    let mut text = Vec::new(alloc);
    add_ends(&mut text, count_ends(rows.as_slice()))?;
    add_kinds(&mut text, entries.len() as u64, kinds)?;
    add_last(
        &mut text,
        last_instant(set, entries),
        longest_delay(rows.as_slice()),
    )?;
    Ok(text)
}
