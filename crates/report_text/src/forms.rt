//! The forms of a report's lines after its declarations.
ghost use Rattle.std.specs.Prelude.{◌≡◌, option_map, IfSome, IfNone};
ghost use Rattle.line_fields.specs.Cuts.{next};
ghost use Rattle.journal_text.specs.Next.{IsNext};
ghost use Rattle.report_text.specs.First.{IsFirst, HasNone};
ghost use Rattle.report_text.specs.Forms.{begins as begins_with, where_true, ceiling_form, bound_form, age_form, may_end as end_allowed, may_be_over as over_allowed, may_be as entry_allowed, pending_form, ended_form, close_form, by_form, job_form, final_form, section_form, is_end as is_last};

use journal_text::{NextStep, job, next_end, next_item, next_job, next_tx};
use line_fields::{done, field, is_word, next_short, next_signed, next_unsigned, next_word, word};
use name_table::NameTables;
use rt_base::{End, ItemId, JobId};
use step_journal::Entry;

/// The version of a report, and its mode.
#[derive(Clone, Copy, Debug, PartialEq, Eq)]
pub struct Kind {
    pub second: bool,
    pub admitted: bool,
}

/// The parts of a report after its declarations, but for its entries and its last line.
#[derive(Clone, Copy, Debug, PartialEq, Eq)]
pub enum Section {
    Ceilings,
    Bounds,
    Ages,
    Jobs,
    Finals,
}

#[tactic(auto, unfolding(crate::specs::Forms::begins))]
fn begins<'a>(want: &[u8], line: &'a [u8]) -> Option<&'a [u8]>
    ensures { option_map (λ r. r.now) result ≡ begins_with want.now line.now }
{
    let (word, rest) = word(line);
    if is_word(want, word) {
        Some(rest)
    } else {
        None
    }
}

fn allowed(test: bool) -> Option<()>
    ensures { result ≡ where_true test }
{
    if test { Some(()) } else { None }
}

#[tactic(auto, unfolding(crate::specs::Forms::ceiling_form))]
fn ceiling(names: &NameTables, line: &[u8]) -> Option<()>
    ensures { result ≡ ceiling_form names.now line.now }
{
    let rest = begins(b"ceiling", line)?;
    let (_, rest) = next_item(names, rest)?;
    let (_, rest) = next_short(rest)?;
    let (_, rest) = next_short(rest)?;
    done(rest)
}

#[tactic(auto, unfolding(crate::specs::Forms::bound_form))]
fn bound(admitted: bool, names: &NameTables, line: &[u8]) -> Option<()>
    ensures { result ≡ bound_form admitted names.now line.now }
{
    allowed(admitted)?;
    let rest = begins(b"bound", line)?;
    let (_, rest) = next_tx(names, rest)?;
    let (_, rest) = next_unsigned(rest)?;
    let (_, rest) = next_unsigned(rest)?;
    done(rest)
}

#[tactic(auto, unfolding(crate::specs::Forms::age_form))]
fn age(admitted: bool, names: &NameTables, line: &[u8]) -> Option<()>
    ensures { result ≡ age_form admitted names.now line.now }
{
    allowed(admitted)?;
    let rest = begins(b"age", line)?;
    let (_, rest) = next_item(names, rest)?;
    let (_, rest) = next_unsigned(rest)?;
    done(rest)
}

// Whether a job may end so in a report of this version.
fn may_end(second: bool, end: End) -> bool
    ensures { result ≡ end_allowed second end }
{
    match end {
        End::Apart { a: _, b: _ } => second,
        _ => true,
    }
}

fn may_be_over(second: bool, over: Option<End>) -> bool
    ensures { result ≡ over_allowed second over }
{
    match over {
        None => true,
        Some(end) => may_end(second, end),
    }
}

// A call of its own, so that the entry is not taken apart for it.
#[inline(never)]
fn may_be(second: bool, entry: &Entry) -> bool
    ensures { result ≡ entry_allowed second entry.now }
{
    match entry {
        Entry::Step { over, .. } => may_be_over(second, *over),
        Entry::Planned { .. } => true,
        Entry::Blocked { .. } => true,
        Entry::Idle { .. } => true,
    }
}

/// The entry that the first line is in a report of this version, and what follows the line; None where there is no line or it
/// is no entry's there.
#[inline(always)]
pub(crate) fn first_in<'a>(
    second: bool,
    names: &NameTables,
    text: &'a [u8],
    next: &mut NextStep,
) -> Option<(Entry, &'a [u8])>
    requires { IsNext names.now next.old }
    ensures some { IfSome result (λ p. IsFirst second names.now text.now p.0 p.1.now) }
    ensures none { IfNone result (HasNone second names.now text.now) }
    ensures next { IsNext names.now next.new }
{
    if let Some((entry, more)) = next.likely(text) {
        return Some((entry, more));
    }
    let (entry, more) = next.first_entry(names, text)?;
    if may_be(second, &entry) {
        Some((entry, more))
    } else {
        None
    }
}

#[tactic(auto, unfolding(crate::specs::Forms::pending_form))]
fn pending(rest: &[u8]) -> Option<&[u8]>
    ensures { option_map (λ r. r.now) result ≡ pending_form rest.now }
{
    let (_, rest) = next_word(b"-", rest)?;
    let (_, rest) = next_word(b"pending", rest)?;
    let (_, rest) = next_word(b"-", rest)?;
    Some(rest)
}

#[tactic(auto, unfolding(crate::specs::Forms::ended_form))]
fn ended<'a>(second: bool, names: &NameTables, rest: &'a [u8]) -> Option<&'a [u8]>
    ensures { option_map (λ r. r.now) result ≡ ended_form second names.now rest.now }
{
    let (_, rest) = next_unsigned(rest)?;
    let (end, rest) = next_end(names, rest)?;
    allowed(may_end(second, end))?;
    let (_, rest) = next_unsigned(rest)?;
    Some(rest)
}

#[tactic(auto, unfolding(crate::specs::Forms::close_form))]
fn close<'a>(second: bool, names: &NameTables, rest: &'a [u8]) -> Option<&'a [u8]>
    ensures { option_map (λ r. r.now) result ≡ close_form second names.now rest.now }
{
    match pending(rest) {
        Some(rest) => Some(rest),
        None => ended(second, names, rest),
    }
}

#[tactic(auto, unfolding(crate::specs::Forms::by_form))]
fn by(names: &NameTables, word: &[u8]) -> Option<Option<JobId>>
    ensures { result ≡ by_form names.now.txns word.now }
{
    if is_word(b"-", word) {
        Some(None)
    } else {
        Some(Some(job(names, word)?))
    }
}

#[tactic(auto, unfolding(line_fields::specs::Cuts::next))]
fn next_by<'a>(names: &NameTables, rest: &'a [u8]) -> Option<(Option<JobId>, &'a [u8])>
    ensures { option_map (λ p. (p.0, p.1.now)) result ≡ next (by_form names.now.txns) rest.now }
{
    let (word, rest) = field(rest)?;
    let by = by(names, word)?;
    Some((by, rest))
}

#[tactic(auto, unfolding(crate::specs::Forms::job_form))]
fn job_row(second: bool, names: &NameTables, line: &[u8]) -> Option<()>
    ensures { result ≡ job_form second names.now line.now }
{
    let rest = begins(b"job", line)?;
    let (_, rest) = next_job(names, rest)?;
    let (_, rest) = next_unsigned(rest)?;
    let rest = close(second, names, rest)?;
    let (_, rest) = next_by(names, rest)?;
    let (_, rest) = next_unsigned(rest)?;
    done(rest)
}

/// The item of a line `final ITEM VALUE STAMP`; None where it is no such line.
#[tactic(auto, unfolding(crate::specs::Forms::final_form))]
pub fn final_item(names: &NameTables, line: &[u8]) -> Option<ItemId>
    ensures { result ≡ final_form names.now line.now }
{
    let rest = begins(b"final", line)?;
    let (item, rest) = next_item(names, rest)?;
    let (_, rest) = next_signed(rest)?;
    let (_, rest) = next_unsigned(rest)?;
    done(rest)?;
    Some(item)
}

fn unit(item: Option<ItemId>) -> Option<()>
    ensures { result ≡ option_map (λ i. tt) item }
{
    match item {
        Some(_) => Some(()),
        None => None,
    }
}

/// Some exactly where the line is one of this section.
#[tactic(auto, unfolding(crate::specs::Forms::section_form))]
pub(crate) fn line_in(section: Section, kind: Kind, names: &NameTables, line: &[u8]) -> Option<()>
    ensures { result ≡ section_form section kind names.now line.now }
{
    match section {
        Section::Ceilings => ceiling(names, line),
        Section::Bounds => bound(kind.admitted, names, line),
        Section::Ages => age(kind.admitted, names, line),
        Section::Jobs => job_row(kind.second, names, line),
        Section::Finals => unit(final_item(names, line)),
    }
}

#[tactic(auto, unfolding(crate::specs::Forms::is_end))]
pub(crate) fn is_end(line: &[u8]) -> bool
    ensures { result ≡ is_last line.now }
{
    is_word(b"end", line)
}
