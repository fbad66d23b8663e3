//! The parts of a document, each walked to its end.
ghost use Rattle.std.specs.Prelude.{◌≡◌, ◌<◌, ◌≤◌, ◌+◌, ◌^◌, ◌++◌, [], length, IfOk, OnOk};
ghost use Rattle.report_text.specs.declared.forms.Section.TheVariants.{Jobs, Finals};
ghost use Rattle.report_text.specs.Forms.{section_form, entry_form};
ghost use Rattle.report_text.specs.Document.{lines_of, front, after, from_entries, after_parts, end_at, over_at, Moves};
ghost use Rattle.report_text.specs.Placed.{entry_lines, EndsWith};

use crate::document::DocumentError;
use crate::forms::{Kind, Section, first_in, is_end, line_in};
use journal_text::NextStep;
use line_fields::cut;
use name_table::NameTables;
use rt_base::OutOfMemory;
use step_journal::Entry;

// Where the lines of a section end: what stands from there on, and the number of its first line.
fn skip<'a>(
    section: Section,
    kind: Kind,
    names: &NameTables,
    text: &'a [u8],
    first: usize,
) -> (&'a [u8], usize)
    requires { first + length text.now < 2 ^ 33 }
    ensures moves { Moves first text.now result.1 result.0.now (after (section_form section kind names.now) (lines_of text.now).0) }
    ensures ends { EndsWith text.now result.0.now }
{
    let mut rest = text;
    let mut n = first;
    while let Some((line, more)) = cut(b'\n', rest) {
        match line_in(section, kind, names, line) {
            None => return (rest, n),
            Some(()) => {}
        }
        rest = more;
        n += 1;
    }
    (rest, n)
}

/// Where the entries begin, from the line after the mode line on: what stands from there on, and the number of its first
/// line.
#[tactic(auto, unfolding(crate::specs::Document::from_entries))]
pub(crate) fn to_entries<'a>(
    kind: Kind,
    names: &NameTables,
    text: &'a [u8],
    first: usize,
) -> (&'a [u8], usize)
    requires { first + length text.now < 2 ^ 33 }
    ensures moves { Moves first text.now result.1 result.0.now (from_entries kind names.now (lines_of text.now).0) }
    ensures ends { EndsWith text.now result.0.now }
{
    let (bounds, n) = skip(Section::Ceilings, kind, names, text, first);
    let (ages, n) = skip(Section::Bounds, kind, names, bounds, n);
    skip(Section::Ages, kind, names, ages, n)
}

/// Reads the entries of the lines from here on, up to the first line that is no entry's: what stands from that line on,
/// and its number.
pub(crate) fn add_entries<'a>(
    entries: &mut Vec<Entry>,
    second: bool,
    names: &NameTables,
    text: &'a [u8],
    first: usize,
) -> Result<(&'a [u8], usize), OutOfMemory>
    requires { first + length text.now < 2 ^ 33 }
    ensures entries { OnOk result (entries.new.items ≡ entries.old.items ++ front (entry_form second names.now) (lines_of text.now).0) }
    ensures lines { IfOk result (λ r. entry_lines names.now entries.old.items ++ text.now ≡ entry_lines names.now entries.new.items ++ r.0.now) }
    ensures after { IfOk result (λ r. Moves first text.now r.1 r.0.now (after (entry_form second names.now) (lines_of text.now).0)) }
{
    let mut next = NextStep::new();
    let mut rest = text;
    let mut n = first;
    while let Some((entry, more)) = first_in(second, names, rest, &mut next) {
        entries.reserve(1)?;
        entries.push_reserved(entry);
        rest = more;
        n += 1;
    }
    Ok((rest, n))
}

/// Where the last items end, from the line after the entries on: what stands from there on, and the number of its first
/// line.
pub(crate) fn to_end<'a>(
    kind: Kind,
    names: &NameTables,
    text: &'a [u8],
    first: usize,
) -> (&'a [u8], usize)
    requires { first + length text.now < 2 ^ 33 }
    ensures { Moves first text.now result.1 result.0.now (after (section_form Finals kind names.now) (after (section_form Jobs kind names.now) (lines_of text.now).0)) }
{
    let (finals, n) = skip(Section::Jobs, kind, names, text, first);
    skip(Section::Finals, kind, names, finals, n)
}

fn over_after(n: usize, text: &[u8]) -> Option<DocumentError>
    ensures { result ≡ over_at n (lines_of text.now).0 (lines_of text.now).1 }
{
    if text.is_empty() {
        None
    } else {
        Some(DocumentError::BadLine { n })
    }
}

fn no_end(n: usize, text: &[u8]) -> Option<DocumentError>
    ensures { result ≡ end_at n [] text.now }
{
    if text.is_empty() {
        Some(DocumentError::Unfinished)
    } else {
        Some(DocumentError::BadLine { n })
    }
}

/// None exactly where the last line is all that is left; else what is wrong.
pub(crate) fn end_fault(n: usize, text: &[u8]) -> Option<DocumentError>
    requires { n + 1 < 2 ^ 64 }
    ensures { result ≡ end_at n (lines_of text.now).0 (lines_of text.now).1 }
{
    match cut(b'\n', text) {
        Some((line, rest)) => {
            if is_end(line) {
                over_after(n + 1, rest)
            } else {
                Some(DocumentError::BadLine { n })
            }
        }
        None => no_end(n, text),
    }
}
