//! A document and a report, line by line.
ghost use Rattle.std.specs.Prelude.{◌≡◌, ◌≤◌, ◌<◌, ◌-◌, ◌^◌, [], length, take, drop, IsTrue};
ghost use Rattle.std.specs.Str.{bytes_eq};
ghost use Rattle.rt_base.specs.declared.name.Names.{Names as AllNames};
ghost use Rattle.report_text.specs.Document.{lines_of};
ghost use Rattle.run_report.specs.Compared.{final_name as final_name_of, wrong_by as wrong_by_names, wrong as wrong_of, compared as compared_of};

use crate::verdict::Verdict;
use line_fields::cut;
use name_table::NameTables;
use report_text::final_item;
use rt_base::Name;

#[tactic(auto, unfolding(crate::specs::Compared::final_name))]
fn final_name(names: &NameTables, line: &[u8]) -> Option<Name>
    ensures { result ≡ final_name_of names.now line.now }
{
    let item = final_item(names, line)?;
    match names.names().items.as_slice().get(item.0 as usize) {
        Some(name) => Some(*name),
        None => None,
    }
}

fn wrong_by(n: usize, item: Option<Name>, other: Option<Name>) -> Verdict
    ensures { result ≡ wrong_by_names n item other }
{
    match (item, other) {
        (Some(item), Some(other)) => {
            if item.as_slice() == other.as_slice() {
                Verdict::WrongItem { item }
            } else {
                Verdict::WrongLine { n }
            }
        }
        (Some(_), None) => Verdict::WrongLine { n },
        (None, _) => Verdict::WrongLine { n },
    }
}

fn wrong(names: &NameTables, n: usize, document: &[u8], report: &[u8]) -> Verdict
    ensures { result ≡ wrong_of names.now n document.now report.now }
{
    let item = final_name(names, document);
    let other = final_name(names, report);
    wrong_by(n, item, other)
}

fn same(document: &[u8], report: &[u8]) -> bool
    ensures { result ≡ bytes_eq document.now report.now }
{
    document == report
}

// The document has no more lines.
fn over(n: usize, report: &[u8]) -> Verdict
    ensures { (names : AllNames) → result ≡ compared_of names n [] (lines_of report.now).0 }
{
    match cut(b'\n', report) {
        Some((_, _)) => Verdict::WrongLine { n },
        None => Verdict::Legal,
    }
}

/// Whether what stands before the last `left` bytes of a document is one text, and its last `after` bytes are another.
pub(crate) fn is_between(
    document: &[u8],
    left: usize,
    after: usize,
    opening: &[u8],
    closing: &[u8],
) -> bool
    requires left { left ≤ length document.now }
    requires after { after ≤ length document.now }
    ensures opening { IsTrue result → take (length document.now - left) document.now ≡ opening.now }
    ensures closing { IsTrue result → drop (length document.now - after) document.now ≡ closing.now }
{
    let len = document.len();
    same(&document[..len - left], opening) && same(&document[len - after..], closing)
}

/// How the lines of a document differ from those of a report; Legal where they do not. It compares the bytes, and goes over the
/// lines of both where these differ. It takes no memory.
pub(crate) fn compared(names: &NameTables, document: &[u8], report: &[u8]) -> Verdict
    requires { length document.now < 2 ^ 32 }
    ensures { result ≡ compared_of names.now 1 (lines_of document.now).0 (lines_of report.now).0 }
{
    if document == report {
        return Verdict::Legal;
    }
    let mut left = document;
    let mut right = report;
    let mut n = 1;
    while let Some((line, more)) = cut(b'\n', left) {
        let Some((other, after)) = cut(b'\n', right) else {
            return Verdict::WrongLine { n };
        };
        if !same(line, other) {
            return wrong(names, n, line, other);
        }
        left = more;
        right = after;
        n += 1;
    }
    over(n, right)
}
