//! Lines: the place of each finding, and their text.
ghost use Rattle.std.specs.Prelude.{◌≡◌, ◌++◌, map, decimal, codes, IfOk, OnOk, OnErr, IsPermutation};
ghost use Rattle.scenario_check.specs.Findings.{what as what_of};
ghost use Rattle.scenario_check.specs.Texts.{line_of, lines_of};

use crate::cursor::Cursor;
use crate::found::Finding;
use crate::warning_words::{put, put_what};
use itoa::Buffer;
use rt_base::{Names, OutOfMemory};
use std::alloc::Global;

/// Puts findings in the order of the text, and writes the line and column of each. A sort, and a step for each byte.
#[tactic(auto, using(crate::proofs::Orders::same_what, crate::proofs::Orders::in_order))]
pub(crate) fn placed(text: &[u8], findings: &mut Vec<Finding<'_>>) -> Result<(), OutOfMemory>
    ensures { OnOk result (IsPermutation (map what_of findings.old.items) (map what_of findings.new.items)) }
{
    findings.sort_by_key(|finding| finding.at)?;
    let mut cursor = Cursor::start();
    for i in 0..findings.len() {
        cursor = cursor.moved(text, findings[i].at);
        let finding = &mut findings[i];
        finding.line = cursor.line;
        finding.column = cursor.column;
    }
    Ok(())
}

fn put_number(out: &mut Vec<u8>, n: u64) -> Result<(), OutOfMemory>
    ensures { OnOk result (out.new.items ≡ out.old.items ++ decimal n) }
{
    put(out, Buffer::new().format(n).as_bytes())
}

/// Appends the line of a finding. After want of memory a part of it may stand.
pub(crate) fn put_line(
    out: &mut Vec<u8>,
    names: &Names,
    finding: &Finding<'_>,
) -> Result<(), OutOfMemory>
    ensures { OnOk result (out.new.items ≡ out.old.items ++ line_of names.now finding.now) }
{
    put_number(out, finding.line)?;
    put(out, b":")?;
    put_number(out, finding.column)?;
    put(out, b": ")?;
    put_what(out, names, finding.what)?;
    put(out, b": ")?;
    put(out, finding.token)?;
    put(out, finding.reason)?;
    put(out, b"\n")
}

/// The lines of findings.
#[tactic(auto, using(crate::proofs::Orders::line_more, crate::proofs::Orders::line_all))]
pub(crate) fn lines(
    alloc: Global,
    names: &Names,
    findings: &[Finding<'_>],
) -> Result<Vec<u8>, OutOfMemory>
    ensures { IfOk result (λ text. text.items ≡ lines_of names.now findings.now) }
{
    let mut out = Vec::new(alloc);
    for finding in findings {
        put_line(&mut out, names, finding)?;
    }
    Ok(out)
}
