//! A legal report that is read of a source.
ghost use Rattle.std.specs.Prelude.{◌≡◌, ◌≤◌, length, IfOk, IfErr};
ghost use Rattle.run_report.specs.Judged.{IsLegalReport};
ghost use Rattle.command_replies.specs.Causes.{HasSourceCause};
ghost use Rattle.command_replies.specs.Reports.{IsReportFrom, IsNotLegal, IsNoneFrom};

use crate::reply::{Reply, refused};
use crate::unanswered::Unanswered;
use crate::verdict::{REPORT_LIMIT, verdict_reply};
use io_edge::{ReadError, Source, Status, read_all};
use rt_base::OutOfMemory;
use run_report::{Judged, LegalReport, judge_document};
use std::alloc::Global;

// The legal report that the bytes are, or the reply that says why they are none.
#[tactic(auto, using(crate::proofs::Legal::not_legal))]
fn judged(alloc: Global, input: &[u8]) -> Result<Result<LegalReport, Reply>, OutOfMemory>
    requires { length input.now ≤ REPORT_LIMIT }
    ensures report { IfOk result (λ r. IfOk r (IsLegalReport input.now)) }
    ensures refused { IfOk result (λ r. IfErr r (λ p. IsNotLegal input.now p.status p.text.items)) }
{
    match judge_document(alloc, input)? {
        Judged::Legal(report) => Ok(Ok(report)),
        Judged::Other(verdict) => Ok(Err(verdict_reply(alloc, input, &verdict)?)),
    }
}

/// The legal report that is read of a source, all that it gives up to REPORT_LIMIT bytes, or the reply that says why there is
/// none: TooLong, or the verdict's line. It costs what `replay` does.
pub fn report_from<S: Source>(
    alloc: Global,
    source: &mut S,
) -> Result<Result<LegalReport, Reply>, Unanswered>
    ensures report { IfOk result (λ r. IfOk r (IsReportFrom (S.left source.old) (S.left source.new))) }
    ensures refused { IfOk result (λ r. IfErr r (λ p. IsNoneFrom (S.left source.old) (S.left source.new) p.status p.text.items)) }
    ensures read { HasSourceCause (S.faults source.old) (S.faults source.new) result }
{
    match read_all(alloc, source, REPORT_LIMIT) {
        Ok(input) => Ok(judged(alloc, &input)?),
        Err(ReadError::TooLong) => Ok(Err(refused(alloc, Status::TooLong, b"TooLong")?)),
        Err(ReadError::ReadFault) => Err(Unanswered::Reading),
        Err(ReadError::OutOfMemory) => Err(Unanswered::Memory),
    }
}
