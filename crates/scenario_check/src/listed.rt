//! The lines of a text that no form and no name refuses: of the refusal, of each repeated member and of each warning.
ghost use Rattle.std.specs.Prelude.{◌≡◌, ◌++◌, [], ◌∷◌, map, Option as Maybe, IfOk, OnOk};
ghost use Rattle.scenario_check.specs.declared.found.Refusal.{Refusal as Why};
ghost use Rattle.scenario_check.specs.Findings.{what as what_of, AreOthers, AreToldBy, AreLines};

use crate::faults::REPEATED;
use crate::found::{Finding, Refusal, What};
use crate::kinds::Warning;
use crate::lines::{lines, placed};
use crate::place_of::{refusal_place, refusal_reason, warning_place, warning_reason};
use rt_base::{Names, OutOfMemory};
use scenario_faults::{Places, Sheet, json_fault, repeated};
use scenario_reader::ScenarioError;

// A byte of the text, and why something is amiss there.
#[derive(Clone, Copy)]
struct Spot<'t> {
    at: usize,
    token: &'t [u8],
    reason: &'static [u8],
}

// Appends a finding.
fn put<'t>(findings: &mut Vec<Finding<'t>>, spot: Spot<'t>, what: What) -> Result<(), OutOfMemory>
    ensures { OnOk result (map what_of findings.new.items ≡ map what_of findings.old.items ++ what ∷ []) }
{
    findings.push(Finding {
        at: spot.at,
        line: 0,
        column: 0,
        what,
        token: spot.token,
        reason: spot.reason,
    })?;
    Ok(())
}

// Where a refusal stands, and why.
fn refusal_spot(
    sheet: Sheet<'_>,
    input: &[u8],
    places: &mut Places<'_>,
    refusal: Refusal,
) -> Result<Spot<'static>, OutOfMemory> {
    match refusal {
        Refusal::Scenario(ScenarioError::NotJson) => {
            let fault = json_fault(sheet.alloc, input)?;
            Ok(Spot {
                at: fault.at,
                token: &[],
                reason: fault.reason,
            })
        }
        _ => Ok(Spot {
            at: places.at(refusal_place(refusal))?,
            token: &[],
            reason: refusal_reason(refusal),
        }),
    }
}

// The refusal, if there is one.
#[tactic(auto, using(crate::proofs::Told::no_others, crate::proofs::Told::refusal_told))]
fn refused<'t>(
    sheet: Sheet<'t>,
    input: &[u8],
    places: &mut Places<'_>,
    refusal: Option<Refusal>,
) -> Result<Vec<Finding<'t>>, OutOfMemory>
    ensures { IfOk result (λ found. AreOthers refusal (map what_of found.items)) }
{
    let mut found = Vec::new(sheet.alloc);
    if let Some(refusal) = refusal {
        let spot = refusal_spot(sheet, input, places, refusal)?;
        put(&mut found, spot, What::Refused(refusal))?;
    }
    Ok(found)
}

#[tactic(auto, using(crate::proofs::Told::repeated_told))]
fn put_repeats<'t>(
    findings: &mut Vec<Finding<'t>>,
    sheet: Sheet<'t>,
    repeats: &[usize],
) -> Result<(), OutOfMemory>
    ensures { OnOk result ((refusal : Maybe Why) → AreOthers refusal (map what_of findings.old.items)
        → AreOthers refusal (map what_of findings.new.items)) }
{
    for member in repeats {
        let spot = Spot {
            at: sheet.key_at(*member),
            token: sheet.key_token(*member),
            reason: REPEATED,
        };
        put(findings, spot, What::Repeated)?;
    }
    Ok(())
}

#[tactic(auto, using(crate::proofs::Told::warn_more, crate::proofs::Told::warn_all))]
fn put_warnings(
    findings: &mut Vec<Finding<'_>>,
    places: &mut Places<'_>,
    warnings: &[Warning],
) -> Result<(), OutOfMemory>
    ensures { OnOk result (map what_of findings.new.items
        ≡ map what_of findings.old.items ++ map What.Warned warnings.now) }
{
    for warning in warnings {
        let spot = Spot {
            at: places.at(warning_place(*warning))?,
            token: &[],
            reason: warning_reason(*warning),
        };
        put(findings, spot, What::Warned(*warning))?;
    }
    Ok(())
}

// All that is amiss in a text, in its order.
#[tactic(auto, using(crate::proofs::Told::told_all))]
fn findings<'t>(
    sheet: Sheet<'t>,
    input: &[u8],
    refusal: Option<Refusal>,
    warnings: &[Warning],
) -> Result<Vec<Finding<'t>>, OutOfMemory>
    ensures { IfOk result (λ found. AreToldBy refusal warnings.now (map what_of found.items)) }
{
    let mut places = Places::of(sheet)?;
    let mut found = refused(sheet, input, &mut places, refusal)?;
    put_repeats(&mut found, sheet, &repeated(sheet)?)?;
    put_warnings(&mut found, &mut places, warnings)?;
    placed(input, &mut found)?;
    Ok(found)
}

/// The lines of all that is amiss in a text. The sheet is that of the text, or of no text if it is no JSON.
#[tactic(auto, using(crate::proofs::Told::lines_told))]
pub(crate) fn listed_lines(
    sheet: Sheet<'_>,
    input: &[u8],
    names: &Names,
    refusal: Option<Refusal>,
    warnings: &[Warning],
) -> Result<Vec<u8>, OutOfMemory>
    ensures { IfOk result (λ text. AreLines refusal warnings.now names.now text.items) }
{
    let found = findings(sheet, input, refusal, warnings)?;
    lines(sheet.alloc, names, &found)
}
