//! The lines of a text that a form or a name refuses: of each fault, and of each repeated member.
ghost use Rattle.std.specs.Prelude.{◌≡◌, ◌∷◌, ◌||◌, not, [], Some, false, true, IfOk, OnOk};
ghost use Rattle.scenario_check.specs.declared.found.Refusal.{Refusal as Why};
ghost use Rattle.scenario_check.specs.Findings.{Adds, AddsLine, AreLines};
ghost use Rattle.scenario_check.specs.Verdicts.{no_names as none};

use crate::cursor::Cursor;
use crate::found::{Finding, Refusal, What};
use crate::lines::put_line;
use crate::place_of::{refusal_place, refusal_reason};
use command_replies::no_names;
use rt_base::OutOfMemory;
use scenario_faults::{Fault, Part, Places, Sheet, Walk, repeated};
use scenario_reader::ScenarioError;

/// Why a member is told that stands in its object before.
pub(crate) const REPEATED: &[u8] = b" stands in its object before; the last one counts";

// What is written so far, in the order of the text.
#[derive(Drop)]
struct Page<'t> {
    sheet: Sheet<'t>,
    // the repeated members, of which so many were told
    repeats: Vec<usize>,
    told: usize,
    cursor: Cursor,
    out: Vec<u8>,
}

impl<'t> Page<'t> {
    // Nothing is written yet.
    fn of(sheet: Sheet<'t>) -> Result<Page<'t>, OutOfMemory>
        ensures { IfOk result (λ page. page.out.items ≡ []) }
    {
        let repeats = repeated(sheet)?;
        Ok(Page {
            sheet,
            repeats,
            told: 0,
            cursor: Cursor::start(),
            out: Vec::new(sheet.alloc),
        })
    }

    // One line more.
    #[tactic(auto, using(crate::proofs::Adding::line_put))]
    fn put(
        &mut self,
        at: usize,
        what: What,
        token: &[u8],
        reason: &'static [u8],
    ) -> Result<(), OutOfMemory>
        ensures { OnOk result (AddsLine what self.old.out.items self.new.out.items) }
    {
        self.cursor = self.cursor.moved(self.sheet.text.as_bytes(), at);
        let finding = Finding {
            at,
            line: self.cursor.line,
            column: self.cursor.column,
            what,
            token,
            reason,
        };
        let names = no_names(self.sheet.alloc);
        put_line(&mut self.out, &names, &finding)
    }

    // The next repeated member, if it stands before a byte.
    fn next_before(&mut self, at: usize) -> Option<usize>
        ensures { self.new.out ≡ self.old.out }
    {
        let member = *self.repeats.get(self.told)?;
        if at <= self.sheet.key_at(member) {
            return None;
        }
        self.told = self.told.saturating_add(1);
        Some(member)
    }

    // The repeated members before a byte.
    #[tactic(auto, using(crate::proofs::Adding::none_more, crate::proofs::Adding::repeated_more))]
    fn put_repeats(&mut self, at: usize, refusal: Refusal) -> Result<(), OutOfMemory>
        ensures { OnOk result (Adds false refusal self.old.out.items self.new.out.items) }
    {
        for _ in 0..self.repeats.len() {
            let Some(member) = self.next_before(at) else {
                break
            };
            let (at, token) = (self.sheet.key_at(member), self.sheet.key_token(member));
            self.put(at, What::Repeated, token, REPEATED)?;
        }
        Ok(())
    }

    // A fault, and whether it is the refusal.
    #[tactic(auto, using(crate::proofs::Adding::refusal_more, crate::proofs::Adding::fault_more))]
    fn put_fault(&mut self, fault: Fault<'_>, refusal: Refusal) -> Result<bool, OutOfMemory>
        ensures { IfOk result (λ is. Adds is refusal self.old.out.items self.new.out.items) }
    {
        self.put_repeats(fault.at, refusal)?;
        let told = Refusal::Scenario(fault.error);
        if told == refusal {
            self.put(fault.at, What::Refused(refusal), fault.token, fault.reason)?;
            Ok(true)
        } else {
            self.put(fault.at, What::Refused(told), fault.token, fault.reason)?;
            Ok(false)
        }
    }

    // Faults in the order of the text, and whether the refusal is among them.
    #[tactic(auto, using(crate::proofs::Adding::none_more, crate::proofs::Adding::both_more))]
    fn put_faults(&mut self, faults: &[Fault<'_>], refusal: Refusal) -> Result<bool, OutOfMemory>
        ensures { IfOk result (λ is. Adds is refusal self.old.out.items self.new.out.items) }
    {
        let mut is_told = false;
        for fault in faults {
            let is_it = self.put_fault(*fault, refusal)?;
            is_told = is_told || is_it;
        }
        Ok(is_told)
    }

    // The faults of all parts, and whether the refusal is among them.
    #[tactic(auto, using(crate::proofs::Adding::none_more, crate::proofs::Adding::both_more))]
    fn put_parts(
        &mut self,
        walk: &mut Walk<'_>,
        parts: &[Part],
        refusal: Refusal,
    ) -> Result<bool, OutOfMemory>
        ensures { IfOk result (λ is. Adds is refusal self.old.out.items self.new.out.items) }
    {
        let mut is_told = false;
        for part in parts {
            let faults = walk.faults_of(*part)?;
            let is_it = self.put_faults(&faults, refusal)?;
            is_told = is_told || is_it;
        }
        Ok(is_told)
    }

    // The refusal if it is not told yet, and what is left of the repeated members.
    #[tactic(auto, using(crate::proofs::Adding::none_more, crate::proofs::Adding::refusal_more, crate::proofs::Adding::both_more))]
    fn put_rest(&mut self, is_told: bool, refusal: Refusal) -> Result<(), OutOfMemory>
        ensures { OnOk result (Adds (not is_told) refusal self.old.out.items self.new.out.items) }
    {
        self.put_repeats(usize::MAX, refusal)?;
        if is_told {
            return Ok(());
        }
        let at = Places::of(self.sheet)?.at(refusal_place(refusal))?;
        self.put(at, What::Refused(refusal), &[], refusal_reason(refusal))
    }

    // The faults of all parts, the refusal among them, and the repeated members.
    #[tactic(auto, using(crate::proofs::Adding::whole))]
    fn put_walk(&mut self, walk: &mut Walk<'_>, refusal: Refusal) -> Result<(), OutOfMemory>
        requires { self.old.out.items ≡ [] }
        ensures { OnOk result (AreLines (Some refusal) [] none self.new.out.items) }
    {
        let parts = walk.parts()?;
        let is_told = self.put_parts(walk, &parts, refusal);
        drop(parts);
        self.put_rest(is_told?, refusal)
    }

    // The faults of the whole text, by a walk from its beginning.
    fn put_all(&mut self, refusal: Refusal) -> Result<(), OutOfMemory>
        requires { self.old.out.items ≡ [] }
        ensures { OnOk result (AreLines (Some refusal) [] none self.new.out.items) }
    {
        let mut walk = Walk::of(self.sheet)?;
        let put = self.put_walk(&mut walk, refusal);
        drop(walk);
        put
    }
}

/// The lines of all that is amiss in a text which this refuses, an error of form or of a name.
pub(crate) fn fault_lines(sheet: Sheet<'_>, error: ScenarioError) -> Result<Vec<u8>, OutOfMemory>
    ensures { IfOk result (λ text. AreLines (Some (Why.Scenario error)) [] none text.items) }
{
    let mut page = Page::of(sheet)?;
    page.put_all(Refusal::Scenario(error))?;
    Ok(page.out)
}
