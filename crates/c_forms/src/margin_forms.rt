//! A margin as a record.
ghost use Rattle.std.specs.Prelude.{◌≡◌};
ghost use Rattle.c_forms.specs.Margins.{form_of_barrier, form_of_margin};

use crate::refusals::{OK, RefusalForm, Refused, refusal_form};
use scale_margin::{Barrier, Margin};

/// The greatest percentage of its steps at which a set is admitted, and what bars the next one: a status, 0 if nothing does,
/// and the refusal with its numbers.
#[repr(C)]
#[derive(Clone, Copy)]
pub struct MarginForm {
    pub percent: u32,
    pub barrier: u32,
    pub refusal: RefusalForm,
}

const NO_REFUSAL: RefusalForm = RefusalForm {
    rule: 0,
    which: 0,
    a: 0,
    b: 0,
    c: 0,
};

fn barrier_form(barrier: Option<Barrier>) -> (u32, RefusalForm)
    ensures { result ≡ form_of_barrier barrier }
{
    match barrier {
        None => (OK, NO_REFUSAL),
        Some(Barrier::Compile(error)) => refusal_form(Refused::NotCompiled(error)),
        Some(Barrier::Admit(error)) => refusal_form(Refused::NotAdmitted(error)),
    }
}

/// A margin as a record.
pub fn margin_form(margin: Margin) -> MarginForm
    ensures { result ≡ form_of_margin margin }
{
    let (barrier, refusal) = barrier_form(margin.barrier);
    MarginForm {
        percent: margin.percent,
        barrier,
        refusal,
    }
}
