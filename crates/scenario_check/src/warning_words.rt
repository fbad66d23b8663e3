//! The words of what is amiss.
ghost use Rattle.std.specs.Prelude.{◌≡◌, ◌++◌, OnOk};
ghost use Rattle.scenario_check.specs.Texts.{refusal_words, warning_words, what_words};

use crate::found::{Refusal, What};
use crate::kinds::Warning;
use refusal_lines::{
    put_admit_cause, put_compile_cause, put_item, put_of_item, put_of_txn, put_scenario_cause,
};
use rt_base::{Names, OutOfMemory};

/// Appends bytes.
pub(crate) fn put(out: &mut Vec<u8>, bytes: &[u8]) -> Result<(), OutOfMemory>
    ensures { OnOk result (out.new.items ≡ out.old.items ++ bytes.now) }
{
    out.extend_from_slice(bytes)?;
    Ok(())
}

fn put_warning(out: &mut Vec<u8>, names: &Names, warning: Warning) -> Result<(), OutOfMemory>
    ensures { OnOk result (out.new.items ≡ out.old.items ++ warning_words names.now warning) }
{
    match warning {
        Warning::NoScript { tx } => put_of_txn(out, names, b"NoScript", tx),
        Warning::NoEnd { tx } => put_of_txn(out, names, b"NoEnd", tx),
        Warning::LongScript { tx } => put_of_txn(out, names, b"LongScript", tx),
        Warning::UnreadLast { tx, op: _, item } => {
            put_of_txn(out, names, b"UnreadLast", tx)?;
            put_item(out, names, item)
        }
        Warning::NotPeriodic { tx } => put_of_txn(out, names, b"NotPeriodic", tx),
        Warning::NeverReleased { tx } => put_of_txn(out, names, b"NeverReleased", tx),
        Warning::Unread { item } => put_of_item(out, names, b"Unread", item),
        Warning::Unused { item } => put_of_item(out, names, b"Unused", item),
    }
}

fn put_refusal(out: &mut Vec<u8>, names: &Names, refusal: Refusal) -> Result<(), OutOfMemory>
    ensures { OnOk result (out.new.items ≡ out.old.items ++ refusal_words names.now refusal) }
{
    match refusal {
        Refusal::Scenario(error) => put_scenario_cause(out, names, error),
        Refusal::Compile(error) => put_compile_cause(out, names, error),
        Refusal::Admit(error) => put_admit_cause(out, names, error),
    }
}

fn put_warned(out: &mut Vec<u8>, names: &Names, warning: Warning) -> Result<(), OutOfMemory>
    ensures { OnOk result (out.new.items ≡ out.old.items ++ what_words names.now (What.Warned warning)) }
{
    put(out, b"warning ")?;
    put_warning(out, names, warning)
}

/// Appends the words of what is amiss. After want of memory a part of them may stand.
pub(crate) fn put_what(out: &mut Vec<u8>, names: &Names, what: What) -> Result<(), OutOfMemory>
    ensures { OnOk result (out.new.items ≡ out.old.items ++ what_words names.now what) }
{
    match what {
        What::Refused(refusal) => put_refusal(out, names, refusal),
        What::Repeated => put(out, b"warning Repeated"),
        What::Warned(warning) => put_warned(out, names, warning),
    }
}
