//! Causes.
ghost use Rattle.std.specs.Prelude.{◌≡◌, ◌≤◌, ◌++◌, length, codes};
ghost use Rattle.refusal_lines.specs.Causes.{word, number, which_text};
ghost use Rattle.c_forms.specs.Refusals.{which_of};
ghost use Rattle.rtdb_c.specs.Texts.{item_name, txn_name, later_word, status_word, table_text, rule_text, admission_text};

use crate::words::{Words, begun, put_item, put_number, put_txn, put_word};
use c_forms::RefusalForm;

// A word and a number.
fn counted(cause: &[u8], n: u64) -> Words
    requires { length cause.now ≤ 20 }
    ensures { result.items ≡ cause.now ++ number n }
{
    let mut out = begun(cause);
    put_number(&mut out, n);
    out
}

// A word and an item.
fn of_item(cause: &[u8], item: u64) -> Words
    requires { length cause.now ≤ 20 }
    ensures { result.items ≡ cause.now ++ word (item_name item) }
{
    let mut out = begun(cause);
    put_item(&mut out, item);
    out
}

fn same_prio(a: u64, b: u64) -> Words
    ensures { result.items ≡ codes "SamePrio" ++ word (txn_name a) ++ word (txn_name b) }
{
    let mut out = begun(b"SamePrio");
    put_txn(&mut out, a);
    put_txn(&mut out, b);
    out
}

fn which(which: u32) -> &'static [u8]
    ensures text { result.now ≡ which_text (which_of which) }
    ensures short { length result.now ≤ 8 }
{
    match which {
        0 => b"priority",
        1 => b"steps",
        2 => b"period",
        3 => b"deadline",
        4 => b"offset",
        _ => b"quiet",
    }
}

fn bad_times(tx: u64, field: u32) -> Words
    ensures { result.items ≡ codes "BadTimes" ++ word (txn_name tx) ++ word (which_text (which_of field)) }
{
    let mut out = begun(b"BadTimes");
    put_txn(&mut out, tx);
    put_word(&mut out, which(field));
    out
}

fn two_writers(item: u64, a: u64, b: u64) -> Words
    ensures { result.items ≡ codes "TwoWriters" ++ word (item_name item) ++ word (txn_name a) ++ word (txn_name b) }
{
    let mut out = begun(b"TwoWriters");
    put_item(&mut out, item);
    put_txn(&mut out, a);
    put_txn(&mut out, b);
    out
}

// A word, a transaction and a number.
fn not_schedulable(tx: u64, demand: u64) -> Words
    ensures { result.items ≡ codes "NotSchedulable" ++ word (txn_name tx) ++ number demand }
{
    let mut out = begun(b"NotSchedulable");
    put_txn(&mut out, tx);
    put_number(&mut out, demand);
    out
}

fn too_old(tx: u64, item: u64, age: u64) -> Words
    ensures { result.items ≡ codes "TooOld" ++ word (txn_name tx) ++ word (item_name item) ++ number age }
{
    let mut out = begun(b"TooOld");
    put_txn(&mut out, tx);
    put_item(&mut out, item);
    put_number(&mut out, age);
    out
}

fn too_apart(tx: u64, set: u64, age: u64) -> Words
    ensures { result.items ≡ codes "TooApart" ++ word (txn_name tx) ++ number set ++ number age }
{
    let mut out = begun(b"TooApart");
    put_txn(&mut out, tx);
    put_number(&mut out, set);
    put_number(&mut out, age);
    out
}

/// Of a row or a number of the tables that is bad.
pub fn table_words(form: RefusalForm) -> Words
    ensures { result.items ≡ table_text form }
{
    match form.rule {
        1 => counted(b"BadKind", form.a),
        2 => counted(b"BadNumber", form.a),
        3 => counted(b"BadTransaction", form.a),
        4 => counted(b"BadTogetherRow", form.a),
        _ => begun(b"BadTable"),
    }
}

/// Of a rule of compiling that a set breaks.
pub fn rule_words(form: RefusalForm) -> Words
    ensures { result.items ≡ rule_text form }
{
    match form.rule {
        10 => counted(b"TooManyItems", form.a),
        11 => counted(b"TooManyTxns", form.a),
        12 => same_prio(form.a, form.b),
        13 => bad_times(form.a, form.which),
        14 => of_item(b"NoWriter", form.a),
        15 => two_writers(form.a, form.b, form.c),
        16 => of_item(b"CyclicDerivation", form.a),
        17 => counted(b"TooManySets", form.a),
        18 => counted(b"BadTogether", form.a),
        _ => begun(b"NotCompiled"),
    }
}

/// Of the rule of admission.
pub fn admission_words(form: RefusalForm) -> Words
    ensures { result.items ≡ admission_text form }
{
    match form.rule {
        20 => not_schedulable(form.a, form.b),
        21 => too_old(form.a, form.b, form.c),
        22 => too_apart(form.a, form.b, form.c),
        _ => begun(b"NotAdmitted"),
    }
}

/// Of a line of a text that declares a set, or of a record of a file, that is bad.
pub fn numbered_words(cause: &[u8], form: RefusalForm) -> Words
    requires { length cause.now ≤ 20 }
    ensures { result.items ≡ cause.now ++ number form.a }
{
    counted(cause, form.a)
}

fn later_words(status: u32) -> Words
    ensures { result.items ≡ later_word status }
{
    match status {
        20 => begun(b"Stopped"),
        21 => begun(b"Unanswered"),
        22 => begun(b"UnknownEntry"),
        25 => begun(b"Full"),
        26 => begun(b"Busy"),
        27 => begun(b"WrongSeat"),
        _ => counted(b"Unknown", status as u64),
    }
}

/// Of a status that needs no record.
pub fn status_words(status: u32) -> Words
    ensures { result.items ≡ status_word status }
{
    match status {
        0 => begun(b"Ok"),
        1 => begun(b"Closed"),
        2 => begun(b"Open"),
        3 => begun(b"NoOperation"),
        4 => begun(b"NoTransaction"),
        5 => begun(b"NoItem"),
        6 => begun(b"Nothing"),
        7 => begun(b"RoomTooLarge"),
        11 => begun(b"OutOfMemory"),
        _ => later_words(status),
    }
}
