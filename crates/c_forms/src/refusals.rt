//! Why there is no database over some tables, as a plain record.
ghost use Rattle.std.specs.Prelude.{◌≡◌};
ghost use Rattle.c_forms.specs.Refusals.{number_of_which, bare_refusal, form_of_rule, form_of_admission, form_of_refusal};

use rt_base::OutOfMemory;
use set_admission::AdmitError;
use txn_compiler::{CompileError, Which};

/// Why there is no database over some tables.
#[derive(Clone, Copy)]
pub enum Refused {
    /// The first row of the items whose kind is none.
    BadKind { row: usize },
    /// The first of the numbers that names no item.
    BadNumber { place: usize },
    /// The first row of the transactions whose lists do not lie within the numbers.
    BadTxn { row: usize },
    /// The first row of the relative sets whose list does not lie within the numbers.
    BadTogether { row: usize },
    /// The set breaks a rule.
    NotCompiled(CompileError),
    /// The set does not meet the admission rule.
    NotAdmitted(AdmitError),
    /// The room is above 2^20.
    NoRoom,
    /// A growth was refused for want of memory.
    OutOfMemory,
}

impl From<OutOfMemory> for Refused {
    ghost use Rattle.std.specs.Prelude.{◌≡◌};
    ghost use Rattle.c_forms.specs.declared.refusals.Refused.TheVariants.{OutOfMemory};

    ghost from_gives = { λ _ e. e ≡ OutOfMemory };

    fn from(_e: OutOfMemory) -> Refused {
        Refused::OutOfMemory
    }
}

/// A refusal. `rule` says which rule is broken, by the numbers of rtdb.h, and the other fields where.
#[repr(C)]
#[derive(Clone, Copy)]
pub struct RefusalForm {
    pub rule: u32,
    pub which: u32,
    pub a: u64,
    pub b: u64,
    pub c: u64,
}

/// The call was made.
pub const OK: u32 = 0;

/// A row of a table is none.
pub const BAD_TABLE: u32 = 8;

/// The set breaks a rule.
pub const NOT_COMPILED: u32 = 9;

/// The set is not admitted.
pub const NOT_ADMITTED: u32 = 10;

/// The room is above 2^20.
pub const NO_ROOM: u32 = 7;

/// Want of memory.
pub const NO_MEMORY: u32 = 11;

fn which_number(which: Which) -> u32
    ensures { result ≡ number_of_which which }
{
    match which {
        Which::Prio => 0,
        Which::Steps => 1,
        Which::Period => 2,
        Which::Deadline => 3,
        Which::Offset => 4,
        Which::Quiet => 5,
    }
}

fn form(rule: u32, a: u64, b: u64, c: u64) -> RefusalForm
    ensures { result ≡ bare_refusal rule a b c }
{
    RefusalForm {
        rule,
        which: 0,
        a,
        b,
        c,
    }
}

fn compile_form(error: CompileError) -> (u32, RefusalForm)
    ensures { result ≡ form_of_rule error }
{
    let form = match error {
        CompileError::TooManyItems { count } => form(10, count as u64, 0, 0),
        CompileError::TooManyTxns { count } => form(11, count as u64, 0, 0),
        CompileError::SamePrio { a, b } => form(12, a.0 as u64, b.0 as u64, 0),
        CompileError::BadTimes { tx, which } => RefusalForm {
            which: which_number(which),
            ..form(13, tx.0 as u64, 0, 0)
        },
        CompileError::NoWriter { item } => form(14, item.0 as u64, 0, 0),
        CompileError::TwoWriters { item, a, b } => {
            form(15, item.0 as u64, a.0 as u64, b.0 as u64)
        }
        CompileError::CyclicDerivation { item } => form(16, item.0 as u64, 0, 0),
        CompileError::TooManySets { count } => form(17, count as u64, 0, 0),
        CompileError::BadTogether { set } => form(18, set as u64, 0, 0),
        CompileError::OutOfMemory => return (NO_MEMORY, form(0, 0, 0, 0)),
    };
    (NOT_COMPILED, form)
}

fn admit_form(error: AdmitError) -> (u32, RefusalForm)
    ensures { result ≡ form_of_admission error }
{
    let form = match error {
        AdmitError::NotSchedulable { tx, demand } => form(20, tx.0 as u64, demand, 0),
        AdmitError::TooOld { tx, item, age } => form(21, tx.0 as u64, item.0 as u64, age),
        AdmitError::TooApart { tx, set, age } => form(22, tx.0 as u64, set as u64, age),
        AdmitError::OutOfMemory => return (NO_MEMORY, form(0, 0, 0, 0)),
    };
    (NOT_ADMITTED, form)
}

/// The status and the record of a refusal.
pub fn refusal_form(refused: Refused) -> (u32, RefusalForm)
    ensures { result ≡ form_of_refusal refused }
{
    match refused {
        Refused::BadKind { row } => (BAD_TABLE, form(1, row as u64, 0, 0)),
        Refused::BadNumber { place } => (BAD_TABLE, form(2, place as u64, 0, 0)),
        Refused::BadTxn { row } => (BAD_TABLE, form(3, row as u64, 0, 0)),
        Refused::BadTogether { row } => (BAD_TABLE, form(4, row as u64, 0, 0)),
        Refused::NotCompiled(error) => compile_form(error),
        Refused::NotAdmitted(error) => admit_form(error),
        Refused::NoRoom => (NO_ROOM, form(0, 0, 0, 0)),
        Refused::OutOfMemory => (NO_MEMORY, form(0, 0, 0, 0)),
    }
}
