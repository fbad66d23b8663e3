//! The place of a refusal and of a warning, and what its line says besides.
use crate::found::Refusal;
use crate::kinds::Warning;
use refusal_lines::member_of;
use rt_base::{ItemId, PlanRefused, TxId};
use scenario_forms::{ItemMember, Place, TxnMember};
use scenario_reader::ScenarioError;
use set_admission::AdmitError;
use txn_compiler::{CompileError, Which};

fn txn(tx: TxId) -> Place {
    Place::Txn { i: tx.0 as usize }
}

fn item(item: ItemId) -> Place {
    Place::Item { i: item.0 as usize }
}

fn of_txn(tx: TxId, member: TxnMember) -> Place {
    Place::TxnMember {
        i: tx.0 as usize,
        member,
    }
}

fn op_of(tx: TxId, op: usize) -> Place {
    Place::Element {
        i: tx.0 as usize,
        member: TxnMember::Script,
        j: op,
    }
}

fn scenario_place(error: ScenarioError) -> Place {
    match error {
        ScenarioError::BadField { place } | ScenarioError::UnknownName { place } => place,
        ScenarioError::BadScript { tx, op } => op_of(tx, op),
        ScenarioError::TooManySteps { tx } => of_txn(tx, TxnMember::Script),
        ScenarioError::BadRelease { tx, index, .. } => Place::Element {
            i: tx.0 as usize,
            member: TxnMember::Releases,
            j: index as usize,
        },
        ScenarioError::TooManyJobs { .. }
        | ScenarioError::RoomTooLarge { .. }
        | ScenarioError::EagerTooFar { .. } => Place::Txns,
        ScenarioError::NotJson | ScenarioError::OutOfMemory => Place::Root,
    }
}

fn compile_place(error: CompileError) -> Place {
    match error {
        CompileError::TooManyItems { .. } => Place::Items,
        CompileError::TooManyTxns { .. } => Place::Txns,
        CompileError::SamePrio { b, .. } => of_txn(b, TxnMember::Priority),
        CompileError::BadTimes { tx, which } => of_txn(tx, member_of(which)),
        CompileError::NoWriter { item: i } | CompileError::CyclicDerivation { item: i } => item(i),
        CompileError::TwoWriters { b, .. } => of_txn(b, TxnMember::Writes),
        CompileError::TooManySets { .. } => Place::Together,
        CompileError::BadTogether { set } => Place::Set { i: set },
        CompileError::OutOfMemory => Place::Root,
    }
}

fn admit_place(error: AdmitError) -> Place {
    match error {
        AdmitError::NotSchedulable { tx, .. } => of_txn(tx, TxnMember::Deadline),
        AdmitError::TooOld { tx, .. } | AdmitError::TooApart { tx, .. } => {
            of_txn(tx, TxnMember::Reads)
        }
        AdmitError::OutOfMemory => Place::Root,
    }
}

/// The place of a refusal.
pub(crate) fn refusal_place(refusal: Refusal) -> Place {
    match refusal {
        Refusal::Scenario(error) => scenario_place(error),
        Refusal::Compile(error) => compile_place(error),
        Refusal::Admit(error) => admit_place(error),
    }
}

/// The place of a warning.
pub(crate) fn warning_place(warning: Warning) -> Place {
    match warning {
        Warning::NoScript { tx } | Warning::NeverReleased { tx } => txn(tx),
        Warning::NoEnd { tx } | Warning::LongScript { tx } => of_txn(tx, TxnMember::Script),
        Warning::UnreadLast { tx, op, .. } => op_of(tx, op),
        Warning::NotPeriodic { tx } => of_txn(tx, TxnMember::Releases),
        Warning::Unread { item: i } | Warning::Unused { item: i } => Place::ItemMember {
            i: i.0 as usize,
            member: ItemMember::Name,
        },
    }
}

fn scenario_reason(error: ScenarioError) -> &'static [u8] {
    match error {
        ScenarioError::BadScript { .. } => {
            b"the operation may not stand here; it is a read or write of what is not declared or among the quiet steps, a commit before a declared write of a sensor or derived item, or it comes after a commit or quit"
        }
        ScenarioError::TooManySteps { .. } => {
            b"a script has at most 10000 operations, each compute counted as many as it says"
        }
        ScenarioError::TooManyJobs { .. } => b"a scenario has at most 65536 jobs",
        ScenarioError::BadRelease { cause, .. } => match cause {
            PlanRefused::TooSoon { .. } => {
                b"a release comes a period after the one before it, or later; the last number is the earliest tick"
            }
            _ => b"no release comes after the last number",
        },
        ScenarioError::RoomTooLarge { .. } => {
            b"two and, for each job, the steps of its transaction and 3 are at most 1048576"
        }
        ScenarioError::EagerTooFar { .. } => b"the eager jobs end by the tick 1099511627776",
        ScenarioError::BadField { .. } => b"a member is missing or not of its form",
        ScenarioError::UnknownName { .. } => b"a name is that of no item",
        ScenarioError::NotJson | ScenarioError::OutOfMemory => b"",
    }
}

fn times_reason(which: Which) -> &'static [u8] {
    match which {
        Which::Prio => b"a priority is from 1 to 1000",
        Which::Steps => b"the steps of a job are from 1 to 10000",
        Which::Period => b"a period is from 1 to 1073741824",
        Which::Deadline => b"a deadline is from 1 to the period",
        Which::Offset => b"an offset is at most the period",
        Which::Quiet => b"the quiet steps are fewer than the steps",
    }
}

fn compile_reason(error: CompileError) -> &'static [u8] {
    match error {
        CompileError::TooManyItems { .. } => b"a set has at most 256 items",
        CompileError::TooManyTxns { .. } => b"a set has at most 64 transactions",
        CompileError::SamePrio { .. } => b"no two transactions have one priority",
        CompileError::BadTimes { which, .. } => times_reason(which),
        CompileError::NoWriter { .. } => {
            b"a sensor or derived item is declared among the writes of a transaction"
        }
        CompileError::TwoWriters { .. } => {
            b"a sensor or derived item is declared among the writes of one transaction alone"
        }
        CompileError::CyclicDerivation { .. } => b"no item is derived from itself",
        CompileError::TooManySets { .. } => b"a set has at most 64 relative sets",
        CompileError::BadTogether { .. } => {
            b"a relative set has two items or more, all sensor or derived items"
        }
        CompileError::OutOfMemory => b"",
    }
}

fn admit_reason(error: AdmitError) -> &'static [u8] {
    match error {
        AdmitError::NotSchedulable { .. } => {
            b"the last number is the steps that may be asked for up to the deadline, and they are more than it"
        }
        AdmitError::TooOld { .. } => {
            b"the last number is the greatest age of the item when a job commits, and it is above the validity"
        }
        AdmitError::TooApart { .. } => {
            b"the last number is the greatest age of its items when a job commits, and it is above the interval"
        }
        AdmitError::OutOfMemory => b"",
    }
}

/// What the line of a refusal says besides.
pub(crate) fn refusal_reason(refusal: Refusal) -> &'static [u8] {
    match refusal {
        Refusal::Scenario(error) => scenario_reason(error),
        Refusal::Compile(error) => compile_reason(error),
        Refusal::Admit(error) => admit_reason(error),
    }
}

/// What the line of a warning says besides.
pub(crate) fn warning_reason(warning: Warning) -> &'static [u8] {
    match warning {
        Warning::NoScript { .. } =>
            b"without a script each job computes until its steps are used up",
        Warning::NoEnd { .. } => {
            b"without a commit or quit each job computes until its steps are used up"
        }
        Warning::LongScript { .. } => {
            b"the script has more steps than a job may use, so that no job comes to its end"
        }
        Warning::UnreadLast { .. } => {
            b"the job has not read the item before, so that the value is 0"
        }
        Warning::NotPeriodic { .. } => {
            b"the releases are not at the offset and each period after it, so that no bound on ages holds"
        }
        Warning::NeverReleased { .. } => b"the transaction has no jobs",
        Warning::Unread { .. } => b"no transaction may read the sensor item",
        Warning::Unused { .. } => b"no transaction may read or write the item",
    }
}
