//! The heads of reports.
use report_text::{Head, HeadError, read_head};
use rt_base::Name;
use std::alloc::Global;
use txn_set::TxnDecl;

// Writes names, each after a blank.
fn write_names(names: &[Name], said: &mut String) -> Option<()> {
    for name in names {
        write!(said, " {}", str::from_utf8(name.as_slice()).ok()?).ok()?;
    }
    Some(())
}

fn write_txn(txn: &TxnDecl, said: &mut String) -> Option<()> {
    let (reads, writes) = (txn.reads.as_slice().len(), txn.writes.as_slice().len());
    write!(
        said,
        ", {} {} {} {} {} quiet {} reads {reads} writes {writes}",
        txn.prio, txn.period, txn.offset, txn.deadline, txn.steps, txn.quiet
    )
    .ok()
}

// Writes the declarations of a head.
fn write_declared(head: &Head, said: &mut String) -> Option<()> {
    for item in head.items.as_slice() {
        write!(said, ", {:?} {}", item.kind, item.initial).ok()?;
    }
    for txn in head.txns.as_slice() {
        write_txn(txn, said)?;
    }
    for set in head.together.as_slice() {
        write!(said, ", {} of {}", set.within, set.items.as_slice().len()).ok()?;
    }
    Some(())
}

// Writes the names and the declarations of a head, and how many lines they have.
fn write_head(head: &Head, said: &mut String) -> Option<()> {
    let mode = if head.admitted { "admitted" } else { "trial" };
    write!(said, "{} lines {mode}", head.lines).ok()?;
    let names = head.names.names();
    write_names(names.items.as_slice(), said)?;
    write_names(names.txns.as_slice(), said)?;
    write_declared(head, said)
}

/// Writes what is read of the head of a report.
pub fn try_head(alloc: Global, bytes: &[u8], said: &mut String) -> Option<()> {
    if bytes.len() >= 1 << 32 {
        return None;
    }
    match read_head(alloc, bytes) {
        Ok(head) => {
            let written = write_head(&head, said);
            drop(head);
            written
        }
        Err(HeadError::BadLine { n }) => write!(said, "bad line {n}").ok(),
        Err(HeadError::Unfinished) => said.push_str("unfinished").ok(),
        Err(HeadError::OutOfMemory) => None,
    }
}
