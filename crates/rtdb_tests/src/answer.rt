//! The calls of the program on a case.
use crate::case::Case;
use io_edge::{MemSink, MemSource};
use picture_command::draw_report;
use rt_base::TxId;
use rtdb_command::{Status, rtdb, rtdb_plain};
use std::alloc::Global;
use std::mem;
use std::sync::Wait;
use std::sync::atomic::AtomicU64;
use std::sync::atomic::Ordering::SeqCst;
use std::thread::Threads;
use tool_command::rtdb_tool;
use txn_threads::Gate;

// How often the scripts were asked.
#[derive(Drop)]
struct Count {
    asked: AtomicU64,
}

impl Gate for Count {
    fn asked(&self, _tx: TxId) {
        self.asked.fetch_add(1, SeqCst);
    }

    fn answered(&self, _tx: TxId) {}
}

// What the case is read from.
fn source_of(alloc: Global, case: &Case) -> Option<MemSource> {
    let faults = case.read_faults.to_vec(alloc).ok()?;
    let input = case.input.to_vec(alloc).ok()?;
    Some(MemSource::new(input, faults))
}

// What is written to.
fn sink_of(alloc: Global, case: &Case) -> Option<MemSink> {
    let faults = case.write_faults.to_vec(alloc).ok()?;
    MemSink::new(alloc, case.room, case.piece.max(1), faults).ok()
}

// Calls the program on the case.
fn call<R: Threads + Wait + Sync>(
    rt: &R,
    alloc: Global,
    case: &Case,
    source: &mut MemSource,
    sink: &mut MemSink,
    gate: &Count,
) -> Status {
    if case.picture {
        draw_report(alloc, &case.words, source, sink)
    } else if case.tool {
        rtdb_tool(alloc, &case.words, source, sink)
    } else if case.plain {
        rtdb_plain(alloc, &case.words, source, sink)
    } else {
        rtdb(rt, alloc, &case.words, source, sink, gate)
    }
}

/// Calls the program on the case, which keeps what was said: the status.
pub fn answer<R: Threads + Wait + Sync>(rt: &R, alloc: Global, case: &mut Case) -> Option<Status> {
    let mut source = source_of(alloc, case)?;
    let Some(mut sink) = sink_of(alloc, case) else {
        drop(source);
        return None;
    };
    let gate = Count {
        asked: AtomicU64::new(0),
    };
    let status = call(rt, alloc, case, &mut source, &mut sink, &gate);
    drop(source);
    case.said.clear();
    let kept = case.said.extend_from_slice(sink.bytes());
    drop(sink);
    kept.ok()?;
    case.asked = gate.asked.load(SeqCst);
    Some(status)
}

// Adds the answer to each proper prefix of a text, if each has the status.
fn add_answers<R: Threads + Wait + Sync>(
    rt: &R,
    alloc: Global,
    case: &mut Case,
    whole: &[u8],
    status: u8,
    answers: &mut Vec<u8>,
) -> Option<bool> {
    for end in 0..whole.len() {
        case.input.clear();
        case.input.extend_from_slice(&whole[..end]).ok()?;
        if answer(rt, alloc, case)? as u8 != status {
            return Some(false);
        }
        answers.extend_from_slice(&case.said).ok()?;
    }
    Some(true)
}

/// The answers to each proper prefix of the input, one behind the other, if each has the status.
pub fn answer_prefixes<R: Threads + Wait + Sync>(
    rt: &R,
    alloc: Global,
    case: &mut Case,
    status: u8,
) -> Option<bool> {
    let whole = case.input.to_vec(alloc).ok()?;
    let mut answers = Vec::new(alloc);
    let right = add_answers(rt, alloc, case, &whole, status, &mut answers);
    drop(whole);
    drop(mem::replace(&mut case.said, answers));
    right
}

/// Fails each call of the sink in turn, until none fails: whether each leaves a front of the wanted text, and then the whole is
/// said.
pub fn answer_faults<R: Threads + Wait + Sync>(
    rt: &R,
    alloc: Global,
    case: &mut Case,
    wanted: &[u8],
) -> Option<bool> {
    for call in 0..10_000usize {
        case.write_faults.clear();
        case.write_faults.push(call as u64).ok()?;
        let status = answer(rt, alloc, case)?;
        if status == Status::Ok {
            return Some(case.said.as_slice() == wanted);
        }
        if status != Status::WriteFault || !wanted.starts_with(&case.said) {
            return Some(false);
        }
    }
    Some(false)
}
