//! A run of two workers in which two scripts are asked at once.
use crate::over_disk::listed;
use io_edge::{MemSink, MemSource};
use rt_base::TxId;
use rtdb_command::{Status, Word, rtdb};
use std::alloc::Global;
use std::fs;
use std::hint::spin_loop;
use std::rt::Files;
use std::sync::Wait;
use std::sync::atomic::AtomicU64;
use std::sync::atomic::Ordering::SeqCst;
use std::thread::Threads;
use txn_threads::Gate;

// How often the scripts were asked, and how many of the first two waited in vain for one another.
#[derive(Drop)]
struct Meeting {
    sample: AtomicU64,
    control: AtomicU64,
    logger: AtomicU64,
    missed: AtomicU64,
}

const MOST_TURNS: u64 = 1_000_000_000;

impl Meeting {
    fn wait_for(&self, other: &AtomicU64) {
        for _ in 0..MOST_TURNS {
            if other.load(SeqCst) > 0 {
                return;
            }
            spin_loop();
        }
        self.missed.fetch_add(1, SeqCst);
    }
}

impl Gate for Meeting {
    fn asked(&self, tx: TxId) {
        match tx.0 {
            0 => {
                if self.sample.fetch_add(1, SeqCst) == 0 {
                    self.wait_for(&self.control);
                }
            }
            1 => {
                if self.control.fetch_add(1, SeqCst) == 0 {
                    self.wait_for(&self.sample);
                }
            }
            _ => {
                self.logger.fetch_add(1, SeqCst);
            }
        }
    }

    fn answered(&self, _tx: TxId) {}
}

// Whether this is the report of one worker.
fn is_report<R: Files + Alloc<A = Global>>(rt: &R, text: &[u8]) -> Option<bool> {
    let report = fs::read(rt, "base.report").ok()?;
    Some(text == report.as_slice())
}

// Runs BASE by these words: whether neither of the first two questions is over before both were put, each step is asked for,
// and the report is that of one worker.
fn asks<R: Threads + Wait + Sync + Files + Alloc<A = Global>>(
    rt: &R,
    alloc: Global,
    words: &[Word],
) -> Option<bool> {
    let mut source = MemSource::new(fs::read(rt, "base.scenario").ok()?, Vec::new(alloc));
    let Ok(mut sink) = MemSink::new(alloc, 100_000, 1000, Vec::new(alloc)) else {
        drop(source);
        return None;
    };
    let gate = Meeting {
        sample: AtomicU64::new(0),
        control: AtomicU64::new(0),
        logger: AtomicU64::new(0),
        missed: AtomicU64::new(0),
    };
    let status = rtdb(rt, alloc, words, &mut source, &mut sink, &gate);
    drop(source);
    let same = is_report(rt, sink.bytes());
    drop(sink);
    let asked = gate.sample.load(SeqCst) >= 8
        && gate.control.load(SeqCst) >= 8
        && gate.logger.load(SeqCst) >= 6;
    Some(status == Status::Ok && same? && asked && gate.missed.load(SeqCst) == 0)
}

/// Whether neither of the first two questions is over before both were put, so that two threads ask, each step is asked
/// for, and the report is that of one worker.
pub fn meets<R: Threads + Wait + Sync + Files + Alloc<A = Global>>(
    rt: &R,
    alloc: Global,
) -> Option<bool> {
    let words = listed(alloc, &["run", "--workers", "2"])?;
    let held = asks(rt, alloc, &words);
    drop(words);
    held
}
