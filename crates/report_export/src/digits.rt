//! Numbers that come again from line to line.
ghost use Rattle.std.specs.Prelude.{◌≡◌, ◌+◌, ◌<◌, ◌≤◌, ◌++◌, length, decimal, vec_len, vec_capacity};
ghost use Rattle.journal_text.specs.Ids.{job_text};
ghost use Rattle.report_export.specs.Adding.{Grows};

use crate::parts::put_name;
use journal_text::Numeral;
use rt_base::{JobId, List, Name, Tick};

// As many transactions as a set has at most.
const TXNS: usize = 64;

/// The digits of the latest tick and of the latest serial of each transaction, kept from line to line. What is written does not
/// depend on it.
#[derive(Drop)]
pub(crate) struct Digits {
    tick: Numeral,
    serials: [Numeral; 64],
}

impl Digits {
    /// The digits of 0 in each place.
    pub(crate) fn new() -> Digits {
        let zero = Numeral::of(0);
        Digits {
            tick: zero,
            serials: [zero; TXNS],
        }
    }

    /// Adds a tick.
    #[inline(always)]
    #[tactic(auto, using(journal_text::proofs::IdLaws::unsigned_length))]
    pub(crate) fn put_tick(&mut self, into: &mut Vec<u8>, tick: Tick)
        requires { vec_len into.old + 32 ≤ vec_capacity into.old }
        ensures items { into.new.items ≡ into.old.items ++ decimal tick }
        ensures most { Grows into.old into.new 20 }
    {
        self.tick.go_to(tick);
        self.tick.put(into);
    }

    /// Adds a job.
    #[inline(always)]
    #[tactic(auto, using(journal_text::proofs::IdLaws::short_length))]
    pub(crate) fn put_job(&mut self, into: &mut Vec<u8>, txns: &List<Name>, job: JobId)
        requires known { job.tx.0 < length txns.now }
        requires room { vec_len into.old + 65 ≤ vec_capacity into.old }
        ensures items { into.new.items ≡ into.old.items ++ job_text txns.now job }
        ensures most { Grows into.old into.new 43 }
    {
        put_name(into, txns, job.tx.0);
        into.push_reserved(b'/');
        let serial = &mut self.serials[job.tx.0 as usize % TXNS];
        serial.go_to(u64::from(job.serial));
        serial.put(into);
    }
}
