//! Numbers that come again from line to line.
ghost use Rattle.std.specs.Prelude.{◌≡◌, ◌+◌, ◌^◌, ◌<◌, ◌≤◌, ◌++◌, length, decimal, vec_len, vec_capacity};
ghost use Rattle.line_fields.specs.Cuts.{field};
ghost use Rattle.journal_text.specs.Ids.{job_text, IsJob};

use crate::numeral::Numeral;
use crate::writing::put_name;
use rt_base::{JobId, Name, Tick};

// As many transactions as a set has at most.
const TXNS: usize = 64;

/// The digits of the latest tick and of the latest serial of each transaction, kept from line to line: most numbers of a
/// line are those of lines before it, or follow them. What is written does not depend on it.
#[derive(Drop)]
pub struct Numerals {
    tick: Numeral,
    serials: [Numeral; 64],
}

impl Numerals {
    /// The digits of 0 in each place.
    pub fn new() -> Numerals {
        let zero = Numeral::of(0);
        Numerals {
            tick: zero,
            serials: [zero; TXNS],
        }
    }

    /// Adds a blank and a tick. The digits are those of the latest one, where they are the same.
    #[inline(always)]
    #[tactic(auto, using(crate::proofs::IdLaws::unsigned_length))]
    pub fn put_tick(&mut self, into: &mut Vec<u8>, tick: Tick)
        requires { vec_len into.old + 33 ≤ vec_capacity into.old }
        ensures items { into.new.items ≡ into.old.items ++ field (decimal tick) }
        ensures fits { tick < 2 ^ 64 }
        ensures len { vec_len into.new ≤ vec_len into.old + 21 }
        ensures room { vec_capacity into.old ≤ vec_capacity into.new }
    {
        into.push_reserved(b' ');
        self.tick.go_to(tick);
        self.tick.put(into);
    }

    /// Adds a blank and a job. The digits of its serial are those of the latest one of its transaction, where they are the same.
    #[inline(always)]
    #[tactic(auto, using(crate::proofs::IdLaws::short_length))]
    pub fn put_job(&mut self, into: &mut Vec<u8>, txns: &[Name], job: JobId)
        requires known { job.tx.0 < length txns.now }
        requires room { vec_len into.old + 66 ≤ vec_capacity into.old }
        ensures items { into.new.items ≡ into.old.items ++ field (job_text txns.now job) }
        ensures line { IsJob txns.now job }
        ensures len { vec_len into.new ≤ vec_len into.old + 44 }
        ensures room { vec_capacity into.old ≤ vec_capacity into.new }
    {
        put_name(into, txns, job.tx.0);
        into.push_reserved(b'/');
        let serial = &mut self.serials[job.tx.0 as usize % TXNS];
        serial.go_to(u64::from(job.serial));
        serial.put(into);
    }
}
