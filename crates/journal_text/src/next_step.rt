//! The line of a Compute that is likely to be next, where lines are read and where they are written.
ghost use Rattle.std.specs.Prelude.{◌≡◌, ◌+◌, ◌-◌, ◌≤◌, ◌<◌, ◌^◌, ◌++◌, ℕ, List, None, Some, IfSome, IsTrue, length, take, drop, decimal, slice_index_or, option_map, false, vec_len, vec_capacity};
ghost use Rattle.rt_base.specs.declared.name.Names.{Names as AllNames};
ghost use Rattle.rt_base.specs.declared.ids.JobId.{JobId as Job};
ghost use Rattle.step_journal.specs.declared.entry.Entry.TheVariants.{Step};
ghost use Rattle.line_fields.specs.Cuts.{field, Lacks, Ends};
ghost use Rattle.journal_text.specs.Ids.{job_of, job_text};
ghost use Rattle.journal_text.specs.Reading.{entry_of};
ghost use Rattle.journal_text.specs.Next.{step_by, first_entry as first_entry_of, compute_line, front_of, IsNext, IsOwn};

use crate::ids::next_job;
use crate::reading::{after, any_entry, step_after};
use crate::writing::put;
use line_fields::{cut, next_unsigned};
use name_table::NameTables;
use rt_base::{JobId, Op, Outcome, Tick, TxId};
use step_journal::Entry;

/// The line of a Compute of a job at a tick at which nothing ends, with its line end; or nothing. It is what is likely to be
/// next where a history's lines are read or written.
#[derive(Drop)]
pub struct NextStep {
    line: [u8; 64],
    // 0 where there is nothing.
    len: usize,
    job: JobId,
    tick: Tick,
}

// The bytes of ` compute` and a line end.
const COMPUTE: usize = 9;

// No such line has fewer bytes.
const LEAST: usize = 18;

// Whether eight bytes from a place on are the same in both.
#[inline(always)]
fn same_word(a: &[u8], b: &[u8], at: usize) -> bool
    requires first { at + 8 ≤ length a.now }
    requires second { at + 8 ≤ length b.now }
    ensures { IsTrue result → (i : ℕ) → at ≤ i → i < at + 8 → slice_index_or a.now i 0 ≡ slice_index_or b.now i 0 }
{
    let one = [
        a[at],
        a[at + 1],
        a[at + 2],
        a[at + 3],
        a[at + 4],
        a[at + 5],
        a[at + 6],
        a[at + 7],
    ];
    let other = [
        b[at],
        b[at + 1],
        b[at + 2],
        b[at + 3],
        b[at + 4],
        b[at + 5],
        b[at + 6],
        b[at + 7],
    ];
    u64::from_le_bytes(one) == u64::from_le_bytes(other)
}

// Whether so many bytes at the front are the same in both, eight at a time. The last of them differ most often.
#[inline(always)]
fn same_front(a: &[u8], b: &[u8], len: usize) -> bool
    requires some { 8 ≤ len }
    requires first { len ≤ length a.now }
    requires second { len ≤ length b.now }
    ensures { IsTrue result → take len a.now ≡ take len b.now }
{
    if !same_word(a, b, len - 8) {
        return false;
    }
    let mut at = 0;
    while at + 8 < len {
        if !same_word(a, b, at) {
            return false;
        }
        at += 8;
    }
    true
}

// Writes bytes from a place on.
#[inline(always)]
fn put_at(line: &mut [u8; 64], at: usize, bytes: &[u8])
    requires { at + length bytes.now ≤ 64 }
    ensures { take (at + length bytes.now) line.new ≡ take at line.old ++ bytes.now }
{
    line[at..at + bytes.len()].copy_from_slice(bytes);
}

fn same_job(a: JobId, b: JobId) -> bool
    ensures { IsTrue result → a ≡ b }
{
    a.tx.0 == b.tx.0 && a.serial == b.serial
}

impl NextStep {
    /// Nothing.
    pub fn new() -> NextStep
        ensures next { (names : AllNames) → IsNext names result }
        ensures own { (names : AllNames) → IsOwn names result }
    {
        NextStep {
            line: [0; 64],
            len: 0,
            job: JobId {
                tx: TxId(0),
                serial: 0,
            },
            tick: 0,
        }
    }

    // What follows the tick, where a line begins as this one up to there.
    #[inline(always)]
    fn passed<'a>(&self, line: &'a [u8]) -> Option<&'a [u8]>
        requires { self.now.len ≤ 64 }
        ensures some { IfSome result (λ rest. 18 ≤ self.now.len) }
        ensures front { IfSome result (λ rest. line.now ≡ take (self.now.len - 9) self.now.line ++ rest.now) }
        ensures ends { IfSome result (λ rest. Ends rest.now) }
    {
        if self.len < LEAST {
            return None;
        }
        let len = self.len - COMPUTE;
        if line.len() <= len || line[len] != b' ' || !same_front(line, &self.line, len) {
            return None;
        }
        Some(&line[len..])
    }

    // What follows this line, where a text begins with it.
    #[inline(always)]
    fn computed<'a>(&self, text: &'a [u8]) -> Option<&'a [u8]>
        requires { self.now.len ≤ 64 }
        ensures some { IfSome result (λ rest. 18 ≤ self.now.len) }
        ensures front { IfSome result (λ rest. text.now ≡ take self.now.len self.now.line ++ rest.now) }
    {
        let len = self.len;
        if len < LEAST || text.len() < len || !same_front(text, &self.line, len) {
            return None;
        }
        Some(&text[len..])
    }

    // Goes on to the next tick, or to nothing where its last two digits are 99, or it is 9.
    #[inline(always)]
    fn go_on(&mut self)
        requires some { 18 ≤ self.old.len }
        requires within { self.old.len ≤ 64 }
        ensures next { (names : AllNames) → IsNext names self.old → IsNext names self.new }
        ensures own { (names : AllNames) → IsOwn names self.old → IsOwn names self.new }
    {
        let last = self.len - COMPUTE - 1;
        if u64::MAX <= self.tick {
            self.len = 0;
        } else if self.line[last] < b'9' {
            self.line[last] += 1;
            self.tick += 1;
        } else if b'0' <= self.line[last - 1] && self.line[last - 1] < b'9' {
            self.line[last - 1] += 1;
            self.line[last] = b'0';
            self.tick += 1;
        } else {
            self.len = 0;
        }
    }

    // Notes the line of a job and a tick, by their fields, and goes on to the next tick.
    #[inline(never)]
    pub(crate) fn note(&mut self, fields: &[u8], job: JobId, tick: Tick)
        ensures own { (names : AllNames) → fields.now ≡ field (job_text names.txns job) ++ field (decimal tick) → IsOwn names self.new }
        ensures next { (names : AllNames) (word : List ℕ) → fields.now ≡ field word ++ field (decimal tick) → job_of names.txns word ≡ Some job → Lacks 32 word → Lacks 10 word → IsNext names self.new }
    {
        self.len = 0;
        if fields.len() > 48 {
            return;
        }
        if fields.len() < 5 {
            return;
        }
        let end = 4 + fields.len();
        put_at(&mut self.line, 0, b"step");
        put_at(&mut self.line, 4, fields);
        put_at(&mut self.line, end, b" compute\n");
        self.len = end + COMPUTE;
        self.job = job;
        self.tick = tick;
        self.go_on();
    }

    // Whether this is the line of a Compute of this job at this tick.
    #[inline(always)]
    fn is_of(&self, job: JobId, tick: Tick) -> bool
        ensures { IsTrue result → (18 ≤ self.now.len) × (job ≡ self.now.job) × (tick ≡ self.now.tick) }
    {
        LEAST <= self.len && tick == self.tick && same_job(job, self.job)
    }

    // Adds this line, if it is that of this Compute, and goes on to the next tick: whether it is. Else nothing changes.
    #[inline(always)]
    pub(crate) fn put(&mut self, job: JobId, tick: Tick, into: &mut Vec<u8>) -> bool
        requires own { (names : AllNames) × IsOwn names self.old }
        requires room { vec_len into.old + 64 ≤ vec_capacity into.old }
        ensures line { IsTrue result → (names : AllNames) → IsOwn names self.old → into.new.items ≡ into.old.items ++ compute_line names job tick }
        ensures other { result ≡ false → (into.new.items ≡ into.old.items) × (vec_len into.new ≡ vec_len into.old) }
        ensures fits { (job.serial < 2 ^ 32) × (tick < 2 ^ 64) }
        ensures len { vec_len into.new ≤ vec_len into.old + 64 }
        ensures room { vec_capacity into.old ≤ vec_capacity into.new }
        ensures own { (names : AllNames) → IsOwn names self.old → IsOwn names self.new }
    {
        if !self.is_of(job, tick) {
            return false;
        }
        let end = into.len() + self.len;
        let line = self.line;
        put(into, &line);
        into.truncate(end);
        self.go_on();
        true
    }

    // Adds this line up to its operation, if it is that of this job and tick, and goes on to the next tick: whether it is. Else
    // nothing changes.
    #[inline(always)]
    pub(crate) fn put_front(&mut self, job: JobId, tick: Tick, into: &mut Vec<u8>) -> bool
        requires own { (names : AllNames) × IsOwn names self.old }
        requires room { vec_len into.old + 64 ≤ vec_capacity into.old }
        ensures line { IsTrue result → (names : AllNames) → IsOwn names self.old → into.new.items ≡ into.old.items ++ front_of (job_text names.txns job) tick }
        ensures other { result ≡ false → (into.new.items ≡ into.old.items) × (vec_len into.new ≡ vec_len into.old) }
        ensures fits { (job.serial < 2 ^ 32) × (tick < 2 ^ 64) }
        ensures len { vec_len into.new ≤ vec_len into.old + 55 }
        ensures room { vec_capacity into.old ≤ vec_capacity into.new }
        ensures own { (names : AllNames) → IsOwn names self.old → IsOwn names self.new }
    {
        if !self.is_of(job, tick) {
            return false;
        }
        let end = into.len() + (self.len - COMPUTE);
        let line = self.line;
        put(into, &line);
        into.truncate(end);
        self.go_on();
        true
    }

    // The job and the tick of a step that is not the one that was likely, and what follows them in its line.
    #[inline(always)]
    fn read_fields<'a>(
        &mut self,
        names: &NameTables,
        line: &'a [u8],
    ) -> Option<(JobId, Tick, &'a [u8])>
        requires lacks { Lacks 10 line.now }
        requires next { IsNext names.now self.old }
        ensures value { IfSome result (λ p. step_by names.now p.0 p.1 p.2.now ≡ entry_of names.now line.now) }
        ensures next { IsNext names.now self.new }
    {
        let rest = after(b"step", line)?;
        let (job, more) = next_job(names, rest)?;
        let (tick, more) = next_unsigned(more)?;
        self.note(&rest[..rest.len() - more.len()], job, tick);
        Some((job, tick, more))
    }

    // The job and the tick of a step, and what follows them in its line; None where it is no step's.
    #[inline(always)]
    fn fields<'a>(&mut self, names: &NameTables, line: &'a [u8]) -> Option<(JobId, Tick, &'a [u8])>
        requires lacks { Lacks 10 line.now }
        requires next { IsNext names.now self.old }
        ensures value { IfSome result (λ p. step_by names.now p.0 p.1 p.2.now ≡ entry_of names.now line.now) }
        ensures next { IsNext names.now self.new }
    {
        if let Some(rest) = self.passed(line) {
            let job = self.job;
            let tick = self.tick;
            self.go_on();
            return Some((job, tick, rest));
        }
        self.read_fields(names, line)
    }

    // The entry whose line this is.
    #[inline(always)]
    fn entry(&mut self, names: &NameTables, line: &[u8]) -> Option<Entry>
        requires lacks { Lacks 10 line.now }
        requires next { IsNext names.now self.old }
        ensures value { result ≡ entry_of names.now line.now }
        ensures next { IsNext names.now self.new }
    {
        match self.fields(names, line) {
            Some((job, tick, rest)) => step_after(names, job, tick, rest),
            None => any_entry(names, line),
        }
    }

    /// The Compute whose line is likely, and what follows the line, where a text begins with it: it is then the entry of the
    /// first line. Else nothing changes. It costs one comparison.
    #[inline(always)]
    pub fn likely<'a>(&mut self, text: &'a [u8]) -> Option<(Entry, &'a [u8])>
        requires { (names : AllNames) × IsNext names self.old }
        ensures some { IfSome result (λ p. (names : AllNames) → IsNext names self.old → Some (p.0, p.1.now) ≡ first_entry_of names text.now) }
        ensures compute { IfSome result (λ p. (job : Job) × (tick : ℕ) × (p.0 ≡ Step job Op.Compute Outcome.Computed None tick)) }
        ensures next { (names : AllNames) → IsNext names self.old → IsNext names self.new }
    {
        let rest = self.computed(text)?;
        let entry = Entry::Step {
            job: self.job,
            op: Op::Compute,
            outcome: Outcome::Computed,
            over: None,
            tick: self.tick,
        };
        self.go_on();
        Some((entry, rest))
    }

    /// The entry of the first line of a text, as `read_entry` says, and what follows the line; None where there is no line or it
    /// is no entry's. Of a step of the likely job at the likely tick these cost one comparison.
    #[inline(always)]
    pub fn first_entry<'a>(
        &mut self,
        names: &NameTables,
        text: &'a [u8],
    ) -> Option<(Entry, &'a [u8])>
        requires { IsNext names.now self.old }
        ensures entry { option_map (λ p. (p.0, p.1.now)) result ≡ first_entry_of names.now text.now }
        ensures next { IsNext names.now self.new }
    {
        let (line, more) = cut(b'\n', text)?;
        let entry = self.entry(names, line)?;
        Some((entry, more))
    }
}
