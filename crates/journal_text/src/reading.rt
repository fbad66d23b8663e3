//! From lines to entries.
ghost use Rattle.std.specs.Prelude.{◌≡◌, ◌≤◌, ◌++◌, option_map, IfSome, IsTrue, length, drop};
ghost use Rattle.line_fields.specs.Cuts.{next, Ends};
ghost use Rattle.rt_base.specs.Names.{AreNames};
ghost use Rattle.journal_text.specs.Lines.{entry_line, HasLine, IsEntryOf, IsWritable};
ghost use Rattle.journal_text.specs.Next.{step_by};
ghost use Rattle.journal_text.specs.Reading.{read_of, write_of, op_form, op_of, stamp_of, got_of, outcome_of, stale_of, apart_of, end_form, end_of, over_of, plan_of, answers_of, step_of, block_of, idle_of, form_of, entry_of};

use crate::ids::{next_item, next_job, next_tx};
use line_fields::{
    done, field, is_word, next_short, next_signed, next_unsigned, next_word, unsigned, word,
};
use name_table::NameTables;
use rt_base::{End, JobId, Op, Outcome, Tick};
use step_journal::Entry;

// Whether a word ends after so many bytes.
#[inline(always)]
fn ends_at(bytes: &[u8], len: usize) -> bool
    requires { len ≤ length bytes.now }
    ensures { IsTrue result → Ends (drop len bytes.now) }
{
    len == bytes.len() || bytes[len] == b' '
}

// What follows these bytes at the front, where a word ends with them.
#[inline(always)]
pub(crate) fn after<'a>(want: &[u8], bytes: &'a [u8]) -> Option<&'a [u8]>
    ensures { IfSome result (λ rest. (bytes.now ≡ want.now ++ rest.now) × Ends rest.now) }
{
    let len = want.len();
    if len <= bytes.len() && is_word(want, &bytes[..len]) && ends_at(bytes, len) {
        Some(&bytes[len..])
    } else {
        None
    }
}

#[inline(always)]
#[tactic(auto, unfolding(crate::specs::Reading::read_of))]
fn read<'a>(names: &NameTables, rest: &'a [u8]) -> Option<(Op, &'a [u8])>
    ensures { option_map (λ p. (p.0, p.1.now)) result ≡ read_of names.now rest.now }
{
    let (item, rest) = next_item(names, rest)?;
    Some((Op::Read(item), rest))
}

#[inline(always)]
#[tactic(auto, unfolding(crate::specs::Reading::write_of))]
fn write<'a>(names: &NameTables, rest: &'a [u8]) -> Option<(Op, &'a [u8])>
    ensures { option_map (λ p. (p.0, p.1.now)) result ≡ write_of names.now rest.now }
{
    let (item, rest) = next_item(names, rest)?;
    let (value, rest) = next_signed(rest)?;
    Some((Op::Write(item, value), rest))
}

#[inline(always)]
#[tactic(auto, unfolding(crate::specs::Reading::op_form))]
fn op_after<'a>(names: &NameTables, word: &[u8], rest: &'a [u8]) -> Option<(Op, &'a [u8])>
    ensures { option_map (λ p. (p.0, p.1.now)) result ≡ op_form names.now word.now rest.now }
{
    if is_word(b"read", word) {
        read(names, rest)
    } else if is_word(b"write", word) {
        write(names, rest)
    } else if is_word(b"compute", word) {
        Some((Op::Compute, rest))
    } else if is_word(b"commit", word) {
        Some((Op::Commit, rest))
    } else if is_word(b"quit", word) {
        Some((Op::Quit, rest))
    } else {
        None
    }
}

#[inline(never)]
#[tactic(auto, unfolding(crate::specs::Reading::op_of))]
fn any_op<'a>(names: &NameTables, rest: &'a [u8]) -> Option<(Op, &'a [u8])>
    ensures { option_map (λ p. (p.0, p.1.now)) result ≡ op_of names.now rest.now }
{
    let (word, rest) = field(rest)?;
    op_after(names, word, rest)
}

// The operations that take a lock are looked for first.
#[inline(always)]
fn op<'a>(names: &NameTables, rest: &'a [u8]) -> Option<(Op, &'a [u8])>
    ensures { option_map (λ p. (p.0, p.1.now)) result ≡ op_of names.now rest.now }
{
    if let Some(rest) = after(b" write", rest) {
        return write(names, rest);
    }
    if let Some(rest) = after(b" read", rest) {
        return read(names, rest);
    }
    any_op(names, rest)
}

#[tactic(auto, unfolding(crate::specs::Reading::stamp_of))]
fn stamp(word: &[u8]) -> Option<Option<u64>>
    ensures { result ≡ stamp_of word.now }
{
    if is_word(b"own", word) {
        Some(None)
    } else {
        Some(Some(unsigned(word)?))
    }
}

#[inline(never)]
#[tactic(auto, unfolding(line_fields::specs::Cuts::next))]
fn any_stamp(rest: &[u8]) -> Option<(Option<u64>, &[u8])>
    ensures { option_map (λ p. (p.0, p.1.now)) result ≡ next stamp_of rest.now }
{
    let (word, rest) = field(rest)?;
    let stamp = stamp(word)?;
    Some((stamp, rest))
}

// Most stamps are numbers.
#[inline(always)]
fn next_stamp(rest: &[u8]) -> Option<(Option<u64>, &[u8])>
    ensures { option_map (λ p. (p.0, p.1.now)) result ≡ next stamp_of rest.now }
{
    if let Some((stamp, rest)) = next_unsigned(rest) {
        return Some((Some(stamp), rest));
    }
    any_stamp(rest)
}

#[inline(always)]
#[tactic(auto, unfolding(crate::specs::Reading::got_of))]
fn got(rest: &[u8]) -> Option<(Outcome, &[u8])>
    ensures { option_map (λ p. (p.0, p.1.now)) result ≡ got_of rest.now }
{
    let (value, rest) = next_signed(rest)?;
    let (stamp, rest) = next_stamp(rest)?;
    Some((Outcome::Got { value, stamp }, rest))
}

#[inline(always)]
#[tactic(auto, unfolding(crate::specs::Reading::outcome_of))]
fn outcome(op: Op, rest: &[u8]) -> Option<(Outcome, &[u8])>
    ensures { option_map (λ p. (p.0, p.1.now)) result ≡ outcome_of op rest.now }
{
    match op {
        Op::Read(_) => got(rest),
        Op::Write(_, _) => Some((Outcome::Put, rest)),
        Op::Compute => Some((Outcome::Computed, rest)),
        Op::Commit => Some((Outcome::Closed, rest)),
        Op::Quit => Some((Outcome::Closed, rest)),
    }
}

#[tactic(auto, unfolding(crate::specs::Reading::stale_of))]
fn stale<'a>(names: &NameTables, rest: &'a [u8]) -> Option<(End, &'a [u8])>
    ensures { option_map (λ p. (p.0, p.1.now)) result ≡ stale_of names.now rest.now }
{
    let (item, rest) = next_item(names, rest)?;
    let (stamp, rest) = next_unsigned(rest)?;
    Some((End::Stale { item, stamp }, rest))
}

#[tactic(auto, unfolding(crate::specs::Reading::apart_of))]
fn apart<'a>(names: &NameTables, rest: &'a [u8]) -> Option<(End, &'a [u8])>
    ensures { option_map (λ p. (p.0, p.1.now)) result ≡ apart_of names.now rest.now }
{
    let (a, rest) = next_item(names, rest)?;
    let (b, rest) = next_item(names, rest)?;
    Some((End::Apart { a, b }, rest))
}

#[tactic(auto, unfolding(crate::specs::Reading::end_form))]
fn end_after<'a>(names: &NameTables, word: &[u8], rest: &'a [u8]) -> Option<(End, &'a [u8])>
    ensures { option_map (λ p. (p.0, p.1.now)) result ≡ end_form names.now word.now rest.now }
{
    if is_word(b"committed", word) {
        Some((End::Committed, rest))
    } else if is_word(b"overrun", word) {
        Some((End::Overrun, rest))
    } else if is_word(b"late", word) {
        Some((End::Late, rest))
    } else if is_word(b"stale", word) {
        stale(names, rest)
    } else if is_word(b"apart", word) {
        apart(names, rest)
    } else if is_word(b"quit", word) {
        Some((End::Quit, rest))
    } else {
        None
    }
}

#[inline(never)]
#[tactic(auto, unfolding(crate::specs::Reading::end_of))]
fn any_end<'a>(names: &NameTables, rest: &'a [u8]) -> Option<(End, &'a [u8])>
    ensures { option_map (λ p. (p.0, p.1.now)) result ≡ end_of names.now rest.now }
{
    let (word, rest) = field(rest)?;
    end_after(names, word, rest)
}

/// The end that the next fields are.
#[inline(always)]
pub fn next_end<'a>(names: &NameTables, rest: &'a [u8]) -> Option<(End, &'a [u8])>
    ensures { option_map (λ p. (p.0, p.1.now)) result ≡ end_of names.now rest.now }
{
    if let Some(rest) = after(b" committed", rest) {
        return Some((End::Committed, rest));
    }
    any_end(names, rest)
}

#[inline(never)]
#[tactic(auto, unfolding(crate::specs::Reading::over_of))]
fn some_over(names: &NameTables, rest: &[u8]) -> Option<Option<End>>
    ensures { result ≡ over_of names.now rest.now }
{
    match rest {
        [] => Some(None),
        _ => {
            let (_, rest) = next_word(b"end", rest)?;
            let (end, rest) = next_end(names, rest)?;
            done(rest)?;
            Some(Some(end))
        }
    }
}

// Most steps end no job, and most of the others end one that is committed.
#[inline(always)]
#[tactic(auto, unfolding(crate::specs::Reading::over_of))]
fn over(names: &NameTables, rest: &[u8]) -> Option<Option<End>>
    ensures { result ≡ over_of names.now rest.now }
{
    match rest {
        [] => Some(None),
        _ if is_word(b" end committed", rest) => Some(Some(End::Committed)),
        _ => some_over(names, rest),
    }
}

#[inline(always)]
#[tactic(auto, unfolding(crate::specs::Reading::plan_of))]
fn plan(names: &NameTables, rest: &[u8]) -> Option<Entry>
    ensures { result ≡ plan_of names.now rest.now }
{
    let (tx, rest) = next_tx(names, rest)?;
    let (tick, rest) = next_unsigned(rest)?;
    done(rest)?;
    Some(Entry::Planned { tx, tick })
}

// What follows ` read`.
#[inline(always)]
#[tactic(auto, unfolding(crate::specs::Reading::read_of, crate::specs::Reading::outcome_of))]
fn answered_read<'a>(names: &NameTables, rest: &'a [u8]) -> Option<((Op, Outcome), &'a [u8])>
    ensures { option_map (λ p. (p.0, p.1.now)) result ≡ answers_of (read_of names.now rest.now) }
{
    let (item, rest) = next_item(names, rest)?;
    let (outcome, rest) = got(rest)?;
    Some(((Op::Read(item), outcome), rest))
}

// What follows ` write`.
#[inline(always)]
#[tactic(auto, unfolding(crate::specs::Reading::write_of, crate::specs::Reading::outcome_of))]
fn answered_write<'a>(names: &NameTables, rest: &'a [u8]) -> Option<((Op, Outcome), &'a [u8])>
    ensures { option_map (λ p. (p.0, p.1.now)) result ≡ answers_of (write_of names.now rest.now) }
{
    let (item, rest) = next_item(names, rest)?;
    let (value, rest) = next_signed(rest)?;
    Some(((Op::Write(item, value), Outcome::Put), rest))
}

#[inline(never)]
fn any_answered<'a>(names: &NameTables, rest: &'a [u8]) -> Option<((Op, Outcome), &'a [u8])>
    ensures { option_map (λ p. (p.0, p.1.now)) result ≡ answers_of (op_of names.now rest.now) }
{
    let (op, rest) = any_op(names, rest)?;
    let (outcome, rest) = outcome(op, rest)?;
    Some(((op, outcome), rest))
}

// An operation and its outcome. The words of most operations are compared where they stand.
#[inline(always)]
fn answered<'a>(names: &NameTables, rest: &'a [u8]) -> Option<((Op, Outcome), &'a [u8])>
    ensures { option_map (λ p. (p.0, p.1.now)) result ≡ answers_of (op_of names.now rest.now) }
{
    if let Some(rest) = after(b" compute", rest) {
        return Some(((Op::Compute, Outcome::Computed), rest));
    }
    if let Some(rest) = after(b" write", rest) {
        return answered_write(names, rest);
    }
    if let Some(rest) = after(b" read", rest) {
        return answered_read(names, rest);
    }
    if let Some(rest) = after(b" commit", rest) {
        return Some(((Op::Commit, Outcome::Closed), rest));
    }
    any_answered(names, rest)
}

// The step of a job at a tick, of what follows them in its line.
#[inline(always)]
#[tactic(auto, unfolding(crate::specs::Next::step_by))]
pub(crate) fn step_after(names: &NameTables, job: JobId, tick: Tick, rest: &[u8]) -> Option<Entry>
    ensures { result ≡ step_by names.now job tick rest.now }
{
    let ((op, outcome), rest) = answered(names, rest)?;
    let over = over(names, rest)?;
    Some(Entry::Step {
        job,
        op,
        outcome,
        over,
        tick,
    })
}

#[inline(always)]
#[tactic(auto, unfolding(crate::specs::Reading::step_of, crate::specs::Next::step_by))]
fn step(names: &NameTables, rest: &[u8]) -> Option<Entry>
    ensures { result ≡ step_of names.now rest.now }
{
    let (job, rest) = next_job(names, rest)?;
    let (tick, rest) = next_unsigned(rest)?;
    step_after(names, job, tick, rest)
}

#[inline(always)]
#[tactic(auto, unfolding(crate::specs::Reading::block_of))]
fn block(names: &NameTables, rest: &[u8]) -> Option<Entry>
    ensures { result ≡ block_of names.now rest.now }
{
    let (job, rest) = next_job(names, rest)?;
    let (tick, rest) = next_unsigned(rest)?;
    let (op, rest) = op(names, rest)?;
    let (_, rest) = next_word(b"by", rest)?;
    let (by, rest) = next_job(names, rest)?;
    let (ceiling, rest) = next_short(rest)?;
    done(rest)?;
    Some(Entry::Blocked {
        job,
        op,
        by,
        ceiling,
        tick,
    })
}

#[inline(always)]
#[tactic(auto, unfolding(crate::specs::Reading::idle_of))]
fn idle(rest: &[u8]) -> Option<Entry>
    ensures { result ≡ idle_of rest.now }
{
    let (from, rest) = next_unsigned(rest)?;
    let (to, rest) = next_unsigned(rest)?;
    done(rest)?;
    Some(Entry::Idle { from, to })
}

#[inline(never)]
#[tactic(auto, unfolding(crate::specs::Reading::form_of))]
fn form(names: &NameTables, word: &[u8], rest: &[u8]) -> Option<Entry>
    ensures { result ≡ form_of names.now word.now rest.now }
{
    if is_word(b"plan", word) {
        plan(names, rest)
    } else if is_word(b"step", word) {
        step(names, rest)
    } else if is_word(b"block", word) {
        block(names, rest)
    } else if is_word(b"idle", word) {
        idle(rest)
    } else {
        None
    }
}

#[inline(never)]
pub(crate) fn any_entry(names: &NameTables, line: &[u8]) -> Option<Entry>
    ensures { result ≡ entry_of names.now line.now }
{
    if let Some(rest) = after(b"plan", line) {
        return plan(names, rest);
    }
    if let Some(rest) = after(b"block", line) {
        return block(names, rest);
    }
    let (word, rest) = word(line);
    form(names, word, rest)
}

// Most lines are those of steps, whose word is not looked for.
#[inline(always)]
fn entry_in(names: &NameTables, line: &[u8]) -> Option<Entry>
    ensures { result ≡ entry_of names.now line.now }
{
    match after(b"step", line) {
        Some(rest) => step(names, rest),
        None => any_entry(names, line),
    }
}

/// The entry whose line this is, without its line end. Over names that are names and differ: Some exactly where the line
/// is an entry's, and then with that entry. It takes no memory, and a look-up in a hash map for each name.
pub fn read_entry(names: &NameTables, line: &[u8]) -> Option<Entry>
    ensures value { result ≡ entry_of names.now line.now }
    ensures taken { IfSome result (λ e. HasLine names.now e × (entry_line names.now e ≡ line.now)) }
    ensures writable { IfSome result (λ e. IsWritable names.now e) }
    ensures exact { AreNames names.now.items → AreNames names.now.txns → IsEntryOf names.now line.now result }
{
    entry_in(names, line)
}
