//! Names and jobs as fields.
ghost use Rattle.std.specs.Prelude.{◌≡◌, ◌++◌, ◌∷◌, Some, option_map, IfSome};
ghost use Rattle.line_fields.specs.Cuts.{next, Lacks};
ghost use Rattle.journal_text.specs.Ids.{tx_of, item_of, job_of};

use line_fields::{at_front, cut_word, field, short};
use name_table::NameTables;
use rt_base::{ItemId, JobId, TxId};

/// The transaction that a word names, by one look-up in a hash map.
#[inline(always)]
#[tactic(auto, unfolding(crate::specs::Ids::tx_of))]
pub fn tx(names: &NameTables, word: &[u8]) -> Option<TxId>
    ensures { result ≡ tx_of names.now.txns word.now }
{
    Some(TxId(names.txn(word)?))
}

/// The item that a word names, by one look-up in a hash map.
#[inline(always)]
#[tactic(auto, unfolding(crate::specs::Ids::item_of))]
pub fn item(names: &NameTables, word: &[u8]) -> Option<ItemId>
    ensures { result ≡ item_of names.now.items word.now }
{
    Some(ItemId(names.item(word)?))
}

/// The job that a word names, as `TXN/SERIAL`, by one look-up in a hash map.
#[inline(always)]
#[tactic(auto, unfolding(crate::specs::Ids::job_of))]
pub fn job(names: &NameTables, word: &[u8]) -> Option<JobId>
    ensures { result ≡ job_of names.now.txns word.now }
{
    let (name, serial) = cut_word(b'/', word)?;
    let tx = tx(names, name)?;
    let serial = short(serial)?;
    Some(JobId { tx, serial })
}

// What stands before the first `/`, and after it. None where there is none, or a blank before it.
#[inline(always)]
fn to_slash(bytes: &[u8]) -> Option<(&[u8], &[u8])>
    ensures { IfSome result (λ p. (bytes.now ≡ p.0.now ++ 47 ∷ p.1.now) × (Lacks 47 p.0.now × Lacks 32 p.0.now)) }
{
    for i in 0..bytes.len() {
        let byte = bytes[i];
        if byte == b'/' {
            return Some((&bytes[..i], &bytes[i + 1..]));
        }
        if byte == b' ' {
            return None;
        }
    }
    None
}

// What stands after a blank at the front.
#[inline(always)]
fn after_blank(bytes: &[u8]) -> Option<&[u8]>
    ensures { IfSome result (λ rest. bytes.now ≡ 32 ∷ rest.now) }
{
    match bytes {
        [b' ', rest @ ..] => Some(rest),
        _ => None,
    }
}

// The job in the next field, in one pass. None where it is not one, or its serial could be too large.
#[inline(always)]
fn job_at_front<'a>(names: &NameTables, bytes: &'a [u8]) -> Option<(JobId, &'a [u8])>
    ensures { IfSome result (λ p. Some (p.0, p.1.now) ≡ next (job_of names.now.txns) bytes.now) }
{
    let front = after_blank(bytes)?;
    let (name, after) = to_slash(front)?;
    let (serial, rest) = at_front(after)?;
    if serial >= 1 << 32 {
        return None;
    }
    let tx = tx(names, name)?;
    Some((
        JobId {
            tx,
            serial: serial as u32,
        },
        rest,
    ))
}

/// The transaction that the next field names, and the rest, by one look-up in a hash map.
#[inline(always)]
#[tactic(auto, unfolding(line_fields::specs::Cuts::next))]
pub fn next_tx<'a>(names: &NameTables, bytes: &'a [u8]) -> Option<(TxId, &'a [u8])>
    ensures { option_map (λ p. (p.0, p.1.now)) result ≡ next (tx_of names.now.txns) bytes.now }
{
    let (word, rest) = field(bytes)?;
    let tx = tx(names, word)?;
    Some((tx, rest))
}

/// The item that the next field names, and the rest, by one look-up in a hash map.
#[inline(always)]
#[tactic(auto, unfolding(line_fields::specs::Cuts::next))]
pub fn next_item<'a>(names: &NameTables, bytes: &'a [u8]) -> Option<(ItemId, &'a [u8])>
    ensures { option_map (λ p. (p.0, p.1.now)) result ≡ next (item_of names.now.items) bytes.now }
{
    let (word, rest) = field(bytes)?;
    let item = item(names, word)?;
    Some((item, rest))
}

/// The job that the next field names, and the rest, by one look-up in a hash map.
#[inline(always)]
#[tactic(auto, unfolding(line_fields::specs::Cuts::next))]
pub fn next_job<'a>(names: &NameTables, bytes: &'a [u8]) -> Option<(JobId, &'a [u8])>
    ensures { option_map (λ p. (p.0, p.1.now)) result ≡ next (job_of names.now.txns) bytes.now }
{
    if let Some((job, rest)) = job_at_front(names, bytes) {
        return Some((job, rest));
    }
    let (word, rest) = field(bytes)?;
    let job = job(names, word)?;
    Some((job, rest))
}
