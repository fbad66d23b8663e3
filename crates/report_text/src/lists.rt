//! Lists of items.
ghost use Rattle.std.specs.Prelude.{◌≡◌, ◌^◌, ◌<◌, length, option_map, IfOk};
ghost use Rattle.report_text.specs.Head.{list_of, worded};

use line_fields::{cut, field, next_word};
use name_table::NameTable;
use rt_base::{ItemId, List, OutOfMemory};
use std::alloc::Global;

/// The items of a list: `-`, or names in rising order.
#[tactic(auto, unfolding(crate::specs::Head::list_of))]
pub(crate) fn list(
    alloc: Global,
    items: &NameTable,
    word: &[u8],
) -> Result<Option<List<ItemId>>, OutOfMemory>
    requires { length items.now < 2 ^ 32 }
    ensures { IfOk result (λ o. o ≡ list_of items.now word.now) }
{
    let mut ids = Vec::new(alloc);
    if word == b"-".as_slice() {
        return Ok(Some(List::of(ids)));
    }
    let mut rest = word;
    let mut least = 0;
    while let Some((name, after)) = cut(b',', rest) {
        let Some(at) = items.place(name) else {
            return Ok(None);
        };
        if at < least {
            return Ok(None);
        }
        ids.push(ItemId(at))?;
        least = at + 1;
        rest = after;
    }
    let Some(at) = items.place(rest) else {
        return Ok(None);
    };
    if at < least {
        return Ok(None);
    }
    ids.push(ItemId(at))?;
    Ok(Some(List::of(ids)))
}

/// The word after a word that is given.
#[tactic(auto, unfolding(crate::specs::Head::worded))]
pub(crate) fn word_after<'a>(want: &[u8], rest: &'a [u8]) -> Option<(&'a [u8], &'a [u8])>
    ensures { option_map (λ p. (p.0.now, p.1.now)) result ≡ worded want.now rest.now }
{
    let (_, rest) = next_word(want, rest)?;
    field(rest)
}
