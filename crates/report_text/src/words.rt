//! Words of a line.
ghost use Rattle.std.specs.Prelude.{◌≡◌, option_map};
ghost use Rattle.line_fields.specs.Cuts.{next};
ghost use Rattle.report_text.specs.Head.{fresh_of, version_of, mode_of};

use line_fields::field;
use name_table::NameTable;
use rt_base::Name;

#[tactic(auto, unfolding(crate::specs::Head::fresh_of))]
fn fresh(names: &NameTable, word: &[u8]) -> Option<Name>
    ensures { result ≡ fresh_of names.now word.now }
{
    if names.place(word).is_some() {
        None
    } else {
        Name::new(word)
    }
}

#[tactic(auto, unfolding(line_fields::specs::Cuts::next))]
pub(crate) fn next_fresh<'a>(names: &NameTable, rest: &'a [u8]) -> Option<(Name, &'a [u8])>
    ensures { option_map (λ p. (p.0, p.1.now)) result ≡ next (fresh_of names.now) rest.now }
{
    let (word, rest) = field(rest)?;
    let name = fresh(names, word)?;
    Some((name, rest))
}

#[tactic(auto, unfolding(crate::specs::Head::version_of))]
pub(crate) fn version(line: &[u8]) -> Option<bool>
    ensures { result ≡ version_of line.now }
{
    if line == b"rtdb report 1".as_slice() {
        Some(false)
    } else if line == b"rtdb report 2".as_slice() {
        Some(true)
    } else {
        None
    }
}

#[tactic(auto, unfolding(crate::specs::Head::mode_of))]
fn mode(word: &[u8]) -> Option<bool>
    ensures { result ≡ mode_of word.now }
{
    if word == b"admitted".as_slice() {
        Some(true)
    } else if word == b"trial".as_slice() {
        Some(false)
    } else {
        None
    }
}

#[tactic(auto, unfolding(line_fields::specs::Cuts::next))]
pub(crate) fn next_mode(rest: &[u8]) -> Option<(bool, &[u8])>
    ensures { option_map (λ p. (p.0, p.1.now)) result ≡ next mode_of rest.now }
{
    let (word, rest) = field(rest)?;
    let mode = mode(word)?;
    Some((mode, rest))
}
