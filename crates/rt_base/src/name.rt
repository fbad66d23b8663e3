//! Names of items and transactions.
ghost use Rattle.std.specs.Prelude.{◌≡◌, ◌≤◌, length, IsTrue};
ghost use Rattle.std.specs.List.{list_all};
ghost use Rattle.rt_base.specs.Names.{is_letter as is_letter_byte, is_name_byte as is_byte_of_name, is_name as is_name_text, name_of};

use crate::list::List;
use std::marker::Model;

const MOST: usize = 32;

/// A text of 1 to 32 bytes of `a` to `z`, `0` to `9` and `_` that begins with a letter.
#[derive(Drop)]
pub struct Name {
    bytes: [u8; 32],
    len: usize,
}

impl Model for Name {
    ghost use Rattle.std.specs.Prelude.{ℕ, List, take, length};
    ghost use Rattle.std.specs.Coded.{coded_list, coded_ℕ};
    ghost use Rattle.rt_base.specs.Names.{padded, IsPadded};

    ghost Value = { List ℕ };

    ghost coded = { coded_list coded_ℕ };

    ghost use Rattle.rt_base.specs.NameInside.{same_inside};

    ghost view = { λ n. take n.len n.bytes };

    ghost invariant = { λ n. IsPadded n.len n.bytes };

    ghost inverse = { λ d. record { bytes = padded d; len = length d } };

    ghost inverse_ok = { λ n h. same_inside n h };
}

impl Clone for Name {
    fn clone(&self) -> Result<Name, std::alloc::AllocError> {
        Ok(*self)
    }
}

impl Copy for Name {}

impl Name {
    /// The name that the bytes are. None exactly where they are none. It takes no memory.
    pub fn new(bytes: &[u8]) -> Option<Name>
        ensures { result ≡ name_of bytes.now }
    {
        if !is_name(bytes) {
            return None;
        }
        let len = bytes.len();
        let mut padded = [0; 32];
        padded[..len].copy_from_slice(bytes);
        Some(Name { bytes: padded, len })
    }

    /// The name's bytes.
    pub fn as_slice(&self) -> &[u8]
        ensures bytes { result.now ≡ self.now }
        ensures name { IsTrue (is_name_text self.now) }
        ensures short { length result.now ≤ 32 }
    {
        &self.bytes[..self.len]
    }
}

fn is_letter(byte: u8) -> bool
    ensures { result ≡ is_letter_byte byte }
{
    b'a' <= byte && byte <= b'z'
}

fn is_name_byte(byte: u8) -> bool
    ensures { result ≡ is_byte_of_name byte }
{
    is_letter(byte) || (b'0' <= byte && byte <= b'9') || byte == b'_'
}

fn all_name_bytes(bytes: &[u8]) -> bool
    ensures { result ≡ list_all is_byte_of_name bytes.now }
{
    bytes.iter().all(|b| is_name_byte(*b))
}

fn is_name(bytes: &[u8]) -> bool
    ensures { result ≡ is_name_text bytes.now }
{
    match bytes {
        [] => false,
        [first, rest @ ..] => is_letter(*first) && rest.len() < MOST && all_name_bytes(rest),
    }
}

/// The names of items and of transactions, by their places.
#[derive(Drop)]
pub struct Names {
    pub items: List<Name>,
    pub txns: List<Name>,
}
