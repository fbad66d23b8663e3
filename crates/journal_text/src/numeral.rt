//! Numbers with their digits.
ghost use Rattle.std.specs.Prelude.{◌≡◌, ◌+◌, ◌≤◌, ◌++◌, length, decimal, vec_len, vec_capacity};

use crate::writing::put;
use itoa::Buffer;
use std::marker::Model;

/// A number, and its decimal digits, kept to be written again.
#[derive(Drop)]
pub struct Numeral {
    number: u64,
    digits: [u8; 32],
    len: usize,
}

impl Model for Numeral {
    ghost use Rattle.std.specs.Prelude.{ℕ, length, decimal};
    ghost use Rattle.std.specs.Coded.{coded_ℕ};
    ghost use Rattle.journal_text.specs.Numerals.{placed, AreDigits};

    ghost Value = { ℕ };

    ghost coded = { coded_ℕ };

    ghost use Rattle.journal_text.specs.NumeralInside.{same_inside};

    ghost view = { λ n. n.number };

    ghost invariant = { λ n. AreDigits n.number n.digits n.len };

    ghost inverse = { λ n. record { number = n; digits = placed n; len = length (decimal n) } };

    ghost inverse_ok = { λ n h. same_inside n h };
}

impl Clone for Numeral {
    fn clone(&self) -> Result<Numeral, std::alloc::AllocError> {
        Ok(*self)
    }
}

impl Copy for Numeral {}

impl Numeral {
    /// The numeral of a number.
    pub fn of(number: u64) -> Numeral
        ensures { result ≡ number }
    {
        let mut buffer = Buffer::new();
        let text = buffer.format(number).as_bytes();
        let len = text.len();
        let mut digits = [0; 32];
        digits[..len].copy_from_slice(text);
        Numeral {
            number,
            digits,
            len,
        }
    }

    /// Goes on to a number. Where it is the next one and the last digit is not 9, that digit alone changes.
    #[inline(always)]
    pub fn go_to(&mut self, number: u64)
        ensures { self.new ≡ number }
    {
        if number == self.number {
            return;
        }
        let last = self.len - 1;
        if self.number < number && number - self.number == 1 && self.digits[last] < b'9' {
            self.digits[last] += 1;
            self.number = number;
        } else {
            self.make(number);
        }
    }

    // Apart, so that nothing of it is made where the digits are there. Where only the last two digits change, these alone are
    // made.
    #[inline(never)]
    fn make(&mut self, number: u64)
        ensures { self.new ≡ number }
    {
        if 10 <= number && 10 <= self.number && number / 100 == self.number / 100 {
            let last = self.len - 1;
            self.digits[last - 1] = b'0' + (number / 10 % 10) as u8;
            self.digits[last] = b'0' + (number % 10) as u8;
            self.number = number;
        } else {
            *self = Numeral::of(number);
        }
    }

    /// Adds the digits to text: all places by one copy, of which those after the digits are taken off again.
    #[inline(always)]
    pub fn put(&self, into: &mut Vec<u8>)
        requires { vec_len into.old + 32 ≤ vec_capacity into.old }
        ensures items { into.new.items ≡ into.old.items ++ decimal self.now }
        ensures len { vec_len into.new ≡ vec_len into.old + length (decimal self.now) }
        ensures room { vec_capacity into.old ≤ vec_capacity into.new }
    {
        let end = into.len() + self.len;
        let digits = self.digits;
        put(into, &digits);
        into.truncate(end);
    }
}
