//! The bytes of an entry's record.
ghost use Rattle.std.specs.Prelude.{◌≡◌, ◌-◌, ◌++◌, ◌≤◌, length, replicate};
ghost use Rattle.journal_text.specs.Lines.{IsWritable, entry_line};
ghost use Rattle.durable_journal.specs.Format.{IsText, body_of as body_of_text};
ghost use Rattle.durable_journal.specs.Log.{Fits};

use crate::lines::Lines;
use durable_disk::BODY;
use journal_text::write_entry;
use rt_base::Names;
use step_journal::Entry;

// A text, and zeros behind it.
fn filled(line: &[u8]) -> [u8; 254]
    requires { length line.now ≤ 254 }
    ensures { result ≡ line.now ++ replicate (254 - length line.now) 0 }
{
    let mut rest = [0; 254];
    rest[..line.len()].copy_from_slice(line);
    rest
}

// The body of the record of a text.
fn body_of(line: &[u8]) -> [u8; BODY]
    requires { IsText line.now }
    ensures { result ≡ body_of_text line.now }
{
    let rest = filled(line);
    let mut body = [0; BODY];
    body[0] = line.len() as u8;
    body[1..].copy_from_slice(&rest);
    body
}

/// The body of an entry's record, by way of its line.
pub(crate) fn body_in(lines: &mut Lines, names: &Names, entry: &Entry) -> [u8; BODY]
    requires writable { IsWritable names.now entry.now }
    ensures body { result ≡ body_of_text (entry_line names.now entry.now) }
    ensures fits { Fits names.now entry.now }
{
    lines.line.clear();
    write_entry(names, entry, &mut lines.numerals, &mut lines.line);
    let len = lines.line.len() - 1;
    body_of(&lines.line[..len])
}
