//! The bytes of a record.
ghost use Rattle.std.specs.Prelude.{◌≡◌, ◌-◌, ◌++◌, replicate, ◌<◌, ◌≤◌, length, option_map, IfSome};
ghost use Rattle.std.specs.List.{list_all};
ghost use Rattle.durable_journal.specs.Format.{IsText, body_of as body_of_text, is_zero, text_behind, text_of as text_of_body};

use durable_disk::BODY;

// A text, and zeros behind it.
fn filled(line: &[u8]) -> [u8; 254]
    requires { length line.now ≤ 254 }
    ensures { result ≡ line.now ++ replicate (254 - length line.now) 0 }
{
    let mut rest = [0; 254];
    rest[..line.len()].copy_from_slice(line);
    rest
}

/// The body of the record of a text.
pub fn body_of(line: &[u8]) -> [u8; BODY]
    requires { IsText line.now }
    ensures { result ≡ body_of_text line.now }
{
    let rest = filled(line);
    let mut body = [0; BODY];
    body[0] = line.len() as u8;
    body[1..].copy_from_slice(&rest);
    body
}

fn are_zeros(bytes: &[u8]) -> bool
    ensures { result ≡ list_all is_zero bytes.now }
{
    bytes.iter().all(|b| *b == 0)
}

fn text_in(len: usize, rest: &[u8]) -> Option<&[u8]>
    requires { length rest.now ≡ 254 }
    ensures text { option_map (λ t. t.now) result ≡ text_behind len rest.now }
    ensures fits { IfSome result (λ t. IsText t.now) }
{
    if len > 0 && len <= 254 && are_zeros(&rest[len..]) {
        Some(&rest[..len])
    } else {
        None
    }
}

/// The text of a record's body; None where it is none.
pub fn text_of(body: &[u8]) -> Option<&[u8]>
    requires { length body.now ≡ 255 }
    ensures text { option_map (λ t. t.now) result ≡ text_of_body body.now }
    ensures fits { IfSome result (λ t. IsText t.now) }
{
    let (len, rest) = body.split_first()?;
    text_in(*len as usize, rest)
}
