//! Why a text is no JSON.
use json::is_number;
use rt_base::OutOfMemory;
use serde_json::{Error, Value};
use std::alloc::Global;

const DEEPEST: usize = 127;

/// The byte at which the reading of a text ends, and why.
#[derive(Clone, Copy)]
pub struct JsonFault {
    /// The byte, from 0 on.
    pub at: usize,
    /// What is wanted there, in words.
    pub reason: &'static [u8],
}

// What stands before a byte of the text.
#[derive(Clone, Copy, Debug, PartialEq, Eq)]
enum Before {
    Nothing,
    Opened,
    Comma,
    Colon,
    Key,
    Value,
}

// What is known after some bytes of the text.
#[derive(Drop)]
struct Context {
    // the brackets that are not closed
    open: Vec<u8>,
    before: Before,
    in_text: bool,
    escaped: bool,
}

impl Context {
    fn is_in_object(&self) -> bool {
        match self.open.last() {
            Some(bracket) => *bracket == b'{',
            None => false,
        }
    }

    fn is_key(&self) -> bool {
        self.is_in_object() && (self.before == Before::Opened || self.before == Before::Comma)
    }

    fn step_in_text(&mut self, byte: u8) {
        if self.escaped {
            self.escaped = false;
        } else if byte == b'\\' {
            self.escaped = true;
        } else if byte == b'"' {
            self.in_text = false;
        }
    }

    fn step(&mut self, byte: u8) -> Result<(), OutOfMemory> {
        match byte {
            b'"' => {
                self.before = if self.is_key() {
                    Before::Key
                } else {
                    Before::Value
                };
                self.in_text = true;
            }
            b'{' | b'[' => {
                self.open.push(byte)?;
                self.before = Before::Opened;
            }
            b'}' | b']' => {
                let _closed = self.open.pop();
                self.before = Before::Value;
            }
            b',' => self.before = Before::Comma,
            b':' => self.before = Before::Colon,
            b' ' | b'\t' | b'\n' | b'\r' => {}
            _ => self.before = Before::Value,
        }
        Ok(())
    }
}

fn context_before(alloc: Global, text: &[u8], at: usize) -> Result<Context, OutOfMemory> {
    let mut known = Context {
        open: Vec::new(alloc),
        before: Before::Nothing,
        in_text: false,
        escaped: false,
    };
    for (i, byte) in text.iter().enumerate() {
        if i >= at {
            break;
        }
        if known.in_text {
            known.step_in_text(*byte);
        } else {
            known.step(*byte)?;
        }
    }
    Ok(known)
}

// What is wanted behind what stands before.
fn expected(context: &Context) -> &'static [u8] {
    let in_object = context.is_in_object();
    let in_array = !context.open.is_empty() && !in_object;
    match context.before {
        Before::Nothing | Before::Colon => b"a value is wanted",
        Before::Key => b"a colon is wanted",
        Before::Opened => {
            if in_object {
                b"the name of a member in double quotes, or } is wanted"
            } else {
                b"a value or ] is wanted"
            }
        }
        Before::Comma => {
            if in_object {
                b"the name of a member in double quotes is wanted"
            } else {
                b"a value is wanted"
            }
        }
        Before::Value => {
            if in_object {
                b"a comma or } is wanted"
            } else if in_array {
                b"a comma or ] is wanted"
            } else {
                b"the end of the text is wanted"
            }
        }
    }
}

fn reason_at_end(context: &Context) -> &'static [u8] {
    if context.in_text {
        b"the text ends within a text"
    } else if context.open.is_empty() {
        b"the text ends, and a value is wanted"
    } else {
        b"the text ends, and a bracket is not closed"
    }
}

fn wants_value(context: &Context) -> bool {
    match context.before {
        Before::Nothing | Before::Colon => true,
        Before::Opened | Before::Comma => !context.is_in_object(),
        Before::Key | Before::Value => false,
    }
}

fn reason_of(context: &Context, byte: u8) -> &'static [u8] {
    match byte {
        b'/' | b'#' => b"JSON has no comments",
        b'\'' => b"a text stands in double quotes",
        b'}' | b']' if context.before == Before::Comma => b"a comma stands before the bracket",
        b'"' if wants_value(context) || context.is_key() => {
            b"a text has a bad escape, or a control character, or no end"
        }
        b'-' | b'0'..=b'9' if wants_value(context) => { b"the number is not of JSON's form" }
        _ => expected(context),
    }
}

// The byte at a line and a column, both from 1 on.
fn byte_at(text: &[u8], line: usize, column: usize) -> usize {
    let mut row = 1usize;
    let mut start = 0;
    for (i, byte) in text.iter().enumerate() {
        if row >= line {
            break;
        }
        if *byte == b'\n' {
            row = row.saturating_add(1);
            start = i.saturating_add(1);
        }
    }
    start.saturating_add(column.saturating_sub(1))
}

// Where the reading ends. At the end of the text the column is that of the last byte.
fn place_of(text: &[u8], error: &Error) -> usize {
    if error.is_eof() {
        text.len()
    } else {
        byte_at(text, error.line(), error.column())
    }
}

fn is_of_number(byte: Option<&u8>) -> bool {
    match byte {
        Some(b'0'..=b'9' | b'+' | b'-' | b'.' | b'e' | b'E') => true,
        _ => false,
    }
}

// The part of the text around a byte that may be a number.
fn number_at(text: &[u8], at: usize) -> (usize, usize) {
    let (mut start, mut end) = (at, at);
    for i in (0..at).rev() {
        if !is_of_number(text.get(i)) {
            break;
        }
        start = i;
    }
    for i in at..text.len() {
        if !is_of_number(text.get(i)) {
            break;
        }
        end = i.saturating_add(1);
    }
    (start, end)
}

// The first byte of the number at a byte, or that ends before it, if it is too great.
fn too_great(alloc: Global, text: &[u8], at: usize) -> Result<Option<usize>, OutOfMemory> {
    let (start, end) = number_at(text, at);
    let number = std::str::from_utf8(text.get(start..end).unwrap_or(&[])).unwrap_or("");
    if !is_number(number) {
        return Ok(None);
    }
    match Value::from_str(alloc, number) {
        Ok(_) => Ok(None),
        Err(error) => {
            if error.is_memory() {
                Err(OutOfMemory)
            } else {
                Ok(Some(start))
            }
        }
    }
}

fn fault_of(alloc: Global, text: &[u8], error: &Error) -> Result<JsonFault, OutOfMemory> {
    if let [0xef, 0xbb, 0xbf, ..] = text {
        return Ok(JsonFault {
            at: 0,
            reason: b"a byte order mark is no part of JSON",
        });
    }
    let at = place_of(text, error);
    if std::str::from_utf8(text).is_err() {
        return Ok(JsonFault {
            at,
            reason: b"the bytes are no UTF-8",
        });
    }
    if let Some(start) = too_great(alloc, text, at)? {
        return Ok(JsonFault {
            at: start,
            reason: b"the number is too great",
        });
    }
    let context = context_before(alloc, text, at)?;
    if context.open.len() > DEEPEST {
        return Ok(JsonFault {
            at: at.saturating_sub(1),
            reason: b"the text is nested deeper than 127",
        });
    }
    let reason = match text.get(at) {
        Some(byte) => reason_of(&context, *byte),
        None => reason_at_end(&context),
    };
    Ok(JsonFault { at, reason })
}

/// Where and why a text is no JSON.
pub fn json_fault(alloc: Global, text: &[u8]) -> Result<JsonFault, OutOfMemory> {
    match Value::from_slice(alloc, text) {
        Ok(_) => Ok(JsonFault { at: 0, reason: b"" }),
        Err(error) => {
            if error.is_memory() {
                return Err(OutOfMemory);
            }
            fault_of(alloc, text, &error)
        }
    }
}
