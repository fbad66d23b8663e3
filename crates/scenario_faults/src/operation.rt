//! What is amiss in an operation of a script.
use crate::item_names::ItemNames;
use crate::sheet::Sheet;
use rt_base::OutOfMemory;

const DEEPEST: u32 = 32;

const MOST_STEPS: u64 = 10_000;

/// What an operation is.
#[derive(Clone, Copy)]
pub(crate) enum OpForm {
    Good,
    /// It is no operation.
    None,
    /// Its value is none.
    NoValue,
    /// Its value is nested too deep.
    Deep,
}

impl OpForm {
    fn and(self, other: OpForm) -> OpForm {
        match self {
            OpForm::Good => other,
            _ => self,
        }
    }
}

/// A whole number from 0 on as JSON writes it.
pub(crate) fn natural(number: &str) -> Option<u64> {
    number.parse().ok()
}

/// A whole number as JSON writes it; a zero has no sign.
pub(crate) fn integer(number: &str) -> Option<i64> {
    if number == "-0" {
        None
    } else {
        number.parse().ok()
    }
}

// A member of an object.
#[derive(Clone, Copy)]
struct Entry<'t> {
    key: &'t str,
    value: usize,
}

// The members of an object with at most two, each once with its last value.
#[derive(Clone, Copy)]
enum Entries<'t> {
    None,
    One(Entry<'t>),
    Two(Entry<'t>, Entry<'t>),
    More,
}

impl<'t> Entries<'t> {
    fn and(self, entry: Entry<'t>) -> Entries<'t> {
        match self {
            Entries::None => Entries::One(entry),
            Entries::One(a) => {
                if a.key == entry.key {
                    Entries::One(entry)
                } else {
                    Entries::Two(a, entry)
                }
            }
            Entries::Two(a, b) => {
                if a.key == entry.key {
                    Entries::Two(entry, b)
                } else if b.key == entry.key {
                    Entries::Two(a, entry)
                } else {
                    Entries::More
                }
            }
            Entries::More => Entries::More,
        }
    }

    fn of(sheet: Sheet<'t>, object: usize) -> Entries<'t> {
        let mut entries = Entries::None;
        if !sheet.is_object(object) {
            return entries;
        }
        let mut child = sheet.first(object);
        for _ in 0..sheet.len() {
            let Some(value) = child else { break };
            let key = sheet.key(value);
            entries = entries.and(Entry { key, value });
            child = sheet.next(object, value);
        }
        entries
    }

    // The only member.
    fn only(self) -> Option<Entry<'t>> {
        match self {
            Entries::One(entry) => Some(entry),
            _ => None,
        }
    }

    // The value of one of two members.
    fn of_two(self, key: &str) -> Option<usize> {
        match self {
            Entries::Two(a, b) => {
                if a.key == key {
                    Some(a.value)
                } else if b.key == key {
                    Some(b.value)
                } else {
                    None
                }
            }
            _ => None,
        }
    }
}

// The two elements of an array of two.
fn pair(sheet: Sheet<'_>, array: usize) -> Option<(usize, usize)> {
    if !sheet.is_array(array) {
        return None;
    }
    let first = sheet.first(array)?;
    let second = sheet.next(array, first)?;
    match sheet.next(array, second) {
        None => Some((first, second)),
        Some(_) => None,
    }
}

fn is_op(text: &str) -> bool {
    match text {
        "add" | "sub" | "mul" | "div" | "min" | "max" => true,
        _ => false,
    }
}

/// An operation that is looked at: the names of the items, and the texts in it that are none.
#[derive(Drop)]
pub(crate) struct Looked<'s, 't> {
    pub sheet: Sheet<'t>,
    pub items: &'s ItemNames<'t>,
    pub unknown: Vec<usize>,
}

impl<'s, 't> Looked<'s, 't> {
    fn name(&mut self, node: usize) -> Result<Option<OpForm>, OutOfMemory> {
        let Some(name) = self.sheet.text(node) else {
            return Ok(None);
        };
        if self.items.is_unknown(name) {
            self.unknown.push(node)?;
        }
        Ok(Some(OpForm::Good))
    }

    fn is_plain(&self, node: usize) -> bool {
        if let Some(number) = self.sheet.number(node) {
            return integer(number).is_some();
        }
        match self.sheet.text(node) {
            Some(text) => text == "sample" || text == "serial",
            None => false,
        }
    }

    fn value(&mut self, depth: u32, node: usize) -> Result<OpForm, OutOfMemory> {
        if depth == 0 {
            return Ok(OpForm::Deep);
        }
        if self.is_plain(node) {
            return Ok(OpForm::Good);
        }
        let Some(entry) = Entries::of(self.sheet, node).only() else {
            return Ok(OpForm::NoValue);
        };
        if entry.key == "last" {
            return Ok(self.name(entry.value)?.unwrap_or(OpForm::NoValue));
        }
        match pair(self.sheet, entry.value) {
            Some((a, b)) if is_op(entry.key) => {
                let first = self.value(depth - 1, a)?;
                let second = self.value(depth - 1, b)?;
                Ok(first.and(second))
            }
            _ => Ok(OpForm::NoValue),
        }
    }

    fn write(&mut self, item: usize, value: usize) -> Result<OpForm, OutOfMemory> {
        match self.name(item)? {
            Some(_) => self.value(DEEPEST, value),
            None => Ok(OpForm::None),
        }
    }

    // An operation of one member.
    fn single(&mut self, entry: Entry<'t>) -> Result<OpForm, OutOfMemory> {
        match entry.key {
            "read" => Ok(self.name(entry.value)?.unwrap_or(OpForm::None)),
            "compute" => {
                let count = self.sheet.number(entry.value).and_then(natural);
                match count {
                    Some(n) if 1 <= n && n <= MOST_STEPS => Ok(OpForm::Good),
                    _ => Ok(OpForm::None),
                }
            }
            _ => Ok(OpForm::None),
        }
    }

    /// What an operation is. Its unknown names are noted, by a look-up for each.
    pub(crate) fn operation(&mut self, node: usize) -> Result<OpForm, OutOfMemory> {
        if let Some(text) = self.sheet.text(node) {
            let is_end = text == "commit" || text == "quit";
            return Ok(if is_end { OpForm::Good } else { OpForm::None });
        }
        let entries = Entries::of(self.sheet, node);
        if let Some(entry) = entries.only() {
            return self.single(entry);
        }
        match (entries.of_two("write"), entries.of_two("value")) {
            (Some(item), Some(value)) => self.write(item, value),
            _ => Ok(OpForm::None),
        }
    }
}
