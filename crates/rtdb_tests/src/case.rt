//! A case: what a command is run on, and what it said.
use rtdb_command::Word;
use std::alloc::Global;
use std::mem;

/// What the command of a case is run on. A case begins with the text of the last `input` and with none of the rest.
#[derive(Drop)]
pub struct Case {
    /// Its name, which tells what it shows.
    pub name: String,
    /// The text of the last `input`.
    pub base: Vec<u8>,
    /// That text with what was changed in it.
    pub input: Vec<u8>,
    /// The words of the command.
    pub words: Vec<Word>,
    /// The calls of the source that fail.
    pub read_faults: Vec<u64>,
    /// The calls of the sink that fail.
    pub write_faults: Vec<u64>,
    /// The most bytes that the sink takes in a call.
    pub piece: usize,
    /// The most bytes that it takes.
    pub room: usize,
    /// Whether `rtdb_plain` is called.
    pub plain: bool,
    /// Whether the program that draws is called.
    pub picture: bool,
    /// Whether the companion program is called.
    pub tool: bool,
    /// What was said last, in this case or the one before.
    pub said: Vec<u8>,
    /// How often scripts were asked for that.
    pub asked: u64,
}

const ROOM: usize = 8_000_000;

impl Case {
    /// No case yet.
    pub fn new(alloc: Global) -> Case {
        Case {
            name: String::new(alloc),
            base: Vec::new(alloc),
            input: Vec::new(alloc),
            words: Vec::new(alloc),
            read_faults: Vec::new(alloc),
            write_faults: Vec::new(alloc),
            piece: ROOM,
            room: ROOM,
            plain: false,
            picture: false,
            tool: false,
            said: Vec::new(alloc),
            asked: 0,
        }
    }

    /// Begins a case of this name.
    pub fn begin(&mut self, name: &str) -> Option<()> {
        self.name.clear();
        self.name.push_str(name).ok()?;
        self.input.clear();
        self.input.extend_from_slice(&self.base).ok()?;
        self.words.clear();
        self.read_faults.clear();
        self.write_faults.clear();
        self.piece = ROOM;
        self.room = ROOM;
        self.plain = false;
        self.picture = false;
        self.tool = false;
        Some(())
    }

    /// Takes this text for the input, in this case and the next ones.
    pub fn take(&mut self, text: &[u8]) -> Option<()> {
        self.base.clear();
        self.base.extend_from_slice(text).ok()?;
        self.input.clear();
        self.input.extend_from_slice(text).ok()
    }

    /// Takes what was said last for the input.
    pub fn take_answer(&mut self) -> Option<()> {
        self.base.clear();
        self.base.extend_from_slice(&self.said).ok()?;
        self.input.clear();
        self.input.extend_from_slice(&self.said).ok()
    }

    /// Puts one piece of the input in the place of another, which has to stand in it.
    pub fn change(&mut self, alloc: Global, from: &str, to: &str) -> Option<()> {
        let text = str::from_utf8(&self.input).ok()?;
        let changed = replaced(alloc, text, from, to)?;
        drop(mem::replace(&mut self.input, changed));
        Some(())
    }

    /// Takes the words that blanks part. A pair of quotes is the empty word.
    pub fn call(&mut self, alloc: Global, text: &str) -> Option<()> {
        self.words.clear();
        for word in text.split(' ') {
            let word = if word == "\"\"" { "" } else { word };
            self.words.push(Word::new(alloc, word).ok()?).ok()?;
        }
        Some(())
    }
}

// A text in which the first such piece is replaced by another.
fn replaced(alloc: Global, text: &str, from: &str, to: &str) -> Option<Vec<u8>> {
    let (before, after) = text.split_once(from)?;
    let mut bytes = Vec::new(alloc);
    bytes.extend_from_slice(before.as_bytes()).ok()?;
    bytes.extend_from_slice(to.as_bytes()).ok()?;
    bytes.extend_from_slice(after.as_bytes()).ok()?;
    Some(bytes)
}
