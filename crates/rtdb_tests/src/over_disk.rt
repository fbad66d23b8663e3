//! BASE, and its run over a journal.
use durable_disk::MemDisk;
use io_edge::{MemSink, MemSource};
use rtdb_command::{Status, Word, rtdb_journal};
use std::alloc::Global;

/// How many bytes BASE's journal has: the header's record, 32 entries, and a closed gate.
pub const BYTES: usize = 256 * 33 + 1;

/// How many calls make its journal: a read, and six of the header.
pub const MAKING: u64 = 1 + 6;

/// The call behind the bodies of its entries, which are one piece: a sync.
pub const BODIES_END: u64 = MAKING + 32;

/// How many calls its first run makes: behind that sync a gate for each entry, and a sync.
pub const CALLS: u64 = BODIES_END + 1 + 32 + 1;

/// A scenario, and the report of its run.
#[derive(Drop)]
pub struct Base {
    pub alloc: Global,
    pub scenario: Vec<u8>,
    pub report: Vec<u8>,
}

// What a command is run on beside its disk.
#[derive(Drop)]
struct Asked {
    words: Vec<Word>,
    source: MemSource,
    sink: MemSink,
}

impl Asked {
    fn new(alloc: Global, words: &[&str], scenario: &[u8]) -> Option<Asked> {
        let input = scenario.to_vec(alloc).ok()?;
        let Ok(sink) = MemSink::new(alloc, 10_000, 1_000, Vec::new(alloc)) else {
            drop(input);
            return None;
        };
        match listed(alloc, words) {
            Some(words) => Some(Asked {
                words,
                source: MemSource::new(input, Vec::new(alloc)),
                sink,
            }),
            None => {
                drop(input);
                drop(sink);
                None
            }
        }
    }

    // What is answered over a disk.
    fn run(&mut self, alloc: Global, disk: MemDisk) -> Option<Ran> {
        let (status, disk) = rtdb_journal(
            alloc,
            &self.words,
            &mut self.source,
            &mut self.sink,
            disk,
        );
        match self.sink.bytes().to_vec(alloc) {
            Ok(text) => Some(Ran { status, text, disk }),
            Err(_) => {
                drop(disk);
                None
            }
        }
    }
}

/// The words of a command.
pub fn listed(alloc: Global, words: &[&str]) -> Option<Vec<Word>> {
    let mut list = Vec::new(alloc);
    match add_words(alloc, words, &mut list) {
        Some(()) => Some(list),
        None => {
            drop(list);
            None
        }
    }
}

fn add_words(alloc: Global, words: &[&str], list: &mut Vec<Word>) -> Option<()> {
    for word in words {
        list.push(Word::new(alloc, word).ok()?).ok()?;
    }
    Some(())
}

/// What a run came to.
#[derive(Drop)]
pub struct Ran {
    pub status: Status,
    pub text: Vec<u8>,
    pub disk: MemDisk,
}

impl Ran {
    /// Whether the whole report was written, and the disk has the whole journal.
    pub fn is_whole(&self, base: &Base) -> bool {
        self.status == Status::Ok && self.text == base.report && self.disk.bytes().len() == BYTES
    }

    /// Whether the disk's fault was told, and nothing was written.
    pub fn is_fault(&self) -> bool {
        self.status == Status::DiskFault && self.text.is_empty()
    }
}

impl Base {
    /// An empty disk; the calls of these numbers fail.
    pub fn disk(&self, failing: &[u64]) -> Option<MemDisk> {
        let failing = failing.to_vec(self.alloc).ok()?;
        MemDisk::new(self.alloc, 20_000, 1_000, failing).ok()
    }

    /// What these words answer to a scenario over a disk.
    pub fn answer(&self, words: &[&str], scenario: &[u8], disk: MemDisk) -> Option<Ran> {
        let Some(mut asked) = Asked::new(self.alloc, words, scenario) else {
            drop(disk);
            return None;
        };
        let ran = asked.run(self.alloc, disk);
        drop(asked);
        ran
    }

    /// A run of BASE over a disk.
    pub fn run(&self, disk: MemDisk) -> Option<Ran> {
        self.answer(&["journal", "base.journal"], &self.scenario, disk)
    }

    /// The disk after a whole run.
    pub fn after_run(&self) -> Option<MemDisk> {
        let Ran {
            status: _,
            text,
            disk,
        } = self.run(self.disk(&[])?)?;
        drop(text);
        Some(disk)
    }

    /// The disk after a whole run, with one byte of it changed.
    pub fn changed(&self, at: usize, byte: u8) -> Option<MemDisk> {
        let disk = self.after_run()?;
        let copied = disk.bytes().to_vec(self.alloc);
        drop(disk);
        let mut bytes = copied.ok()?;
        if at < bytes.len() {
            bytes[at] = byte;
        }
        self.holding(&bytes)
    }

    /// A disk that has these bytes and behind them the records of these lines.
    pub fn with_lines(&self, bytes: &[u8], lines: &[String]) -> Option<MemDisk> {
        let mut bytes = bytes.to_vec(self.alloc).ok()?;
        for line in lines {
            add_record(&mut bytes, line.as_str())?;
        }
        bytes.push(0).ok()?;
        self.holding(&bytes)
    }

    /// A disk that reads as these bytes.
    pub fn holding(&self, bytes: &[u8]) -> Option<MemDisk> {
        let mut disk = self.disk(&[])?;
        let mut at = 0;
        for piece in bytes.chunks(512) {
            if write(&mut disk, at, piece).is_none() {
                drop(disk);
                return None;
            }
            at = at.saturating_add(512);
        }
        Some(disk)
    }
}

// An open gate, the length of the text, the text and zeros.
fn add_record(bytes: &mut Vec<u8>, text: &str) -> Option<()> {
    let text = text.as_bytes();
    if text.len() > 254 {
        return None;
    }
    let mut record = [0; 256];
    record[0] = 1;
    record[1] = text.len() as u8;
    record[2..2 + text.len()].copy_from_slice(text);
    bytes.extend_from_slice(&record).ok()
}

fn write(disk: &mut MemDisk, at: u64, bytes: &[u8]) -> Option<()> {
    use durable_disk::Disk;
    disk.write_at(at, bytes).ok()?;
    disk.sync().ok()
}
