//! Disks in memory and over files, and what their calls answer.
use crate::words::{numbers, size};
use durable_disk::{Disk, FileDisk, MemDisk};
use std::alloc::Global;
use std::fs;
use std::os::unix::fs::symlink;

/// A disk in memory, or over a file.
#[derive(Drop)]
pub enum Kept<'a> {
    Memory(MemDisk),
    File(FileDisk<'a>),
}

fn write_to<D: Disk>(disk: &mut D, at: u64, bytes: &[u8], said: &mut String) -> Option<()> {
    let done = disk.write_at(at, bytes);
    write!(said, "{done:?}").ok()
}

// So many bytes of a value.
fn bytes_of(alloc: Global, byte: u8, count: &str) -> Option<Vec<u8>> {
    vec![in alloc; byte; size(count)?].ok()
}

// Reads into a buffer of sevens, and writes what is in it then.
fn read_into<D: Disk>(disk: &mut D, at: u64, into: &mut [u8], said: &mut String) -> Option<()> {
    let done = disk.read_at(at, into);
    write!(said, "{done:?} {into:?}").ok()
}

// Writes what a disk answers at a place.
fn call_at<D: Disk>(
    alloc: Global,
    disk: &mut D,
    word: &str,
    rest: &str,
    said: &mut String,
) -> Option<()> {
    let (at, rest) = rest.split_once(' ').unwrap_or((rest, ""));
    let at = at.parse::<u64>().ok()?;
    match word {
        "write" => write_to(disk, at, rest.as_bytes(), said),
        "zeros" => write_to(disk, at, &bytes_of(alloc, 0, rest)?, said),
        "read" => read_into(disk, at, &mut bytes_of(alloc, 7, rest)?, said),
        _ => None,
    }
}

// Writes what a disk answers.
fn call<D: Disk>(
    alloc: Global,
    disk: &mut D,
    word: &str,
    rest: &str,
    said: &mut String,
) -> Option<()> {
    if word == "sync" {
        let done = disk.sync();
        return write!(said, "{done:?}").ok();
    }
    call_at(alloc, disk, word, rest, said)
}

// Writes what a disk in memory answers.
fn call_memory(
    alloc: Global,
    disk: &mut MemDisk,
    word: &str,
    rest: &str,
    said: &mut String,
) -> Option<()> {
    match word {
        "bytes" => write!(said, "{:?}", disk.bytes()).ok(),
        "crash" => {
            disk.crash(size(rest)?);
            Some(())
        }
        _ => call(alloc, disk, word, rest, said),
    }
}

// A new disk: in memory, of 1,000 bytes and 10 places, of which the calls of these numbers fail; or over a file.
fn made<'a>(rt: &'a HostRuntime, word: &str, rest: &'a str) -> Option<Kept<'a>> {
    if word == "memory" {
        let failing = numbers(rt.alloc(), rest)?;
        return match MemDisk::new(rt.alloc(), 1000, 10, failing) {
            Ok(disk) => Some(Kept::Memory(disk)),
            Err(_) => None,
        };
    }
    let path = if rest.is_empty() { None } else { Some(rest) };
    Some(Kept::File(FileDisk::open(rt, path)))
}

// Writes what becomes of a file of the system.
fn change_file(rt: &HostRuntime, word: &str, rest: &str, said: &mut String) -> Option<()> {
    match word {
        "remove" => fs::remove_file(rt, rest).ok()?,
        "link" => {
            let (to, from) = rest.split_once(' ')?;
            symlink(rt, to, from).ok()?;
        }
        _ => {
            let exists = fs::exists(rt, rest).ok()?;
            return write!(said, "{exists}").ok();
        }
    }
    said.push_str("done").ok()
}

/// Does what a line says, and writes what comes of it, if anything.
pub fn follow_disk<'a>(
    rt: &'a HostRuntime,
    disks: &mut Vec<Kept<'a>>,
    line: &'a str,
    said: &mut String,
) -> Option<()> {
    let (word, rest) = line.split_once(' ').unwrap_or((line, ""));
    match word {
        "memory" | "file" => disks.push(made(rt, word, rest)?).ok(),
        "close" => {
            drop(disks.pop()?);
            Some(())
        }
        "remove" | "link" | "exists" => change_file(rt, word, rest, said),
        _ => match disks.last_mut()? {
            Kept::Memory(disk) => call_memory(rt.alloc(), disk, word, rest, said),
            Kept::File(disk) => call(rt.alloc(), disk, word, rest, said),
        },
    }
}
