//! A disk over a file of the system. It tells nothing of its bytes, and no clause says that a real file is a disk.
ghost use Rattle.std.specs.Prelude.{◌≡◌, ℕ, ◌-◌, ◌^◌, ◌≤◌, List, ⊤, None, length, IfOk, IfSome, OnOk};
ghost use Rattle.std.specs.Io.{ReadsAtMost};
ghost use Rattle.durable_disk.specs.Images.{Torn};
ghost use Rattle.durable_disk.specs.Device.{AfterWrite, BothTold, Elapses, Follows, IsRead, NoMore, Only};
ghost use Rattle.durable_disk.specs.File.{CountsFault, any_image, any_since, untold};

use crate::{Disk, counted_in};
use io_edge::Failed;
use std::fs::{File, OpenOptions};
use std::io::{self, ErrorKind};
use std::marker::Model;
use std::mem;
use std::os::unix::fs::FileExt;
use std::path::Path;

// A file that is locked, and the folder of its path. `named` tells that a sync made sure of its name in the folder.
#[derive(Drop)]
struct Opened {
    file: File,
    folder: File,
    named: bool,
}

// What stands at a path.
#[derive(Drop)]
enum Place {
    // Nothing that calls can be made on.
    Closed,
    // No file yet, in this folder.
    Missing(File),
    Here(Opened),
}

/// The file of a path. It is opened where it is there, and made by the first write where it is missing; until then it reads
/// as empty. It is locked, so that another FileDisk on it, in whatever program, fails each call. Where it or its folder could
/// not be opened or made, or there is no path, each call fails; so does each call after a sync that failed, since the system
/// may forget what that one did not write. Contracts see how many calls failed.
#[derive(Drop)]
pub struct FileDisk<'a> {
    rt: &'a HostRuntime,
    path: &'a str,
    place: Place,
    faults: u64,
}

impl<'a> Model for FileDisk<'a> {
    ghost use Rattle.std.specs.Prelude.{ℕ, ◌-◌, ◌^◌, ◌≤◌};

    ghost Value = { ℕ };

    ghost view = { λ s. s.faults };

    ghost invariant = { λ s. s.faults ≤ 2 ^ 64 - 1 };
}

// The folder that a path's last name stands in.
fn folder_of(path: &str) -> &str {
    match Path::new(path).parent() {
        Some(folder) if !folder.as_str().is_empty() => folder.as_str(),
        _ => ".",
    }
}

// Takes the lock of a file. Where another has it, the answer is an error.
fn locked(file: File) -> io::Result<File> {
    file.try_lock()?;
    Ok(file)
}

impl Place {
    // A file that is missing is not made yet.
    fn of(rt: &HostRuntime, path: &str) -> io::Result<Place> {
        let folder = File::open(rt, folder_of(path))?;
        match OpenOptions::new().read(true).write(true).open(rt, path) {
            Err(e) if e.kind() == ErrorKind::NotFound => Ok(Place::Missing(folder)),
            Err(e) => Err(e),
            Ok(file) => Ok(Place::Here(Opened {
                file: locked(file)?,
                folder,
                named: false,
            })),
        }
    }

    // The file, made where it is missing, and not by way of a link.
    fn made(&mut self, rt: &HostRuntime, path: &str) -> io::Result<&mut Opened> {
        match mem::replace(self, Place::Closed) {
            Place::Missing(folder) => {
                let file = locked(File::create_new(rt, path)?)?;
                *self = Place::Here(Opened {
                    file,
                    folder,
                    named: false,
                });
            }
            place => *self = place,
        }
        match self {
            Place::Here(opened) => Ok(opened),
            _ => Err(io::Error::from(ErrorKind::NotFound)),
        }
    }

    fn read(&self, at: u64, into: &mut [u8]) -> io::Result<usize>
        ensures { IfOk result (λ n. n ≤ length into.old) }
    {
        match self {
            Place::Here(opened) => read_whole(&opened.file, at, into),
            Place::Missing(_) => Ok(0),
            Place::Closed => Err(io::Error::from(ErrorKind::NotFound)),
        }
    }

    // Syncs the file, and the first time its folder as well.
    fn sync(&mut self) -> io::Result<()> {
        match self {
            Place::Here(opened) => {
                sync_whole(&opened.file)?;
                if !opened.named {
                    sync_whole(&opened.folder)?;
                    opened.named = true;
                }
                Ok(())
            }
            Place::Missing(folder) => sync_whole(folder),
            Place::Closed => Err(io::Error::from(ErrorKind::NotFound)),
        }
    }
}

// Syncs a file, and again where a signal came between.
fn sync_whole(file: &File) -> io::Result<()> {
    for _ in 0..u64::MAX {
        match file.sync_all() {
            Err(e) if e.kind() == ErrorKind::Interrupted => {}
            answer => return answer,
        }
    }
    Err(io::Error::from(ErrorKind::Interrupted))
}

// Reads until the buffer is full, or the file ends, and on where a signal came between.
fn read_whole(file: &File, at: u64, into: &mut [u8]) -> io::Result<usize>
    ensures { IfOk result (λ n. n ≤ length into.old) }
{
    let mut done = 0;
    for _ in 0..u64::MAX {
        if done >= into.len() {
            return Ok(done);
        }
        let from = at
            .checked_add(done as u64)
            .ok_or(io::Error::from(ErrorKind::InvalidInput))?;
        match file.read_at(&mut into[done..], from) {
            Ok(0) => return Ok(done),
            Ok(count) => done += count,
            Err(e) if e.kind() == ErrorKind::Interrupted => {}
            Err(e) => return Err(e),
        }
    }
    Err(io::Error::from(ErrorKind::Interrupted))
}

impl<'a> FileDisk<'a> {
    /// The file of this path.
    pub fn open(rt: &'a HostRuntime, path: Option<&'a str>) -> FileDisk<'a>
        ensures { result ≡ 0 }
    {
        let path = path.unwrap_or("");
        let place = match Place::of(rt, path) {
            Ok(place) => place,
            Err(_) => Place::Closed,
        };
        FileDisk {
            rt,
            path,
            place,
            faults: 0,
        }
    }
}

impl<'a> Disk for FileDisk<'a> {
    ghost seen = { λ _. None };

    ghost may_leave = { λ _. any_image };

    ghost moment = { λ _. 0 };

    ghost left_since = { λ _. any_since };

    ghost faults = { λ d. d };

    ghost seen_may_stay = { λ _. tt };

    ghost counts_now = { λ _ _ _ _ _. tt };

    ghost only_now = { λ _ _ _. tt };

    fn read_at(&mut self, at: u64, into: &mut [u8]) -> Result<usize, Failed>
        ensures bound { ReadsAtMost result into.new }
        ensures bytes { IfOk result (λ n. IfSome None (λ file. IsRead file at n into.new)) }
        ensures seen { untold ≡ untold }
        ensures crash { NoMore any_image any_image }
        ensures time { Elapses 0 0 any_since any_since any_image }
        ensures faults { CountsFault self.old self.new result }
    {
        match self.place.read(at, into) {
            Ok(count) => Ok(count),
            Err(_) => Err(counted_in(&mut self.faults)),
        }
    }

    fn write_at(&mut self, at: u64, bytes: &[u8]) -> Result<(), Failed>
        ensures seen { BothTold (AfterWrite result at bytes.now) None None }
        ensures crash { Follows (Torn at (length bytes.now)) any_image any_image }
        ensures time { Elapses 0 0 any_since any_since any_image }
        ensures faults { CountsFault self.old self.new result }
    {
        let done = match self.place.made(self.rt, self.path) {
            Ok(opened) => opened.file.write_all_at(bytes, at).is_ok(),
            Err(_) => false,
        };
        if done {
            Ok(())
        } else {
            Err(counted_in(&mut self.faults))
        }
    }

    fn sync(&mut self) -> Result<(), Failed>
        ensures durable { OnOk result (Only None any_image) }
        ensures seen { untold ≡ untold }
        ensures crash { NoMore any_image any_image }
        ensures time { Elapses 0 0 any_since any_since any_image }
        ensures faults { CountsFault self.old self.new result }
    {
        if self.place.sync().is_ok() {
            Ok(())
        } else {
            self.place = Place::Closed;
            Err(counted_in(&mut self.faults))
        }
    }
}
