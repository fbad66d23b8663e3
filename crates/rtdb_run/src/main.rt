//! The program: a real-time database for plant control, run from a scenario.
#![tactic(auto)]

mod answer;

use answer::{answer, journal_path};
use durable_disk::FileDisk;
use io_edge::{StdSink, StdSource, exit_code, words_of};
use rt_base::OutOfMemory;
use rtdb_command::Status;
use std::env;
use std::process::ExitCode;

fn main(rt: HostRuntime) -> ExitCode {
    let words = match words_of(rt.alloc(), env::args(&rt)) {
        Ok(words) => words,
        Err(OutOfMemory) => return exit_code(Status::OutOfMemory),
    };
    let mut source = StdSource::new(rt.stdin());
    let mut sink = StdSink::new(rt.stdout());
    let disk = FileDisk::open(&rt, journal_path(&words));
    let (status, _) = answer(&rt, rt.alloc(), &words, &mut source, &mut sink, disk);
    exit_code(status)
}
