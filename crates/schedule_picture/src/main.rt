//! The program that draws a part of a schedule: a report in, a picture out.
#![tactic(auto)]

use io_edge::{StdSink, StdSource, exit_code, words_of};
use picture_command::{Status, draw_report};
use rt_base::OutOfMemory;
use std::env;
use std::process::ExitCode;

fn main(rt: HostRuntime) -> ExitCode {
    let words = match words_of(rt.alloc(), env::args(&rt)) {
        Ok(words) => words,
        Err(OutOfMemory) => return exit_code(Status::OutOfMemory),
    };
    let mut source = StdSource::new(rt.stdin());
    let mut sink = StdSink::new(rt.stdout());
    let status = draw_report(rt.alloc(), &words, &mut source, &mut sink);
    exit_code(status)
}
