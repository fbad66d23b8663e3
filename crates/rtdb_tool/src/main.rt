//! The companion program: what can be asked of a scenario or of a report beside running it.
#![tactic(auto)]

use io_edge::{StdSink, StdSource, exit_code, words_of};
use rt_base::OutOfMemory;
use std::env;
use std::process::ExitCode;
use tool_command::{Status, rtdb_tool};

fn main(rt: HostRuntime) -> ExitCode {
    let words = match words_of(rt.alloc(), env::args(&rt)) {
        Ok(words) => words,
        Err(OutOfMemory) => return exit_code(Status::OutOfMemory),
    };
    let mut source = StdSource::new(rt.stdin());
    let mut sink = StdSink::new(rt.stdout());
    let status = rtdb_tool(rt.alloc(), &words, &mut source, &mut sink);
    exit_code(status)
}
