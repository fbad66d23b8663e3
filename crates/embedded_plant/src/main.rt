//! A controller program over the library, in two ways: on one thread with a core of its own, and on a shared plant with
//! two threads. Both run the same set, the same jobs and the same bodies. docs/EMBEDDING.md explains it.
#![tactic(auto)]

mod alone;
mod bodies;
mod faults;
mod out;
mod shared;
mod tank;

use crate::faults::Fault;
use crate::out::Counts;
use std::io;

fn print<R: Print>(rt: &R, way: &str, run: Result<Counts, Fault>) -> io::Result<()> {
    match run {
        Err(fault) => println!(rt; "{way}: {fault}"),
        Ok(c) => {
            println!(rt;
                "{way}: plans {} steps {} refusals {} idles {}",
                c.plans, c.steps, c.refusals, c.idles
            )?;
            println!(rt;
                "{way}: committed {} of {}, now {}, valve {} of tick {}",
                c.committed, c.ended, c.now, c.valve, c.stamp
            )
        }
    }
}

fn main(rt: HostRuntime) -> io::Result<()> {
    print(&rt, "alone", alone::run(rt.alloc()))?;
    print(&rt, "shared", shared::run(&rt, rt.alloc()))
}
