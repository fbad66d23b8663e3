//! Why the calls end early.
use rt_base::OutOfMemory;
use std::io;

#[derive(Drop)]
pub enum Fault {
    /// A growth of this program's own was refused.
    OutOfMemory,
    /// The scenario is not the one that is known, or a call differs from what is known; that was said.
    NotKnown,
    /// Standard output failed.
    NotWritten(io::Error),
}

impl From<OutOfMemory> for Fault {
    fn from(_e: OutOfMemory) -> Fault {
        Fault::OutOfMemory
    }
}

impl From<io::Error> for Fault {
    fn from(e: io::Error) -> Fault {
        Fault::NotWritten(e)
    }
}
