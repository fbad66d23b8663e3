//! The edge to the system: where bytes come from and where they go, by the traits `Source` and `Sink`, their forms in memory
//! and over the system, and the calls that read and write all; and the words that a program was called with, and the status
//! that it ends with. A fault is told only where the count of the object that was handed in rose.
#![tactic(auto)]

ghost use Rattle.std.specs.Prelude.{◌≡◌};
ghost use Rattle.io_edge.specs.Causes.{counted};

mod memory;
mod sink;
mod source;
mod status;
mod system;
mod word;
mod words;

pub use memory::{MemSink, MemSource, SureSource};
pub use sink::{Sink, WriteFault, write_all};
pub use source::{ReadError, Source, read_all};
pub use status::{Status, exit_code};
pub use system::{StdSink, StdSource};
pub use word::Word;
pub use words::words_of;

/// A call of a source or a sink that failed and was counted. It moved no byte.
#[derive(Clone, Copy, Debug, PartialEq, Eq)]
pub struct Failed;

impl Failed {
    // A failed call, added to the count of those that failed.
    fn counted_in(faults: &mut u64) -> Failed
        ensures { faults.new ≡ counted faults.old }
    {
        *faults = faults.saturating_add(1);
        Failed
    }
}
