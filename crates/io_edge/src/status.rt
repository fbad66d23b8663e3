//! How a call of the program ended, and the status that a program ends with.
ghost use Rattle.std.specs.Prelude.{◌≡◌};
ghost use Rattle.std.specs.Process.{exit_status};
ghost use Rattle.io_edge.specs.Statuses.{number_of};

use std::process::ExitCode;

/// How a call of the program ended. The numbers are the exit statuses: from 0 in this order, and 9 and 10 for a journal.
#[derive(Clone, Copy, Debug, PartialEq, Eq)]
pub enum Status {
    /// The input was read to its end, and the whole text was written.
    Ok,
    /// The input is refused, and the refusal's line was written.
    Refused,
    /// The words are no command's, and the usage line was written.
    Usage,
    /// The source failed in this call. Nothing was written.
    ReadFault,
    /// The sink failed in this call. A prefix of the text was written.
    WriteFault,
    /// A growth was refused. A prefix of the command's text was written, or nothing.
    OutOfMemory,
    /// The source gave more bytes than the limit, and the refusal's line was written.
    TooLong,
    /// The report is not legal, and the verdict's line was written.
    NotLegal,
    /// The disk of a journal failed in this call. Nothing was written.
    DiskFault = 9,
    /// A record of a journal is bad, or not the run's, and the line that names it was written.
    BadJournal = 10,
}

/// The exit status of a program that answered so.
pub fn exit_code(status: Status) -> ExitCode
    ensures { exit_status result ≡ number_of status }
{
    ExitCode::from(status as u8)
}
