//! What the words of the command line ask for.

/// A command that runs no workers, and so always returns.
#[derive(Clone, Copy, PartialEq, Eq)]
pub enum PlainCommand {
    /// The ceilings of the items of the scenario that is read.
    Ceilings,
    /// The bounds of its set.
    Admit,
    /// The verdict on the report that is read.
    Replay,
    /// The text of the scenario that is generated of so many transactions.
    Gen { n: u32 },
    /// The priorities, periods and deadlines of the updaters of the scenario that is read.
    Rates,
    /// How far all step counts of the set of the scenario that is read may grow.
    Margin,
}

/// What the words ask for.
#[derive(Clone, Copy, PartialEq, Eq)]
pub enum Command {
    /// A command that runs no workers.
    Plain(PlainCommand),
    /// The run of the scenario that is read, as a trial or admitted, by so many workers.
    Run { trial: bool, workers: u32 },
    /// The run of the scenario that is generated of so many transactions, by so many workers.
    Load { n: u32, workers: u32 },
}
