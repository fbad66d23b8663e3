//! What the words of the command line ask for.

/// A command of rtdb-tool.
#[derive(Clone, Copy, PartialEq, Eq, Debug)]
pub enum ToolCommand {
    /// Up to how many steps each transaction alone of the scenario that is read may grow, and how far validities may fall.
    Slack,
    /// Priorities by which each transaction of the scenario that is read keeps its limits, if there are any.
    Priorities,
    /// What the report that is read comes to, by transaction and item.
    Summary,
    /// The lines of the report that is read, as JSON objects.
    Json,
    /// The jobs of the report that is read, as a CSV table.
    Table,
    /// All that is amiss in the scenario that is read, for a run or for a trial.
    Check { trial: bool },
}
