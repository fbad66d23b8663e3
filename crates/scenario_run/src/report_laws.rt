//! A report whose entry lines are handed to a sink as the entries come, and its closing lines.
ghost use Rattle.scenario_run.specs.ReportLaws.{AfterCut, AfterFull, HasFront};

/// After a fault of the sink it has all lines of what the out got, and then a front of the lines of what it lost.
pub fn after_cut()
    ensures { AfterCut }
{}

/// An out that is full has written the lines of what it got and no more, and what it got and what it lost have together
/// more plans than it has places.
pub fn after_full()
    ensures { AfterFull }
{}

/// Where what an out got and what it lost have together no more plans than it has places, it is not full, and its sink
/// has a front of their lines.
pub fn has_front()
    ensures { HasFront }
{}
