//! How far one transaction's steps may grow, and one item's validity fall, if all else of an admitted set stays.
ghost use Rattle.scale_margin.specs.SlackLaws.{SameAtOwn, CompiledAtCounts, SlackUnlessBarred, SlackFallsOnce, SpareIsLeast};

/// With its own steps of a transaction a set is as it was.
pub fn same_at_own()
    ensures { SameAtOwn }
{}

/// A compiled set is compiled too if one transaction has another count of steps, up to 10,000 and above its quiet steps.
pub fn compiled_at_counts()
    ensures { CompiledAtCounts }
{}

/// Nothing bars such a count exactly if the set is compiled and admitted with it.
pub fn slack_unless_barred()
    ensures { SlackUnlessBarred }
{}

/// If a set is compiled and admitted with one count of a transaction's steps, so it is with each smaller one.
pub fn slack_falls_once()
    ensures { SlackFallsOnce }
{}

/// The least validity with which an admitted set stays admitted, all else as it is, is the item's age bound (Ramamritham
/// 1993). If nobody reads the item, it stays admitted with any.
pub fn spare_is_least()
    ensures { SpareIsLeast }
{}
