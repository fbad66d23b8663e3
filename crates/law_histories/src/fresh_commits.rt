//! Laws of every commit of every legal history of every compiled set: it is fresh and together, and what its job had read has
//! the stamps that were installed last. They are about the definitions alone.
ghost use Rattle.law_histories.specs.Commits.{ConsistentCommits, FreshCommits, ReadsAreLast, ReadsAreTimed};

/// Each committed job is fresh and together: what it read was within its validity at the end, and in each relative set the
/// stamps lie within the interval (Ramamritham 1993).
pub fn fresh_together()
    ensures fresh { FreshCommits }
    ensures consistent { ConsistentCommits }
{}

/// The stamp that a committed job read of a sensor or derived item is the one that the item's writer had installed last, both
/// at the read and when the job ended.
pub fn reads_are_last()
    ensures last { ReadsAreLast }
    ensures timed { ReadsAreTimed }
{}
