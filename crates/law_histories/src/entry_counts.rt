//! The law of counting: how many entries a legal history has, and how far its time goes. It is about the definitions alone.
ghost use Rattle.law_histories.specs.Counting.{EntriesAreFew, TimeIsBounded};

/// A job is planned at most once, takes at most its declared steps and is refused at most once, and each idling releases a job; a legal history has at
/// most the entries for which its planned jobs have room, and fewer than 2^42. Its time, in ticks, goes at most the greatest period beyond the last planned
/// tick.
pub fn counting()
    ensures entries { EntriesAreFew }
    ensures time { TimeIsBounded }
{}
