//! Laws of time: each job of a legal history ends within its transaction's response. They are about the definitions alone.
ghost use Rattle.law_times.specs.Deadlines.{EachIsInTime, EachWindowIsKept, NoneIsLate, ResponseIsFound, ResponseIsReached};

/// Each job of a transaction that has a response ends at most that many ticks after its release, and not late, and while it is
/// pending it has time left; this holds of every window that holds its demand. Where each transaction has a response, no job
/// ends late (Joseph and Pandya 1986, with the blocking term of Sha, Rajkumar, Son, Chang 1991).
pub fn deadlines()
    ensures in_time { EachIsInTime }
    ensures in_window { EachWindowIsKept }
    ensures none_late { NoneIsLate }
{}

/// The response that is found by trying each window is the least that holds its demand, and where none is found no window up
/// to the deadline does; windows that grow to their demand never pass it (Joseph and Pandya 1986).
pub fn response()
    ensures found { ResponseIsFound }
    ensures reached { ResponseIsReached }
{}
