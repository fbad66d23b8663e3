//! Laws of every legal history of every compiled set: the protocol never stops, conflicts never arise, replies are those of
//! jobs run alone, and one lower job at most delays a job. They are about the definitions alone.
ghost use Rattle.law_histories.specs.Protocol.{EachHistoryIsSerial, EachPendingIsAlone, EndedHoldNothing, NoConflict, NoHistoryIsStuck, OneDelay, RefusedOnce};

/// After every legal history no jobs wait in a cycle, and where something is pending there is a running job. A job is refused
/// at most once, and then holds no lock (Sha, Rajkumar, Son, Chang 1991).
pub fn no_cycle_one_refusal()
    ensures never_stuck { NoHistoryIsStuck }
    ensures refused_once { RefusedOnce }
{}

/// No two pending jobs hold locks on one item of which one is a write lock. It rests on the declared accesses and on the
/// ceilings (Sha, Rajkumar, Son, Chang 1991).
pub fn conflict_law()
    ensures { NoConflict }
{}

/// A job that ended holds no lock and waits on nobody, and nobody waits on it.
pub fn ended_jobs_hold_nothing()
    ensures { EndedHoldNothing }
{}

/// The outcomes and the items of each legal history are those of its ended jobs run alone, in order of ending.
pub fn serial_replies()
    ensures { EachHistoryIsSerial }
{}

/// The outcomes of a pending job are those of its operations so far, run alone on the present items.
pub fn pending_replies()
    ensures { EachPendingIsAlone }
{}

/// From the release of a job to its end, the steps of lower jobs are all of one job, and no more than the blocking: the
/// greatest number of steps that a lower transaction may take after its quiet steps and the step that took its lock (Sha,
/// Rajkumar, Son, Chang 1991; the quiet steps are an addition).
pub fn one_delay()
    ensures { OneDelay }
{}
