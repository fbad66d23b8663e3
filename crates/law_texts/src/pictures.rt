//! Laws of pictures: what the marks of a part of a history show of its entries, its rows and its states. They are about the
//! definitions alone.
ghost use Rattle.law_texts.specs.ShownMarks.{MarksShowEach, RowsTellEnds};
ghost use Rattle.law_texts.specs.Ceilings.{EachTickHasACeiling, DrawnIsHeld, NothingIsDrawnLater};
ghost use Rattle.law_texts.specs.Drawn.{GoesThroughEachTick, DrawnLocksAreHeld, NoLockIsDrawnLater, DrawnWaitsGoOn, NoWaitIsDrawnLater, DrawnJobsArePending, NoJobIsDrawnLater};

/// Each step and each refusal of the entries whose tick is one of the part has its mark, and each release, deadline and end of
/// the rows whose instant is one of it: one mark each, in their order, and there are no others.
pub fn marks_show_each()
    ensures { MarksShowEach }
{}

/// The ends that the rows of a history's jobs tell are those of its state.
pub fn rows_tell_ends()
    ensures { RowsTellEnds }
{}

/// Each tick of the part has one ceiling. Where the history goes through the tick by a step, or by an idle time, it is the
/// greatest ceiling of the locks that are held in the state before that, and of those that the step takes; from the history's
/// last instant on it is 0.
pub fn drawn_ceilings_are_held()
    ensures each { EachTickHasACeiling }
    ensures held { DrawnIsHeld }
    ensures later { NothingIsDrawnLater }
{}

/// A history goes through each tick of the part that is before its last instant by one of its entries, a step or an idle time.
/// So the laws below tell of every tick.
pub fn each_tick_has_an_entry()
    ensures { GoesThroughEachTick }
{}

/// The locks that are drawn in a tick are exactly those that are held in the state before the entry by which a legal history
/// goes through it, with what its step takes: a job's read lock until the job writes the item, and its write lock from then on.
/// Each is drawn once, and from the history's last instant on none is.
pub fn drawn_locks_are_held()
    ensures held { DrawnLocksAreHeld }
    ensures later { NoLockIsDrawnLater }
{}

/// The waits that are drawn in a tick are exactly those of that state, each once: each from its refusal on, until one of its
/// two jobs ends.
pub fn drawn_waits_go_on()
    ensures held { DrawnWaitsGoOn }
    ensures later { NoWaitIsDrawnLater }
{}

/// The jobs that are drawn as pending in a tick are exactly those that are pending in that state, each once.
pub fn drawn_jobs_are_pending()
    ensures held { DrawnJobsArePending }
    ensures later { NoJobIsDrawnLater }
{}
