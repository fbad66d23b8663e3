//! The part of a schedule that is looked at.
ghost use Rattle.std.specs.Prelude.{◌≡◌, ◌<◌, ◌≤◌, ◌^◌, min};
ghost use Rattle.schedule_marks.specs.Parts.{has_tick as is_tick_of, has_instant as is_instant_of, meets as is_met_by};

use rt_base::Tick;

/// The ticks from one up to another, which is not among them.
#[derive(Clone, Copy, PartialEq, Eq, Debug)]
pub struct Part {
    pub from: Tick,
    pub to: Tick,
}

/// The part that is looked at, and up to where there is something to see in it.
#[derive(Clone, Copy)]
pub(crate) struct Window {
    /// The part.
    pub part: Part,
    /// The last instant of the history, or the part's end if that is earlier.
    pub stop: Tick,
}

/// Whether the tick is one of the part.
pub(crate) fn has_tick(part: Part, tick: Tick) -> bool
    ensures { result ≡ is_tick_of part tick }
{
    part.from <= tick && tick < part.to
}

/// Whether the instant at the start of this tick is in the part or at one of its ends.
pub(crate) fn has_instant(part: Part, tick: Tick) -> bool
    ensures { result ≡ is_instant_of part tick }
{
    part.from <= tick && tick <= part.to
}

/// Whether some tick from one up to another is one of the part.
pub(crate) fn meets(part: Part, from: Tick, to: Tick) -> bool
    ensures { result ≡ is_met_by part from to }
{
    from < part.to && part.from < to
}
