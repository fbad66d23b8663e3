//! Laws of assigning priorities: what the response of a transaction depends on, that it never rises when the transaction goes up, and
//! that one pass from the lowest level up decides whether any assignment keeps given limits (N. C. Audsley, On priority
//! assignment in fixed priority scheduling, Information Processing Letters 79, 2001). They are about the definitions alone.
ghost use Rattle.law_times.specs.Laws.{SetsAlone, UpIsNeverWorse, Exchange, PassDecides};

/// The blocking, the demand and the response of a transaction depend on no more than which transactions are above it
/// and which below: not on the order among these.
pub fn sets_alone()
    ensures { SetsAlone }
{}

/// When a transaction that was above another comes to stand below it, and all else stays on its side, the other one has
/// no greater demand within any window, and so no greater response: the interference falls by a whole job at least, and the
/// blocking rises by less.
pub fn up_is_never_worse()
    ensures { UpIsNeverWorse }
{}

/// If an assignment keeps the limits, and a transaction keeps its own limit right above the lowest ones and below all
/// others, then there is an assignment with it there that keeps the limits (Audsley 2001).
pub fn exchange()
    ensures { Exchange }
{}

/// The pass places all transactions exactly if some assignment keeps the limits. Then its own priorities, from 1 to the
/// number of the transactions, are such an assignment (Audsley 2001).
pub fn pass_decides()
    ensures { PassDecides }
{}
