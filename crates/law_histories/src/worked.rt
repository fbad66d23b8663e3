//! Worked histories: sets that compile, the definitions of legal histories computed on them, and near variants that are not
//! legal.
ghost use Rattle.law_histories.specs.Base.{BaseHolds};
ghost use Rattle.law_histories.specs.SharedReaders.{SharedReadersHolds};
ghost use Rattle.law_histories.specs.Bystander.{BystanderHolds};
ghost use Rattle.law_histories.specs.BackToBack.{BackToBackHolds};
ghost use Rattle.law_histories.specs.Late.{LateHolds};
ghost use Rattle.law_histories.specs.Overrun.{OverrunHolds};
ghost use Rattle.law_histories.specs.Stale.{StaleHolds};
ghost use Rattle.law_histories.specs.Quiet.{QuietHolds};
ghost use Rattle.law_histories.specs.Together.{TogetherHolds};
ghost use Rattle.law_histories.specs.DerivedStamp.{DerivedStampHolds};

/// A sampler, a controller and a logger over a sensor and a state item: all ways to be granted, refused and resumed.
pub fn base_holds()
    ensures { BaseHolds }
{}

/// Two readers share an item whose writer is lower than both.
pub fn shared_readers_holds()
    ensures { SharedReadersHolds }
{}

/// A blocker inherits the priority of the job that waits on it, so a job between the two waits as well.
pub fn bystander_holds()
    ensures { BystanderHolds }
{}

/// A commit that ends exactly at the deadline counts, and stands before the next release of its instant.
pub fn back_to_back_holds()
    ensures { BackToBackHolds }
{}

/// A job that is pending at its deadline ends Late, and leaves nothing.
pub fn late_holds()
    ensures { LateHolds }
{}

/// A job that used its steps without a commit ends Overrun.
pub fn overrun_holds()
    ensures { OverrunHolds }
{}

/// A commit after a read that is past its validity ends Stale, and installs nothing.
pub fn stale_holds()
    ensures { StaleHolds }
{}

/// A job reads only after its quiet steps.
pub fn quiet_holds()
    ensures { QuietHolds }
{}

/// A commit after two reads whose stamps lie further apart than their relative set allows ends Apart.
pub fn together_holds()
    ensures { TogetherHolds }
{}

/// A derived item is stamped as the oldest value that it is derived from, a state item with the release, and a job reads its
/// own write.
pub fn derived_stamp_holds()
    ensures { DerivedStampHolds }
{}
