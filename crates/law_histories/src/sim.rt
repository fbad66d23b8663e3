//! The run of a workload as a relation on histories, and that there is one such history at most.
ghost use Rattle.std.specs.Prelude.{◌≡◌};
ghost use Rattle.law_histories.specs.Sim.{OneSim};

/// A workload has one run at most: two histories that both run it are equal.
pub fn one_run_at_most()
    ensures { OneSim }
{}
