//! How many workers run a workload.
ghost use Rattle.std.specs.Prelude.{◌≡◌, ◌≤◌};
ghost use Rattle.sim_run.specs.Workers.{workers_of};

use std::marker::Model;

// The most workers of a run.
const MOST: u32 = 64;

/// How many workers run a workload, from 1 to 64. Contracts see the number.
#[derive(Clone, Copy, Debug, PartialEq, Eq)]
pub struct Workers {
    number: u32,
}

impl Model for Workers {
    ghost use Rattle.std.specs.Prelude.{ℕ, ◌≤◌};

    ghost Value = { ℕ };

    ghost view = { λ w. w.number };

    ghost inverse = { λ n. record { number = n } };

    ghost invariant = { λ w. (1 ≤ w.number) × (w.number ≤ 64) };
}

impl Workers {
    /// One worker.
    pub const ONE: Workers = Workers { number: 1 };

    /// So many workers; None for 0, and for more than 64.
    pub fn new(number: u32) -> Option<Workers>
        ensures { result ≡ workers_of number }
    {
        if 1 <= number && number <= MOST {
            Some(Workers { number })
        } else {
            None
        }
    }

    /// Their number.
    pub fn get(self) -> u32
        ensures number { result ≡ self }
        ensures in_range { (1 ≤ result) × (result ≤ 64) }
    {
        self.number
    }
}
