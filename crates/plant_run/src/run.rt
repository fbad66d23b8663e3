//! What is run.
ghost use Rattle.std.specs.Prelude.{◌≡◌, ℕ, ◌<◌, true, false};
ghost use Rattle.plant_run.specs.Ready.{eager_jobs_in};

use rt_base::{List, Tick};
use sim_run::Workers;
use step_journal::Entry;

/// A workload that workers are to run, once, on a board that has no history yet. Each list has a place for each transaction
/// of the board's set.
#[derive(Drop)]
pub struct Run<'a, B, Y> {
    pub board: B,
    pub bodies: Vec<Y>,
    /// The ticks of each transaction's releases.
    pub ticks: &'a [List<Tick>],
    /// How many jobs each transaction plans itself, which has no release then; 0 where it is not eager.
    pub eager_jobs: &'a [u32],
    pub workers: Workers,
    /// A place for all entries that the board keeps; it holds none.
    pub spare: Vec<Entry>,
}

impl<B, Y> Run<'_, B, Y> {
    /// Whether no transaction plans a job itself. It looks at each of them.
    pub fn is_fixed(&self) -> bool
        ensures fixed { result ≡ true → (tx : ℕ) → eager_jobs_in self.now tx ≡ 0 }
        ensures eager { result ≡ false → (tx : ℕ) × (0 < eager_jobs_in self.now tx) }
    {
        for jobs in self.eager_jobs {
            if *jobs > 0 {
                return false;
            }
        }
        true
    }
}
