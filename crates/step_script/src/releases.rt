//! Releases.
ghost use Rattle.std.specs.Prelude.{◌≡◌, ◌≤◌, ◌<◌, ◌^◌, IsTrue};
ghost use Rattle.step_script.specs.Releases.{jobs_of, release_at, is_eager as is_eager_one};

use rt_base::{List, Tick};
use txn_set::TxnDecl;

/// The releases of a transaction's jobs.
#[derive(Drop)]
pub enum Releases {
    /// At these ticks.
    At(List<Tick>),
    /// So many, the k-th, from 0 on, at the k-th periodic release.
    Jobs(u32),
    /// So many, each planned when the one before it has ended.
    Eager(u32),
}

impl Releases {
    /// How many jobs there are, eager ones too.
    pub fn jobs(&self) -> u32
        requires { jobs_of self.now < 2 ^ 32 }
        ensures { result ≡ jobs_of self.now }
    {
        match self {
            Releases::At(ticks) => ticks.as_slice().len() as u32,
            Releases::Jobs(n) | Releases::Eager(n) => *n,
        }
    }

    /// Whether the jobs are eager.
    pub fn is_eager(&self) -> bool
        ensures { result ≡ is_eager_one self.now }
    {
        match self {
            Releases::Eager(_) => true,
            Releases::At(_) | Releases::Jobs(_) => false,
        }
    }

    /// The tick at which a job of the transaction is planned, by one look-up or one product.
    pub fn tick(&self, txn: &TxnDecl, index: u32) -> Tick
        requires fixed { IsTrue (is_eager_one self.now) → ⊥ }
        requires in_range { index < jobs_of self.now }
        requires jobs { jobs_of self.now ≤ 65536 }
        requires offset { txn.now.offset ≤ 2 ^ 40 }
        requires period { txn.now.period ≤ 2 ^ 40 }
        ensures { result ≡ release_at txn.now self.now index }
    {
        match self {
            Releases::At(ticks) => ticks.as_slice()[index as usize],
            Releases::Jobs(_) => txn.periodic_release(u64::from(index)),
            Releases::Eager(_) => 0,
        }
    }
}
