//! The transactions of a set at a percentage of its steps.
ghost use Rattle.std.specs.Prelude.{◌≡◌, ◌≤◌, map, IfOk};
ghost use Rattle.std.specs.List.{All};
ghost use Rattle.scale_margin.specs.Scaled.{steps_at as steps_at_percent, scaled_txn as txn_at_percent};

use rt_base::OutOfMemory;
use std::alloc::Global;
use txn_compiler::TxnDecl;

fn steps_at(percent: u32, steps: u64) -> u64
    requires percent { percent ≤ 1000 }
    requires steps { steps ≤ 10000 }
    ensures { result ≡ steps_at_percent percent steps }
{
    (steps * u64::from(percent)).div_ceil(100)
}

fn scaled_txn(alloc: Global, txn: &TxnDecl, percent: u32) -> Result<TxnDecl, OutOfMemory>
    requires percent { percent ≤ 1000 }
    requires steps { txn.now.steps ≤ 10000 }
    ensures { IfOk result (λ scaled. scaled ≡ txn_at_percent percent txn.now) }
{
    let steps = steps_at(percent, txn.steps);
    let mut scaled = txn.copy(alloc)?;
    scaled.steps = steps;
    scaled.quiet = txn.quiet.min(steps.saturating_sub(1));
    Ok(scaled)
}

/// The transactions with this percentage of their steps.
pub fn scaled_txns(
    alloc: Global,
    txns: &[TxnDecl],
    percent: u32,
) -> Result<Vec<TxnDecl>, OutOfMemory>
    requires percent { percent ≤ 1000 }
    requires steps { All (λ t. t.steps ≤ 10000) txns.now }
    ensures { IfOk result (λ scaled. scaled.items ≡ map (txn_at_percent percent) txns.now) }
{
    let mut scaled = Vec::with_capacity(alloc, txns.len())?;
    for txn in txns {
        scaled.push(scaled_txn(alloc, txn, percent)?)?;
    }
    Ok(scaled)
}
