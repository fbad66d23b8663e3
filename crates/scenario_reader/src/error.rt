//! Why a scenario is refused.
ghost use Rattle.std.specs.Prelude.{◌≡◌};
ghost use Rattle.scenario_reader.specs.declared.error.ScenarioError.TheVariants.{OutOfMemory as WantOfMemory};
ghost use Rattle.scenario_reader.specs.Refusals.{error_of, error_of_text};

use rt_base::{OutOfMemory, PlanRefused, TxId};
use scenario_forms::{FormError, Place, TextError};
use thiserror::Error;

/// Why a scenario is refused. The refusals are judged in this order over the whole text, but for OutOfMemory, which may
/// come at any time. Ticks and counts are exact.
#[derive(Clone, Copy, Debug, PartialEq, Eq, Error)]
pub enum ScenarioError {
    /// The bytes have no reading as a JSON value.
    #[error("the text is not JSON")]
    NotJson,
    /// A member is missing or not of its form: the first place in reading order.
    #[error("a member is missing or not of its form")]
    BadField {
        place: Place,
    },
    /// A name in reads, writes, script or a relative set is no item's: the first in reading order.
    #[error("a name is no item's")]
    UnknownName {
        place: Place,
    },
    /// An operation may not stand in its script: it is on an item that is not declared for it, comes before its
    /// transaction's quiet steps are over or after a commit or quit, or is a commit that leaves a declared sensor or
    /// derived write unwritten. The first by transaction, then operation.
    #[error("operation {op} may not stand in its script")]
    BadScript {
        tx: TxId,
        op: usize,
    },
    /// A script has more than 10,000 operations, each compute counted as many: the first by transaction.
    #[error("a script has more than 10,000 operations")]
    TooManySteps {
        tx: TxId,
    },
    /// There are more than 65,536 jobs in all.
    #[error("there are more than 65,536 jobs: {count}")]
    TooManyJobs {
        count: u64,
    },
    /// A release comes less than a period after the one before it, or after 2^40: the first by transaction, then index.
    #[error("release {index} may not be planned")]
    BadRelease {
        tx: TxId,
        index: u32,
        cause: PlanRefused,
    },
    /// The room is above 2^20 entries.
    #[error("the room is above 2^20 entries: {needed}")]
    RoomTooLarge {
        needed: u64,
    },
    /// The greatest fixed release and, for each eager job, the greatest period end above 2^40.
    #[error("the jobs may end after 2^40: {needed}")]
    EagerTooFar {
        needed: u64,
    },
    #[error("out of memory")]
    OutOfMemory,
}

impl From<OutOfMemory> for ScenarioError {
    ghost from_gives = { λ _ e. e ≡ WantOfMemory };

    fn from(_e: OutOfMemory) -> ScenarioError {
        ScenarioError::OutOfMemory
    }
}

impl From<TextError> for ScenarioError {
    ghost from_gives = { λ t e. e ≡ error_of_text t };

    fn from(e: TextError) -> ScenarioError {
        match e {
            TextError::NotJson => ScenarioError::NotJson,
            TextError::OutOfMemory => ScenarioError::OutOfMemory,
        }
    }
}

impl From<FormError> for ScenarioError {
    ghost from_gives = { λ f e. e ≡ error_of f };

    fn from(e: FormError) -> ScenarioError {
        match e {
            FormError::BadField { place } => ScenarioError::BadField { place },
            FormError::OutOfMemory => ScenarioError::OutOfMemory,
        }
    }
}
