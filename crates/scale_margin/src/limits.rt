//! How far the steps of a transaction and the validity of an item may go.
use rt_base::Tick;
use set_admission::AdmitError;

/// The steps of a transaction, up to how many it may grow if all else stays, and what bars one more: None if that is above
/// 10,000. Want of memory bars nothing.
#[derive(Clone, Copy, PartialEq, Eq, Debug)]
pub struct Slack {
    pub steps: u64,
    pub most: u64,
    pub barrier: Option<AdmitError>,
}

/// The validity of an item that somebody reads, and its age bound, to which the validity may fall if all else stays. Both are
/// in ticks.
#[derive(Clone, Copy, PartialEq, Eq, Debug)]
pub struct Spare {
    pub validity: Tick,
    pub age: Tick,
}
