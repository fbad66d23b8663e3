//! Tests of runs and of what threads share: a run on one board, runs by workers, and the turn between two seats.
#![tactic(auto)]

#[cfg(test)]
mod alone;
#[cfg(test)]
mod steady;
#[cfg(test)]
mod turn;
#[cfg(test)]
mod workers;
