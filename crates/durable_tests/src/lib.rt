//! Tests of a journal on a disk: stopped at each call of its disk once and twice, entries handed to it one by one and as a
//! piece, with a call that fails, and refused.
#![tactic(auto)]

#[cfg(test)]
mod base;
#[cfg(test)]
mod crashes;
#[cfg(test)]
mod pieces;
#[cfg(test)]
mod refusals;
#[cfg(test)]
mod stops;
