//! Tests of the tables of the core: waits, locks, the running job, planned releases, commits, the pending jobs, and the state
//! over them. Each is worked by hand, and compared with a plain scan. Besides, tests over an admitted core, on which nobody is
//! late.
#![tactic(auto)]

#[cfg(test)]
mod admitted;
#[cfg(test)]
mod calendar;
#[cfg(test)]
mod commits;
#[cfg(test)]
mod locks;
#[cfg(test)]
mod pending;
#[cfg(test)]
mod tables;
#[cfg(test)]
mod trio;
#[cfg(test)]
mod waits;
