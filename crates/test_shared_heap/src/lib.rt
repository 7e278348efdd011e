//! Tests of a table that threads share, by real threads: no contract says that a thread runs. Each test ends by itself. Beside them is a
//! call of the engine that no script makes.
//!
//! They stand apart from `shared_heap`, so that neither is checked a second time for the other's sake.
#![tactic(auto)]

#[cfg(test)]
mod lists;
#[cfg(test)]
mod plans;
#[cfg(test)]
mod replay;
#[cfg(test)]
mod rings;
#[cfg(test)]
mod rows;
#[cfg(test)]
mod statuses;
#[cfg(test)]
mod taken;
#[cfg(test)]
mod threads;
