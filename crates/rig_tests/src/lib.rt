//! Tests of what only a call shows, on values from outside.
//!
//! Tests of what the built program shows by its lines are in `runs/`, and those of desks, workers and sessions in desk_tests. All are
//! separate from the libraries, so that no library is proved a second time for its tests.
//!
//! A test is proved like any function, and its proof takes longer the more values it holds at a point where it can end. So if something
//! fails that the test isn't about, `expect` or `assert!` ends the test at once, and nothing has to be dropped. What the test is about is
//! returned as a `bool`.
#![tactic(auto)]

#[cfg(test)]
mod bodies_and_drivers;
#[cfg(test)]
mod clocks;
#[cfg(test)]
mod completions;
#[cfg(test)]
mod copies;
#[cfg(test)]
mod fixtures;
#[cfg(test)]
mod memory;
#[cfg(test)]
mod plays;
#[cfg(test)]
mod readers;
#[cfg(test)]
mod steps;
#[cfg(test)]
mod surface;
#[cfg(test)]
mod traces;
#[cfg(test)]
mod trials;
