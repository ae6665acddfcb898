//! Tests of what only a call shows of desks, workers and sessions. rig_tests says how tests are written.
#![tactic(auto)]

#[cfg(test)]
mod archives;
#[cfg(test)]
mod desks;
#[cfg(test)]
mod fixtures;
#[cfg(test)]
mod late_jobs;
#[cfg(test)]
mod pools;
#[cfg(test)]
mod sessions;
#[cfg(test)]
mod shown;
#[cfg(test)]
mod suppliers;
#[cfg(test)]
mod threads;
