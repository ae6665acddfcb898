//! Reports on a script: its refusals, its overruns, where it was cut off, and what differs from the replies that it should get.
//!
//! ```text
//! let run = read_run(alloc, text)?;
//! let differences = text_of_differences(alloc, "adder.run", run.lines(), replies.as_slice())?;
//! ```
//!
//! A [`reports::Report`] has what went wrong in the lines of a script, line by line. [`runs`] reads a script with the replies that it should get. [`differences`] compares these with the replies that
//! came, [`suites`] writes the comparison for a CI server, and [`updates`] puts the replies that came into the run.
#![tactic(auto)]

pub mod differences;
pub mod reports;
pub mod runs;
pub mod suites;
pub mod updates;
