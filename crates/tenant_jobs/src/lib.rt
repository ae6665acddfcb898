//! Jobs: the computations that an instant releases, and their results.
//!
//! A [`jobs::Job`] is one computation of a task, with the task's inputs and states at its release. It can run anywhere, and at
//! any time until its deadline. [`jobs::run_job`] returns its [`jobs::Done`], whose values are those of the computation. The
//! tenant and its host decide which completion counts. [`finished::Finished`] is the table of the active tasks of all tenants,
//! with the results that came.
//!
//! Job names come from the crate `rig_model`. `specs/` defines what contracts see of a job, of a list of jobs and of the table.
#![tactic(auto)]

mod entries;
pub mod finished;
pub mod jobs;
