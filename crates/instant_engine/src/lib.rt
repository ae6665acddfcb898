//! An instant of all tenants of a host: the first half of each, then all granted values, and then the second half of each.
//!
//! [`instants::instant`] goes from one instant to the next. The results of completed jobs are in one table of all active tasks,
//! [`finished::Finished`], and in no tenant. An instant reads the results of the tasks that end, removes the entries of those that
//! ended, and enters the tasks that it released.
//!
//! `Instants.antt` and `Granted.antt` of the crate `rig_model` define what an instant of all tenants is for each of them, and what is
//! granted between its halves. `specs/Tenants.antt` has the definitions about all tenants together.
//!
//! The jobs and that table are those of `tenant_jobs`, and are exported here too.
#![tactic(auto)]

pub mod grants;
pub mod instants;

pub use tenant_jobs::finished::Finished;
pub use tenant_jobs::jobs::{Done, Job, JobId, Jobs, run_job};
