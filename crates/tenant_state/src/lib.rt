//! One tenant: its program, its active tasks, its commands, and its part of an instant.
//!
//! A command, the first half of an instant, and its second half each take a [`tenants::Tenant`] from one row to the next. The
//! results of its jobs are in the table of the active tasks of all tenants, which the caller passes. The crate `rig_model`
//! defines the rows and the steps: start with `Row.antt`, then read `Commands.antt`, `FirstHalf.antt` and `SecondHalf.antt`. In
//! this crate, `specs/` defines which rows a tenant represents, in `Standing.antt` and `Tenants.antt`, which jobs its active
//! tasks have, in `Jobs.antt`, and which commands take memory, in `Memory.antt`.
//!
//! A tenant keeps the values of its ports in one list, by the slots of its checked program. It keeps its tasks and its mode by
//! their places in the program. An instant goes through the timetables of the mode, with the steps of `tenant_slots`.
//!
//! Commands and replies come from `tenant_lines`, and jobs and their table from `tenant_jobs`. Both are re-exported here.
#![tactic(auto)]

pub mod tenants;

pub use rig_model::lines::command_lines::{LineFault, command_of};
pub use rig_model::lines::commands::Command;
pub use rig_model::lines::replies::{Reply, print_reply};
pub use tenant_jobs::finished::Finished;
pub use tenant_jobs::jobs::{Done, Job, JobId, Jobs, run_job};
