//! The last records of a tenant.
//!
//! A [`traces::Trace`] has space for a number of records that is fixed when it is made. A record that is pushed to a full trace
//! takes the place of the oldest. `specs/cited/Noted.antt` says what a trace keeps.
#![tactic(auto)]

pub mod laws;
pub mod records;
mod same;
pub mod traces;
