//! The rows with which a tenant grants values to others, and takes values from others.
//!
//! An offer lets another tenant bind one of the owner's actuators. A bind gives one of the owner's sensors the value of another
//! tenant's actuator.
//!
//! [`grants::Grants`] has the rows of one owner. It knows names but no programs, and doesn't look at other tenants' rows. Whether a
//! value passes is decided where both sides are available. `specs/Grants.antt` says how the four commands change the rows;
//! `proofs/GrantExamples.antt` has examples.
#![tactic(auto)]

pub mod faults;
pub mod granted;
pub mod grants;
pub mod laws;
pub mod rows;
mod same;
mod tables;

pub use rig_config as config;
