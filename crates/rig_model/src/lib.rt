//! The model: what has to be believed of a rig, in one place.
//!
//! A tenant is a `Row`. Commands, the two halves of an instant and a replacement are steps from row to row. Together with a tenant's own
//! events they are the one-tenant machine. A host has a row for each tenant. A list of its events gives each tenant its view, its answers
//! and its sources. The lines of a script spell such a list. All definitions are in `specs/`, one file for each topic; docs/READING.md
//! lists the files in reading order.
//!
//! The crate has no code but the types that the definitions use, with their copies: [`jobs::JobId`], [`events::Event`],
//! [`logged::Logged`], the [`limits`] of lines, the [`speakers`] of a script's lines, and the forms of an operator's lines
//! ([`operator_lines`]).
//!
//! The crate `rig_laws` has what follows from the definitions. The crates that run tenants keep to them.
#![tactic(auto)]

pub mod events;
pub mod frames;
pub mod jobs;
pub mod limits;
pub mod logged;
pub mod operator_lines;
mod same;
pub mod speakers;

pub use giotto_rules as rules;
pub use giotto_rules::text;
pub use tenant_lines as lines;
pub use tenant_lines::{config, grants, trace};
