//! Value change dumps: the tenants and the lines of a rig, in the format of IEEE 1364.
//!
//! ```text
//! let mut dump = Dump::new(alloc);
//! dump.add_tenant(alloc, &name)?;
//! dump.begin(&mut text)?;
//! scope.write_status(alloc, &mut text, status)?;
//! dump.end(&mut text)?;
//! let head = dump.head(alloc, TIMESCALE)?;
//! ```
//!
//! [`dumps`] has a dump without what changed after its first stamp, which the caller keeps. [`scopes`] has the variables of a tenant, with those
//! of its [`ports`] and tasks, [`rigs`] those of the rig's lines, and [`variables`] one of these. [`timescales`] are the durations that a tick
//! may have. [`views`] has what a tenant shows. `specs/inner/Lines.antt` defines the line of a value, the names of variables and the
//! timescales.
#![tactic(auto)]

pub mod dumps;
pub mod ports;
pub mod rigs;
pub mod scopes;
pub mod timescales;
mod variables;
pub mod views;
