//! Which tenants of a script need a retest after another one changes.
//!
//! ```text
//! let retests = retests_of(alloc, &mut reader, &config)?;
//! let text = text_of_retests(alloc, &config, &plant, &retests)?;
//! ```
//!
//! [`tables`] answers a script without writing its replies, and records which tenants are sources of which. The commands of a source, and
//! the completions of its jobs, may change the replies to the tenant. [`reaches`] adds what a change can reach through the plant that the
//! configuration declares. [`texts`] prints the table, and [`graphs`] draws what it is made from, the binds and the declared plant, for
//! graphviz.
//!
//! [`trials`] shows the same for one tenant. [`recordings`] has the events of a script. They are run in whole, and again without those
//! that can't reach the tenant. The tenant's answers in both runs are shown side by side.
//!
//! Both have the course of the script. If it was cut off, or no line is a tenant's, the report says less than it seems to.
#![tactic(auto)]

mod chains;
mod columns;
mod direct_binds;
pub mod facts;
mod graphs;
pub mod laws;
mod plant_lines;
pub mod reaches;
mod recordings;
mod routes;
mod summaries;
mod sums;
pub mod tables;
mod texts;
mod trials;

pub use graphs::graph_of_retests;
pub use texts::text_of_retests;
pub use trials::{TrialForm, TrialText, text_of_trial};
