//! The subcommands that answer scripts: `script`, `test`, `timeline`, `retest`, `trial` and `compare`.
//!
//! ```text
//! run_script(&rt, &request)?;
//! ```
//!
//! Each takes the request of its arguments, and ends well or with a [`rig_files::faults::SubcommandFault`].
#![tactic(auto)]

mod comparisons;
mod dumps;
mod pictures;
mod retests;
mod scripts;
mod tested_runs;

pub use comparisons::run_compare;
pub use pictures::run_timeline;
pub use retests::{run_retest, run_trial};
pub use scripts::run_script;
pub use tested_runs::run_test;
