//! The subcommands `check`, `config` and `audit`: what is wrong with files of programs, configurations, scripts, runs and histories.
//!
//! ```text
//! check_files(&rt, &request)?;
//! ```
//!
//! Each takes the request of its arguments, and ends well or with a [`rig_files::faults::SubcommandFault`].
#![tactic(auto)]

mod checks;
mod configs;
mod histories;
mod notes;

pub use checks::check_files;
pub use configs::run_config;
pub use histories::{head_of_history, run_audit};
pub use notes::print_notes;
