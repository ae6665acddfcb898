//! Scripts: the lines of a reader, each answered before the next one is read.
//!
//! ```text
//! script(alloc, &mut reader, &mut writer, &config)?;
//! let heard = heard_script(alloc, &mut reader, &mut writer, host, listener)?;
//! ```
//!
//! [`script`] answers the lines with a new host. [`heard_script`] does the same, and lets a listener hear each line once it is answered: its
//! number, its speaker, its text, the reply and the events ([`listeners`]). It returns how the script went, too ([`courses`]).
//! [`heard_without_output`] is for a listener alone: it writes no replies. [`add_line_values`] is the reply to `op lines`.
//!
//! In the crate `rig_model`, `TextLines.antt` defines how bytes are cut into lines, and `Script.antt` the answers to a script.
//! `specs/Given.antt` defines which lines are answered and which line ends a script, `specs/BrokenOff.antt` what was written before a fault,
//! and `specs/cited/Heard.antt` what a listener hears. The lines are those of the crate `text_lines`.
#![tactic(auto)]

mod answers;
pub mod courses;
pub mod faults;
mod hearing;
mod host_answers;
pub mod listeners;
mod records;
pub mod speakers;

pub use hearing::{Heard, heard_script, heard_without_output};
pub use host_answers::{add_line_values, script};
