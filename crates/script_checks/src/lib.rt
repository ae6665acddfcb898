//! Checks a script before it runs: lines that can't be answered, faulty programs, and binds that grant nothing.
//!
//! ```text
//! let report = check_script(alloc, "rig.script", &mut reader, &config)?;
//! ```
//!
//! [`scripts`] reads a script and reports on it. Who speaks in a line, and whether it is a command, is decided by the same functions with
//! which the host answers the line. `specs/Scripts.antt` says which lines are reported. [`commands`] has the forms of a tenant's commands.
#![tactic(auto)]

mod binds;
pub mod commands;
mod facts;
mod line_texts;
mod lines;
mod operators;
pub mod scripts;
