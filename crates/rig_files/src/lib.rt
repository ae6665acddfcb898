//! The files and standard streams of the subcommands: configurations, scripts and runs that are read, texts that are written, and how a
//! subcommand fails.
//!
//! ```text
//! let input = ScriptInput::of_arguments(rt, Subcommand::Script, request.config, request.input, &outputs)?;
//! let config = read_configuration(rt, input.config(request.config))?;
//! let mut reader = input.reader(rt)?;
//! ```
//!
//! [`configuration`] reads the file of `--config`, [`inputs`] a script, and [`outputs`] writes. A [`faults::SubcommandFault`] also gives the exit
//! status.
#![tactic(auto)]

pub mod configuration;
pub mod faults;
pub mod file_faults;
pub mod inputs;
pub mod outputs;
pub mod replacements;
pub mod systems;
pub mod tenants;
