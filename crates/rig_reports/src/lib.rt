//! What a host's answers to a script show: reports of its refusals, overruns and end, and pictures of its run.
//!
//! ```text
//! let strict = strict_script(alloc, &mut reader, &mut writer, &config)?;
//! let replies = answered_run(alloc, &config, run.lines())?;
//! let run = recorded_run(alloc, &mut reader, &config)?;
//! let dump = script_with_dump(alloc, &mut reader, &mut writer, &config, body)?;
//! let picture = timeline(alloc, &mut reader, &config, form)?;
//! ```
//!
//! Each is a listener of `rig_script::heard_script`. [`strict_script`] returns a report about the script, with the [`overruns`] at each
//! instant, [`answered_run`] the replies to the lines of a run, and [`recorded_run`] a script as a run. `specs/inner/Reported.antt` defines what is reported of a line.
//!
//! The pictures ask the tenants the [`questions`] after a line. [`script_with_dump`] writes down what changed at each instant, for all
//! tenants and the rig's lines, with the jobs that [`dump_jobs`] has; [`dump_stamps`] are its stamps. A [`runs::Run`] has what a [`timeline`]
//! draws of one tenant, with its [`tasks`], and [`port_filters`] which ports.
#![tactic(auto)]

mod answered_runs;
mod dump_jobs;
mod dump_stamps;
mod dumps;
mod overruns;
mod port_filters;
pub mod questions;
mod recorded_runs;
mod runs;
mod strict;
mod tasks;
mod timelines;

pub use answered_runs::answered_run;
pub use dumps::{ScriptDump, script_with_dump};
pub use recorded_runs::{RecordedRun, recorded_run};
pub use strict::strict_script;
pub use timelines::{TimelineForm, TimelineText, timeline};
