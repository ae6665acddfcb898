//! The files of timelines.

use crate::retests::verdict;
use rig_arguments::requests::TimelineRequest;
use rig_arguments::subcommands::Subcommand;
use rig_files::configuration::read_configuration;
use rig_files::faults::SubcommandFault;
use rig_files::file_faults::PictureFault;
use rig_files::inputs::ScriptInput;
use rig_files::outputs::write_to;
use rig_files::systems::System;
use rig_files::tenants::place_of;
use rig_model::config::Config;
use rig_reports::{TimelineForm, timeline};
use std::alloc::Global;
use std::path::Path;

/// Draws the run of a tenant in a script, or those of all tenants that load a program.
///
/// # Errors
/// - Faults of arguments, of a run, of the configuration and of the script.
/// - `Arguments` if no program has one of the ports, and the script wasn't cut off and had a line of a tenant. No picture is written then.
/// - `Timeline` if the picture can't be written.
/// - `Short` if the script was cut off, or no line was a tenant's. The picture is written then too.
pub fn run_timeline(
    rt: &impl System,
    request: &TimelineRequest<'_>,
) -> Result<(), SubcommandFault> {
    check_ending(rt.alloc(), request.picture)?;
    check_ticks(rt.alloc(), request.from, request.to)?;
    let outputs = [Some(request.picture)];
    let input = ScriptInput::of_arguments(
        rt,
        Subcommand::Timeline,
        request.config,
        request.input,
        &outputs,
    )?;
    let path = input.config(request.config);
    let config = read_configuration(rt, path)?;
    let form = form_of(rt.alloc(), &config, path, request)?;
    let drawn = timeline(rt.alloc(), &mut input.reader(rt)?, &config, form)?;
    if let Some(text) = &drawn.unknown_port
        && drawn.course.shortfall().is_none()
    {
        return Err(SubcommandFault::wrong(rt.alloc(), Subcommand::Timeline, text.as_str()));
    }
    write_to(
        rt,
        request.picture,
        drawn.picture.as_str(),
        SubcommandFault::Picture(PictureFault::Timeline),
    )?;
    verdict(drawn.course)
}

// What is drawn, by the request.
fn form_of<'a>(
    alloc: Global,
    config: &Config,
    path: Option<&str>,
    request: &'a TimelineRequest<'_>,
) -> Result<TimelineForm<'a>, SubcommandFault> {
    let tenant = match request.tenant {
        Some(name) => Some(place_of(alloc, Subcommand::Timeline, config, path, name)?),
        None => None,
    };
    Ok(TimelineForm {
        tenant,
        from: request.from,
        to: request.to,
        ports: request.ports.as_slice(),
    })
}

// Checks that the last tick isn't before the first.
fn check_ticks(alloc: Global, from: Option<u64>, to: Option<u64>) -> Result<(), SubcommandFault> {
    match (from, to) {
        (Some(from), Some(to)) if to < from => {
            let text = format!(in alloc; "the last tick, {to}, is before the first, {from}")?;
            Err(SubcommandFault::wrong(alloc, Subcommand::Timeline, text.as_str()))
        }
        _ => Ok(()),
    }
}

// Checks that the picture isn't written to a file of another kind. A file without an ending is of no kind.
fn check_ending(alloc: Global, picture: &str) -> Result<(), SubcommandFault> {
    match Path::new(picture).extension() {
        Some(ending) if !ending.eq_ignore_ascii_case("svg") => {
            let text = format!(in alloc;
                "the picture is an SVG, and '{picture}' doesn't end with '.svg'"
            )?;
            Err(SubcommandFault::wrong(alloc, Subcommand::Timeline, text.as_str()))
        }
        _ => Ok(()),
    }
}
