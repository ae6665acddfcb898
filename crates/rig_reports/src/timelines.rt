//! The timelines of tenants in a script.

ghost use Rattle.std.specs.Prelude.{[], IfOk};
ghost use Rattle.rig_model.specs.Script.{past_after};
ghost use Rattle.rig_model.specs.TextLines.{cut};
ghost use Rattle.rig_script.specs.BrokenOff.{ForNewHostReading};
ghost use Rattle.rig_script.specs.Courses.{IsCourseOf};

use crate::port_filters::PortFilter;
use crate::runs::{Run, TimelineListener};
use rig_model::config::{Config, TenantId};
use rig_script::courses::Course;
use rig_script::faults::ScriptFault;
use rig_script::heard_without_output;
use std::alloc::{AllocError, Global};
use std::io::Read;
use tenant_timelines::draw;
use tenant_timelines::timelines::Timeline;
use tenant_timelines::windows::Window;

/// What is drawn of a script.
#[derive(Clone, Copy)]
pub struct TimelineForm<'a> {
    /// The tenant; `None` for all that load a program, or the first of the roster if none does.
    pub tenant: Option<TenantId>,
    /// The first drawn tick; `None` for the first of the script.
    pub from: Option<u64>,
    /// The last drawn tick; `None` for the last of the script.
    pub to: Option<u64>,
    /// The names of the drawn sensors, actuators and outputs; none for all sensors and actuators.
    pub ports: &'a [&'a str],
}

/// A timeline, and how its script went.
#[derive(Drop)]
pub struct TimelineText {
    /// In SVG.
    pub picture: String,
    pub course: Course,
    /// A sentence that names the first of the ports that no program has, and those that programs have. `None` if they have all.
    pub unknown_port: Option<String>,
}

/// Draws the timelines of tenants' runs in the script of this reader.
///
/// # Errors
/// As `rig_script::script`.
pub fn timeline<R: Read>(
    alloc: Global,
    reader: &mut R,
    config: &Config,
    form: TimelineForm<'_>,
) -> Result<TimelineText, ScriptFault>
    ensures { IfOk result (λ drawn. ForNewHostReading config.now (R.remaining reader.old) (λ setting bytes.
        IsCourseOf config.now bytes (R.remaining reader.new) (past_after setting [] (cut bytes)) drawn.course)) }
{
    let filter = PortFilter::new(alloc, form.ports)?;
    let listener = TimelineListener::new(alloc, config, form.tenant, filter)?;
    let (listener, course) = heard_without_output(alloc, reader, config, listener)?;
    let unknown_port = listener.ports().unknown(alloc)?;
    Ok(TimelineText {
        picture: picture(alloc, listener.into_runs(), form)?,
        course,
        unknown_port,
    })
}

// The picture of the runs of tenants that had a program, or of the first run if none had one.
fn picture(alloc: Global, runs: Vec<Run>, form: TimelineForm<'_>) -> Result<String, AllocError> {
    let has_program = runs.iter().any(|it| it.timeline().has_program());
    let mut timelines: Vec<Timeline> = Vec::new(alloc);
    let mut instants = 0;
    for run in runs {
        let timeline = run.into_timeline();
        instants = timeline.instants;
        if timeline.has_program() || (!has_program && timelines.is_empty()) {
            timelines.push(timeline)?;
        }
    }
    draw(
        alloc,
        timelines.as_slice(),
        Window::new(form.from, form.to, instants),
    )
}
