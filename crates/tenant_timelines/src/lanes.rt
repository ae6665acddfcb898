//! The lanes of tasks and ports.

use crate::densities::Density;
use crate::jobs::{JobBar, Outcome, TaskLane, is_narrow};
use crate::legends::Legend;
use crate::places::Place;
use crate::ports::{Held, Kind, PortLane, Range};
use crate::scales::{Scale, Stretch, width_of};
use crate::sheets::{Area, Sheet};
use crate::steps::StepLine;
use std::alloc::{AllocError, Global};

// The heights of lanes, and of the head above a group of lanes.
const TASK: u64 = 34;

const PORT: u64 = 44;

const HEAD: u64 = 22;

// The least width of a job on which a point is drawn.
const LEAST_WITH_POINT: u64 = 14;

// The height of a port's steps.
const STEPS: u64 = 18;

/// Draws a lane for each task, from `y` on. Returns where the lanes end.
///
/// # Errors
/// Out of memory.
pub fn draw_tasks(
    alloc: Global,
    sheet: &mut Sheet,
    legend: &mut Legend,
    scale: Scale,
    tasks: &[TaskLane],
    y: u64,
) -> Result<u64, AllocError> {
    if tasks.is_empty() {
        return Ok(y);
    }
    draw_head(sheet, scale, "TASKS", y)?;
    let mut y = y.saturating_add(HEAD);
    for task in tasks {
        draw_name(sheet, scale, task.name.as_str(), y.saturating_add(19))?;
        draw_task(alloc, sheet, legend, scale, task, y)?;
        y = y.saturating_add(TASK);
    }
    Ok(y)
}

// Draws the jobs of a task.
fn draw_task(
    alloc: Global,
    sheet: &mut Sheet,
    legend: &mut Legend,
    scale: Scale,
    task: &TaskLane,
    y: u64,
) -> Result<(), AllocError> {
    let mut density = Density::new(alloc, scale)?;
    let name = task.name.as_str();
    for job in task.jobs.iter().chain(task.open.iter()) {
        if let Some(stretch) = scale.stretch(Place::of_instant(job.tick), job.until()) {
            let stretch = inner(stretch);
            if is_narrow(stretch.width()) {
                density.add(job)?;
            } else {
                legend.has_boxes = true;
                draw_job(alloc, sheet, scale, name, job, stretch, y)?;
            }
        }
    }
    if density.is_empty() {
        return Ok(());
    }
    legend.has_dense = true;
    density.draw(alloc, sheet, name, y)
}

// What a job's box takes of its stretch: a pixel is left free at each end.
fn inner(stretch: Stretch) -> Stretch {
    Stretch {
        left: stretch.left.saturating_add(1),
        right: stretch.right.saturating_sub(1),
    }
}

/// Draws a lane for each port of this kind, from `y` on. Returns where the lanes end.
///
/// # Errors
/// Out of memory.
pub fn draw_ports(
    alloc: Global,
    sheet: &mut Sheet,
    scale: Scale,
    ports: &[PortLane],
    kind: Kind,
    y: u64,
) -> Result<u64, AllocError> {
    if !ports.iter().any(|it| it.kind == kind) {
        return Ok(y);
    }
    draw_head(sheet, scale, head_of(kind), y)?;
    let mut y = y.saturating_add(HEAD);
    for port in ports {
        if port.kind == kind {
            draw_port(alloc, sheet, scale, port, y)?;
            y = y.saturating_add(PORT);
        }
    }
    Ok(y)
}

fn head_of(kind: Kind) -> &'static str {
    match kind {
        Kind::Sensor => "SENSORS",
        Kind::Output => "OUTPUTS",
        Kind::Actuator => "ACTUATORS",
    }
}

fn class_of(kind: Kind) -> &'static str {
    match kind {
        Kind::Sensor => "sensor",
        Kind::Output => "output",
        Kind::Actuator => "actuator",
    }
}

// Draws the head above a group of lanes.
fn draw_head(sheet: &mut Sheet, scale: Scale, head: &str, y: u64) -> Result<(), AllocError> {
    sheet.level("rule", y, 16, scale.right())?;
    sheet.words("head", 16, y.saturating_add(15), head)
}

// Draws the name of a lane.
fn draw_name(sheet: &mut Sheet, scale: Scale, name: &str, y: u64) -> Result<(), AllocError> {
    sheet.words("name", scale.left().saturating_sub(12), y, name)
}

// Draws the box of a job, from its release to its end.
fn draw_job(
    alloc: Global,
    sheet: &mut Sheet,
    scale: Scale,
    task: &str,
    job: &JobBar,
    stretch: Stretch,
    y: u64,
) -> Result<(), AllocError> {
    let title = title_of(alloc, task, job)?;
    let area = Area {
        x: stretch.left,
        y: y.saturating_add(4),
        width: stretch.width(),
        height: 22,
    };
    sheet.area(look_of(job), area, title.as_str())?;
    draw_values(sheet, job, stretch, y.saturating_add(19))?;
    if let Some(place) = job.worked
        && area.width >= LEAST_WITH_POINT
        && scale.window().has(place)
    {
        sheet.point("worked", scale.x(place), y.saturating_add(26), "worked")?;
    }
    Ok(())
}

// The look of a job, by its outcome.
fn look_of(job: &JobBar) -> &'static str {
    match &job.end {
        None => "open",
        Some(end) => match &end.outcome {
            Outcome::Written(_) => "job",
            Outcome::Missed => "late",
            Outcome::Dropped => "dropped",
        },
    }
}

// Draws a job's inputs and result, as far as they fit: with the ports' names, without them, or the result alone.
fn draw_values(
    sheet: &mut Sheet,
    job: &JobBar,
    stretch: Stretch,
    y: u64,
) -> Result<(), AllocError> {
    let room = stretch.width();
    let named = (job.inputs.named.as_str(), job.result());
    let bare = (job.inputs.bare.as_str(), job.bare_result());
    let (inputs, result) = if room_of(named.0, named.1) <= room {
        named
    } else if room_of(bare.0, bare.1) <= room {
        bare
    } else if room_of("", bare.1) <= room {
        ("", bare.1)
    } else {
        ("", "")
    };
    if !inputs.is_empty() {
        sheet.words("read", stretch.left.saturating_add(6), y, inputs)?;
    }
    if !result.is_empty() {
        sheet.words("written", stretch.right.saturating_sub(6), y, result)?;
    }
    Ok(())
}

// The width that a job needs for these words.
fn room_of(inputs: &str, outcome: &str) -> u64 {
    let words = width_of(inputs).saturating_add(width_of(outcome));
    let gap = if inputs.is_empty() || outcome.is_empty() {
        10
    } else {
        20
    };
    words.saturating_add(gap)
}

// The title of a job, which has all that is known of it.
fn title_of(alloc: Global, task: &str, job: &JobBar) -> Result<String, AllocError> {
    let tick = job.tick;
    let deadline = job.deadline;
    let inputs = job.inputs.named.as_str();
    let mut title = format!(in alloc; "{task} released at tick {tick}")?;
    if !inputs.is_empty() {
        write!(title, " with {inputs}")?;
    }
    write!(title, "; deadline tick {deadline}")?;
    let result = job.result();
    if !result.is_empty() {
        write!(title, ": {result}")?;
    }
    Ok(title)
}

// Draws a port: its name, the range of its values, and the values.
fn draw_port(
    alloc: Global,
    sheet: &mut Sheet,
    scale: Scale,
    port: &PortLane,
    y: u64,
) -> Result<(), AllocError> {
    draw_name(sheet, scale, port.name.as_str(), y.saturating_add(25))?;
    let drawn = port.drawn(alloc, scale.window())?;
    let Some(range) = Range::of_axis(drawn.as_slice()) else {
        return Ok(());
    };
    let text = range.text(alloc)?;
    let x = scale.left().saturating_sub(12);
    sheet.words("range name", x, y.saturating_add(38), text.as_str())?;
    let line = line_of(alloc, scale, drawn.as_slice(), range, y)?;
    sheet.line(class_of(port.kind), line.as_str())?;
    draw_values_of_port(alloc, sheet, scale, drawn.as_slice(), y.saturating_add(13))
}

// The line of a port's values. A value off the axis interrupts it.
fn line_of(
    alloc: Global,
    scale: Scale,
    drawn: &[Held],
    range: Range,
    y: u64,
) -> Result<StepLine, AllocError> {
    let mut line = StepLine::new(alloc);
    let mut end = Place::begin();
    for held in drawn {
        if held.span.from != end || !range.has(held.value) {
            line.end(scale.x(end))?;
        }
        if range.has(held.value) {
            let height = range.height(held.value, STEPS);
            let level = y.saturating_add(36).saturating_sub(height);
            line.go(scale.x(held.span.from), level)?;
        }
        end = held.span.until;
    }
    line.end(scale.x(end))?;
    Ok(line)
}

// Draws each value above the line where it begins, if it fits.
fn draw_values_of_port(
    alloc: Global,
    sheet: &mut Sheet,
    scale: Scale,
    drawn: &[Held],
    y: u64,
) -> Result<(), AllocError> {
    for held in drawn {
        let left = scale.x(held.span.from);
        let room = scale.x(held.span.until).saturating_sub(left);
        // A digit with its margins takes more than 12 pixels.
        if room > 12 {
            let text = format!(in alloc; "{}", held.value)?;
            if width_of(text.as_str()).saturating_add(6) <= room {
                sheet.words("value", left.saturating_add(4), y, text.as_str())?;
            }
        }
    }
    Ok(())
}
