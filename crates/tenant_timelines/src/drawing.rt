//! Draws timelines: their parts from top to bottom.

use crate::axes::{draw_axis, draw_grid};
use crate::bands::draw_bands;
use crate::lanes::{draw_ports, draw_tasks};
use crate::legends::Legend;
use crate::mark_rows::{draw_mark_lines, draw_marks, placed_marks};
use crate::ports::{Kind, Range};
use crate::scales::{Scale, part, width_of};
use crate::sheets::Sheet;
use crate::timelines::Timeline;
use crate::windows::Window;
use std::alloc::{AllocError, Global};

// Where the axis of the first timeline is.
const TOP: u64 = 58;

/// The picture of some timelines, one below another, with the same axis of ticks. They are drawn in this part of the run.
///
/// # Errors
/// Out of memory.
pub fn draw(alloc: Global, timelines: &[Timeline], window: Window) -> Result<String, AllocError> {
    let scale = Scale::new(window, names_of(alloc, timelines, window)?);
    let mut legend = Legend::new(alloc);
    let mut drawn = Sheet::new(alloc);
    let mut y = TOP;
    for timeline in timelines {
        if y != TOP {
            drawn.level("rule", y.saturating_sub(30), 16, scale.right())?;
        }
        if timelines.len() > 1 {
            drawn.words("title", 16, y.saturating_add(21), timeline.tenant.as_str())?;
        }
        y = draw_timeline(alloc, &mut drawn, &mut legend, scale, timeline, y)?.saturating_add(30);
    }
    let bottom = y.saturating_sub(30);
    let mut sheet = Sheet::new(alloc);
    sheet.begin(bottom.saturating_add(legend.height()))?;
    draw_title(alloc, &mut sheet, timelines, window)?;
    sheet.add(&drawn)?;
    legend.draw(&mut sheet, scale, bottom)?;
    sheet.end()?;
    Ok(sheet.into_text())
}

// Draws one timeline with its axis, which is at `y`. Returns where it ends.
fn draw_timeline(
    alloc: Global,
    sheet: &mut Sheet,
    legend: &mut Legend,
    scale: Scale,
    timeline: &Timeline,
    y: u64,
) -> Result<u64, AllocError> {
    let mut lanes = Sheet::new(alloc);
    let bottom = draw_lanes(
        alloc,
        &mut lanes,
        legend,
        scale,
        timeline,
        y.saturating_add(64),
    )?;
    let marks = placed_marks(alloc, scale, timeline.marks.as_slice())?;
    draw_grid(alloc, sheet, scale, y.saturating_add(6), bottom)?;
    draw_mark_lines(alloc, sheet, marks.as_slice(), y.saturating_add(17), bottom)?;
    draw_axis(alloc, sheet, scale, y)?;
    draw_marks(alloc, sheet, legend, marks.as_slice(), y.saturating_add(17))?;
    draw_bands(alloc, sheet, legend, scale, timeline, y.saturating_add(28))?;
    sheet.add(&lanes)?;
    Ok(bottom)
}

// Draws the lanes of tasks and ports. Returns where they end.
fn draw_lanes(
    alloc: Global,
    sheet: &mut Sheet,
    legend: &mut Legend,
    scale: Scale,
    timeline: &Timeline,
    y: u64,
) -> Result<u64, AllocError> {
    let mut y = draw_tasks(alloc, sheet, legend, scale, timeline.tasks.as_slice(), y)?;
    for kind in [Kind::Sensor, Kind::Output, Kind::Actuator] {
        y = draw_ports(alloc, sheet, scale, timeline.ports.as_slice(), kind, y)?;
    }
    Ok(y)
}

// Draws the title, which says whose run it is.
fn draw_title(
    alloc: Global,
    sheet: &mut Sheet,
    timelines: &[Timeline],
    window: Window,
) -> Result<(), AllocError> {
    let title = match timelines.first() {
        Some(timeline) if timelines.len() == 1 => String::from_str(
            alloc,
            timeline.tenant.as_str(),
        )?,
        _ => format!(in alloc; "{} tenants", timelines.len())?,
    };
    sheet.words("title", 16, 28, title.as_str())?;
    let note = note_of(alloc, window)?;
    let wide = part(width_of(title.as_str()).saturating_mul(4), 3);
    sheet.words("note", wide.saturating_add(32), 28, note.as_str())
}

// What the picture shows, in a sentence.
fn note_of(alloc: Global, window: Window) -> Result<String, AllocError> {
    let Window { first, next } = window;
    if first < next {
        let last = next.saturating_sub(1);
        return format!(in alloc; "ticks {first} to {last}: values are those after each tick");
    }
    if first == 0 {
        String::from_str(alloc, "before the first instant")
    } else {
        format!(in alloc; "no tick from {first} on")
    }
}

// The width of the names next to the lanes, with the ranges below them.
fn names_of(alloc: Global, timelines: &[Timeline], window: Window) -> Result<u64, AllocError> {
    let mut widest = width_of("actuators");
    for timeline in timelines {
        if timelines.len() > 1 {
            let title = width_of(timeline.tenant.as_str()).saturating_mul(4);
            widest = widest.max(part(title, 3));
        }
        for task in &timeline.tasks {
            widest = widest.max(width_of(task.name.as_str()));
        }
        widest = widest.max(ports_of(alloc, timeline, window)?);
    }
    Ok(widest)
}

// The width of the names of ports, with the ranges below them.
fn ports_of(alloc: Global, timeline: &Timeline, window: Window) -> Result<u64, AllocError> {
    let mut widest = 0;
    for port in &timeline.ports {
        widest = widest.max(width_of(port.name.as_str()));
        let drawn = port.drawn(alloc, window)?;
        if let Some(range) = Range::of_axis(drawn.as_slice()) {
            let text = range.text(alloc)?;
            widest = widest.max(width_of(text.as_str()));
        }
    }
    Ok(widest)
}
