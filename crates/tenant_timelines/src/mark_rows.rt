//! What happens to a tenant, as marks above its bands. A mark is always at its place, however many there are.

use crate::legends::Legend;
use crate::marks::{Mark, Marked};
use crate::scales::{Scale, WIDTH, width_of};
use crate::sheets::Sheet;
use std::alloc::{AllocError, Global};

// The least distance of two figures of marks.
const FIGURE: u64 = 11;

/// A mark and where it is in the picture.
#[derive(Clone, Copy)]
pub struct PlacedMark {
    mark: Mark,
    x: u64,
    // Where the mark before it is, if there is one.
    before: Option<u64>,
    // Where the next mark is, or where the picture ends.
    after: u64,
}

impl PlacedMark {
    // Whether there is space for its word.
    fn has_room(self) -> bool {
        let words = width_of(self.mark.as_str());
        self.x.saturating_add(words).saturating_add(18) <= self.after
    }

    // Whether there is space for its figure.
    fn is_alone(self) -> bool {
        let is_after = match self.before {
            Some(before) => self.x.saturating_sub(before) >= FIGURE,
            None => true,
        };
        is_after && self.after.saturating_sub(self.x) >= FIGURE
    }
}

/// The marks of a run that are drawn, each at its place.
///
/// # Errors
/// Out of memory.
pub fn placed_marks(
    alloc: Global,
    scale: Scale,
    marks: &[Marked],
) -> Result<Vec<PlacedMark>, AllocError> {
    let window = scale.window();
    let mut placed: Vec<PlacedMark> = Vec::new(alloc);
    for marked in marks {
        if window.has(marked.place) {
            let x = scale.x(marked.place);
            let mut before = None;
            if let Some(last) = placed.as_mut_slice().last_mut() {
                before = Some(last.x);
                last.after = x;
            }
            let mark = marked.mark;
            placed.push(PlacedMark {
                mark,
                x,
                before,
                after: WIDTH,
            })?;
        }
    }
    Ok(placed)
}

/// Draws the marks around `y`: a stroke for each, then figures and words where there is space. An overrun has a figure where another
/// mark is near, too.
///
/// # Errors
/// Out of memory.
pub fn draw_marks(
    alloc: Global,
    sheet: &mut Sheet,
    legend: &mut Legend,
    marks: &[PlacedMark],
    y: u64,
) -> Result<(), AllocError> {
    draw_strokes(alloc, sheet, marks, y)?;
    for placed in marks {
        if placed.is_alone() {
            draw_figure(sheet, placed.mark, placed.x, y)?;
        }
        if placed.has_room() {
            let x = placed.x.saturating_add(9);
            sheet.words("note", x, y.saturating_add(4), placed.mark.as_str())?;
        } else {
            legend.add_mark(placed.mark)?;
        }
    }
    draw_crowded_overruns(sheet, marks, y)
}

// Draws a stroke for each mark that has no space for its figure.
fn draw_strokes(
    alloc: Global,
    sheet: &mut Sheet,
    marks: &[PlacedMark],
    y: u64,
) -> Result<(), AllocError> {
    for mark in Mark::ALL {
        let mut places = Vec::new(alloc);
        for placed in marks {
            if placed.mark == mark && !placed.is_alone() {
                places.push(placed.x)?;
            }
        }
        let top = y.saturating_sub(7);
        let commands = uprights(alloc, places.as_slice(), top, y.saturating_add(9))?;
        sheet.line(stroke_of(mark), commands.as_str())?;
    }
    Ok(())
}

// Draws the figures of overruns that have another mark near, as far as the figures don't overlap.
fn draw_crowded_overruns(
    sheet: &mut Sheet,
    marks: &[PlacedMark],
    y: u64,
) -> Result<(), AllocError> {
    let mut free = 0;
    for placed in marks {
        if placed.mark == Mark::Overrun && !placed.is_alone() && free <= placed.x {
            draw_figure(sheet, Mark::Overrun, placed.x, y)?;
            free = placed.x.saturating_add(FIGURE);
        }
    }
    Ok(())
}

/// Draws a line from `top` to `bottom` below each mark that has space for a figure, and below each overrun.
///
/// # Errors
/// Out of memory.
pub fn draw_mark_lines(
    alloc: Global,
    sheet: &mut Sheet,
    marks: &[PlacedMark],
    top: u64,
    bottom: u64,
) -> Result<(), AllocError> {
    for mark in Mark::ALL {
        let mut places = Vec::new(alloc);
        for placed in marks {
            if placed.mark == mark && (placed.is_alone() || mark == Mark::Overrun) {
                places.push(placed.x)?;
            }
        }
        let commands = uprights(alloc, places.as_slice(), top, bottom)?;
        sheet.line(line_of(mark), commands.as_str())?;
    }
    Ok(())
}

// The commands of a path with a stroke from top to bottom at each of these places. Those at one pixel have one.
fn uprights(alloc: Global, places: &[u64], top: u64, bottom: u64) -> Result<String, AllocError> {
    let mut commands = String::new(alloc);
    let mut drawn = None;
    for x in places {
        if drawn != Some(*x) {
            write!(commands, "M{x} {top}V{bottom}")?;
            drawn = Some(*x);
        }
    }
    Ok(commands)
}

/// Draws the figure of a mark around this point.
///
/// # Errors
/// Out of memory.
pub fn draw_figure(sheet: &mut Sheet, mark: Mark, x: u64, y: u64) -> Result<(), AllocError> {
    let commands = match mark {
        Mark::Start => "m-4 -5l9 5l-9 5z",
        Mark::Switch => "m0 -6l5 6l-5 6l-5 -6z",
        Mark::Replaced => "m-5 0a5 5 0 1 0 10 0a5 5 0 1 0 -10 0z",
        Mark::Stop => "m-4.5 -4.5h9v9h-9z",
        Mark::Overrun => "m-5 -3l2 -2l3 3l3 -3l2 2l-3 3l3 3l-2 2l-3 -3l-3 3l-2 -2l3 -3z",
    };
    sheet.figure(mark.as_str(), x, y, commands)
}

// The look of the line below a mark.
fn line_of(mark: Mark) -> &'static str {
    match mark {
        Mark::Start => "at-start",
        Mark::Switch => "at-switch",
        Mark::Replaced => "at-replaced",
        Mark::Stop => "at-stop",
        Mark::Overrun => "at-overrun",
    }
}

// The look of the stroke of a mark.
fn stroke_of(mark: Mark) -> &'static str {
    match mark {
        Mark::Start => "on-start",
        Mark::Switch => "on-switch",
        Mark::Replaced => "on-replaced",
        Mark::Stop => "on-stop",
        Mark::Overrun => "on-overrun",
    }
}
