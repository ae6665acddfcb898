//! What the tenant is doing, as bands.

use crate::legends::Legend;
use crate::marks::{Band, Doing};
use crate::places::Place;
use crate::scales::{Scale, Stretch, width_of};
use crate::sheets::{Area, Sheet};
use crate::timelines::Timeline;
use giotto_tasks::names::Name;
use std::alloc::{AllocError, Global};

// How high a band is.
const HEIGHT: u64 = 24;

// The least width of a band with an outline, of that of an overrun, and of a round that is marked.
const LEAST_WITH_OUTLINE: u64 = 4;

const LEAST_OF_OVERRUN: u64 = 2;

const LEAST_OF_ROUND: u64 = 4;

/// Draws the bands of modes and states, from `y` on.
///
/// # Errors
/// Out of memory.
pub fn draw_bands(
    alloc: Global,
    sheet: &mut Sheet,
    legend: &mut Legend,
    scale: Scale,
    timeline: &Timeline,
    y: u64,
) -> Result<(), AllocError> {
    let x = scale.left().saturating_sub(12);
    sheet.words("name", x, y.saturating_add(17), "mode")?;
    let modes = modes_of(alloc, timeline.bands.as_slice())?;
    let mut rest = timeline.bands.as_slice();
    let mut free = 0;
    while let Some((band, others)) = rest.split_first() {
        let until = match others.first() {
            Some(next) => next.from,
            None => scale.window().end(),
        };
        if let Some(stretch) = scale.stretch(band.from, until) {
            let stretch = widened(&band.doing, stretch, free);
            draw_band(alloc, sheet, modes.as_slice(), &band.doing, stretch, y)?;
            free = stretch.right;
        }
        rest = others;
    }
    draw_rounds(sheet, legend, scale, timeline.rounds.as_slice(), y)
}

// What a band takes of its stretch, from `free` on. That of an overrun is wide enough to be seen.
fn widened(doing: &Doing, stretch: Stretch, free: u64) -> Stretch {
    let left = stretch.left.max(free);
    let right = match doing {
        Doing::StoppedOverrun(_) => stretch.right.max(left.saturating_add(LEAST_OF_OVERRUN)),
        _ => stretch.right.max(left),
    };
    Stretch { left, right }
}

// Draws one band, with its words if they fit. A band without width isn't drawn.
fn draw_band(
    alloc: Global,
    sheet: &mut Sheet,
    modes: &[Name],
    doing: &Doing,
    stretch: Stretch,
    y: u64,
) -> Result<(), AllocError> {
    let width = stretch.width();
    if width == 0 {
        return Ok(());
    }
    let words = words_of(alloc, doing)?;
    let class = class_of(alloc, modes, doing)?;
    let area = Area {
        x: stretch.left,
        y,
        width,
        height: HEIGHT,
    };
    if width < LEAST_WITH_OUTLINE {
        return sheet.slice(class.as_str(), area, words.as_str());
    }
    sheet.area(class.as_str(), area, words.as_str())?;
    if width_of(words.as_str()).saturating_add(14) <= width {
        let x = stretch.left.saturating_add(8);
        sheet.words("value", x, y.saturating_add(16), words.as_str())?;
    }
    Ok(())
}

// Draws the beginning of each round, below the band, if it isn't too near to the one before.
fn draw_rounds(
    sheet: &mut Sheet,
    legend: &mut Legend,
    scale: Scale,
    rounds: &[Place],
    y: u64,
) -> Result<(), AllocError> {
    let mut before = None;
    for round in rounds {
        if scale.window().has(*round) {
            let x = scale.x(*round);
            if is_apart(before, x) {
                sheet.upright("round", x, y.saturating_add(19), y.saturating_add(24))?;
                legend.has_rounds = true;
            }
            before = Some(x);
        }
    }
    Ok(())
}

// Whether a round is apart from the one before, if there is one.
fn is_apart(before: Option<u64>, x: u64) -> bool {
    match before {
        Some(before) => x.saturating_sub(before) >= LEAST_OF_ROUND,
        None => true,
    }
}

// What a band says.
fn words_of(alloc: Global, doing: &Doing) -> Result<String, AllocError> {
    match doing {
        Doing::Empty => String::from_str(alloc, "empty"),
        Doing::Loaded(mode) => format!(in alloc; "loaded {}", mode.as_str()),
        Doing::Running(mode) => String::from_str(alloc, mode.as_str()),
        Doing::StoppedAsked => String::from_str(alloc, "stopped"),
        Doing::StoppedOverrun(task) => format!(in alloc; "overrun {}", task.as_str()),
    }
}

// The look of a band. Each mode has a colour; the ninth has that of the first.
fn class_of(alloc: Global, modes: &[Name], doing: &Doing) -> Result<String, AllocError> {
    match doing {
        Doing::Empty | Doing::Loaded(_) => String::from_str(alloc, "idle"),
        Doing::Running(mode) => {
            let place = modes.iter().position(|it| *it == *mode).unwrap_or(0);
            format!(in alloc; "m{}", place % 8)
        }
        Doing::StoppedAsked => String::from_str(alloc, "stopped"),
        Doing::StoppedOverrun(_) => String::from_str(alloc, "late"),
    }
}

// The modes in which the tenant runs, in the order in which they first appear.
fn modes_of(alloc: Global, bands: &[Band]) -> Result<Vec<Name>, AllocError> {
    let mut modes: Vec<Name> = Vec::new(alloc);
    for band in bands {
        if let Doing::Running(mode) = &band.doing {
            if !modes.as_slice().contains(mode) {
                modes.push(mode.copy())?;
            }
        }
    }
    Ok(modes)
}
