//! The axis of ticks, and the grid below it.

use crate::places::Place;
use crate::scales::{Scale, width_of};
use crate::sheets::Sheet;
use std::alloc::{AllocError, Global};

// The possible numbers of ticks from one number to the next. The first that leaves space for the numbers is taken.
const STEPS: [u64; 19] = [
    1, 2, 5, 10, 20, 50, 100, 200, 500, 1000, 2000, 5000, 10000, 20000, 50000, 100000, 200000,
    500000, 1000000,
];

// The least width of a tick that has a line of its own.
const LEAST_OF_TICK: u64 = 6;

/// Draws the numbers of the ticks at the height `y`.
///
/// # Errors
/// Out of memory.
pub fn draw_axis(alloc: Global, sheet: &mut Sheet, scale: Scale, y: u64) -> Result<(), AllocError> {
    sheet.words("note name", scale.left().saturating_sub(12), y, "tick")?;
    let step = step_of(alloc, scale)?;
    let window = scale.window();
    for number in window.first..window.next {
        if is_multiple(number, step) {
            let text = format!(in alloc; "{number}")?;
            let x = scale.x(Place::of_instant(number));
            sheet.words("tick", x, y, text.as_str())?;
        }
    }
    Ok(())
}

/// Draws a line from `top` to `bottom` below each number, and lighter lines below the other ticks if there is space.
///
/// # Errors
/// Out of memory.
pub fn draw_grid(
    alloc: Global,
    sheet: &mut Sheet,
    scale: Scale,
    top: u64,
    bottom: u64,
) -> Result<(), AllocError> {
    let step = step_of(alloc, scale)?;
    let is_wide = scale.width_of_ticks(1) >= LEAST_OF_TICK;
    let window = scale.window();
    for number in window.first..window.next {
        let x = scale.x(Place::of_instant(number));
        if is_multiple(number, step) {
            sheet.upright("grid", x, top, bottom)?;
        } else if is_wide {
            sheet.upright("minor", x, top, bottom)?;
        }
    }
    Ok(())
}

// How many ticks there are from one number to the next.
fn step_of(alloc: Global, scale: Scale) -> Result<u64, AllocError> {
    let last = scale.window().next;
    let last = format!(in alloc; "{last}")?;
    let room = width_of(last.as_str()).saturating_add(14);
    for step in STEPS {
        if scale.width_of_ticks(step) >= room {
            return Ok(step);
        }
    }
    Ok(u64::MAX)
}

// Whether the number is a multiple of the step.
fn is_multiple(number: u64, step: u64) -> bool {
    number.checked_rem(step) == Some(0)
}
