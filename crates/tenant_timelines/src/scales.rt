//! Measures places and texts, in pixels of a picture that is 1000 pixels wide.

ghost use Rattle.std.specs.Prelude.{◌≡◌, ◌/◌, ◌<◌};

use crate::places::Place;
use crate::windows::Window;

/// The width of a picture.
pub const WIDTH: u64 = 1000;

// Where the plot ends.
const RIGHT: u64 = 984;

/// Where the places of a run are in the picture.
#[derive(Clone, Copy)]
pub struct Scale {
    // Where the plot begins.
    left: u64,
    window: Window,
}

/// A stretch of a picture, from left to right.
#[derive(Clone, Copy)]
pub struct Stretch {
    pub left: u64,
    pub right: u64,
}

impl Stretch {
    /// How many pixels there are from its left end to its right end.
    pub fn width(self) -> u64 {
        self.right.saturating_sub(self.left)
    }
}

impl Scale {
    /// The scale for a part of a run, to the right of names that are this wide.
    pub fn new(window: Window, names: u64) -> Scale {
        Scale {
            left: names.saturating_add(36).min(400),
            window,
        }
    }

    /// The part of the run that is drawn.
    pub fn window(self) -> Window {
        self.window
    }

    /// Where the plot begins.
    pub fn left(self) -> u64 {
        self.left
    }

    /// Where it ends.
    pub fn right(self) -> u64 {
        RIGHT
    }

    /// Where a place is in the picture. A place before the drawn part is at its begin, one after it at its end.
    pub fn x(self, place: Place) -> u64 {
        self.left
            .saturating_add(part(self.parts_before(place), self.span()))
    }

    /// How far a place is from the begin of the plot, in parts of a pixel. A pixel has `span` parts.
    pub fn parts_before(self, place: Place) -> u64 {
        let begin = self.window.begin().half_ticks();
        let half_ticks = place.half_ticks().saturating_sub(begin).min(self.span());
        half_ticks.saturating_mul(self.width())
    }

    /// The number of half ticks in the plot, at least 1.
    pub fn span(self) -> u64 {
        let begin = self.window.begin().half_ticks();
        self.window.end().half_ticks().saturating_sub(begin).max(1)
    }

    /// The number of pixels from the begin of the plot to its end.
    pub fn width(self) -> u64 {
        RIGHT.saturating_sub(self.left)
    }

    /// Where what lasts from one place to another is in the picture, if it is drawn.
    pub fn stretch(self, from: Place, until: Place) -> Option<Stretch> {
        let span = self.window.part(from, until)?;
        Some(Stretch {
            left: self.x(span.from),
            right: self.x(span.until),
        })
    }

    /// The width of this many ticks.
    pub fn width_of_ticks(self, ticks: u64) -> u64 {
        part(
            ticks.saturating_mul(2).saturating_mul(self.width()),
            self.span(),
        )
    }
}

/// The width of a text, in the font of names and values.
pub fn width_of(text: &str) -> u64 {
    let letters = u64::try_from(text.len()).unwrap_or(u64::MAX);
    part(letters.saturating_mul(73), 10)
}

/// The whole part of a quotient; 0 if the divisor is 0.
pub fn part(number: u64, divisor: u64) -> u64
    ensures { 0 < divisor → result ≡ number / divisor }
{
    match number.checked_div(divisor) {
        Some(part) => part,
        None => 0,
    }
}
