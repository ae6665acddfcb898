//! The values of a sensor, an output or an actuator over a run.

ghost use Rattle.std.specs.Prelude.{◌≡◌};
ghost use Rattle.tenant_timelines.specs.inner.Axes.{with_value};

use crate::places::Place;
use crate::scales::part;
use crate::windows::{Span, Window};
use giotto_tasks::names::Name;
use std::alloc::{AllocError, Global};

/// The kind of a port.
#[derive(Clone, Copy, Debug, PartialEq, Eq)]
pub enum Kind {
    Sensor,
    Output,
    Actuator,
}

/// A port with its values.
#[derive(Drop)]
pub struct PortLane {
    pub kind: Kind,
    pub name: Name,
    pub steps: Vec<Step>,
}

/// The value of a port from a place on; `None` if the tenant's program has no such port.
#[derive(Clone, Copy, Debug, PartialEq, Eq)]
pub struct Step {
    pub from: Place,
    pub value: Option<i64>,
}

/// A value, and how long it is drawn.
#[derive(Clone, Copy)]
pub(crate) struct Held {
    pub value: i64,
    pub span: Span,
}

impl PortLane {
    /// A port without a value.
    pub fn new(alloc: Global, kind: Kind, name: &Name) -> PortLane {
        PortLane {
            kind,
            name: name.copy(),
            steps: Vec::new(alloc),
        }
    }

    /// Notes the value at a place, if it changed. Of several values at one place, the last counts.
    ///
    /// # Errors
    /// Out of memory.
    pub fn note(&mut self, place: Place, value: Option<i64>) -> Result<(), AllocError> {
        if value == self.last() {
            return Ok(());
        }
        match self.steps.as_mut_slice().last_mut() {
            Some(step) if step.from == place => step.value = value,
            _ => self.steps.push(Step { from: place, value })?,
        }
        Ok(())
    }

    // The last value.
    fn last(&self) -> Option<i64> {
        self.steps.as_slice().last()?.value
    }

    /// The values that are drawn, in the order of their places.
    ///
    /// # Errors
    /// Out of memory.
    pub(crate) fn drawn(&self, alloc: Global, window: Window) -> Result<Vec<Held>, AllocError> {
        let mut drawn = Vec::new(alloc);
        let mut rest = self.steps.as_slice();
        while let Some((step, others)) = rest.split_first() {
            let until = match others.first() {
                Some(next) => next.from,
                None => window.end(),
            };
            if let Some(value) = step.value
                && let Some(span) = window.part(step.from, until)
            {
                drawn.push(Held { value, span })?;
            }
            rest = others;
        }
        Ok(drawn)
    }
}

/// The least and the greatest of some values.
#[derive(Clone, Copy, Debug, PartialEq, Eq)]
pub(crate) struct Range {
    pub least: i64,
    pub greatest: i64,
}

impl Range {
    /// The range of the axis of these values: of those after an instant, or of all if there are none after an instant.
    pub(crate) fn of_axis(drawn: &[Held]) -> Option<Range> {
        let mut all = None;
        let mut after_instants = None;
        for held in drawn {
            all = Some(Range::with(all, held.value));
            if held.span.has_instant() {
                after_instants = Some(Range::with(after_instants, held.value));
            }
        }
        match after_instants {
            Some(range) => Some(range),
            None => all,
        }
    }

    // The least range that has another and a value.
    fn with(range: Option<Range>, value: i64) -> Range
        ensures { result ≡ with_value range value }
    {
        match range {
            Some(Range { least, greatest }) => Range {
                least: least.min(value),
                greatest: greatest.max(value),
            },
            None => Range {
                least: value,
                greatest: value,
            },
        }
    }

    /// Whether it has a value.
    pub(crate) fn has(self, value: i64) -> bool {
        self.least <= value && value <= self.greatest
    }

    /// `0..40`, or `7` if all values are 7.
    ///
    /// # Errors
    /// Out of memory.
    pub(crate) fn text(self, alloc: Global) -> Result<String, AllocError> {
        let Range { least, greatest } = self;
        if least == greatest {
            format!(in alloc; "{least}")
        } else {
            format!(in alloc; "{least}..{greatest}")
        }
    }

    /// The height of a value. The least value is at 0, and the greatest is at `highest`; if they are equal, the value is in the middle.
    pub(crate) fn height(self, value: i64, highest: u64) -> u64 {
        let range = self.greatest.abs_diff(self.least);
        let above = value.abs_diff(self.least);
        if range == 0 {
            return highest / 2;
        }
        // The shift keeps the product from being too large.
        if range > u64::from(u32::MAX) {
            part((above >> 32).saturating_mul(highest), range >> 32)
        } else {
            part(above.saturating_mul(highest), range)
        }
    }
}
