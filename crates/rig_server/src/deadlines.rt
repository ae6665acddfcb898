//! Deadlines: the end of a time that may have no bound.

use std::time::{Clock, Duration, Instant};

/// A deadline has come.
#[derive(Clone, Copy, Debug, PartialEq, Eq)]
pub(crate) struct Over;

/// The end of a time. It never comes if the time has no bound, and has come at once if the clock fails.
#[derive(Drop)]
pub(crate) struct Deadline {
    start: Option<Instant>,
    most: Option<Duration>,
}

impl Deadline {
    /// The deadline this long from now; without a bound, one that never comes.
    pub(crate) fn from_now<R: Clock>(rt: &R, most: Option<Duration>) -> Deadline {
        Deadline {
            start: Instant::now(rt).ok(),
            most,
        }
    }

    /// The time that is left: more than none, or `None` if the deadline never comes.
    ///
    /// # Errors
    /// The deadline has come.
    pub(crate) fn left<R: Clock>(&self, rt: &R) -> Result<Option<Duration>, Over> {
        let Some(most) = self.most else {
            return Ok(None);
        };
        let Some(start) = &self.start else {
            return Err(Over);
        };
        let Ok(time) = start.elapsed(rt) else {
            return Err(Over);
        };
        match most.checked_sub(time) {
            Some(left) if left > Duration::ZERO => Ok(Some(left)),
            _ => Err(Over),
        }
    }

    /// Whether it has come.
    pub(crate) fn has_come<R: Clock>(&self, rt: &R) -> bool {
        self.left(rt).is_err()
    }
}
