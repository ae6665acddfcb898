//! The jobs of a task: each from its release to its end.

ghost use Rattle.std.specs.Prelude.{◌↔◌, ◌<◌, IsTrue};
ghost use Rattle.tenant_timelines.specs.inner.Jobs.{least_width};

use crate::places::Place;
use giotto_tasks::names::Name;
use std::alloc::{AllocError, Global};

/// A task, and its jobs in the order of their release.
#[derive(Drop)]
pub struct TaskLane {
    pub name: Name,
    /// The jobs that have ended.
    pub jobs: Vec<JobBar>,
    /// The job that hasn't ended yet.
    pub open: Option<JobBar>,
}

impl TaskLane {
    /// A task without jobs.
    pub fn new(alloc: Global, name: &Name) -> TaskLane {
        TaskLane {
            name: name.copy(),
            jobs: Vec::new(alloc),
            open: None,
        }
    }
}

/// A job: from its release to its end.
#[derive(Drop)]
pub struct JobBar {
    /// The number of the instant that released it.
    pub tick: u64,
    /// The number of the instant at which its task ends.
    pub deadline: u64,
    /// The inputs with their values at the release.
    pub inputs: PortTexts,
    /// The names of the task's outputs.
    pub outputs: Vec<Name>,
    /// Where the job was worked, if it was.
    pub worked: Option<Place>,
    pub end: Option<End>,
}

/// How a job ends, and where.
#[derive(Drop)]
pub struct End {
    pub place: Place,
    pub outcome: Outcome,
}

/// The outcome of a job.
#[derive(Drop)]
pub enum Outcome {
    /// Its task ends at its deadline. These are the outputs with their values after that instant.
    Written(PortTexts),
    /// It wasn't completed when its task was due.
    Missed,
    /// It is dropped when the tenant is stopped.
    Dropped,
}

/// Some ports with their values, as text.
#[derive(Drop)]
pub struct PortTexts {
    /// `i=5 j=7`
    pub named: String,
    /// `5 7`
    pub bare: String,
}

impl PortTexts {
    /// The texts of no ports.
    pub fn new(alloc: Global) -> PortTexts {
        PortTexts {
            named: String::new(alloc),
            bare: String::new(alloc),
        }
    }

    /// Adds a port, if it has a value.
    ///
    /// # Errors
    /// Out of memory.
    pub fn add(&mut self, name: &Name, value: Option<i64>) -> Result<(), AllocError> {
        let Some(value) = value else {
            return Ok(());
        };
        if !self.bare.is_empty() {
            self.named.push_str(" ")?;
            self.bare.push_str(" ")?;
        }
        let name = name.as_str();
        write!(self.named, "{name}={value}")?;
        write!(self.bare, "{value}")
    }
}

// The least width of a job that is drawn as a box.
const LEAST_WIDTH: u64 = 6;

/// Whether a job of this width, in pixels, has no box of its own.
pub(crate) fn is_narrow(width: u64) -> bool
    ensures { IsTrue result ↔ (width < least_width) }
{
    width < LEAST_WIDTH
}

impl JobBar {
    /// Where its task ends: at its end or, if it hasn't ended yet, at its deadline.
    pub(crate) fn until(&self) -> Place {
        match &self.end {
            Some(end) => end.place,
            None => Place::of_instant(self.deadline),
        }
    }

    /// Whether it was late.
    pub(crate) fn is_late(&self) -> bool {
        match &self.end {
            Some(end) => matches!(end.outcome, Outcome::Missed),
            None => false,
        }
    }

    /// The result of the job: its outputs with their values, `late`, `dropped`, or nothing yet.
    pub(crate) fn result(&self) -> &str {
        match &self.end {
            None => "",
            Some(end) => match &end.outcome {
                Outcome::Written(outputs) => outputs.named.as_str(),
                Outcome::Missed => "late",
                Outcome::Dropped => "dropped",
            },
        }
    }

    /// The result in its shortest form: the values alone, `late`, or nothing.
    pub(crate) fn bare_result(&self) -> &str {
        match &self.end {
            None => "",
            Some(end) => match &end.outcome {
                Outcome::Written(outputs) => outputs.bare.as_str(),
                Outcome::Missed => "late",
                Outcome::Dropped => "",
            },
        }
    }
}
