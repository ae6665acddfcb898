//! The jobs of a task that are too narrow for boxes of their own: how dense they are, and where one was late.

ghost use Rattle.std.specs.Prelude.{◌≡◌, ◌+◌, ◌*◌, ◌≤◌, ◌<◌, ◌^◌};
ghost use Rattle.tenant_timelines.specs.inner.Jobs.{quarters};

use crate::jobs::JobBar;
use crate::places::Place;
use crate::scales::{Scale, part};
use crate::sheets::Sheet;
use std::alloc::{AllocError, Global};

// The height of the band, which is lower than a box.
const HEIGHT: u64 = 12;

/// The jobs of a task that have no boxes of their own.
#[derive(Drop)]
pub(crate) struct Density {
    scale: Scale,
    // How long jobs last in each column of pixels, in parts of a pixel.
    columns: Vec<u64>,
    // Where jobs were late.
    late: Vec<u64>,
    jobs: u64,
}

impl Density {
    /// The density of no jobs.
    ///
    /// # Errors
    /// Out of memory.
    pub(crate) fn new(alloc: Global, scale: Scale) -> Result<Density, AllocError> {
        let mut columns = Vec::new(alloc);
        for _ in 0..scale.width() {
            columns.push(0)?;
        }
        Ok(Density {
            scale,
            columns,
            late: Vec::new(alloc),
            jobs: 0,
        })
    }

    /// Whether there are no jobs.
    pub(crate) fn is_empty(&self) -> bool {
        self.jobs == 0
    }

    /// Adds a job.
    ///
    /// # Errors
    /// Out of memory.
    pub(crate) fn add(&mut self, job: &JobBar) -> Result<(), AllocError> {
        self.jobs = self.jobs.saturating_add(1);
        self.add_parts(Place::of_instant(job.tick), job.until());
        if job.is_late() && self.scale.window().has(job.until()) {
            self.late.push(self.scale.x(job.until()))?;
        }
        Ok(())
    }

    // Adds what lasts from one place to another to each column.
    fn add_parts(&mut self, from: Place, until: Place) {
        let whole = self.scale.span();
        let from = self.scale.parts_before(from);
        let until = self.scale.parts_before(until);
        for column in part(from, whole)..part(until, whole).saturating_add(1) {
            let begin = column.saturating_mul(whole);
            let end = begin.saturating_add(whole);
            let lasting = until.min(end).saturating_sub(from.max(begin));
            self.add_to(column, lasting);
        }
    }

    // Adds parts to a column.
    fn add_to(&mut self, column: u64, parts: u64) {
        let Ok(column) = usize::try_from(column) else {
            return;
        };
        if let Some(sum) = self.columns.as_mut_slice().get_mut(column) {
            *sum = sum.saturating_add(parts);
        }
    }

    /// Draws the jobs: a band that is the darker the longer jobs last in a column, and on it the jobs that were late.
    ///
    /// # Errors
    /// Out of memory.
    pub(crate) fn draw(
        &self,
        alloc: Global,
        sheet: &mut Sheet,
        task: &str,
        y: u64,
    ) -> Result<(), AllocError> {
        let title = self.title(alloc, task)?;
        let top = y.saturating_add(9);
        for (quarter, class) in [
            (1, "dense d1"),
            (2, "dense d2"),
            (3, "dense d3"),
            (4, "dense"),
        ] {
            let commands = self.columns_with(alloc, quarter, top)?;
            sheet.shape(class, commands.as_str(), title.as_str())?;
        }
        let mut late = String::new(alloc);
        let mut drawn = 0;
        for x in &self.late {
            if *x != drawn {
                write!(late, "M{x} {}v22", y.saturating_add(4))?;
                drawn = *x;
            }
        }
        sheet.shape("missed", late.as_str(), "late")
    }

    // What is known of the jobs.
    fn title(&self, alloc: Global, task: &str) -> Result<String, AllocError> {
        let jobs = self.jobs;
        let late = self.late.len();
        if late == 0 {
            format!(in alloc; "{task}: {jobs} jobs without boxes")
        } else {
            format!(in alloc; "{task}: {jobs} jobs without boxes, {late} late")
        }
    }

    // The commands of a path that draws the columns in which jobs last for this many quarters.
    fn columns_with(&self, alloc: Global, quarter: u64, top: u64) -> Result<String, AllocError> {
        let mut commands = String::new(alloc);
        let whole = self.scale.span();
        let mut begin = None;
        let mut x = self.scale.left();
        for lasting in &self.columns {
            if quarters_of(*lasting, whole) != quarter {
                add_box(&mut commands, begin.take(), x, top)?;
            } else if begin.is_none() {
                begin = Some(x);
            }
            x = x.saturating_add(1);
        }
        add_box(&mut commands, begin, x, top)?;
        Ok(commands)
    }
}

// How many quarters of a column jobs last, rounded up.
fn quarters_of(lasting: u64, whole: u64) -> u64
    ensures { 0 < whole → 4 * lasting + whole ≤ 2 ^ 64 → result ≡ quarters lasting whole }
{
    let up = lasting
        .saturating_mul(4)
        .saturating_add(whole.saturating_sub(1));
    part(up, whole).min(4)
}

// Adds a box from `begin` to `end`, if it has begun.
fn add_box(
    commands: &mut String,
    begin: Option<u64>,
    end: u64,
    top: u64,
) -> Result<(), AllocError> {
    let Some(begin) = begin else {
        return Ok(());
    };
    let width = end.saturating_sub(begin);
    write!(commands, "M{begin} {top}h{width}v{HEIGHT}h-{width}z")
}
