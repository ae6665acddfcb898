//! The legend: what figures of a picture mean that have no word next to them.

use crate::mark_rows::draw_figure;
use crate::marks::Mark;
use crate::scales::{Scale, width_of};
use crate::sheets::{Area, Sheet};
use std::alloc::{AllocError, Global};

// The height of a legend with one row, and how far the second is below the first.
const HEIGHT: u64 = 40;

const SECOND_ROW: u64 = 20;

/// What has to be explained.
#[derive(Drop)]
pub struct Legend {
    /// Whether a job is drawn as a box.
    pub has_boxes: bool,
    /// Whether jobs are drawn as a density.
    pub has_dense: bool,
    /// Whether the beginning of a round is drawn.
    pub has_rounds: bool,
    /// The marks that have no space for their own word.
    pub marks: Vec<Mark>,
}

impl Legend {
    /// The legend of a picture in which nothing was drawn yet.
    pub fn new(alloc: Global) -> Legend {
        Legend {
            has_boxes: false,
            has_dense: false,
            has_rounds: false,
            marks: Vec::new(alloc),
        }
    }

    /// Notes a mark without a word.
    ///
    /// # Errors
    /// Out of memory.
    pub fn add_mark(&mut self, mark: Mark) -> Result<(), AllocError> {
        if !self.marks.as_slice().contains(&mark) {
            self.marks.push(mark)?;
        }
        Ok(())
    }

    /// Draws it below the lanes, which end at `bottom`.
    ///
    /// # Errors
    /// Out of memory.
    pub fn draw(&self, sheet: &mut Sheet, scale: Scale, bottom: u64) -> Result<(), AllocError> {
        sheet.level("rule", bottom, 16, scale.right())?;
        let y = bottom.saturating_add(23);
        let x = self.draw_boxes(sheet, y)?;
        let x = self.draw_dense(sheet, x, y)?;
        let x = self.draw_rounds(sheet, x, y)?;
        if self.has_second_row() {
            self.draw_marks(sheet, 20, y.saturating_add(SECOND_ROW))
        } else {
            self.draw_marks(sheet, x, y)
        }
    }

    /// How much space it needs below the lanes.
    pub fn height(&self) -> u64 {
        if self.has_second_row() {
            HEIGHT.saturating_add(SECOND_ROW)
        } else {
            HEIGHT
        }
    }

    // Whether the marks are below the rest.
    fn has_second_row(&self) -> bool {
        self.has_boxes && self.has_dense && !self.marks.is_empty()
    }

    // Draws what the boxes and points of tasks mean. Returns where that ends.
    fn draw_boxes(&self, sheet: &mut Sheet, y: u64) -> Result<u64, AllocError> {
        if !self.has_boxes {
            return Ok(20);
        }
        sheet.area("job", sample(16, y), "job")?;
        let words = "job: inputs at its release, outputs at its deadline";
        sheet.words("note", 53, y, words)?;
        sheet.point("worked", 404, y.saturating_sub(4), "worked")?;
        sheet.words("note", 413, y, "worked")?;
        Ok(475)
    }

    // Draws what a density of jobs means. Returns where that ends.
    fn draw_dense(&self, sheet: &mut Sheet, x: u64, y: u64) -> Result<u64, AllocError> {
        if !self.has_dense {
            return Ok(x);
        }
        let area = Area {
            height: 12,
            ..sample(x, y)
        };
        sheet.slice("dense", area, "jobs")?;
        let words = x.saturating_add(37);
        if self.has_boxes {
            sheet.words("note", words, y, "many jobs")?;
            return Ok(x.saturating_add(115));
        }
        sheet.words(
            "note",
            words,
            y,
            "many jobs: the darker, the longer they last; red: late",
        )?;
        Ok(x.saturating_add(400))
    }

    // Draws what the short lines below the modes mean. Returns where that ends.
    fn draw_rounds(&self, sheet: &mut Sheet, x: u64, y: u64) -> Result<u64, AllocError> {
        if !self.has_rounds {
            return Ok(x);
        }
        sheet.upright("round", x, y.saturating_sub(8), y)?;
        sheet.words("note", x.saturating_add(7), y, "round of the mode begins")?;
        Ok(x.saturating_add(185))
    }

    // Draws each kind of mark with its word, if a mark of this kind has no space for its own.
    fn draw_marks(&self, sheet: &mut Sheet, x: u64, y: u64) -> Result<(), AllocError> {
        let mut x = x;
        for mark in Mark::ALL {
            if self.marks.as_slice().contains(&mark) {
                draw_figure(sheet, mark, x, y.saturating_sub(4))?;
                sheet.words("note", x.saturating_add(9), y, mark.as_str())?;
                x = x.saturating_add(width_of(mark.as_str())).saturating_add(24);
            }
        }
        Ok(())
    }
}

// A box of the legend.
fn sample(x: u64, y: u64) -> Area {
    Area {
        x,
        y: y.saturating_sub(11),
        width: 30,
        height: 14,
    }
}
