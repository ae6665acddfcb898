//! Rows of cells, each column as wide as it has to be.

use std::alloc::{AllocError, Global};

/// A table of text.
#[derive(Drop)]
pub struct Columns {
    rows: Vec<Vec<String>>,
}

impl Columns {
    /// Creates a table without rows.
    pub fn new(alloc: Global) -> Columns {
        Columns {
            rows: Vec::new(alloc),
        }
    }

    /// Adds a row below the others. No cell has an LF.
    ///
    /// # Errors
    /// Out of memory.
    pub fn add(&mut self, cells: Vec<String>) -> Result<(), AllocError> {
        self.rows.push(cells)?;
        Ok(())
    }

    /// Returns the rows as lines, with two blanks between columns and none at the end of a row.
    ///
    /// A column is as wide as its widest cell that isn't the last of its row.
    ///
    /// # Errors
    /// Out of memory.
    pub fn text(&self, alloc: Global) -> Result<String, AllocError> {
        let widths = self.widths(alloc)?;
        let mut text = String::new(alloc);
        for row in &self.rows {
            let line = line_of(alloc, row.as_slice(), widths.as_slice())?;
            text.push_str(line.as_str().trim_end())?;
            text.push('\n')?;
        }
        Ok(text)
    }

    // The width of each column, in characters.
    fn widths(&self, alloc: Global) -> Result<Vec<usize>, AllocError> {
        let mut widths = Vec::new(alloc);
        for row in &self.rows {
            widen(&mut widths, row.as_slice())?;
        }
        Ok(widths)
    }
}

// Widens the columns for the cells of a row, without its last.
fn widen(widths: &mut Vec<usize>, row: &[String]) -> Result<(), AllocError> {
    let Some((_last, cells)) = row.split_last() else {
        return Ok(());
    };
    for (column, cell) in cells.iter().enumerate() {
        let wanted = cell.as_str().chars().count();
        match widths.get_mut(column) {
            Some(width) => *width = wanted.max(*width),
            None => widths.push(wanted)?,
        }
    }
    Ok(())
}

// A row, with blanks after each cell up to the next column.
fn line_of(alloc: Global, row: &[String], widths: &[usize]) -> Result<String, AllocError> {
    let mut line = String::new(alloc);
    for (column, cell) in row.iter().enumerate() {
        let cell = cell.as_str();
        let width = widths.get(column).copied().unwrap_or(0);
        line.push_str(cell)?;
        for _blank in cell.chars().count()..width.saturating_add(2) {
            line.push(' ')?;
        }
    }
    Ok(line)
}
