//! Lines of steps: the commands of a path that shows values over the ticks.

use std::alloc::{AllocError, Global};

/// A line of steps. Each column of pixels has at most one stroke from top to bottom, however often the value changes there.
#[derive(Drop)]
pub(crate) struct StepLine {
    commands: String,
    // `None` before the line begins, and where it is interrupted.
    column: Option<Column>,
}

// The last column of pixels in which the value changed.
#[derive(Clone, Copy)]
struct Column {
    x: u64,
    // The level with which the line enters the column, and that with which it leaves it.
    first: u64,
    last: u64,
    // The highest and the lowest level of the column. A level is counted from the top.
    top: u64,
    bottom: u64,
}

impl StepLine {
    /// A line without steps.
    pub(crate) fn new(alloc: Global) -> StepLine {
        StepLine {
            commands: String::new(alloc),
            column: None,
        }
    }

    /// Goes to a level at `x`. The line begins there if it is new or was interrupted.
    ///
    /// # Errors
    /// Out of memory.
    pub(crate) fn go(&mut self, x: u64, level: u64) -> Result<(), AllocError> {
        let Some(column) = self.column else {
            write!(self.commands, "M{x} {level}")?;
            self.column = Some(Column::new(x, level, level));
            return Ok(());
        };
        if column.x == x {
            self.column = Some(column.with(level));
            return Ok(());
        }
        self.finish(column)?;
        write!(self.commands, "H{x}")?;
        self.column = Some(Column::new(x, column.last, level));
        Ok(())
    }

    /// Ends the line at `x`, or interrupts it there.
    ///
    /// # Errors
    /// Out of memory.
    pub(crate) fn end(&mut self, x: u64) -> Result<(), AllocError> {
        let Some(column) = self.column.take() else {
            return Ok(());
        };
        self.finish(column)?;
        write!(self.commands, "H{x}")
    }

    // Draws the stroke of a column: from the level with which the line enters it through all levels to the one with which it leaves it.
    fn finish(&mut self, column: Column) -> Result<(), AllocError> {
        let Column {
            x: _,
            first,
            last,
            top,
            bottom,
        } = column;
        if top < first.min(last) {
            write!(self.commands, "V{top}")?;
        }
        if first.max(last) < bottom {
            write!(self.commands, "V{bottom}")?;
        }
        if top < bottom {
            write!(self.commands, "V{last}")?;
        }
        Ok(())
    }

    /// The commands of its path.
    pub(crate) fn as_str(&self) -> &str {
        self.commands.as_str()
    }
}

impl Column {
    // The column of a change from one level to another.
    fn new(x: u64, first: u64, last: u64) -> Column {
        Column {
            x,
            first,
            last,
            top: first.min(last),
            bottom: first.max(last),
        }
    }

    // The column after a further change.
    fn with(self, level: u64) -> Column {
        Column {
            last: level,
            top: self.top.min(level),
            bottom: self.bottom.max(level),
            ..self
        }
    }
}
