//! The numbers of a program's ports, tasks and modes, and its timetables over these numbers.

ghost use Rattle.std.specs.Prelude.{IfOk};
ghost use Rattle.giotto_check.specs.cited.Facts.{ProgramFits};
ghost use Rattle.giotto_check.specs.cited.Timetables.{IsNumbering};

mod exits;
mod invocations;
mod modes;
mod numbered;
mod tasks;
mod updates;

use crate::numbering::numbered::Numbered;
use crate::timetables::{TaskSlots, Timetable};
use giotto_rules::text::programs::Program;
use std::alloc::{AllocError, Global};

/// A program by number.
#[derive(Drop)]
pub(crate) struct Numbering {
    /// The number of ports.
    pub(crate) slots: usize,
    /// In text order.
    pub(crate) tasks: Vec<TaskSlots>,
    /// In text order.
    pub(crate) modes: Vec<Timetable>,
}

impl Numbering {
    /// The numbering of a well-formed program. Fails if an allocation fails.
    pub(crate) fn new(alloc: Global, program: &Program) -> Result<Numbering, AllocError>
        requires { ProgramFits program.now }
        ensures { IfOk result (λ n. IsNumbering program.now n) }
    {
        let numbered = Numbered::new(alloc, program)?;
        let (tasks, slots) = numbered.tasks()?;
        let modes = numbered.modes(&tasks)?;
        Ok(Numbering {
            slots,
            tasks,
            modes,
        })
    }
}
