//! The timetables of modes.

ghost use Rattle.std.specs.Prelude.{IfOk};
ghost use Rattle.giotto_rules.specs.text.ProgramTrees.{mode_of};
ghost use Rattle.giotto_check.specs.cited.Facts.{ModeFits};
ghost use Rattle.giotto_check.specs.cited.Timetables.{AreEach, AreTaskSlots, IsTimetable};

use crate::numbering::numbered::Numbered;
use crate::timetables::{TaskSlots, Timetable};
use giotto_rules::text::programs::Mode;
use std::alloc::AllocError;

impl Numbered<'_> {
    /// The timetables of all modes, in text order. `tasks` has the slots of the tasks.
    pub(crate) fn modes(&self, tasks: &[TaskSlots]) -> Result<Vec<Timetable>, AllocError>
        requires { AreEach (AreTaskSlots self.now) self.now.tasks tasks.now }
        ensures { IfOk result (λ tables. AreEach (IsTimetable self.now) self.now.modes tables.items) }
    {
        let mut tables = Vec::new(self.alloc);
        for mode in self.program.modes() {
            tables.push(self.timetable(tasks, mode)?)?;
        }
        Ok(tables)
    }

    fn timetable(&self, tasks: &[TaskSlots], mode: &Mode) -> Result<Timetable, AllocError>
        requires tasks { AreEach (AreTaskSlots self.now) self.now.tasks tasks.now }
        requires mode { ModeFits self.now (mode_of mode.now) }
        ensures { IfOk result (λ table. IsTimetable self.now (mode_of mode.now) table) }
    {
        Ok(Timetable {
            updates: self.updates(mode)?,
            exits: self.exits(mode)?,
            invocations: self.invocations(tasks, mode)?,
        })
    }
}
