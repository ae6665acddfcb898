//! Invocations by number.

ghost use Rattle.std.specs.Prelude.{◌≡◌, Some, IfOk, IsTrue, IsSome, map};
ghost use Rattle.std.specs.List.{list_all, position_from};
ghost use Rattle.giotto_tasks.specs.Names.{same_name};
ghost use Rattle.giotto_tasks.specs.Trees.{expression_of};
ghost use Rattle.giotto_rules.specs.text.Depth.{is_shallow};
ghost use Rattle.giotto_rules.specs.text.ProgramTrees.{mode_of, invocation_of};
ghost use Rattle.giotto_rules.specs.Declarations.{task_named};
ghost use Rattle.giotto_rules.specs.Reads.{names_in_arguments};
ghost use Rattle.giotto_check.specs.cited.Facts.{DriversMayRead, InvocationFits, ModeFits};
ghost use Rattle.giotto_check.specs.cited.Timetables.{AreArguments, AreEach, AreInvocations, AreTaskSlots, IsInvocation, place_of_task};

use crate::numbering::numbered::Numbered;
use crate::timetables::{SlotExpr, SlotInvocation, TaskSlots};
use giotto_rules::text::programs::{Invocation, Mode, Task};
use giotto_tasks::bodies::Expr;
use giotto_tasks::names::Name;
use std::alloc::AllocError;

impl Numbered<'_> {
    /// The invocations of a mode, in text order. `tasks` has the slots of the tasks.
    pub(crate) fn invocations(
        &self,
        tasks: &[TaskSlots],
        mode: &Mode,
    ) -> Result<Vec<SlotInvocation>, AllocError>
        requires tasks { AreEach (AreTaskSlots self.now) self.now.tasks tasks.now }
        requires mode { ModeFits self.now (mode_of mode.now) }
        ensures { IfOk result (λ entries. AreInvocations self.now (mode_of mode.now) entries.items) }
    {
        let mut entries = Vec::new(self.alloc);
        for invocation in mode.invocations.as_slice() {
            entries.push(self.invocation(tasks, mode, invocation)?)?;
        }
        Ok(entries)
    }

    fn invocation(
        &self,
        tasks: &[TaskSlots],
        mode: &Mode,
        invocation: &Invocation,
    ) -> Result<SlotInvocation, AllocError>
        requires tasks { AreEach (AreTaskSlots self.now) self.now.tasks tasks.now }
        requires mode { ModeFits self.now (mode_of mode.now) }
        requires invocation { InvocationFits self.now (mode_of mode.now) (invocation_of invocation.now) }
        ensures { IfOk result (λ entry. IsInvocation self.now (mode_of mode.now) (invocation_of invocation.now) entry) }
    {
        let task = self.task(&invocation.task);
        let inputs = tasks[task].inputs;
        Ok(SlotInvocation {
            interval: mode.period / invocation.frequency,
            guard: self.guard(&invocation.guard)?,
            task,
            inputs,
            arguments: self.arguments(invocation.arguments.as_slice())?,
        })
    }

    // The place of the task with this name. Goes through the tasks once.
    fn task(&self, name: &Name) -> usize
        requires { IsSome (task_named self.now name.now) }
        ensures { place_of_task self.now name.now ≡ Some result }
    {
        match task_place(self.program.tasks(), name) {
            Some(place) => place,
            None => unreachable!(),
        }
    }

    fn arguments(&self, arguments: &[Expr]) -> Result<Vec<SlotExpr>, AllocError>
        requires reads { DriversMayRead self.now (names_in_arguments (map expression_of arguments.now)) }
        requires shallow { IsTrue (list_all is_shallow (map expression_of arguments.now)) }
        ensures { IfOk result (λ codes. AreArguments self.now (map expression_of arguments.now) codes.items) }
    {
        let mut codes = Vec::new(self.alloc);
        for argument in arguments {
            codes.push(self.expression(argument)?)?;
        }
        Ok(codes)
    }
}

fn task_place(tasks: &[Task], name: &Name) -> Option<usize>
    ensures { result ≡ position_from (λ t. same_name t.name name.now) 0 tasks.now }
{
    tasks.iter().position(|task| task.name == *name)
}
