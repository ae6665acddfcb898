//! The slots of tasks' ports.

ghost use Rattle.std.specs.Prelude.{◌≡◌, Some, None, IfOk, IsTrue, map};
ghost use Rattle.giotto_rules.specs.Declarations.{output_names};
ghost use Rattle.giotto_rules.specs.Names.{are_among};
ghost use Rattle.giotto_rules.specs.Ports.{slot_of};
ghost use Rattle.giotto_check.specs.cited.Slots.{slots_of};
ghost use Rattle.giotto_check.specs.cited.Timetables.{AreEach, AreTaskSlots};

use crate::numbering::numbered::Numbered;
use crate::timetables::TaskSlots;
use giotto_tasks::bodies::Body;
use giotto_tasks::names::Name;
use std::alloc::AllocError;

impl Numbered<'_> {
    /// The slots of all tasks, in text order, and the number of ports.
    pub(crate) fn tasks(&self) -> Result<(Vec<TaskSlots>, usize), AllocError>
        ensures tasks { IfOk result (λ r. AreEach (AreTaskSlots self.now) self.now.tasks r.0.items) }
        ensures slots { IfOk result (λ r. r.1 ≡ slots_of self.now) }
    {
        let mut tasks = Vec::new(self.alloc);
        let mut inputs = self.names.len();
        for task in self.program.tasks() {
            let body: &Body = &task.body;
            let outputs = self.outputs(body.outputs.as_slice())?;
            let states = inputs + body.inputs.as_slice().len();
            let next = states + body.states.as_slice().len();
            tasks.push(TaskSlots {
                inputs,
                states,
                outputs,
            })?;
            inputs = next;
        }
        Ok((tasks, inputs))
    }

    fn outputs(&self, names: &[Name]) -> Result<Vec<usize>, AllocError>
        requires { IsTrue (are_among (output_names self.now) names.now) }
        ensures { IfOk result (λ slots. map (slot_of self.now None) names.now ≡ map Some slots.items) }
    {
        let mut slots = Vec::new(self.alloc);
        for name in names {
            slots.push(self.slot(name))?;
        }
        Ok(slots)
    }
}
