//! The values that a program begins with.

ghost use Rattle.std.specs.Prelude.{◌≡◌, ◌+◌, ◌≤◌, length, map, None, IfOk};
ghost use Rattle.std.specs.Arc.{arc_value};
ghost use Rattle.std.specs.Option.{option_map};
ghost use Rattle.giotto_check.specs.cited.Slots.{slots_of, with_range};
ghost use Rattle.giotto_check.specs.Slots.{valuation_of};
ghost use Rattle.rig_model.specs.text.ProgramTrees.{task_of};
ghost use Rattle.rig_model.specs.Ports.{initial_of_task, initial_ports};

use giotto_check::Checked;
use giotto_tasks::bodies::Body;
use rig_model::text::programs::Task;
use std::alloc::{AllocError, Global};
use std::sync::Arc;

/// Gives each port its initial value. Takes no memory.
pub fn reset_ports(checked: &Checked, values: &mut [i64])
    requires { length values.old ≡ slots_of checked.now }
    ensures { valuation_of checked.now values.new ≡ initial_ports checked.now }
{
    let program = checked.program();
    let mut slot = 0;
    for sensor in program.sensors() {
        values[slot] = sensor.initial;
        slot += 1;
    }
    for actuator in program.actuators() {
        values[slot] = actuator.initial;
        slot += 1;
    }
    for output in program.outputs() {
        values[slot] = output.initial;
        slot += 1;
    }
    for task in program.tasks() {
        slot = reset_own(task, slot, values);
    }
}

/// The initial value of each port, by its slot.
///
/// # Errors
/// Out of memory.
pub fn initial_values(alloc: Global, checked: &Checked) -> Result<Vec<i64>, AllocError>
    ensures long { IfOk result (λ values. length values.items ≡ slots_of checked.now) }
    ensures ports { IfOk result (λ values. valuation_of checked.now values.items ≡ initial_ports checked.now) }
{
    let mut values = vec![in alloc; 0; checked.slots()]?;
    reset_ports(checked, values.as_mut_slice());
    Ok(values)
}

// Gives a task's inputs and states their initial values, from slot `first` on. Returns the slot after them.
fn reset_own(task: &Task, first: usize, values: &mut [i64]) -> usize
    requires { first + length (initial_of_task (task_of task.now)) ≤ length values.old }
    ensures end { result ≡ first + length (initial_of_task (task_of task.now)) }
    ensures values { values.new ≡ with_range values.old first (map (λ v. v.1) (initial_of_task (task_of task.now))) }
{
    let body: &Body = &task.body;
    let states = first + body.inputs.as_slice().len();
    let end = states + task.states.as_slice().len();
    values[first..states].fill(0);
    values[states..end].copy_from_slice(task.states.as_slice());
    end
}

/// A place for a share of each task's body, all of them empty.
///
/// # Errors
/// Out of memory.
pub fn no_shares(
    alloc: Global,
    tasks: &[Task],
) -> Result<Vec<Option<Arc<Body, Global>>>, AllocError>
    ensures { IfOk result (λ shares. map (option_map arc_value) shares.items ≡ map (λ t. None) tasks.now) }
{
    let mut shares = Vec::new(alloc);
    for _task in tasks {
        shares.push(None)?;
    }
    Ok(shares)
}
