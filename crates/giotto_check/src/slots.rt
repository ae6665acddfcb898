//! The slots of ports.

ghost use Rattle.std.specs.Prelude.{◌≡◌, ◌+◌, ◌<◌, ◌^◌, Some, None, length};
ghost use Rattle.std.specs.List.{position_from};
ghost use Rattle.std.specs.Option.{option_map};
ghost use Rattle.giotto_tasks.specs.Names.{same_name};
ghost use Rattle.giotto_rules.specs.text.ProgramTrees.{task_of};
ghost use Rattle.giotto_rules.specs.Declarations.{driver_ports};
ghost use Rattle.giotto_rules.specs.Ports.{is_port, ports_of_task, slot_of};
ghost use Rattle.giotto_check.specs.cited.Slots.{slots_of};

use giotto_rules::text::programs::{Program, Task};
use giotto_tasks::bodies::Body;
use giotto_tasks::names::Name;

/// The slot of a port of `task`, or of a sensor, an actuator or an output if no task is given. Goes through the
/// program's names once.
pub(crate) fn slot(program: &Program, task: Option<&str>, name: &str) -> Option<usize>
    requires { slots_of program.now < 2 ^ 64 }
    ensures { result ≡ slot_of program.now (option_map (λ t. t.now) task.entry) name.now }
{
    match task {
        None => shared_slot(program, name),
        Some(task) => own_slot(program, task, name),
    }
}

fn shared_slot(program: &Program, name: &str) -> Option<usize>
    requires { slots_of program.now < 2 ^ 64 }
    ensures { result ≡ slot_of program.now None name.now }
{
    let mut slot = 0;
    for sensor in program.sensors() {
        if sensor.name.as_str() == name {
            return Some(slot);
        }
        slot += 1;
    }
    for actuator in program.actuators() {
        if actuator.name.as_str() == name {
            return Some(slot);
        }
        slot += 1;
    }
    for output in program.outputs() {
        if output.name.as_str() == name {
            return Some(slot);
        }
        slot += 1;
    }
    None
}

fn own_slot(program: &Program, task: &str, name: &str) -> Option<usize>
    requires { slots_of program.now < 2 ^ 64 }
    ensures { result ≡ slot_of program.now (Some task.now) name.now }
{
    let mut slot = shared_slots(program);
    for declared in program.tasks() {
        match own_place(declared, task, name) {
            Some(place) => return Some(slot + place),
            None => slot += own_slots(declared),
        }
    }
    None
}

// The place of a port among the ports of a declared task, if that task has this name.
fn own_place(declared: &Task, task: &str, name: &str) -> Option<usize>
    ensures { result ≡ position_from (is_port (Some task.now) name.now) 0 (ports_of_task (task_of declared.now)) }
{
    if declared.name.as_str() != task {
        return None;
    }
    let body: &Body = &declared.body;
    let inputs = body.inputs.as_slice();
    match place(inputs, name) {
        Some(place) => Some(place),
        None => match place(body.states.as_slice(), name) {
            Some(place) => Some(inputs.len() + place),
            None => None,
        },
    }
}

// The number of a task's inputs and states.
fn own_slots(declared: &Task) -> usize
    ensures { result ≡ length (ports_of_task (task_of declared.now)) }
{
    let body: &Body = &declared.body;
    body.inputs.as_slice().len() + body.states.as_slice().len()
}

// The number of sensors, actuators and outputs.
fn shared_slots(program: &Program) -> usize
    requires { slots_of program.now < 2 ^ 64 }
    ensures { result ≡ length (driver_ports program.now) }
{
    program.sensors().len() + program.actuators().len() + program.outputs().len()
}

/// The place of a name among others, counted from 0.
pub(crate) fn place(names: &[Name], name: &str) -> Option<usize>
    ensures { result ≡ position_from (λ n. same_name n name.now) 0 names.now }
{
    names.iter().position(|n| n.as_str() == name)
}
